// The program: from its words to its status.
ghost use Rattle.std.specs.Prelude.{◌≡◌, ◌≤◌, false, IfErr, IfOk, IsSomeAnd, OnErr, true};
ghost use Rattle.upon_tool.specs.Checked.{ChecksCall, MayCall};
ghost use Rattle.upon_tool_pages.specs.ManyPages.{limits_set};
ghost use Rattle.upon_tool_pages.specs.Sources.{IsUnread};
ghost use Rattle.upon_tool.specs.Calls.{may_be_input, limits_asked, BuildsCall, CallEnds, IsLayout, ListsCall, RefusesCall, RendersCall, RendersEachCall, RunsCall};
ghost use Rattle.upon_tool_io.specs.declared.arguments.Color.TheVariants.{Auto, Always, Never};
ghost use Rattle.upon_tool_io.specs.declared.arguments.Call.TheVariants.{Render as RenderAsked, Check as CheckAsked, Names as NamesAsked, Each as EachAsked, Build as BuildAsked};

use crate::fitting::{run_fit, run_shape};
use crate::work::{Templates, Work, carry_out};
use std::alloc::Global;
use std::env::{self, Env, VarError};
use std::io::{Read, Write};
use std::time::Clock;
use upon_calls::functions::standard;
use upon_engine::within::Limits;
use upon_tool_data::context::context;
use upon_tool_data::sources::STANDARD;
use upon_tool_data::words::{DataWords, check};
use upon_tool_io::arguments::{
    self, BuildCall, Call, CheckCall, Color, EachCall, NamesCall, RenderCall,
};
use upon_tool_io::sources::Sources;
use upon_tool_io::targets::Targets;
use upon_tool_many::build::Build;
use upon_tool_many::each::Each;
use upon_tool_messages::failure::{Failure, report};
use upon_tool_messages::judge::Declared;
use upon_tool_messages::terminal::Terminal;
use upon_tool_pages::rendering::{Page, is_limited};
use upon_tool_pages::sources::{files_in, text_of};

/// Does what the words ask for, of which the first is the program's name, and returns the status. Templates and
/// contexts come from files, and from `input` if their name is `-`. What goes to `err` has its control characters
/// spelled, and has colors if they are asked for: always, or if `err` goes to a terminal.
pub fn run<R: Sources + Env + Clock + AllocGlobal, T: Targets, I: Read, O: Write, E: Write>(
    rt: &R,
    targets: &mut T,
    words: &[String],
    input: &mut I,
    out: &mut O,
    err: &mut E,
    is_terminal: bool,
) -> u8
    ensures { result ≤ 2 }
{
    let alloc = rt.alloc();
    match arguments::read(alloc, words) {
        Ok(call) => {
            let mut err = Terminal::new(alloc, err, has_colors(rt, call.color(), is_terminal));
            let status = run_call(rt, targets, &call, input, out, &mut err, is_terminal);
            let _ = err.flush();
            status
        }
        Err(error) => show_words(alloc, &error, out, &mut Terminal::new(alloc, err, false)),
    }
}

/// Returns whether pictures have colors: as it is asked for, or else on a terminal, if `NO_COLOR` is not set.
pub fn has_colors<R: Env + AllocGlobal>(rt: &R, asked: Color, is_terminal: bool) -> bool
    ensures always { asked ≡ Always → result ≡ true }
    ensures never { asked ≡ Never → result ≡ false }
    ensures terminal { asked ≡ Auto → is_terminal ≡ false → result ≡ false }
{
    match asked {
        Color::Always => true,
        Color::Never => false,
        Color::Auto => is_terminal && !is_set(rt, "NO_COLOR"),
    }
}

// Whether a variable of the environment is there and not empty.
fn is_set<R: Env + AllocGlobal>(rt: &R, name: &str) -> bool {
    match env::var(rt, name) {
        Ok(text) => !text.is_empty(),
        Err(fault) => fault != VarError::NotPresent,
    }
}

/// Does what a call asks for, and returns the status, as [`run`] does, with what goes to `err` as it is.
pub fn run_call<R: Sources + Clock + AllocGlobal, T: Targets, I: Read, O: Write, E: Write>(
    rt: &R,
    targets: &mut T,
    call: &Call<'_>,
    input: &mut I,
    out: &mut O,
    err: &mut E,
    is_terminal: bool,
) -> u8
    ensures range { result ≤ 2 }
    // The work ends in one way of these, and that way has this status.
    ensures ends { CallEnds (R.world rt.now) call.now (I.remaining input.old) result
        (O.contents out.old) (O.contents out.new) (T.written targets.old) (T.written targets.new) }
{
    let done = work_of(rt, targets, call, input, out, err, is_terminal);
    match done {
        Ok(status) => status,
        Err(failure) => report(rt.alloc(), &failure, err),
    }
}

// Does what a call asks for, and answers the status.
fn work_of<'a, R: Sources + Clock + AllocGlobal, T: Targets, I: Read, O: Write, E: Write>(
    rt: &R,
    targets: &mut T,
    call: &Call<'a>,
    input: &mut I,
    out: &mut O,
    err: &mut E,
    is_terminal: bool,
) -> Result<u8, Failure<'a>>
    ensures range { IfOk result (λ status. status ≤ 2) }
    ensures ends { RunsCall (R.world rt.now) call.now (I.remaining input.old) result
        (O.contents out.old) (O.contents out.new) (T.written targets.old) (T.written targets.new) }
{
    match call {
        Call::Render(call) => run_render(rt, targets, call, input, out, err),
        Call::Check(call) => run_check(rt, targets, call, input, out, err),
        Call::Fit(call) => run_fit(rt, targets, call, input, out, err),
        Call::Shape(call) => run_shape(rt, call, input, out, err),
        Call::Names(call) => run_names(rt, targets, call, input, out, err),
        Call::Each(call) => run_each(rt, targets, call, input, out, err, is_terminal),
        Call::Build(call) => run_build(rt, targets, call, input, out, err, is_terminal),
    }
}

// Shows the help, or what is wrong with the words, and answers the status.
fn show_words<O: Write, E: Write>(
    alloc: Global,
    error: &clap::Error,
    out: &mut O,
    err: &mut E,
) -> u8
    ensures { result ≤ 2 }
{
    if error.use_stderr() {
        let _ = write!(err, "{error}");
        return match error.kind() {
            clap::error::ErrorKind::OutOfMemory => 1,
            _ => 2,
        };
    }
    match write!(out, "{error}").and_then(|_| out.flush()) {
        Ok(()) => 0,
        Err(error) => report(alloc, &Failure::Fault(error.into()), err),
    }
}

// Renders, and answers the status.
fn run_render<'a, R: Sources + Clock + AllocGlobal, T: Targets, I: Read, O: Write, E: Write>(
    rt: &R,
    targets: &mut T,
    call: &RenderCall<'a>,
    input: &mut I,
    out: &mut O,
    err: &mut E,
) -> Result<u8, Failure<'a>>
    ensures range { IfOk result (λ status. status ≤ 2) }
    ensures ends { IfOk result (λ status.
        RendersCall (R.world rt.now) call.now (I.remaining input.old) status (O.contents out.old) (O.contents out.new)
        (T.written targets.old) (T.written targets.new)) }
    ensures unsent { OnErr result (O.contents out.new ≡ O.contents out.old) }
    ensures unwritten { OnErr result (T.written targets.new ≡ T.written targets.old) }
    ensures refused { IfErr result (RefusesCall (R.world rt.now) (RenderAsked call.now) (I.remaining input.old)) }
{
    let words = DataWords::of(&call.data);
    check(&words, call.file == STANDARD)?;
    let source = text_of(rt, call.file, input)?;
    let value = context(rt, &words, input)?;
    let files = files_in(rt, call.templates, call.follow)?;
    let templates = Templates {
        files,
        page: Some((call.file, source)),
        escape: call.escape,
        functions: standard(call.standard),
    };
    let page = Page {
        name: call.file,
        value: &value,
        limits: limits_of(call),
    };
    carry_out(
        rt,
        targets,
        templates,
        Work::Render(&page, call.out),
        input,
        out,
        err,
    )
}

/// Checks, and returns the status.
pub(crate) fn run_check<
    'a,
    R: Sources + Clock + AllocGlobal,
    T: Targets,
    I: Read,
    O: Write,
    E: Write,
>(
    rt: &R,
    targets: &mut T,
    call: &CheckCall<'a>,
    input: &mut I,
    out: &mut O,
    err: &mut E,
) -> Result<u8, Failure<'a>>
    ensures range { IfOk result (λ status. status ≤ 2) }
    ensures unsent { O.contents out.new ≡ O.contents out.old }
    ensures unwritten { T.written targets.new ≡ T.written targets.old }
    ensures ends { IfOk result (ChecksCall (R.world rt.now) call.now (I.remaining input.old)) }
    ensures refused { IfErr result (RefusesCall (R.world rt.now) (CheckAsked call.now) (I.remaining input.old)) }
{
    let files = files_in(rt, call.templates, call.follow)?;
    let templates = Templates {
        files,
        page: None,
        escape: None,
        functions: [].as_slice(),
    };
    carry_out(
        rt,
        targets,
        templates,
        Work::Check(call.files.as_slice(), callables(call)),
        input,
        out,
        err,
    )
}

// What the templates that are checked may call.
fn callables<'w>(call: &'w CheckCall<'_>) -> Declared<'w>
    ensures { MayCall call.now result }
{
    Declared {
        functions: standard(call.standard),
        has_verbatim: call.escape.is_some(),
        others: call.functions.as_slice(),
    }
}

// Lists what a template needs, and answers the status.
fn run_names<'a, R: Sources + Clock + AllocGlobal, T: Targets, I: Read, O: Write, E: Write>(
    rt: &R,
    targets: &mut T,
    call: &NamesCall<'a>,
    input: &mut I,
    out: &mut O,
    err: &mut E,
) -> Result<u8, Failure<'a>>
    ensures range { IfOk result (λ status. status ≤ 2) }
    ensures ends { IfOk result (λ status.
        ListsCall (R.world rt.now) call.now (I.remaining input.old) status (O.contents out.old) (O.contents out.new)) }
    ensures unsent { OnErr result (O.contents out.new ≡ O.contents out.old) }
    ensures unwritten { T.written targets.new ≡ T.written targets.old }
    ensures refused { IfErr result (RefusesCall (R.world rt.now) (NamesAsked call.now) (I.remaining input.old)) }
{
    let source = text_of(rt, call.file, input)?;
    let files = files_in(rt, call.templates, call.follow)?;
    let templates = Templates {
        files,
        page: Some((call.file, source)),
        escape: None,
        functions: [].as_slice(),
    };
    carry_out(
        rt,
        targets,
        templates,
        Work::Names(call.file, call.json),
        input,
        out,
        err,
    )
}

// Renders for each item, and answers the status.
fn run_each<'a, R: Sources + Clock + AllocGlobal, T: Targets, I: Read, O: Write, E: Write>(
    rt: &R,
    targets: &mut T,
    call: &EachCall<'a>,
    input: &mut I,
    out: &mut O,
    err: &mut E,
    is_terminal: bool,
) -> Result<u8, Failure<'a>>
    ensures range { IfOk result (λ status. status ≤ 2) }
    ensures unsent { O.contents out.new ≡ O.contents out.old }
    ensures unwritten { OnErr result (T.written targets.new ≡ T.written targets.old) }
    ensures ends { IfOk result (λ status. RendersEachCall (R.world rt.now) call.now (I.remaining input.old) status
        (T.written targets.old) (T.written targets.new)) }
    ensures refused { IfErr result (RefusesCall (R.world rt.now) (EachAsked call.now) (I.remaining input.old)) }
{
    let render = &call.render;
    let words = DataWords::of(&render.data);
    check(&words, render.file == STANDARD)?;
    let source = text_of(rt, render.file, input)?;
    let value = context(rt, &words, input)?;
    let files = files_in(rt, render.templates, render.follow)?;
    let templates = Templates {
        files,
        page: Some((render.file, source)),
        escape: render.escape,
        functions: standard(render.standard),
    };
    let each = Each {
        key: call.key,
        page: render.file,
        name: call.name,
        out: call.out,
        limits: limits_set(render),
        keep_going: call.keep_going,
    };
    carry_out(
        rt,
        targets,
        templates,
        Work::Each(value, &each, is_terminal),
        input,
        out,
        err,
    )
}

// Builds a folder, and answers the status.
fn run_build<'a, R: Sources + Clock + AllocGlobal, T: Targets, I: Read, O: Write, E: Write>(
    rt: &R,
    targets: &mut T,
    call: &BuildCall<'a>,
    input: &mut I,
    out: &mut O,
    err: &mut E,
    is_terminal: bool,
) -> Result<u8, Failure<'a>>
    ensures range { IfOk result (λ status. status ≤ 2) }
    ensures unsent { O.contents out.new ≡ O.contents out.old }
    ensures unwritten { OnErr result (T.written targets.new ≡ T.written targets.old) }
    ensures ends { IfOk result (λ status. BuildsCall (R.world rt.now) call.now (I.remaining input.old) status
        (T.written targets.old) (T.written targets.new)) }
    ensures refused { IfErr result (RefusesCall (R.world rt.now) (BuildAsked call.now) (I.remaining input.old)) }
{
    let render = &call.render;
    let words = DataWords::of(&render.data);
    check(&words, is_input(call.layout))?;
    let layout = layout_of(rt, call.layout, input)?;
    let value = context(rt, &words, input)?;
    let files = files_in(rt, render.templates, render.follow)?;
    let templates = Templates {
        files,
        page: layout,
        escape: render.escape,
        functions: standard(render.standard),
    };
    let build = Build {
        source: render.file,
        follows: render.follow,
        out: call.out,
        layout: call.layout,
        limits: limits_set(render),
        keep_going: call.keep_going,
    };
    carry_out(
        rt,
        targets,
        templates,
        Work::Build(&value, &build, is_terminal),
        input,
        out,
        err,
    )
}

// Whether a file that may be named is standard input.
fn is_input(name: Option<&str>) -> bool
    ensures { result ≡ may_be_input name.entry }
{
    match name {
        Some(name) => name == STANDARD,
        None => false,
    }
}

// The template that a layout is, under its file's name, if that is named.
fn layout_of<'a, R: Sources + AllocGlobal, I: Read>(
    rt: &R,
    name: Option<&'a str>,
    input: &mut I,
) -> Result<Option<(&'a str, String)>, Failure<'a>>
    ensures read { IfOk result (IsLayout (R.world rt.now) name.entry (I.remaining input.old)) }
    ensures kept { may_be_input name.entry ≡ false → I.remaining input.new ≡ I.remaining input.old }
    ensures unread { IfErr result (λ failure. IsSomeAnd name.entry
        (λ name. IsUnread (R.world rt.now) name (I.remaining input.old) failure)) }
{
    match name {
        Some(name) => Ok(Some((name, text_of(rt, name, input)?))),
        None => Ok(None),
    }
}

// The limits that are asked for.
fn limits_of(call: &RenderCall<'_>) -> Limits
    ensures { result ≡ limits_asked call.now }
{
    Limits {
        steps: call.max_steps,
        output: call.max_output,
        values: call.max_memory,
    }
}

// The limits that are asked for, if one of them is set.
fn limits_set(call: &RenderCall<'_>) -> Option<Limits>
    ensures { result ≡ limits_set (limits_asked call.now) }
{
    let limits = limits_of(call);
    if is_limited(&limits) {
        Some(limits)
    } else {
        None
    }
}
