// Runs and renderings within limits: one step of the machine a turn, up to the program's end or to a limit.
ghost use Rattle.std.specs.Prelude.{◌≡◌, [], unwrap_or};
ghost use Rattle.upon_types.specs.Error.{fault_of};
ghost use Rattle.upon_types.specs.Fault.{OrMemory};
ghost use Rattle.upon_types.specs.Span.{LiesIn};
ghost use Rattle.upon_types.specs.TreeSpans.{TreeLiesIn};
ghost use Rattle.upon_render.specs.Roots.{pure_root};
ghost use Rattle.upon_lookup.specs.Source.{Source};
ghost use Rattle.upon_render.specs.Stack.{frames_of, root_of};
ghost use Rattle.upon_meaning_spec.specs.Engine.{Template};
ghost use Rattle.upon_meaning_spec.specs.Meaning.{fault_in};
ghost use Rattle.upon_machine_spec.specs.Spans.{CodeSpans};
ghost use Rattle.upon_compiler.specs.Program.{program_view};
ghost use Rattle.upon_vm_steps.specs.Acts.{calls_on};
ghost use Rattle.upon_vm_steps.specs.Keeps.{HasState, Kept, SourceHas};
ghost use Rattle.upon_vm.specs.Course.{course};
ghost use Rattle.upon_vm.specs.Limits.{GrowsWithin};
ghost use Rattle.upon_vm_steps.specs.Machine.{active_of, state_of};
ghost use Rattle.upon_vm_steps.specs.Program.{IsProgramOf};
ghost use Rattle.upon_vm.specs.Renderings.{RendersWithin, SourcesKept, sources_state};
ghost use Rattle.upon_vm.specs.Runs.{KnownRun, Starts};
ghost use Rattle.upon_vm.specs.Within.{IsAtLimit, IsReportWithin, MarksWithin, RanWithin, ReportMarksWithin, limit_reached};

use crate::account::Account;
use crate::failure::{Failure, in_template, stopped};
use crate::limits::{Limit, Limits, spend};
use crate::place::place;
use crate::report::reported;
use crate::run::{Ending, end_of};
use crate::steps::Steps;
use crate::turn::{Turn, take_turn};
use std::alloc::{AllocError, Global};
use std::marker::Brand;
use upon_fmt::fmt::Formatter;
use upon_fmt::output::Output;
use upon_lookup::source::ValueSource;
use upon_render::stack::Stack;
use upon_types::error::cause::Cause;
use upon_types::error::reason::Reason;
use upon_types::error::{self, Error};
use upon_types::types::Span;
use upon_vm_steps::callables::Callables;
use upon_vm_steps::fault::{Fault, FaultKind};
use upon_vm_steps::machine::{Machine, Running};
use upon_vm_steps::operands::Operands;
use upon_vm_steps::source::ProgramSource;

/// How a run within limits ends.
#[derive(Drop)]
pub enum Within {
    /// By itself, or with a failure, as a run without limits does.
    Ended(Result<Ending, Failure>),
    /// At a limit, with the error that names it.
    Reached(Limit, Error),
}

// The error of a limit of so many, in a template that runs, at a span.
fn limit_error(alloc: Global, running: Running, limit: Limit, count: usize, span: Span) -> Error
    requires { LiesIn running.program.source.now span }
    ensures { OrMemory (fault_in (active_of running.entry).running (limit_reached limit count span)) (fault_of result) }
{
    match Box::new(alloc, Cause::LimitReached(count, limit.counted())) {
        Ok(cause) => {
            let fault = Fault {
                kind: FaultKind::Render,
                reason: Reason::Cause(cause),
                span,
            };
            in_template(alloc, running, fault)
        }
        Err(_) => AllocError.into(),
    }
}

// A run that was stopped at a limit, at the instruction of a number of the template that runs.
fn at_limit(
    alloc: Global,
    running: Running,
    position: usize,
    limit: Limit,
    count: Option<usize>,
) -> Within
    requires { CodeSpans (LiesIn running.program.source.now) (program_view running.program.instrs.now) }
    ensures { IsAtLimit (active_of running.entry) position limit (unwrap_or count 0) result }
{
    let span = place(running.program.source, running.program.instrs, position);
    let error = limit_error(alloc, running, limit, count.unwrap_or(0), span);
    Within::Reached(limit, error)
}

// Runs the machine's program to its end, or up to a limit.
pub(crate) fn run_within<'r, V: ValueSource, T: ProgramSource<'r>, C: Callables, W: Output>(
    alloc: Global,
    callables: &C,
    machine: &mut Machine<'r, V, T>,
    limits: Limits,
    out: &mut W,
) -> Within
    requires starts { (known : KnownRun V.State T.State)
        × Starts V.ask V.value_state T.template_state (T.resolve machine.old.templates) (C.callables callables.now)
        (C.default_formatter callables.now) known machine.old }
    ensures same { W.holds out.new ≡ W.holds out.old }
    ensures mark { MarksWithin result (W.mark out.old) (W.mark out.new) }
    ensures kept { Kept V.ask V.holds T.resolve T.holds machine.old machine.new }
    // No more bytes are written than the limit is.
    ensures bounded { GrowsWithin limits.output (W.given out.old) (W.given out.new) }
    ensures ran { (known : KnownRun V.State T.State)
        → Starts V.ask V.value_state T.template_state (T.resolve machine.old.templates) (C.callables callables.now)
        (C.default_formatter callables.now) known machine.old → RanWithin limits
        (course (calls_on (C.callables callables.now) (C.default_formatter callables.now) known.ask)
        (T.resolve machine.old.templates) (pure_root (root_of machine.old.stack))
        (state_of V.value_state T.template_state known.values machine.old))
        result (W.given out.old) (W.given out.new) known.outcome
        (state_of V.value_state T.template_state known.values machine.new).asked }
{
    let mut stop = None;
    let mut steps = limits.steps;
    let mut room = limits.output;
    let mut account = Account::new(alloc);
    let mut left = Steps::some::<_, _, Brand>(callables, &*machine);
    'turns: loop {
        let running = machine.running;
        let position = machine.position;
        let Some(fewer) = spend(steps, 1) else {
            return at_limit(alloc, running, position, Limit::Steps, limits.steps);
        };
        let Ok(coming) = account.coming(alloc, limits.values, &*machine) else {
            return Within::Ended(Err(Failure::Error(AllocError.into())));
        };
        match take_turn(alloc, callables, machine, room, out, &mut stop) {
            Turn::Over => return at_limit(alloc, running, position, Limit::Output, limits.output),
            Turn::Stopped => return Within::Ended(Err(stopped(alloc, running, stop))),
            Turn::Went(flow, rest) => {
                if let Some(end) = end_of(flow) {
                    return Within::Ended(Ok(end));
                }
                room = rest;
            }
        }
        let Ok(()) = account.add(alloc, limits.values, coming, &*machine) else {
            return Within::Ended(Err(Failure::Error(AllocError.into())));
        };
        let Some(_) = spend(limits.values, account.made) else {
            return at_limit(alloc, running, position, Limit::Values, limits.values);
        };
        steps = fewer;
        left = Steps::less(&left);
    }
}

/// Renders a program over a stack without frames, within limits: what its template means by itself, if the machine ends
/// within so many steps and the text has no more bytes than are allowed.
///
/// If it goes beyond a limit, it is stopped there, with an error that names the limit and shows where the template was.
/// The output then has a beginning of the text. So it is if it makes too many bytes of values: only of a limit of these
/// that is set. All else is as for [`render`](crate::render::render).
pub fn render_within<'r, V: ValueSource, T: ProgramSource<'r>, C: Callables, W: Output>(
    alloc: Global,
    callables: &C,
    running: Running<'r>,
    stack: Stack<'r, V>,
    templates: T,
    limits: Limits,
    out: &mut W,
) -> (Within, Stack<'r, V>, T)
    requires program { (t : Template) × IsProgramOf running.program t × TreeLiesIn t.source t.tree }
    requires state { HasState V.State (root_of stack) }
    requires frames { frames_of stack ≡ [] }
    ensures same { W.holds out.new ≡ W.holds out.old }
    ensures mark { MarksWithin result.0 (W.mark out.old) (W.mark out.new) }
    // No more bytes are written than the limit is.
    ensures bounded { GrowsWithin limits.output (W.given out.old) (W.given out.new) }
    ensures ran { (t : Template) (ask : Source V.State) (q : V.State) → IsProgramOf running.entry.program t
        → SourceHas V.ask (root_of stack.entry) ask → RendersWithin limits
        (calls_on (C.callables callables.now) (C.default_formatter callables.now) ask) (T.resolve templates)
        running.entry t (pure_root (root_of stack.entry))
        (sources_state V.value_state T.template_state q (root_of stack.entry) templates)
        result.0 (W.given out.old) (W.given out.new)
        (sources_state V.value_state T.template_state q (root_of result.1) result.2) }
    ensures sources { SourcesKept V.ask V.holds T.resolve T.holds (root_of stack.entry) (root_of result.1)
        templates result.2 }
{
    let mut machine = Machine {
        running,
        waiting: Vec::new(alloc),
        position: 0,
        operands: Operands::new(alloc),
        stack,
        templates,
        written: Formatter::new(alloc),
    };
    let ended = run_within(alloc, callables, &mut machine, limits, out);
    let Machine {
        stack,
        templates,
        ..
    } = machine;
    (ended, stack, templates)
}

/// Returns the result of a rendering within limits, right after it: nothing, or the fault that is reported.
///
/// At a limit that is its error; else it is as for [`reported`], with the depth of includes as it was set.
pub fn reported_within<W: Output>(
    alloc: Global,
    ended: Within,
    depth: usize,
    out: &mut W,
) -> error::Result<()>
    ensures same { W.holds out.new ≡ W.holds out.old }
    ensures report { IsReportWithin depth ended (W.mark out.old) result }
    ensures given { W.given out.new ≡ W.given out.old }
    ensures mark { ReportMarksWithin ended (W.mark out.old) (W.mark out.new) }
{
    match ended {
        Within::Ended(ended) => reported(alloc, ended, depth, out),
        Within::Reached(_, error) => Err(error),
    }
}
