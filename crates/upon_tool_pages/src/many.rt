// Many pages at once: they are rendered and written, and it is said what failed and what was written.
ghost use Rattle.std.specs.Prelude.{◌≡◌, ◌≤◌};
ghost use Rattle.upon_types.specs.View.{view};
ghost use Rattle.upon_tool_pages.specs.ManyPages.{AreWell, BuildIsWell, EachIsWell};

use crate::progress::Waiting;
use crate::rendering::explain;
use std::alloc::{AllocError, Global};
use std::io::Write;
use std::time::Clock;
use upon_engine::engine::Engine;
use upon_engine::texts::{AnyEngine, EngineTexts};
use upon_tool_io::files::joined;
use upon_tool_io::sources::Sources;
use upon_tool_io::targets::Targets;
use upon_tool_many::build::{Build, BuildFault, build_folder};
use upon_tool_many::each::{Each, EachFault, render_each};
use upon_tool_many::pages::{DonePage, PageEnd, PageFault, is_any_failed};
use upon_tool_messages::failure::{Failure, report};
use upon_tool_messages::known::Known;
use upon_tool_messages::library::{Library, Refusal, report_refusal};
use upon_types::value::Value;

/// Renders a template for each item of a list of a value, says what is wrong, and returns the status.
pub fn show_each<R: Sources + Clock + AllocGlobal, T: Targets, E: Write>(
    rt: &R,
    targets: &mut T,
    engine: &Engine<'_>,
    library: &Library,
    value: Value,
    asked: &Each<'_>,
    is_terminal: bool,
    err: &mut E,
) -> u8
    ensures range { result ≤ 2 }
    ensures well { EachIsWell (R.world rt.now) (⟦<AnyEngine as EngineTexts>⟧.texts engine.now) (view value) asked.now
        result (T.written targets.old) (T.written targets.new) }
{
    let alloc = rt.alloc();
    let known = Known {
        library,
        value: None,
        page: None,
    };
    let mut waiting = Waiting::new(rt, err, is_terminal);
    let made = render_each(rt, targets, engine, asked, value, &mut waiting);
    drop(waiting);
    match made {
        Ok(done) => show_done(alloc, engine, &known, asked.out, done, err),
        Err(fault) => report_each(alloc, engine, &known, asked.key, fault, err),
    }
}

/// Builds a folder on a value, says what is wrong, and returns the status.
pub fn show_build<R: Sources + Clock + AllocGlobal, T: Targets, E: Write>(
    rt: &R,
    targets: &mut T,
    engine: &Engine<'_>,
    library: &Library,
    value: &Value,
    asked: &Build<'_>,
    is_terminal: bool,
    err: &mut E,
) -> u8
    ensures range { result ≤ 2 }
    ensures well { BuildIsWell (R.world rt.now) (⟦<AnyEngine as EngineTexts>⟧.texts engine.now) (view value.now)
        asked.now result (T.written targets.old) (T.written targets.new) }
{
    let alloc = rt.alloc();
    let known = Known {
        library,
        value: Some(value),
        page: asked.layout,
    };
    let mut waiting = Waiting::new(rt, err, is_terminal);
    let made = build_folder(rt, targets, engine, asked, value, &mut waiting);
    drop(waiting);
    match made {
        Ok(done) => show_done(alloc, engine, &known, asked.out, done, err),
        Err(fault) => report_build(alloc, asked, fault, err),
    }
}

// Says why there are no pages of items, and answers the status.
fn report_each<E: Write>(
    alloc: Global,
    engine: &Engine<'_>,
    known: &Known<'_>,
    key: &str,
    fault: EachFault,
    err: &mut E,
) -> u8
    ensures { result ≡ 1 }
{
    match fault {
        EachFault::NoList => {
            let _ = writeln!(err, "upon-tool: the context has no list at {key}");
        }
        EachFault::Unnamed(index, fault) => {
            let _ = writeln!(err, "upon-tool: item {index} has no name:");
            let _ = report_page(alloc, engine, known, "--name", fault, err);
        }
        EachFault::Outside(index, name) => {
            let _ = writeln!(
                err,
                "upon-tool: item {index}: {name:?} is no name of a file in OUT"
            );
        }
        EachFault::Twice(first, second, name) => {
            let _ = writeln!(
                err,
                "upon-tool: items {first} and {second} have the name {name:?}"
            );
        }
        EachFault::OutOfMemory => {
            let _ = writeln!(err, "out of memory");
        }
    }
    1
}

// Says why a folder is not built, and answers the status.
fn report_build<E: Write>(alloc: Global, asked: &Build<'_>, fault: BuildFault, err: &mut E) -> u8
    ensures range { result ≤ 2 }
    ensures failed { 1 ≤ result }
{
    match fault {
        BuildFault::Unread(fault) => {
            if let Ok(refusal) = Refusal::of_read(fault) {
                report_refusal(alloc, asked.source, &refusal, err);
                return 2;
            }
            let _ = writeln!(err, "out of memory");
            1
        }
        BuildFault::OutInSource => {
            let _ = writeln!(err, "upon-tool: {} is in {}", asked.out, asked.source);
            2
        }
        BuildFault::Twice(name) => {
            let _ = writeln!(err, "upon-tool: two files are built to {name:?}");
            1
        }
        BuildFault::OutOfMemory => {
            let _ = writeln!(err, "out of memory");
            1
        }
    }
}

// Says which pages failed, and if some did, which were written; and answers the status.
fn show_done<E: Write>(
    alloc: Global,
    engine: &Engine<'_>,
    known: &Known<'_>,
    out: &str,
    done: Vec<DonePage>,
    err: &mut E,
) -> u8
    ensures range { result ≤ 2 }
    ensures well { result ≡ 0 → AreWell done.items }
{
    if !is_any_failed(done.as_slice()) {
        return 0;
    }
    let mut written = Vec::new(alloc);
    for page in done {
        let DonePage { name, end } = page;
        match end {
            PageEnd::Failed(fault) => {
                report_at(alloc, engine, known, out, name.as_str(), fault, err);
            }
            PageEnd::Written => {
                let _ = written.push(name);
            }
            PageEnd::Unchanged => {}
        }
    }
    show_written(written.as_slice(), err);
    1
}

// Says which pages were written.
fn show_written<E: Write>(written: &[String], err: &mut E) {
    if written.is_empty() {
        let _ = writeln!(err, "upon-tool: nothing was written");
    }
    for name in written {
        let _ = writeln!(err, "upon-tool: {name} was written");
    }
}

// Says why the page of a name in a folder failed.
fn report_at<E: Write>(
    alloc: Global,
    engine: &Engine<'_>,
    known: &Known<'_>,
    out: &str,
    name: &str,
    fault: PageFault,
    err: &mut E,
) {
    let told = match joined(alloc, out, name) {
        Ok(path) => report_page(alloc, engine, known, path.as_str(), fault, err),
        Err(error) => Err(error),
    };
    if told.is_err() {
        let _ = writeln!(err, "out of memory");
    }
}

// Says why a page failed. It fails if there is no memory.
fn report_page<E: Write>(
    alloc: Global,
    engine: &Engine<'_>,
    known: &Known<'_>,
    path: &str,
    fault: PageFault,
    err: &mut E,
) -> Result<(), AllocError> {
    match fault {
        PageFault::Unread(fault) => {
            report_refusal(alloc, path, &Refusal::of_read(fault)?, err);
        }
        PageFault::Fault(error) => {
            let _ = writeln!(err, "upon-tool: {path}:");
            let _ = explain(alloc, engine, known, &Failure::Fault(error), err);
        }
        PageFault::NoTemplate => {
            let _ = writeln!(err, "upon-tool: {path}: no template");
        }
        PageFault::Unwritten(fault) => {
            let _ = report(alloc, &Failure::Unwritable(path, fault), err);
        }
    }
    Ok(())
}
