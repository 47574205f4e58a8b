// upon_bench WORK FILE TIMES: does a piece of work on a file a number of times, for checks/measure.
#![tactic(auto)]

mod callables;
mod context;
mod deep;

use std::alloc::{AllocError, Global};
use std::borrow::CowStr;
use std::fs::File;
use std::io::{Read, Write};
use std::process::ExitCode;
use std::{env, io};
use upon::compile::parse::Parser;
use upon::compile::search::Searcher;
use upon::compile::template;
use upon::fmt::{DefaultFormat, Formatter};
use upon::{Engine, Result as UponResult, Syntax, Value};
use upon_html::formatters::write_escaped;

/// The words of a call.
#[derive(Drop)]
struct Call {
    work: String,
    file: String,
    times: usize,
}

impl Call {
    // Reads a call from the arguments.
    fn read(rt: &HostRuntime, alloc: Global) -> Option<Call> {
        let mut words = env::args(rt)
            .ok()?
            .skip(1)
            .collect::<Vec<String>>(alloc)
            .ok()?;
        let times = words.pop()?.parse::<usize>().ok()?;
        let file = words.pop()?;
        let work = words.pop()?;
        Some(Call { work, file, times })
    }
}

// The text of a file; `None` if it can't be read or is not UTF-8.
fn text_of(rt: &HostRuntime, alloc: Global, name: &str) -> Option<String> {
    let mut bytes = Vec::new(alloc);
    File::open(rt, name).ok()?.read_to_end(&mut bytes).ok()?;
    String::from_utf8(bytes).ok()
}

// The syntax of a name: one, two or three sorts of tags, or delimiters that begin with letters; else the default one.
fn syntax_of(alloc: Global, name: &str) -> Result<Syntax, AllocError> {
    let mut builder = Syntax::builder();
    match name {
        "one" => {
            builder.expr("{{", "}}");
        }
        "two" => {
            builder.expr("<?", "?>").block("<#", "#>");
        }
        "three" => {
            builder
                .expr("{{", "}}")
                .block("{%", "%}")
                .comment("{#", "#}");
        }
        "letter" => {
            builder.expr("echo(", ")").block("@[", "]");
        }
        _ => return Ok(Syntax::default()),
    }
    builder.build(alloc)
}

// Compiles a text so often; whether it was accepted each time.
fn compiles(alloc: Global, syntax: &Syntax, text: &str, times: usize) -> bool {
    let mut good = true;
    for _ in 0..times {
        good = template(alloc, syntax, CowStr::Borrowed(text)).is_ok() && good;
    }
    good
}

// Makes the tree of a text so often; whether there was one each time.
fn parses(alloc: Global, text: &str, times: usize) -> bool {
    let searcher = Searcher::new();
    let mut good = true;
    for _ in 0..times {
        let parser = Parser::new(alloc, &searcher, text);
        good = parser.parse_template().is_ok() && good;
    }
    good
}

// What is done with the text of a template by an engine.
#[derive(Clone, Copy)]
enum EngineWork {
    Compile,
    // Render, on the context with so many more names.
    Render(u32),
    // Render, on a context that serde writes anew each time.
    Serde(u32),
}

// Does a piece of work so often with an engine that has callables, and a template to be included.
fn works(alloc: Global, work: EngineWork, text: &str, times: usize) -> UponResult<()> {
    // The functions and the formatter are put in here, where the engine stays: a function that hands on what it has put
    // behind `dyn` would have a contract that says nothing.
    let mut engine = Engine::new(alloc);
    let getter = Box::new(alloc, callables::getter(alloc)?)?;
    engine.add_function(CowStr::Borrowed("getter"), getter)?;
    let double = Box::new(alloc, callables::doubling())?;
    engine.add_function(CowStr::Borrowed("double"), double)?;
    engine.add_formatter(CowStr::Borrowed("plain"), Box::new(alloc, DefaultFormat)?)?;
    engine.add_template(CowStr::Borrowed("row"), CowStr::Borrowed("{{ r.name }}"))?;
    match work {
        EngineWork::Compile => compiles_by_engine(&engine, text, times),
        EngineWork::Render(more) => {
            engine.add_template(CowStr::Borrowed("main"), CowStr::Borrowed(text))?;
            renders(&engine, &context::context(alloc, more)?, times)
        }
        EngineWork::Serde(more) => {
            engine.add_template(CowStr::Borrowed("main"), CowStr::Borrowed(text))?;
            renders_by_serde(&engine, &context::context(alloc, more)?, times)
        }
    }
}

// Compiles a text so often by an engine.
fn compiles_by_engine(engine: &Engine<'_>, text: &str, times: usize) -> UponResult<()> {
    for _ in 0..times {
        let _template = engine.compile(CowStr::Borrowed(text))?;
    }
    Ok(())
}

// Renders the template `main` so often.
fn renders(engine: &Engine<'_>, context: &Value, times: usize) -> UponResult<()> {
    for _ in 0..times {
        if let Some(main) = engine.get_template("main") {
            let _text = main.render_from(context).to_string()?;
        }
    }
    Ok(())
}

// Does the same, where serde writes the context anew each time.
fn renders_by_serde(engine: &Engine<'_>, context: &Value, times: usize) -> UponResult<()> {
    for _ in 0..times {
        if let Some(main) = engine.get_template("main") {
            let _text = main.render(context).to_string()?;
        }
    }
    Ok(())
}

// Looks so often for a byte that is in no text.
fn looks(text: &str, times: usize) -> bool {
    let mut found = false;
    for _ in 0..times {
        found = memchr::memchr(0, text.as_bytes()).is_some() || found;
    }
    !found
}

// Escapes a text so often; whether there was memory each time.
fn escapes(alloc: Global, text: &str, times: usize) -> bool {
    let mut good = true;
    for _ in 0..times {
        let mut f = Formatter::new(alloc);
        good = write_escaped(&mut f, text).is_ok() && good;
    }
    good
}

// Does the work of a call; whether it was all right.
fn is_done(rt: &HostRuntime, alloc: Global, call: &Call) -> bool {
    let Some(text) = text_of(rt, alloc, call.file.as_str()) else {
        return false;
    };
    let text = text.as_str();
    match call.work.as_str() {
        "copy" => deep::copy(alloc, call.times, &mut io::writer(rt)).is_ok(),
        "compare" => deep::compare(alloc, call.times, &mut io::writer(rt)).is_ok(),
        "drop" => deep::release(alloc, call.times, &mut io::writer(rt)).is_ok(),
        "memchr" => looks(text, call.times),
        "html" => escapes(alloc, text, call.times),
        "tree" => parses(alloc, text, call.times),
        "compile" => works(alloc, EngineWork::Compile, text, call.times).is_ok(),
        "render" => works(alloc, EngineWork::Render(0), text, call.times).is_ok(),
        "large" => works(alloc, EngineWork::Render(10_000), text, call.times).is_ok(),
        "serde" => works(alloc, EngineWork::Serde(0), text, call.times).is_ok(),
        "serde-large" => works(alloc, EngineWork::Serde(10_000), text, call.times).is_ok(),
        other => match syntax_of(alloc, other) {
            Ok(syntax) => compiles(alloc, &syntax, text, call.times),
            Err(_) => false,
        },
    }
}

fn main(rt: HostRuntime) -> ExitCode {
    let alloc = rt.alloc();
    let good = match Call::read(&rt, alloc) {
        Some(call) => is_done(&rt, alloc, &call),
        None => false,
    };
    let mut out = io::writer(&rt);
    let _ = writeln!(out, "{}", if good { "done" } else { "not done" });
    if good {
        ExitCode::SUCCESS
    } else {
        ExitCode::FAILURE
    }
}
