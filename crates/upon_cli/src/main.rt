// upon-render FILE [KEY=TEXT]..: renders a file on the texts of its arguments.
#![tactic(auto)]

use std::fs::File;
use std::io::{BufWriter, Write};
use std::process::ExitCode;
use std::{env, io};

/// The status if the arguments can't be read.
const UNREADABLE_ARGUMENTS: u8 = 2;

/// How many bytes of output are held until they are written.
const OUTPUT_BUFFER: usize = 64 * 1024;

const HELP: &str = "\
Renders a template on words

Usage: upon-render FILE [NAME=TEXT]..

Arguments:
  FILE         The template's file
  NAME=TEXT    A text, and the name that the template has it by; of equal names the last counts

Options:
  -h, --help     Print help
  -V, --version  Print version
";

// The version: that of the language, and after the `+` that of this engine.
const VERSION: &str = "upon-render 0.11.0+1\n";

// Returns what the program says of itself, if the first argument asks for that. A file of such a name is `./--help`.
fn about(args: &[String]) -> Option<&'static str> {
    match args.first()?.as_str() {
        "-h" | "--help" => Some(HELP),
        "-V" | "--version" => Some(VERSION),
        _ => None,
    }
}

// Writes a text to the output, and returns the program's status.
fn show<O: Write, E: Write>(text: &str, out: &mut O, err: &mut E) -> ExitCode {
    match out.write_all(text.as_bytes()).and_then(|_| out.flush()) {
        Ok(()) => ExitCode::SUCCESS,
        Err(_) => {
            let _ = writeln!(err, "io error");
            ExitCode::FAILURE
        }
    }
}

fn main(rt: HostRuntime) -> ExitCode {
    let alloc = rt.alloc();
    let mut err = rt.stderr();
    let Ok(mut out) = BufWriter::with_capacity(alloc, OUTPUT_BUFFER, io::writer(&rt)) else {
        let _ = writeln!(err, "out of memory");
        return ExitCode::FAILURE;
    };
    let words = match env::args(&rt) {
        Ok(words) => words,
        Err(error) if error.kind() == io::ErrorKind::OutOfMemory => {
            let _ = writeln!(err, "out of memory");
            return ExitCode::FAILURE;
        }
        Err(_) => {
            let _ = writeln!(err, "upon-render: an argument is not UTF-8");
            return ExitCode::from(UNREADABLE_ARGUMENTS);
        }
    };
    let Ok(args) = words.skip(1).collect::<Vec<String>>(alloc) else {
        let _ = writeln!(err, "out of memory");
        return ExitCode::FAILURE;
    };
    if let Some(text) = about(args.as_slice()) {
        return show(text, &mut out, &mut err);
    }
    let file = match args.first() {
        Some(name) => File::open(&rt, name.as_str()).ok(),
        None => None,
    };
    ExitCode::from(upon::run(alloc, args.as_slice(), file, &mut out, &mut err))
}
