// upon-tool: renders templates on data, and checks them.
#![tactic(auto)]

use std::io::{BufWriter, IsTerminal, Write};
use std::process::ExitCode;
use std::{env, io};
use upon_tool::program::run;
use upon_tool_io::targets::SystemTargets;

/// The status if the arguments can't be read.
const UNREADABLE_ARGUMENTS: u8 = 2;

/// How many bytes of output are held until they are written.
const OUTPUT_BUFFER: usize = 64 * 1024;

fn main(rt: HostRuntime) -> ExitCode {
    let alloc = rt.alloc();
    let mut err = rt.stderr();
    let Ok(mut out) = BufWriter::with_capacity(alloc, OUTPUT_BUFFER, io::writer(&rt)) else {
        let _ = writeln!(err, "out of memory");
        return ExitCode::FAILURE;
    };
    let words = match env::args(&rt) {
        Ok(words) => words,
        Err(error) if error.kind() == io::ErrorKind::OutOfMemory => {
            let _ = writeln!(err, "out of memory");
            return ExitCode::FAILURE;
        }
        Err(_) => {
            let _ = writeln!(err, "upon-tool: an argument is not UTF-8");
            return ExitCode::from(UNREADABLE_ARGUMENTS);
        }
    };
    let Ok(words) = words.collect::<Vec<String>>(alloc) else {
        let _ = writeln!(err, "out of memory");
        return ExitCode::FAILURE;
    };
    let mut input = rt.stdin();
    let is_terminal = err.is_terminal();
    let mut targets = SystemTargets::new(&rt);
    ExitCode::from(run(
        &rt,
        &mut targets,
        words.as_slice(),
        &mut input,
        &mut out,
        &mut err,
        is_terminal,
    ))
}
