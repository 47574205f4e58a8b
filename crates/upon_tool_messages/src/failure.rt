// Why a run of the program fails, its status, and what is said of it.
ghost use Rattle.std.specs.Prelude.{◌≡◌, ◌↔◌, true};
ghost use Rattle.upon_tool_messages.specs.Gone.{IsReaderGone};
ghost use Rattle.upon_tool_messages.specs.Status.{data_status, is_memory_error, tool_status, IsMemory};

use crate::hints::hint_of;
use crate::picture::shown;
use std::alloc::{AllocError, AllocFailed, Global};
use std::io::{self, Write};
use upon_tool_data::fault::ContextFault;
use upon_tool_io::output::WriteFault;
use upon_types::error::{Error, ErrorKind};

/// Why a run fails.
#[derive(Drop)]
pub enum Failure<'a> {
    /// A file or folder of this name could not be read, by this error of the system.
    Unreadable(&'a str, io::Error),
    /// The file of this name is not UTF-8.
    NotText(&'a str),
    /// There is no value that a template could be rendered on.
    Data(ContextFault<'a>),
    /// The file of this name could not be written.
    Unwritable(&'a str, WriteFault),
    /// A template was refused, could not be rendered or not be shown.
    Fault(Error),
}

impl<'a> From<Error> for Failure<'a> {
    ghost use Rattle.upon_tool_messages.specs.declared.failure.Failure.TheVariants.{Fault};

    ghost from_gives = { λ error failure. failure ≡ Fault error };

    fn from(error: Error) -> Failure<'a> {
        Failure::Fault(error)
    }
}

impl<'a> From<ContextFault<'a>> for Failure<'a> {
    ghost use Rattle.upon_tool_messages.specs.declared.failure.Failure.TheVariants.{Data};

    ghost from_gives = { λ fault failure. failure ≡ Data fault };

    fn from(fault: ContextFault<'a>) -> Failure<'a> {
        Failure::Data(fault)
    }
}

impl<'a> From<AllocError> for Failure<'a> {
    ghost from_gives = { λ _ failure. IsMemory failure × (tool_status failure ≡ 1) };

    fn from(error: AllocError) -> Failure<'a> {
        Failure::Fault(error.into())
    }
}

impl<'a, T: Drop> From<AllocFailed<T>> for Failure<'a> {
    ghost from_gives = { λ _ failure. IsMemory failure × (tool_status failure ≡ 1) };

    fn from(error: AllocFailed<T>) -> Failure<'a> {
        AllocError::from(error).into()
    }
}

/// Says why a run failed, and returns its status. A failed write is ignored.
pub fn report<E: Write>(alloc: Global, failure: &Failure<'_>, err: &mut E) -> u8
    ensures { result ≡ tool_status failure.now }
{
    match failure {
        Failure::Unreadable(name, error) => {
            let _ = writeln!(err, "upon-tool: cannot read {name}: {error}");
            2
        }
        Failure::NotText(name) => {
            let _ = writeln!(err, "upon-tool: {name} is not UTF-8");
            2
        }
        Failure::Data(fault) => {
            report_data(fault, err);
            data_status(fault)
        }
        Failure::Unwritable(name, fault) => {
            report_unwritable(name, fault, err);
            1
        }
        Failure::Fault(error) => {
            report_fault(alloc, error, err);
            1
        }
    }
}

// Says why a file could not be written.
fn report_unwritable<E: Write>(name: &str, fault: &WriteFault, err: &mut E) {
    let _ = match fault {
        WriteFault::Io(error) => writeln!(err, "upon-tool: cannot write {name}: {error}"),
        WriteFault::OtherOwner => writeln!(
            err,
            "upon-tool: cannot write {name}: it belongs to another user or group"
        ),
        WriteFault::SeveralNames => writeln!(
            err,
            "upon-tool: cannot write {name}: it has several names, by hard links"
        ),
    };
}

// Says why there is no context.
fn report_data<E: Write>(fault: &ContextFault<'_>, err: &mut E) {
    let _ = match fault {
        ContextFault::OutOfMemory => writeln!(err, "out of memory"),
        _ => writeln!(err, "upon-tool: {fault}"),
    };
}

// The status for what gives no context: 2 for wrong words, and for what can't be read as text; else 1.
fn data_status(fault: &ContextFault<'_>) -> u8
    ensures { result ≡ data_status fault.now }
{
    match fault {
        ContextFault::LacksText(_)
        | ContextFault::LacksValue(_)
        | ContextFault::InputTwice
        | ContextFault::Unreadable(..)
        | ContextFault::NotText(_) => 2,
        ContextFault::NotOfFormat(..)
        | ContextFault::NotObject(_)
        | ContextFault::NotJson(..)
        | ContextFault::NotMap(_)
        | ContextFault::OutOfMemory => 1,
    }
}

/// Says what an error is, with its picture, ended by a newline; nothing, if the reader of the output has gone.
pub fn report_fault<E: Write>(alloc: Global, error: &Error, err: &mut E)
    ensures { IsReaderGone error.now → err.new ≡ err.old }
{
    report_hinted(alloc, error, None, err);
}

/// Says the same, with a hint if one is given.
pub(crate) fn report_hinted<E: Write>(alloc: Global, error: &Error, hint: Option<&str>, err: &mut E)
    ensures { IsReaderGone error.now → err.new ≡ err.old }
{
    if is_broken_pipe(error) {
        return;
    }
    let _ = match told(alloc, error, hint) {
        Ok(text) => write!(err, "{text}"),
        Err(_) => writeln!(err, "out of memory"),
    };
}

// What an error is, with its picture, ended by a newline; and a hint, if one is given or is there for its cause.
fn told(alloc: Global, error: &Error, hint: Option<&str>) -> Result<String, AllocError> {
    let text = error.pretty(alloc)?;
    let mut told = shown(alloc, text.as_str())?;
    if let Some(hint) = hint.or(hint_of(error)) {
        told.push_str("   = hint: ")?;
        told.push_str(hint)?;
        told.push('\n')?;
    }
    Ok(told)
}

/// Returns whether an error says that memory is out.
pub fn is_memory(error: &Error) -> bool
    ensures { result ≡ is_memory_error error.now }
{
    match error.kind() {
        ErrorKind::OutOfMemory => true,
        ErrorKind::Syntax
        | ErrorKind::Serialize
        | ErrorKind::Render
        | ErrorKind::Function
        | ErrorKind::Format
        | ErrorKind::Io(_) => false,
    }
}

// Whether an error is of a write whose reader has gone.
fn is_broken_pipe(error: &Error) -> bool
    ensures { (result ≡ true) ↔ IsReaderGone error.now }
{
    match error.kind() {
        ErrorKind::Io(error) => error.kind() == io::ErrorKind::BrokenPipe,
        _ => false,
    }
}
