// Why a call gives no text of its own.
ghost use Rattle.std.specs.Prelude.{◌≡◌, IfOk, Some, string_bytes};
ghost use Rattle.upon_types.specs.Error.{fault_of};
ghost use Rattle.upon_calls.specs.Failure.{argument_word, failure_text, is_memory_kind, call_status, IsFaultReport};
ghost use Rattle.upon_calls.specs.declared.failure.Failure.TheVariants.{OutOfMemory};

use std::alloc::{AllocError, AllocFailed, Global};
use upon_types::error::{Error, ErrorKind};

/// An argument of a call.
#[derive(Clone, Copy, Debug, PartialEq, Eq)]
pub enum Argument {
    /// Templates by their names.
    Templates,
    /// The text of one template.
    Source,
    /// What is rendered on.
    Context,
    /// The name of a template.
    Name,
    /// The options.
    Options,
}

impl Argument {
    /// Returns the word for the argument.
    pub fn word(self) -> &'static str
        ensures { result.now ≡ argument_word self }
    {
        match self {
            Argument::Templates => "templates",
            Argument::Source => "source",
            Argument::Context => "context",
            Argument::Name => "name",
            Argument::Options => "options",
        }
    }
}

/// Why a call gives no text of its own.
#[derive(Debug, Drop)]
pub enum Failure {
    /// Templates have faults, or a rendering ended with one: their pictures.
    Faults(String),
    /// An argument is refused, for this reason.
    Refused(Argument, String),
    /// An argument is not UTF-8.
    NotText(Argument),
    /// There was no memory.
    OutOfMemory,
}

impl From<AllocError> for Failure {
    ghost from_gives = { λ _ failure. failure ≡ OutOfMemory };

    fn from(_: AllocError) -> Failure {
        Failure::OutOfMemory
    }
}

impl<T: Drop> From<AllocFailed<T>> for Failure {
    ghost from_gives = { λ _ failure. failure ≡ OutOfMemory };

    fn from(_: AllocFailed<T>) -> Failure {
        Failure::OutOfMemory
    }
}

impl Failure {
    /// Returns the report of an error of templates, with its picture.
    pub fn of_error(alloc: Global, error: &Error) -> Failure
        ensures { IsFaultReport (fault_of error.now) result }
    {
        if is_memory(error) {
            return Failure::OutOfMemory;
        }
        match error.pretty(alloc) {
            Ok(picture) => Failure::Faults(picture),
            Err(_) => Failure::OutOfMemory,
        }
    }

    /// Returns the number that stands for what went wrong: 1 for faults, 2 for a refusal, 3 for bytes that are not
    /// UTF-8, and 5 if there was no memory.
    pub fn status(&self) -> u8
        ensures { result ≡ call_status self.now }
    {
        match self {
            Failure::Faults(_) => 1,
            Failure::Refused(_, _) => 2,
            Failure::NotText(_) => 3,
            Failure::OutOfMemory => 5,
        }
    }

    /// Returns the text that says why: pictures, or a line without its end. It fails if there was no memory.
    pub fn into_text(self, alloc: Global) -> Result<String, AllocError>
        ensures { IfOk result (λ text. failure_text self ≡ Some (string_bytes text)) }
    {
        match self {
            Failure::Faults(pictures) => Ok(pictures),
            Failure::Refused(argument, reason) => {
                let mut text = String::from_str(alloc, argument.word())?;
                text.push_str(": ")?;
                text.push_str(reason.as_str())?;
                Ok(text)
            }
            Failure::NotText(argument) => {
                let mut text = String::from_str(alloc, argument.word())?;
                text.push_str(" is not UTF-8")?;
                Ok(text)
            }
            Failure::OutOfMemory => Err(AllocError),
        }
    }
}

// Whether an error says that memory is out.
fn is_memory(error: &Error) -> bool
    ensures { result ≡ is_memory_kind (fault_of error.now).kind }
{
    match error.kind() {
        ErrorKind::OutOfMemory => true,
        ErrorKind::Syntax
        | ErrorKind::Serialize
        | ErrorKind::Render
        | ErrorKind::Function
        | ErrorKind::Format
        | ErrorKind::Io(_) => false,
    }
}
