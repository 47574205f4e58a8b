// Why words and files give no context, and where.
ghost use Rattle.std.specs.Prelude.{◌≡◌};

use std::alloc::{AllocError, AllocFailed};
use std::{fmt, io};
use upon_data::fault::Refusal;

/// Why words and files give no context. `{}` writes it in a line.
#[derive(Drop)]
pub enum ContextFault<'a> {
    /// This word of `--set` has no `=`.
    LacksText(&'a str),
    /// This word of `--set-json` has no `=`.
    LacksValue(&'a str),
    /// Standard input is asked for twice.
    InputTwice,
    /// The file of this name could not be read, by this error of the system.
    Unreadable(&'a str, io::Error),
    /// The file of this name is not UTF-8.
    NotText(&'a str),
    /// The text of the file of this name is not of its format.
    NotOfFormat(&'a str, Refusal),
    /// The value of the file of this name is neither an object nor a list, and no key is given for it.
    NotObject(&'a str),
    /// What follows the `=` in this word of `--set-json` is no JSON.
    NotJson(&'a str, Refusal),
    /// The path in this word of `--set` or `--set-json` goes through a value that is no map.
    NotMap(&'a str),
    /// There was no memory.
    OutOfMemory,
}

impl<'a> From<AllocError> for ContextFault<'a> {
    ghost use Rattle.upon_tool_data.specs.declared.fault.ContextFault.TheVariants.{OutOfMemory};

    ghost from_gives = { λ _ fault. fault ≡ OutOfMemory };

    fn from(_: AllocError) -> ContextFault<'a> {
        ContextFault::OutOfMemory
    }
}

impl<'a, T: Drop> From<AllocFailed<T>> for ContextFault<'a> {
    ghost use Rattle.upon_tool_data.specs.declared.fault.ContextFault.TheVariants.{OutOfMemory};

    ghost from_gives = { λ _ fault. fault ≡ OutOfMemory };

    fn from(_: AllocFailed<T>) -> ContextFault<'a> {
        ContextFault::OutOfMemory
    }
}

impl fmt::Display for ContextFault<'_> {
    fn fmt<W: fmt::Write>(&self, f: &mut fmt::Formatter<W>) -> fmt::Result {
        match self {
            ContextFault::LacksText(word) => write!(f, "--set wants KEY=TEXT, not {word}"),
            ContextFault::LacksValue(word) => write!(f, "--set-json wants KEY=JSON, not {word}"),
            ContextFault::InputTwice => f.write_str("standard input can be read only once"),
            ContextFault::Unreadable(name, error) => write!(f, "cannot read {name}: {error}"),
            ContextFault::NotText(name) => write!(f, "{name} is not UTF-8"),
            ContextFault::NotOfFormat(name, refusal) => write!(f, "{name}: {refusal}"),
            ContextFault::NotObject(name) => write!(f, "{name}: neither an object nor a list"),
            ContextFault::NotJson(word, refusal) => write!(f, "--set-json {word}: {refusal}"),
            ContextFault::NotMap(word) => {
                write!(
                    f,
                    "{word}: a key before the last has a value that is no map"
                )
            }
            ContextFault::OutOfMemory => f.write_str("out of memory"),
        }
    }
}
