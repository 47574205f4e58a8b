// Why a value is no schema that can be read, and where.
ghost use Rattle.std.specs.Prelude.{◌≡◌, ◌++◌, IfOk, OnOk, string_bytes};
ghost use Rattle.std.specs.Char.{encode_utf8};
ghost use Rattle.upon_schema.specs.Reference.{spelled};
ghost use Rattle.upon_schema.specs.Refusal.{SaysRefusal, behind, out_of_memory, step_spelled, refusal, wrong_value};

use std::alloc::{AllocError, AllocFailed, Global};
use std::fmt;

/// Why a value is no schema that can be read. `{}` writes it in a line.
///
/// A path leads from the whole schema to the place by keywords and keys, as `/properties/a/type`: in a key `~` is
/// spelled `~0`, and `/` is `~1`. Behind `$ref` it goes on in the definition. That of the whole schema is empty.
#[derive(Debug, Drop)]
pub enum SchemaFault {
    /// The keyword at this path is not known.
    UnknownKeyword(String),
    /// What is at this path is of the wrong kind, or no name of a type.
    WrongValue(String),
    /// The reference at this path is to no definition of the schema.
    NoDefinition(String),
    /// Schemas lie more than 128 deep one inside another, through references too.
    TooDeep,
    /// More than 65,536 schemas are to be read: those behind a reference count once for each.
    TooLarge,
    /// There was no memory.
    OutOfMemory,
}

impl From<AllocError> for SchemaFault {
    ghost from_gives = { λ _ fault. refusal fault ≡ out_of_memory };

    fn from(_: AllocError) -> SchemaFault {
        SchemaFault::OutOfMemory
    }
}

impl<T: Drop> From<AllocFailed<T>> for SchemaFault {
    ghost from_gives = { λ _ fault. refusal fault ≡ out_of_memory };

    fn from(_: AllocFailed<T>) -> SchemaFault {
        SchemaFault::OutOfMemory
    }
}

impl SchemaFault {
    // A value of the wrong kind at a keyword.
    pub(crate) fn wrong_value(alloc: Global, keyword: &str) -> SchemaFault
        ensures { SaysRefusal (wrong_value (step_spelled keyword.now)) result }
    {
        SchemaFault::WrongValue(String::new(alloc)).inside(alloc, keyword)
    }

    // The fault as one of the schema around, in which this one is at a keyword or a key.
    pub(crate) fn inside(self, alloc: Global, step: &str) -> SchemaFault
        ensures { SaysRefusal (behind (step_spelled step.now) (refusal self)) result }
    {
        match self.moved(alloc, step) {
            Ok(fault) => fault,
            Err(_) => SchemaFault::OutOfMemory,
        }
    }

    // The fault as one of the schema around, at a keyword or a key of it; fails if there is no memory for the path.
    fn moved(self, alloc: Global, step: &str) -> Result<SchemaFault, AllocError>
        ensures { IfOk result (λ fault. refusal fault ≡ behind (step_spelled step.now) (refusal self)) }
    {
        Ok(match self {
            SchemaFault::UnknownKeyword(path) => {
                SchemaFault::UnknownKeyword(longer(alloc, step, &path)?)
            }
            SchemaFault::WrongValue(path) => SchemaFault::WrongValue(longer(alloc, step, &path)?),
            SchemaFault::NoDefinition(path) => {
                SchemaFault::NoDefinition(longer(alloc, step, &path)?)
            }
            SchemaFault::TooDeep => SchemaFault::TooDeep,
            SchemaFault::TooLarge => SchemaFault::TooLarge,
            SchemaFault::OutOfMemory => SchemaFault::OutOfMemory,
        })
    }
}

// A path with a step before it.
fn longer(alloc: Global, step: &str, path: &str) -> Result<String, AllocError>
    ensures { IfOk result (λ text. string_bytes text ≡ step_spelled step.now ++ path.now) }
{
    let mut text = String::new(alloc);
    text.push('/')?;
    for character in step.chars() {
        push_spelled(&mut text, character)?;
    }
    text.push_str(path)?;
    Ok(text)
}

// Appends a character of a key, as a path spells it.
fn push_spelled(text: &mut String, character: char) -> Result<(), AllocError>
    ensures { OnOk result
        (string_bytes text.new ≡ string_bytes text.old ++ spelled (encode_utf8 character)) }
{
    match character {
        '~' => text.push_str("~0"),
        '/' => text.push_str("~1"),
        _ => text.push(character),
    }
}

impl fmt::Display for SchemaFault {
    fn fmt<W: fmt::Write>(&self, f: &mut fmt::Formatter<W>) -> fmt::Result {
        match self {
            SchemaFault::UnknownKeyword(path) => write!(f, "unknown keyword at {path}"),
            SchemaFault::WrongValue(path) if path.is_empty() => f.write_str("no schema"),
            SchemaFault::WrongValue(path) => write!(f, "wrong value at {path}"),
            SchemaFault::NoDefinition(path) => write!(f, "no definition for {path}"),
            SchemaFault::TooDeep => f.write_str("schemas nested too deep"),
            SchemaFault::TooLarge => f.write_str("too many schemas"),
            SchemaFault::OutOfMemory => f.write_str("out of memory"),
        }
    }
}
