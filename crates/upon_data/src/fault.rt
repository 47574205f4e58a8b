// Why a text gives no value, and where.
ghost use Rattle.std.specs.Prelude.{◌≡◌, true};
ghost use Rattle.upon_data.specs.Fault.{is_data_memory};

use std::alloc::{AllocError, AllocFailed};
use std::fmt;
use upon_json::refusal::Place;

/// Why a text gives no value.
#[derive(Drop)]
pub enum DataFault {
    /// The text is not of its format.
    Refused(Refusal),
    /// There was no memory.
    OutOfMemory,
}

impl From<AllocError> for DataFault {
    ghost from_gives = { λ _ fault. is_data_memory fault ≡ true };

    fn from(_: AllocError) -> DataFault {
        DataFault::OutOfMemory
    }
}

impl<T: Drop> From<AllocFailed<T>> for DataFault {
    ghost from_gives = { λ _ fault. is_data_memory fault ≡ true };

    fn from(_: AllocFailed<T>) -> DataFault {
        DataFault::OutOfMemory
    }
}

/// Why a text is not of its format, and where. `{}` writes it in a line, with line and column from 1.
#[derive(Drop)]
pub enum Refusal {
    /// It is no JSON.
    Json(upon_json::refusal::Refusal),
    /// A record has another number of fields than the head.
    Ragged(Ragged),
    /// A field is no text.
    NotText,
    /// It is no TOML: what toml says, and where.
    Toml(toml::de::Error, Place),
}

/// A record that has another number of fields than the head.
#[derive(Clone, Copy, Drop)]
pub struct Ragged {
    /// Where it begins.
    pub place: Place,
    /// How many fields it has.
    pub fields: u64,
    /// How many fields the head has.
    pub wanted: u64,
}

impl fmt::Display for Refusal {
    fn fmt<W: fmt::Write>(&self, f: &mut fmt::Formatter<W>) -> fmt::Result {
        match self {
            Refusal::Json(refusal) => write!(f, "{refusal}"),
            Refusal::Ragged(ragged) => write!(f, "{ragged}"),
            Refusal::NotText => f.write_str("a field is no text"),
            Refusal::Toml(error, place) => write!(f, "{} at {place}", error.message()),
        }
    }
}

impl fmt::Display for Ragged {
    fn fmt<W: fmt::Write>(&self, f: &mut fmt::Formatter<W>) -> fmt::Result {
        let (place, fields, wanted) = (self.place, self.fields, self.wanted);
        write!(f, "{fields} fields in place of {wanted} at {place}")
    }
}
