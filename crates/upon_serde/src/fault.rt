// Why data are no value.
ghost use Rattle.std.specs.Prelude.{◌≡◌, pos, IfOk};
ghost use Rattle.upon_types.specs.Error.{fault_of};
ghost use Rattle.upon_serde.specs.Refusal.{IsRefusal};

use std::alloc::{AllocError, AllocFailed, Global};
use upon_types::error::{Error, ErrorKind};

// What is said of an implementation that sent no data, or answered an error that tells of no context.
const INCOMPLETE: &str = "serde's data are incomplete";

/// Why a serializer stopped: an error, or that there was no memory. The error is in a box, so that the answer to each
/// thing that is sent is small.
#[derive(Drop)]
pub struct Refused {
    error: Option<Box<Error>>,
}

/// What a step of a serializer gives.
pub type Result<T> = std::result::Result<T, Refused>;

impl Refused {
    /// Returns the refusal of a context that is no value.
    pub fn new(alloc: Global, reason: &str) -> Refused {
        let error = Error::from_parts(alloc, ErrorKind::Serialize, Some(reason), None);
        match Box::new(alloc, error) {
            Ok(error) => Refused { error: Some(error) },
            Err(_) => AllocError.into(),
        }
    }

    /// Returns the refusal of an implementation that sent no data: an end without its begin, a value without its key,
    /// or nothing.
    pub fn incomplete(alloc: Global) -> Refused {
        Refused::new(alloc, INCOMPLETE)
    }

    /// Returns the error that it is.
    pub fn into_error(self) -> Error {
        match self.error {
            Some(error) => Box::into_inner(error),
            None => AllocError.into(),
        }
    }
}

impl From<AllocError> for Refused {
    fn from(_: AllocError) -> Refused {
        Refused { error: None }
    }
}

impl<T: Drop> From<AllocFailed<T>> for Refused {
    fn from(_: AllocFailed<T>) -> Refused {
        AllocError.into()
    }
}

/// Returns the error of a context whose implementation answered this one. One of a kind that tells of no context is
/// told as incomplete data.
pub fn refusal(alloc: Global, error: Error) -> Error
    ensures { IsRefusal (fault_of result) }
{
    match error.kind() {
        ErrorKind::Serialize => error,
        ErrorKind::OutOfMemory => AllocError.into(),
        _ => Error::from_parts(alloc, ErrorKind::Serialize, Some(INCOMPLETE), None),
    }
}

/// Returns the integer that a number is. One past the integers is refused.
pub fn integer(alloc: Global, number: u64) -> Result<i64>
    ensures { IfOk result (λ z. z ≡ pos number) }
{
    match i64::try_from(number) {
        Ok(integer) => Ok(integer),
        Err(_) => Err(Refused::new(alloc, "out of range integral type conversion attempted")),
    }
}
