// What a formatter's refusal says.
ghost use Rattle.std.specs.Prelude.{◌≡◌, IfOk, string_bytes};
ghost use Rattle.upon_types.specs.Cause.{cause_text};

use std::alloc::{AllocError, Global};
use upon_types::error::cause::Cause;

/// What a refusal says.
#[derive(Debug, Drop)]
pub(crate) enum Message {
    /// Nothing.
    None,
    /// A text.
    Text(String),
    /// A cause.
    Told(Box<Told>),
}

/// A cause, with the words that tell of it.
#[derive(Debug, Drop)]
pub(crate) struct Told {
    cause: Box<Cause>,
    text: String,
    ghost same: { string_bytes text ≡ cause_text cause.value },
}

impl Told {
    /// Makes the words of a cause. The error is that memory is out.
    pub(crate) fn new(alloc: Global, cause: Cause) -> Result<Box<Told>, AllocError>
        ensures { IfOk result (λ told. string_bytes told.value.text ≡ cause_text cause) }
    {
        let text = cause.text(alloc)?;
        let cause = Box::new(alloc, cause)?;
        Ok(Box::new(alloc, Told { cause, text })?)
    }

    /// Returns the words.
    pub(crate) fn text(&self) -> &str
        ensures { result.now ≡ string_bytes self.now.text }
    {
        self.text.as_str()
    }

    /// Returns the words by themselves.
    pub(crate) fn into_text(self) -> String
        ensures { string_bytes result ≡ string_bytes self.text }
    {
        self.text
    }

    /// Returns the cause by itself.
    pub(crate) fn into_cause(self) -> Box<Cause>
        ensures { cause_text result.value ≡ string_bytes self.text }
    {
        self.cause
    }
}
