// What can be wrong with a literal, and the cause that reports it.
ghost use Rattle.std.specs.Prelude.{◌≡◌};
ghost use Rattle.upon_types.specs.Cause.{cause_text};
ghost use Rattle.upon_lexer.specs.LiteralReasons.{literal_reason};

use upon_types::error::cause::Cause;
use upon_types::types::Span;

/// Why a literal denotes nothing.
#[derive(Clone, Copy)]
pub enum LiteralFault {
    /// A number with a dot or a sign in it.
    Float,
    /// A number with a character that is no digit of its base.
    InvalidDigit(u32),
    /// A number, in this base, that no `i64` is.
    NumberOutOfRange(u32),
    /// An index that no `u64` is.
    IndexOutOfRange,
    /// A string with an escape that is none of the five.
    UnknownEscape,
}

impl LiteralFault {
    /// Returns the cause of the fault.
    pub fn cause(self) -> Cause
        ensures { cause_text result ≡ literal_reason self }
    {
        match self {
            LiteralFault::Float => Cause::InvalidFloat,
            LiteralFault::InvalidDigit(base) => Cause::InvalidDigit(base),
            LiteralFault::NumberOutOfRange(base) => Cause::NumberOutOfRange(base),
            LiteralFault::IndexOutOfRange => Cause::IndexOutOfRange,
            LiteralFault::UnknownEscape => Cause::UnknownEscape,
        }
    }
}

/// A fault, and its span in the text, in bytes.
#[derive(Clone, Copy)]
pub struct Refusal {
    pub fault: LiteralFault,
    pub span: Span,
}
