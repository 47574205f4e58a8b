// What can be wrong with the tokens of a text, and the cause that reports it.
ghost use Rattle.std.specs.Prelude.{◌≡◌};
ghost use Rattle.upon_types.specs.Cause.{cause_text};
ghost use Rattle.upon_lexer.specs.Reasons.{reason_of};

use crate::compile::brackets::Shape;
use crate::compile::roles::Sort;
use upon_types::error::cause::Cause;
use upon_types::types::Span;

/// A fault that ends the cutting of a text into tokens.
#[derive(Clone, Copy)]
pub enum SyntaxFault {
    /// An end that no tag of its sort awaits.
    UnexpectedEnd(Sort),
    /// A begin inside a tag or comment of this sort.
    UnclosedTag(Sort),
    /// The tag's end, if a bracket of this shape is open.
    UnclosedBracket(Shape),
    /// A closing bracket of this shape, if the innermost open one has another, or none is open.
    UnexpectedClose(Shape),
    /// A character that begins no token.
    UnexpectedCharacter,
    /// A quote that begins no string.
    UndelimitedString,
}

impl SyntaxFault {
    /// Returns the cause of the fault.
    pub fn cause(self) -> Cause
        ensures { cause_text result ≡ reason_of self }
    {
        match self {
            SyntaxFault::UnexpectedEnd(sort) => Cause::Unexpected(sort.end_token()),
            SyntaxFault::UnclosedTag(sort) => Cause::Unclosed(sort.begin_token()),
            SyntaxFault::UnclosedBracket(shape) => Cause::Unclosed(shape.open_token()),
            SyntaxFault::UnexpectedClose(shape) => Cause::Unexpected(shape.close_token()),
            SyntaxFault::UnexpectedCharacter => Cause::UnexpectedCharacter,
            SyntaxFault::UndelimitedString => Cause::UndelimitedString,
        }
    }
}

/// A fault, and its span in the text, in bytes.
#[derive(Clone, Copy)]
pub struct Wrong {
    pub fault: SyntaxFault,
    pub span: Span,
}
