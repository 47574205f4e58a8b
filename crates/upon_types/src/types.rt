// Spans in a template's source, and the kinds of delimiters.
ghost use Rattle.std.specs.Prelude.{◌≡◌, min, max};
ghost use Rattle.upon_types.specs.Span.{LiesIn, slice};

use std::ops::Range;
pub use token::Token;

pub mod ast;
pub mod block;
pub mod token;

/// A span in a template's source: the bytes from `m` on, up to `n` and without it.
#[derive(Clone, Copy, Debug, PartialEq, Eq)]
pub struct Span {
    pub m: usize,
    pub n: usize,
}

impl Span {
    /// Returns the least span that covers both.
    pub fn combine(self, other: Span) -> Span
        ensures start { result.m ≡ min self.m other.m }
        ensures end { result.n ≡ max self.n other.n }
    {
        Span {
            m: self.m.min(other.m),
            n: self.n.max(other.n),
        }
    }
}

impl From<Range<usize>> for Span {
    ghost from_gives = { λ range span. (span.m ≡ range.start) × (span.n ≡ range.end) };

    fn from(range: Range<usize>) -> Span {
        Span {
            m: range.start,
            n: range.end,
        }
    }
}

/// Returns the bytes of a text at an offset, which has to lie in the text, on character boundaries.
pub fn slice(source: &str, span: Span) -> &str
    requires { LiesIn source.now span }
    ensures { result.now ≡ slice source.now span }
{
    &source[span.m..span.n]
}

/// What a delimiter is for. A `Trim` kind is the one with the hyphen.
#[derive(Clone, Copy, Debug, PartialEq, Eq)]
pub enum Delimiter {
    BeginExpr,
    EndExpr,
    BeginExprTrim,
    EndExprTrim,
    BeginBlock,
    EndBlock,
    BeginBlockTrim,
    EndBlockTrim,
    BeginComment,
    EndComment,
    BeginCommentTrim,
    EndCommentTrim,
}
