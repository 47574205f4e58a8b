// Spans of a text, in bytes, without the whitespace at their ends.
ghost use Rattle.std.specs.Prelude.{◌≡◌};
ghost use Rattle.upon_types.specs.Span.{LiesIn};
ghost use Rattle.upon_language_spec.specs.Shown.{trim_end_span, trim_start_span};

use upon_types::types::{Span, slice};

/// Returns the span without the whitespace at its end.
pub fn trim_end(source: &str, span: Span) -> Span
    requires { LiesIn source.now span }
    ensures value { result ≡ trim_end_span source.now span }
    ensures span { LiesIn source.now result }
{
    Span {
        m: span.m,
        n: span.m + slice(source, span).trim_end().len(),
    }
}

/// Returns the span without the whitespace at its start.
pub fn trim_start(source: &str, span: Span) -> Span
    requires { LiesIn source.now span }
    ensures value { result ≡ trim_start_span source.now span }
    ensures span { LiesIn source.now result }
{
    Span {
        m: span.n - slice(source, span).trim_start().len(),
        n: span.n,
    }
}
