// The part of a source that a picture shows.
ghost use Rattle.std.specs.Prelude.{◌≡◌, ◌+◌, ◌++◌, take, drop, max, IfOk, count_by};
ghost use Rattle.std.specs.List.{before_first, after_last};
ghost use Rattle.upon_types.specs.Error.{picture_of};
ghost use Rattle.upon_types.specs.Picture.{picture, is_line_feed, line_before};
ghost use Rattle.upon_types.specs.Span.{LiesIn};

use crate::types::{Span, slice};
use std::alloc::{AllocError, Global};
use unicode_width::UnicodeWidthStr;

/// The line in which a span begins, how many of its bytes are before the span, and which columns are marked.
#[derive(Debug, Drop)]
pub(crate) struct Excerpt {
    pub(crate) number: usize,
    pub(crate) column: usize,
    pub(crate) width: usize,
    pub(crate) line: String,
    pub(crate) before: usize,
}

impl Excerpt {
    /// Returns the part of a source that a picture shows.
    pub(crate) fn of(alloc: Global, source: &str, span: Span) -> Result<Excerpt, AllocError>
        requires { LiesIn source.now span }
        ensures { IfOk result (λ excerpt. picture_of excerpt ≡ picture source.now span) }
    {
        let (number, front) = last_line(&source[..span.m]);
        let back = first_line(&source[span.m..]);
        let mut line = String::from_str(alloc, front)?;
        line.push_str(back)?;
        let width = slice(source, span).width();
        Ok(Excerpt {
            number,
            column: 1 + front.width(),
            width: if width == 0 { 1 } else { width },
            line,
            before: front.len(),
        })
    }
}

/// Returns what is before the first line feed, or the whole text.
fn first_line(text: &str) -> &str
    ensures { result.now ≡ before_first is_line_feed text.now }
{
    match text.split_once('\n') {
        Some((line, _)) => line,
        None => text,
    }
}

/// Returns what is after the last line feed, or the whole text; and the number of that line.
fn last_line(text: &str) -> (usize, &str)
    ensures number { result.0 ≡ 1 + count_by is_line_feed text.now }
    ensures line { result.1.now ≡ line_before text.now }
{
    let mut number = 1;
    let mut rest = text;
    'lines: while let Some((_, after)) = rest.split_once('\n') {
        number += 1;
        rest = after;
    }
    (number, rest)
}
