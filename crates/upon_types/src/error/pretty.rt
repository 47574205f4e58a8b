// The text of several lines that reports a fault, with what is shown of its span.
ghost use Rattle.std.specs.Prelude.{◌≡◌, ◌<◌, ◌-◌, ◌++◌, length, replicate, option_map, string_bytes, IfOk, Some};
ghost use Rattle.upon_types.specs.Error.{kind_of, picture_of};
ghost use Rattle.upon_types.specs.Fault.{kind_text};
ghost use Rattle.upon_types.specs.Pretty.{picture_lines, pretty_with_picture, margin, blanks, marks};

use super::ErrorKind;
use super::excerpt::Excerpt;
use std::alloc::{AllocError, Global};
use std::fmt;

/// The parts of such a text: under the line are the marks, and before each bar the margin.
#[derive(Drop)]
struct Pretty<'a> {
    kind: &'a ErrorKind,
    name: &'a str,
    reason: &'a str,
    number: usize,
    column: usize,
    line: &'a str,
    margin: &'a str,
    marks: &'a str,
}

impl fmt::Display for Pretty<'_> {
    ghost output = { λ p. Some
        (picture_lines
        (kind_text (kind_of p.kind.now)) p.name.now p.reason.now p.number p.column p.line.now p.margin.now
        p.marks.now) };

    fn fmt<W: fmt::Write>(&self, f: &mut fmt::Formatter<W>) -> fmt::Result {
        write!(f, "{}\n\n", self.kind)?;
        write!(
            f,
            " {}--> {}:{}:{}\n",
            self.margin, self.name, self.number, self.column
        )?;
        write!(f, " {} |\n", self.margin)?;
        write!(f, " {} | {}\n", self.number, self.line)?;
        write!(f, " {} | {}\n", self.margin, self.marks)?;
        write!(
            f,
            " {} |\n {} = reason: {}\n",
            self.margin, self.margin, self.reason
        )
    }
}

/// Returns the text for a kind of fault, with its reason and what is shown of its span.
pub(crate) fn with_excerpt(
    alloc: Global,
    kind: &ErrorKind,
    name: Option<&str>,
    reason: &str,
    excerpt: &Excerpt,
) -> Result<String, AllocError>
    ensures { IfOk result
        (λ text. string_bytes text
        ≡ pretty_with_picture (kind_of kind.now) (option_map (λ n. n.now) name.entry) reason.now
        (picture_of excerpt.now)) }
{
    let margin = margin(alloc, excerpt.number)?;
    let marks = marks(alloc, excerpt)?;
    let pretty = Pretty {
        kind,
        name: name.unwrap_or("<anonymous>"),
        reason,
        number: excerpt.number,
        column: excerpt.column,
        line: excerpt.line.as_str(),
        margin: margin.as_str(),
        marks: marks.as_str(),
    };
    pretty.to_string(alloc)
}

/// As many blanks as the number has digits.
fn margin(alloc: Global, number: usize) -> Result<String, AllocError>
    ensures { IfOk result (λ text. string_bytes text ≡ margin number) }
{
    let digits = number.to_string(alloc)?;
    let mut text = String::new(alloc);
    push_times(&mut text, ' ', digits.len())?;
    Ok(text)
}

/// Returns what is under the line, after the bar.
fn marks(alloc: Global, excerpt: &Excerpt) -> Result<String, AllocError>
    ensures { IfOk result
        (λ text. let shown = picture_of excerpt.now in
        string_bytes text ≡ blanks (shown.column - 1) ++ marks shown.width) }
{
    let mut text = String::new(alloc);
    push_times(&mut text, ' ', excerpt.column.saturating_sub(1))?;
    push_times(&mut text, '^', excerpt.width)?;
    push_times(&mut text, '-', 3usize.saturating_sub(excerpt.width))?;
    Ok(text)
}

/// Appends an ASCII character so many times.
fn push_times(text: &mut String, c: char, times: usize) -> Result<(), AllocError>
    requires { c < 128 }
    ensures { IfOk result (λ _. string_bytes text.new ≡ string_bytes text.old ++ replicate times c) }
{
    'times: for _ in 0..times {
        text.push(c)?;
    }
    Ok(())
}
