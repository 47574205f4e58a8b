// Texts taken apart at separators and at the ends of lines, and put together anew.
ghost use Rattle.std.specs.Prelude.{◌≡◌, ◌<◌, ◌++◌, IfOk, OnOk, length, map, option_map, replicate, string_bytes};
ghost use Rattle.std.specs.Str.Lines.{lines};
ghost use Rattle.upon_types.specs.Val.{text_val};
ghost use Rattle.upon_types.specs.View.{vals_view, vals_of};
ghost use Rattle.upon_std.specs.Cutting.Pieces.{pieces, line_after, replaced, indented, limited, Appends};

use std::alloc::{AllocError, Global};
use upon_types::value::Value;

// The texts as values.
fn text_values(alloc: Global, texts: &[&str]) -> Result<Vec<Value>, AllocError>
    ensures { IfOk result (λ made. vals_view made.items ≡ vals_of (map (λ text. text_val text.now) texts.now)) }
{
    let mut made = Vec::new(alloc);
    for text in texts {
        made.push(Value::from_text(alloc, text)?)?;
    }
    Ok(made)
}

// The lines of a text.
pub(crate) fn lines(alloc: Global, text: &str) -> Result<Vec<Value>, AllocError>
    ensures { IfOk result (λ made. vals_view made.items ≡ vals_of (map text_val (lines text.now))) }
{
    let all: Vec<&str> = text.lines().collect(alloc)?;
    text_values(alloc, &all)
}

// The texts between the separators.
pub(crate) fn split(alloc: Global, text: &str, separator: &str) -> Result<Vec<Value>, AllocError>
    requires { 0 < length separator.now }
    ensures { IfOk result (λ made. vals_view made.items ≡ vals_of (map text_val (pieces separator.now text.now))) }
{
    let all: Vec<&str> = text.split(separator).collect(alloc)?;
    text_values(alloc, &all)
}

// The most bytes that `replace` and `indent` make.
const MOST_BYTES: usize = 1_000_000;

// The text with another in place of each that is found, or none where it has too many bytes.
pub(crate) fn replaced(
    alloc: Global,
    text: &str,
    from: &str,
    to: &str,
) -> Result<Option<String>, AllocError>
    requires { 0 < length from.now }
    ensures { IfOk result (λ made. option_map string_bytes made ≡ limited (replaced from.now to.now text.now)) }
{
    let mut made = String::new(alloc);
    let mut before = "";
    for piece in text.split(from) {
        if !push_piece(&mut made, before, piece)? {
            return Ok(None);
        }
        before = to;
    }
    Ok(Some(made))
}

// Appends a piece after another text, unless too many bytes come of it, and returns whether it did.
fn push_piece(made: &mut String, before: &str, piece: &str) -> Result<bool, AllocError>
    ensures { IfOk result (λ pushed. Appends pushed (string_bytes made.old) (string_bytes made.new)
        (before.now ++ piece.now)) }
{
    let size = made
        .len()
        .saturating_add(before.len())
        .saturating_add(piece.len());
    if size > MOST_BYTES {
        return Ok(false);
    }
    made.push_str(before)?;
    made.push_str(piece)?;
    Ok(true)
}

// The text with blanks before its lines, or none where it has too many bytes.
pub(crate) fn indented(
    alloc: Global,
    text: &str,
    width: usize,
) -> Result<Option<String>, AllocError>
    ensures { IfOk result (λ made. option_map string_bytes made ≡ limited (indented width text.now)) }
{
    let mut made = String::new(alloc);
    let mut is_first = true;
    for line in text.split("\n") {
        if !push_line(&mut made, is_first, width, line)? {
            return Ok(None);
        }
        is_first = false;
    }
    Ok(Some(made))
}

// Appends a line with what stands before it, unless too many bytes come of it, and returns whether it did.
fn push_line(
    made: &mut String,
    is_first: bool,
    width: usize,
    line: &str,
) -> Result<bool, AllocError>
    ensures { IfOk result (λ pushed. Appends pushed (string_bytes made.old) (string_bytes made.new)
        (line_after is_first width line.now)) }
{
    let end = if is_first { "" } else { "\n" };
    let blanks = if is_first || line.is_empty() {
        0
    } else {
        width
    };
    let start = end.len().saturating_add(blanks);
    let size = made.len().saturating_add(start).saturating_add(line.len());
    if size > MOST_BYTES {
        return Ok(false);
    }
    made.push_str(end)?;
    push_blanks(made, blanks)?;
    made.push_str(line)?;
    Ok(true)
}

fn push_blanks(made: &mut String, count: usize) -> Result<(), AllocError>
    ensures { OnOk result (string_bytes made.new ≡ string_bytes made.old ++ replicate count 32) }
{
    for _blank in 0..count {
        made.push(' ')?;
    }
    Ok(())
}
