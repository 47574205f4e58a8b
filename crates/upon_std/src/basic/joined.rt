// The texts of a list, joined.
ghost use Rattle.std.specs.Prelude.{◌≡◌, ◌++◌, [], IfOk, OnOk, codes, map, option_map, string_bytes};
ghost use Rattle.upon_types.specs.Val.{kind_word};
ghost use Rattle.upon_types.specs.View.{view};
ghost use Rattle.upon_std.specs.Basic.Joined.{before_piece, text_in, joined_from, IsJoined};

use std::alloc::{AllocError, Global};
use upon_types::value::Value;

// The texts of a list with the separator between them, or the refusal to join a value that is no text.
pub(crate) fn joined(
    alloc: Global,
    items: &[Value],
    separator: &str,
) -> Result<Result<String, String>, AllocError>
    ensures { IfOk result (λ made. IsJoined made (joined_from [] separator.now (map view items.now))) }
{
    let mut text = String::new(alloc);
    let mut is_first = true;
    for item in items {
        match text_of(item) {
            Some(piece) => push_piece(&mut text, is_first, separator, piece)?,
            None => return Ok(Err(refusal(alloc, item)?)),
        }
        is_first = false;
    }
    Ok(Ok(text))
}

// Appends a piece, and before it the separator unless it is the first.
fn push_piece(
    text: &mut String,
    is_first: bool,
    separator: &str,
    piece: &str,
) -> Result<(), AllocError>
    ensures { OnOk result
        (string_bytes text.new ≡ string_bytes text.old ++ (before_piece is_first separator.now ++ piece.now)) }
{
    if !is_first {
        text.push_str(separator)?;
    }
    text.push_str(piece)
}

fn text_of(value: &Value) -> Option<&str>
    ensures { option_map (λ text. text.now) result ≡ text_in (view value.now) }
{
    match value {
        Value::String(text) => Some(text),
        _ => None,
    }
}

// The refusal to join a value.
fn refusal(alloc: Global, value: &Value) -> Result<String, AllocError>
    ensures { IfOk result (λ text. string_bytes text ≡ codes "cannot join " ++ kind_word (view value.now)) }
{
    let mut text = String::from_str(alloc, "cannot join ")?;
    text.push_str(value.human())?;
    Ok(text)
}
