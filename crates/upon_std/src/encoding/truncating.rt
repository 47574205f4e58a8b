// Texts that are cut to a number of columns.
ghost use Rattle.std.specs.Prelude.{◌≡◌, IfOk, chars, encode_utf8_all, string_bytes};
ghost use Rattle.upon_std.specs.Encoding.Truncating.{front, truncated};

use crate::encoding::columns::{fits, width};
use std::alloc::{AllocError, Global};

// A text cut to this many columns.
pub(crate) fn truncated(alloc: Global, text: &str, columns: usize) -> Result<String, AllocError>
    ensures { IfOk result (λ cut.
        string_bytes cut ≡ encode_utf8_all (truncated columns (chars text.now))) }
{
    if fits(text, columns) {
        return String::from_str(alloc, text);
    }
    if columns == 0 {
        return Ok(String::new(alloc));
    }
    let mut cut = front(alloc, text, columns - 1)?;
    cut.push('…')?;
    Ok(cut)
}

// The longest front of a text that takes no more than these columns.
fn front(alloc: Global, text: &str, columns: usize) -> Result<String, AllocError>
    ensures { IfOk result (λ cut.
        string_bytes cut ≡ encode_utf8_all (front columns (chars text.now))) }
{
    let mut cut = String::new(alloc);
    let mut left = columns;
    for character in text.chars() {
        let taken = width(character);
        if left < taken {
            return Ok(cut);
        }
        cut.push(character)?;
        left -= taken;
    }
    Ok(cut)
}
