// Texts that are filled up with blanks to a number of columns.
ghost use Rattle.std.specs.Prelude.{◌≡◌, IfOk, string_bytes};
ghost use Rattle.upon_std.specs.Encoding.Padding.{centered, padded_left, padded_right};

use crate::encoding::columns::columns_beside;
use std::alloc::{AllocError, Global};

// A text with blanks before it.
pub(crate) fn padded_left(alloc: Global, text: &str, columns: usize) -> Result<String, AllocError>
    ensures { IfOk result (λ padded. string_bytes padded ≡ padded_left columns text.now) }
{
    let mut padded = " ".repeat(alloc, columns_beside(text, columns))?;
    padded.push_str(text)?;
    Ok(padded)
}

// A text with blanks after it.
pub(crate) fn padded_right(alloc: Global, text: &str, columns: usize) -> Result<String, AllocError>
    ensures { IfOk result (λ padded. string_bytes padded ≡ padded_right columns text.now) }
{
    let blanks = " ".repeat(alloc, columns_beside(text, columns))?;
    let mut padded = String::from_str(alloc, text)?;
    padded.push_str(blanks.as_str())?;
    Ok(padded)
}

// A text with blanks on both sides.
pub(crate) fn centered(alloc: Global, text: &str, columns: usize) -> Result<String, AllocError>
    ensures { IfOk result (λ padded. string_bytes padded ≡ centered columns text.now) }
{
    let blanks = columns_beside(text, columns);
    let before = blanks / 2;
    let after = " ".repeat(alloc, blanks - before)?;
    let mut padded = " ".repeat(alloc, before)?;
    padded.push_str(text)?;
    padded.push_str(after.as_str())?;
    Ok(padded)
}
