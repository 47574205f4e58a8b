// The text of an integer whose last places stand after a point.
ghost use Rattle.std.specs.Prelude.{◌≡◌, ◌≤◌, ◌++◌, IfOk, OnOk, string_bytes};
ghost use Rattle.std.specs.Fmt.{decimal, sign_text};
ghost use Rattle.upon_std.specs.Basic.Decimal.{decimal_text, last_digits, most_places};

use std::alloc::{AllocError, Global};

// The text of an integer with this many places after the point.
pub(crate) fn text_with_places(
    alloc: Global,
    number: i64,
    places: u32,
) -> Result<String, AllocError>
    requires { places ≤ most_places }
    ensures { IfOk result (λ text. string_bytes text ≡ decimal_text number places) }
{
    let size = number.unsigned_abs();
    let mut text = whole_part(alloc, number < 0, size / 10_u64.pow(places))?;
    if places == 0 {
        return Ok(text);
    }
    text.push('.')?;
    push_last_digits(&mut text, size, places)?;
    Ok(text)
}

// What stands before the point.
fn whole_part(alloc: Global, is_negative: bool, whole: u64) -> Result<String, AllocError>
    ensures { IfOk result (λ text. string_bytes text ≡ sign_text is_negative ++ decimal whole) }
{
    if is_negative {
        format!(in alloc; "-{whole}")
    } else {
        format!(in alloc; "{whole}")
    }
}

// Appends the digits of a number at its last places.
fn push_last_digits(text: &mut String, size: u64, places: u32) -> Result<(), AllocError>
    requires { places ≤ most_places }
    ensures { OnOk result (string_bytes text.new ≡ string_bytes text.old ++ last_digits places size) }
{
    let mut left = places;
    while 0 < left {
        left -= 1;
        let digit = size / 10_u64.pow(left) % 10;
        text.push(char::from(b'0' + digit as u8))?;
    }
    Ok(())
}
