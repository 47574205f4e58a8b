// Texts as other characters: with percent signs for URLs, and in base64.
ghost use Rattle.std.specs.Prelude.{◌≡◌, ◌++◌, ◌<◌, true, IfOk, OnOk, string_bytes};
ghost use Rattle.std.specs.Fmt.{digit_glyph};
ghost use Rattle.base64.specs.Engines.{standard};
ghost use Rattle.base64.specs.GeneralPurpose.{encode_of};
ghost use Rattle.upon_std.specs.Encoding.Url.{is_unreserved, url_byte, url_text};

use base64::engine::general_purpose::STANDARD;
use std::alloc::{AllocError, Global};

// A text in base64, with padding.
pub(crate) fn base64_text(alloc: Global, text: &str) -> Result<String, AllocError>
    ensures { IfOk result (λ made. string_bytes made ≡ encode_of standard text.now) }
{
    STANDARD.encode(alloc, text.as_bytes())
}

// A text as a part of a URL, with each byte that is reserved as `%` and two digits.
pub(crate) fn url_text(alloc: Global, text: &str) -> Result<String, AllocError>
    ensures { IfOk result (λ made. string_bytes made ≡ url_text text.now) }
{
    let mut made = String::new(alloc);
    for byte in text.bytes() {
        push_byte(&mut made, byte)?;
    }
    Ok(made)
}

// Appends a byte, or `%` and its digits.
fn push_byte(made: &mut String, byte: u8) -> Result<(), AllocError>
    ensures { OnOk result (string_bytes made.new ≡ string_bytes made.old ++ url_byte byte) }
{
    if is_unreserved(byte) {
        return made.push(char::from(byte));
    }
    made.push('%')?;
    made.push(upper_digit(byte / 16))?;
    made.push(upper_digit(byte % 16))
}

// Whether a byte may stand for itself everywhere in a URL.
fn is_unreserved(byte: u8) -> bool
    ensures { result ≡ is_unreserved byte }
{
    byte.is_ascii_alphanumeric() || matches!(byte, b'-' | b'.' | b'_' | b'~')
}

// A hexadecimal digit, in upper case.
fn upper_digit(digit: u8) -> char
    requires { digit < 16 }
    ensures { result ≡ digit_glyph true digit }
{
    if digit < 10 {
        char::from(b'0' + digit)
    } else {
        char::from(b'A' + (digit - 10))
    }
}
