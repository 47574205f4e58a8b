// How texts are written in which some characters may not stand for themselves.
ghost use Rattle.std.specs.Prelude.{◌≡◌, ◌%◌, ℕ, List, Option};
ghost use Rattle.std.specs.Char.{digit_char};
ghost use Rattle.upon_meaning_spec.specs.DefaultFormat.{format_text};
ghost use Rattle.upon_fmt.specs.Formatter.{Formats};
ghost use Rattle.upon_quote.specs.Escape.{escape_text, IsEscapeFor};
ghost use Rattle.upon_quote.specs.Hex.{two_digits};
ghost use Rattle.upon_quote.specs.Tokens.{quoted_bytes};

use upon_fmt::fmt;
use upon_fmt::fmt::Formatter;

/// What is written for a character that may not stand for itself.
#[derive(Clone, Copy)]
pub(crate) enum Escape {
    /// This text.
    Text(&'static str),
    /// `\x` and two hexadecimal digits.
    TwoDigits,
    /// `\u` and four hexadecimal digits.
    FourDigits,
}

/// A language with tokens that hold texts.
pub(crate) trait Language {
    /// How it writes each character that may not stand for itself.
    ghost escape_of: { ℕ → Option (List ℕ) };

    /// Returns the escape of a character that may not stand for itself.
    fn escape(character: char) -> Option<Escape>
        ensures { IsEscapeFor character result (escape_of character) };
}

/// Appends a text with the escapes of a language. What is between them is appended at once.
pub(crate) fn write_quoted<L: Language>(f: &mut Formatter, text: &str) -> fmt::Result
    ensures { Formats f.old f.new result (format_text (quoted_bytes L.escape_of text.now)) }
{
    let mut start = 0;
    for (at, character) in text.char_indices() {
        if let Some(escape) = L::escape(character) {
            f.write_str(&text[start..at])?;
            write_escape(f, character, escape)?;
            start = at + character.len_utf8();
        }
    }
    f.write_str(&text[start..])
}

// Appends an escape of a character.
fn write_escape(f: &mut Formatter, character: char, escape: Escape) -> fmt::Result
    ensures { Formats f.old f.new result (format_text (escape_text character escape)) }
{
    let code = u32::from(character);
    match escape {
        Escape::Text(text) => f.write_str(text),
        Escape::TwoDigits => {
            f.write_str("\\x")?;
            write_two_digits(f, code)
        }
        Escape::FourDigits => {
            f.write_str("\\u")?;
            write_two_digits(f, code / 256)?;
            write_two_digits(f, code)
        }
    }
}

// Appends the last two hexadecimal digits of a number.
fn write_two_digits(f: &mut Formatter, number: u32) -> fmt::Result
    ensures { Formats f.old f.new result (format_text (two_digits number)) }
{
    f.write_char(last_digit(number / 16))?;
    f.write_char(last_digit(number))
}

// The last hexadecimal digit of a number.
fn last_digit(number: u32) -> char
    ensures { result ≡ digit_char (number % 16) }
{
    char::from_digit(number % 16, 16).unwrap()
}
