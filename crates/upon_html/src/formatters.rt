// The formatter that escapes texts for HTML, and the one that leaves them as they are.
ghost use Rattle.std.specs.Prelude.{◌≡◌, ℕ, List, Option, option_map};
ghost use Rattle.upon_types.specs.Val.{Val};
ghost use Rattle.upon_types.specs.View.{view};
ghost use Rattle.upon_meaning_spec.specs.DefaultFormat.{default_format, format_text};
ghost use Rattle.upon_fmt.specs.Formatter.{Formats};
ghost use Rattle.upon_html.specs.Escape.{escape};
ghost use Rattle.upon_html.specs.Escaped.{escaped};
ghost use Rattle.upon_html.specs.Reference.{IsReferenceFor};

use upon_fmt::fmt;
use upon_fmt::fmt::{Format, Formatter};
use upon_types::value::Value;

/// The formatter that writes as [`fmt::default`] does, with `&`, `<`, `>`, `"` and `'` of texts as references.
#[derive(Clone, Copy, Debug)]
pub struct Escape;

impl Format for Escape {
    ghost formats = { λ _. escaped };

    fn format(&self, f: &mut Formatter, value: &Value) -> fmt::Result {
        match value {
            Value::String(text) => write_escaped(f, text.as_str()),
            Value::None | Value::Bool(_) | Value::Integer(_) | Value::List(_) | Value::Map(_) =>
                fmt::default(f, value),
        }
    }
}

/// The formatter that writes as [`fmt::default`] does, for texts that are markup already: the way round [`Escape`], to
/// be added under a name.
#[derive(Clone, Copy, Debug)]
pub struct Verbatim;

impl Format for Verbatim {
    ghost formats = { λ _. default_format };

    fn format(&self, f: &mut Formatter, value: &Value) -> fmt::Result {
        fmt::default(f, value)
    }
}

/// Appends a text, with `&`, `<`, `>`, `"` and `'` as references. What is between them is appended at once.
pub fn write_escaped(f: &mut Formatter, text: &str) -> fmt::Result
    ensures { Formats f.old f.new result (format_text (escape text.now)) }
{
    let bytes = text.as_bytes();
    let mut start = 0;
    for at in 0..bytes.len() {
        if let Some(reference) = reference(bytes[at]) {
            f.write_str(&text[start..at])?;
            f.write_str(reference)?;
            start = at + 1;
        }
    }
    f.write_str(&text[start..])
}

// The reference for a byte that may not stand as it is.
fn reference(byte: u8) -> Option<&'static str>
    ensures { IsReferenceFor byte result }
{
    match byte {
        b'&' => Some("&amp;"),
        b'<' => Some("&lt;"),
        b'>' => Some("&gt;"),
        b'"' => Some("&quot;"),
        b'\'' => Some("&#39;"),
        _ => None,
    }
}
