// The formatter that writes the content of a JSON string.
ghost use Rattle.upon_quote.specs.Json.{json_escape_of};
ghost use Rattle.upon_quote.specs.Tokens.{json_format};

use crate::escapes::{Escape, Language, write_quoted};
use upon_fmt::fmt;
use upon_fmt::fmt::{Format, Formatter};
use upon_types::value::Value;

/// The formatter that writes as [`fmt::default`] does, with texts as the content of a JSON string: what stands between
/// its quotes (RFC 8259, section 7).
#[derive(Clone, Copy, Debug)]
pub struct Json;

impl Language for Json {
    ghost escape_of = { json_escape_of };

    fn escape(character: char) -> Option<Escape> {
        match character {
            '"' => Some(Escape::Text("\\\"")),
            '\\' => Some(Escape::Text("\\\\")),
            '\u{8}' => Some(Escape::Text("\\b")),
            '\t' => Some(Escape::Text("\\t")),
            '\n' => Some(Escape::Text("\\n")),
            '\u{c}' => Some(Escape::Text("\\f")),
            '\r' => Some(Escape::Text("\\r")),
            '\0'..='\u{1f}' | '\u{2028}' | '\u{2029}' => Some(Escape::FourDigits),
            _ => None,
        }
    }
}

impl Format for Json {
    ghost formats = { λ _. json_format };

    fn format(&self, f: &mut Formatter, value: &Value) -> fmt::Result {
        match value {
            Value::String(text) => write_quoted::<Json>(f, text.as_str()),
            Value::None | Value::Bool(_) | Value::Integer(_) | Value::List(_) | Value::Map(_) =>
                fmt::default(f, value),
        }
    }
}
