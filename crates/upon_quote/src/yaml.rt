// The formatter that writes the content of a double-quoted scalar of YAML.
ghost use Rattle.upon_quote.specs.Tokens.{yaml_format};
ghost use Rattle.upon_quote.specs.Yaml.{yaml_escape_of};

use crate::escapes::{Escape, Language, write_quoted};
use upon_fmt::fmt;
use upon_fmt::fmt::{Format, Formatter};
use upon_types::value::Value;

/// The formatter that writes as [`fmt::default`] does, with texts as the content of a double-quoted scalar of YAML:
/// what stands between its quotes, on one line (YAML 1.2.2, section 7.3.1).
#[derive(Clone, Copy, Debug)]
pub struct Yaml;

impl Language for Yaml {
    ghost escape_of = { yaml_escape_of };

    fn escape(character: char) -> Option<Escape> {
        match character {
            '"' => Some(Escape::Text("\\\"")),
            '\\' => Some(Escape::Text("\\\\")),
            '\0' => Some(Escape::Text("\\0")),
            '\t' => Some(Escape::Text("\\t")),
            '\n' => Some(Escape::Text("\\n")),
            '\r' => Some(Escape::Text("\\r")),
            '\0'..='\u{1f}' | '\u{7f}'..='\u{a0}' => Some(Escape::TwoDigits),
            '\u{2028}' | '\u{2029}' | '\u{feff}' | '\u{fffe}' | '\u{ffff}' => Some(
                Escape::FourDigits,
            ),
            _ => None,
        }
    }
}

impl Format for Yaml {
    ghost formats = { λ _. yaml_format };

    fn format(&self, f: &mut Formatter, value: &Value) -> fmt::Result {
        match value {
            Value::String(text) => write_quoted::<Yaml>(f, text.as_str()),
            Value::None | Value::Bool(_) | Value::Integer(_) | Value::List(_) | Value::Map(_) =>
                fmt::default(f, value),
        }
    }
}
