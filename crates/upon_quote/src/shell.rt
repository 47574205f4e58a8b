// The formatter that writes one word of a POSIX shell.
ghost use Rattle.upon_fmt.specs.Formatter.{Formats};
ghost use Rattle.upon_quote.specs.Shell.{has_nul, shell_escape_of};
ghost use Rattle.upon_quote.specs.Tokens.{no_word, one_shell_word, shell_format};

use crate::escapes::{Escape, Language, write_quoted};
use upon_fmt::fmt;
use upon_fmt::fmt::{Format, Formatter};
use upon_types::value::Value;

/// The formatter that writes a value as one word of a POSIX shell, in single quotes (POSIX.1-2017, Shell Command
/// Language, section 2.2.2): of a text, or of what [`fmt::default`] writes.
///
/// It refuses a list and a map as that does, and a text with U+0000, which no word can hold.
#[derive(Clone, Copy, Debug)]
pub struct Shell;

impl Language for Shell {
    ghost escape_of = { shell_escape_of };

    fn escape(character: char) -> Option<Escape> {
        match character {
            '\'' => Some(Escape::Text("'\\''")),
            _ => None,
        }
    }
}

impl Format for Shell {
    ghost formats = { λ _. shell_format };

    fn format(&self, f: &mut Formatter, value: &Value) -> fmt::Result {
        match value {
            Value::String(text) => write_word(f, text.as_str()),
            Value::None | Value::Bool(_) | Value::Integer(_) => {
                f.write_str("'")?;
                fmt::default(f, value)?;
                f.write_str("'")
            }
            Value::List(_) | Value::Map(_) => fmt::default(f, value),
        }
    }
}

// Appends a text as one word of a shell.
fn write_word(f: &mut Formatter, text: &str) -> fmt::Result
    ensures { Formats f.old f.new result (one_shell_word (has_nul text.now) text.now) }
{
    if text.as_bytes().contains(&0) {
        return refuse_word(f);
    }
    f.write_str("'")?;
    write_quoted::<Shell>(f, text)?;
    f.write_str("'")
}

// Refuses a text that no word can hold.
fn refuse_word(f: &mut Formatter) -> fmt::Result
    ensures { Formats f.old f.new result no_word }
{
    match fmt::Error::from_text(f.allocator(), "a shell word cannot hold U+0000") {
        Ok(error) => Err(error),
        Err(_) => {
            f.out_of_memory();
            Err(std::fmt::Error.into())
        }
    }
}
