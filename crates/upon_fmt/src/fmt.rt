// Formatters: what writes a value as text.
ghost use Rattle.std.specs.Prelude.{◌≡◌, ◌++◌, List, ℕ, [], Some, None, true, false, IfOk, MatchOption, option_map, string_bytes, codes};
ghost use Rattle.std.specs.Fmt.{signed_decimal};
ghost use Rattle.std.specs.Char.{encode_utf8};
ghost use Rattle.upon_types.specs.Answers.{Formatted};
ghost use Rattle.upon_types.specs.Error.{reason_words};
ghost use Rattle.upon_types.specs.Val.{Val, kind_word};
ghost use Rattle.upon_types.specs.View.{view};
ghost use Rattle.upon_meaning_spec.specs.DefaultFormat.{default_format};
ghost use Rattle.upon_fmt.specs.Error.{message_of, error_text};
ghost use Rattle.upon_fmt.specs.Formatter.{text_of, is_marked, Writes, Formats};

use crate::message::{Message, Told};
use itoa::Buffer;
use std::alloc::{AllocError, Global};
use std::fmt;
use upon_types::error::cause::Cause;
use upon_types::error::reason::Reason;
use upon_types::value::Value;

/// What formatting ends with: well, or refused.
pub type Result = std::result::Result<(), Error>;

/// A formatter refuses, with a message or with none.
#[derive(Debug, Drop)]
pub struct Error {
    message: Message,
}

impl Error {
    /// Creates a refusal with a copy of a message. It fails if there is no memory for the copy.
    pub fn from_text(alloc: Global, message: &str) -> std::result::Result<Error, AllocError>
        ensures { IfOk result (λ error. message_of error ≡ Some message.now) }
    {
        let message = String::from_str(alloc, message)?;
        Ok(Error {
            message: Message::Text(message),
        })
    }

    /// Returns the message, if there is one.
    pub fn message(self) -> Option<String>
        ensures { option_map string_bytes result ≡ message_of self }
    {
        match self.message {
            Message::None => None,
            Message::Text(text) => Some(text),
            Message::Told(told) => Some(Box::into_inner(told).into_text()),
        }
    }

    /// Returns the message as the reason of a fault: its cause, if it is the default formatter's.
    pub fn into_reason(self) -> Reason
        ensures { reason_words result ≡ message_of self }
    {
        match self.message {
            Message::None => Reason::None,
            Message::Text(text) => Reason::Text(text),
            Message::Told(told) => Reason::Cause(Box::into_inner(told).into_cause()),
        }
    }
}

impl From<String> for Error {
    ghost from_gives = { λ message error. message_of error ≡ Some (string_bytes message) };

    fn from(message: String) -> Error {
        Error {
            message: Message::Text(message),
        }
    }
}

impl From<fmt::Error> for Error {
    ghost from_gives = { λ _ error. message_of error ≡ None };

    fn from(_: fmt::Error) -> Error {
        Error {
            message: Message::None,
        }
    }
}

impl fmt::Display for Error {
    ghost output = { λ error. Some (error_text error) };

    fn fmt<W: fmt::Write>(&self, f: &mut fmt::Formatter<W>) -> fmt::Result {
        match &self.message {
            Message::Text(text) => write!(f, "{text}"),
            Message::Told(told) => {
                let text = told.text();
                write!(f, "{text}")
            }
            Message::None => write!(f, "format error"),
        }
    }
}

impl std::error::Error for Error {}

/// A text that a formatter writes, and a mark that memory was refused. Once the mark is set, nothing is appended.
#[derive(Drop)]
pub struct Formatter {
    alloc: Global,
    buffer: String,
    is_marked: bool,
}

impl Formatter {
    /// No text so far, and no mark.
    pub fn new(alloc: Global) -> Formatter
        ensures text { text_of result ≡ [] }
        ensures mark { is_marked result ≡ false }
    {
        Formatter {
            alloc,
            buffer: String::new(alloc),
            is_marked: false,
        }
    }

    /// Returns what takes memory for the text.
    pub fn allocator(&self) -> Global {
        self.alloc
    }

    /// Appends a text, or sets the mark if there is no memory for it.
    pub fn write_str(&mut self, text: &str) -> Result
        ensures { Writes self.old self.new result text.now }
    {
        if self.is_marked {
            return Err(Error {
                message: Message::None,
            });
        }
        match self.buffer.push_str(text) {
            Ok(()) => Ok(()),
            Err(_) => {
                self.out_of_memory();
                Err(Error {
                    message: Message::None,
                })
            }
        }
    }

    /// Appends a character, or sets the mark if there is no memory for it.
    pub fn write_char(&mut self, character: char) -> Result
        ensures { Writes self.old self.new result (encode_utf8 character) }
    {
        if self.is_marked {
            return Err(Error {
                message: Message::None,
            });
        }
        match self.buffer.push(character) {
            Ok(()) => Ok(()),
            Err(_) => {
                self.out_of_memory();
                Err(Error {
                    message: Message::None,
                })
            }
        }
    }

    /// Sets the mark: a formatter's own growth was refused.
    pub fn out_of_memory(&mut self)
        ensures mark { is_marked self.new ≡ true }
        ensures text { text_of self.new ≡ text_of self.old }
    {
        self.is_marked = true;
    }

    /// Takes the text and the mark away. What memory there is for a text stays.
    pub fn clear(&mut self)
        ensures text { text_of self.new ≡ [] }
        ensures mark { is_marked self.new ≡ false }
    {
        self.buffer.clear();
        self.is_marked = false;
    }

    /// Returns the text, or `None` if the mark is set.
    pub fn text(&self) -> Option<&str>
        ensures { MatchOption
            result
            (is_marked self.now ≡ true)
            (λ text. (is_marked self.now ≡ false) × (text.now ≡ text_of self.now)) }
    {
        if self.is_marked {
            return None;
        }
        Some(self.buffer.as_str())
    }

    /// Returns the text, or `None` if the mark is set.
    pub fn into_text(self) -> Option<String>
        ensures { MatchOption
            result
            (is_marked self ≡ true)
            (λ text. (is_marked self ≡ false) × (string_bytes text ≡ text_of self)) }
    {
        if self.is_marked {
            return None;
        }
        Some(self.buffer)
    }
}

/// What writes a value as text.
pub trait Format: Drop {
    // What it writes for a value, and how that ends.
    ghost formats: { Self → Val → Formatted };

    /// Appends the text of a value. If the formatter's mark is set afterwards, memory was out, and nothing else is
    /// said.
    fn format(&self, f: &mut Formatter, value: &Value) -> Result
        ensures { Formats f.old f.new result (formats self.now (view value.now)) };
}

/// Writes nothing for no value, `true` or `false`, an integer in decimal, and a text as it is.
///
/// It refuses a list and a map, with a message.
pub fn default(f: &mut Formatter, value: &Value) -> Result
    ensures { Formats f.old f.new result (default_format (view value.now)) }
{
    match value {
        Value::None => Ok(()),
        Value::Bool(true) => f.write_str("true"),
        Value::Bool(false) => f.write_str("false"),
        Value::Integer(number) => write_number(f, *number),
        Value::String(text) => f.write_str(text.as_str()),
        Value::List(_) | Value::Map(_) => Err(unformattable(f, value)),
    }
}

/// The formatter that writes as [`default`] does.
#[derive(Clone, Copy, Debug)]
pub struct DefaultFormat;

impl Format for DefaultFormat {
    ghost formats = { λ _. default_format };

    fn format(&self, f: &mut Formatter, value: &Value) -> Result {
        default(f, value)
    }
}

// An integer in decimal.
fn write_number(f: &mut Formatter, number: i64) -> Result
    ensures { Writes f.old f.new result (signed_decimal number) }
{
    let mut digits = Buffer::new();
    f.write_str(digits.format(number))
}

// The refusal of a value that has no text.
fn unformattable(f: &mut Formatter, value: &Value) -> Error
    ensures kept { text_of f.new ≡ text_of f.old }
    ensures message { is_marked f.new ≡ false
        → (is_marked f.old ≡ false)
        × (message_of result
        ≡ Some (codes "expression evaluated to unformattable type " ++ kind_word (view value.now))) }
{
    match Told::new(f.alloc, Cause::Unformattable(value.kind())) {
        Ok(told) => Error {
            message: Message::Told(told),
        },
        Err(_) => {
            f.out_of_memory();
            Error {
                message: Message::None,
            }
        }
    }
}
