// Why a text is no JSON, and where.
use serde::{Deserialize, Deserializer, Format};
use std::alloc::Global;
use std::fmt;

/// Why a text is no JSON, and where. `{}` writes it in a line, with line and column.
#[derive(Drop)]
pub enum Refusal {
    /// What serde_json says of the text.
    Said(serde_json::Error),
    /// Lists and objects nest deeper than 128; the first that does begins here.
    TooDeep(Place),
    /// It is no JSON; reading it stopped here.
    NotJson(Place),
}

impl fmt::Display for Refusal {
    fn fmt<W: fmt::Write>(&self, f: &mut fmt::Formatter<W>) -> fmt::Result {
        match self {
            Refusal::Said(error) => write!(f, "{error}"),
            Refusal::TooDeep(place) => write!(f, "nested too deep at {place}"),
            Refusal::NotJson(place) => write!(f, "not JSON at {place}"),
        }
    }
}

/// A place in a text.
#[derive(Clone, Copy, Drop)]
pub struct Place {
    /// The line, from 1.
    pub line: usize,
    /// The column in the line, in bytes, from 1.
    pub column: usize,
}

impl Place {
    /// Returns the place that lies an offset, in bytes, into a text.
    pub fn at(text: &str, offset: usize) -> Place {
        let mut place = Place { line: 1, column: 1 };
        for byte in text.as_bytes().iter().take(offset) {
            place = place.after(*byte);
        }
        place
    }

    fn after(self, byte: u8) -> Place {
        if byte == b'\n' {
            Place {
                line: self.line.saturating_add(1),
                column: 1,
            }
        } else {
            Place {
                line: self.line,
                column: self.column.saturating_add(1),
            }
        }
    }
}

impl fmt::Display for Place {
    fn fmt<W: fmt::Write>(&self, f: &mut fmt::Formatter<W>) -> fmt::Result {
        write!(f, "line {} column {}", self.line, self.column)
    }
}

/// JSON that is passed over.
#[derive(Drop)]
struct Passed;

impl<'de> Deserialize<'de> for Passed {
    fn deserialize<F: Format>(
        _: Global,
        from: &mut Deserializer<'de, '_, F>,
    ) -> Result<Passed, F::Error> {
        from.skip()?;
        Ok(Passed)
    }
}

/// Returns what serde_json says of a text that is no JSON; `None` if it takes the text.
pub fn said_of(alloc: Global, text: &str) -> Option<serde_json::Error> {
    let passed: Result<Passed, serde_json::Error> = serde_json::from_str(alloc, text);
    passed.err()
}
