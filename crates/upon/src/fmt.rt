// What writes values as text.
pub use upon_fmt::fmt::{DefaultFormat, Error, Format, Formatter, Result, default};
