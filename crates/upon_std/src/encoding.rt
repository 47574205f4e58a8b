// Functions that write values for other readers: in columns, as tokens of other languages, and as JSON. An engine
// begins without functions; its user adds those wanted.

mod callables;
mod columns;
mod encodings;
mod json_text;
pub mod laws;
mod padding;
mod tokens;
mod truncating;
pub mod writing;
