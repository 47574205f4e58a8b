// The formats that data are read of.
ghost use Rattle.std.specs.Prelude.{◌≡◌, false, IfOk, IfErr};
ghost use Rattle.upon_types.specs.View.{view};
ghost use Rattle.upon_data.specs.Fault.{is_data_memory};
ghost use Rattle.upon_data.specs.Format.{HasNoValue, IsValueIn, format_named, format_of_path, has_ending};

use crate::document::document;
use crate::fault::DataFault;
use crate::lines::{json, lines};
use crate::table::table;
use std::alloc::Global;
use upon_types::value::Value;

/// A format of texts that are data.
#[derive(Clone, Copy, Debug, PartialEq, Eq, Drop)]
pub enum Format {
    /// JSON (RFC 8259).
    Json,
    /// A value of JSON in each line.
    JsonLines,
    /// CSV (RFC 4180), with a head line.
    Csv,
    /// TOML 1.1.
    Toml,
}

impl Format {
    /// Returns the format of a name: `json`, `jsonl`, `csv` or `toml`.
    pub fn of_name(word: &str) -> Option<Format>
        ensures { result ≡ format_named word.now }
    {
        match word {
            "json" => Some(Format::Json),
            "jsonl" => Some(Format::JsonLines),
            "csv" => Some(Format::Csv),
            "toml" => Some(Format::Toml),
            _ => None,
        }
    }

    /// Returns the format of the file at a path, by what the path ends with: `.json`, `.jsonl` or `.ndjson`, `.csv` or
    /// `.toml`, in letters of either case.
    pub fn of_path(path: &str) -> Option<Format>
        ensures { result ≡ format_of_path path.now }
    {
        if has_ending(path, b".json") {
            Some(Format::Json)
        } else if has_ending(path, b".jsonl") || has_ending(path, b".ndjson") {
            Some(Format::JsonLines)
        } else if has_ending(path, b".csv") {
            Some(Format::Csv)
        } else if has_ending(path, b".toml") {
            Some(Format::Toml)
        } else {
            None
        }
    }
}

// Whether a path ends with these letters, of either case. They are given as small ones.
fn has_ending(path: &str, ending: &[u8]) -> bool
    ensures { result ≡ has_ending path.now ending.now }
{
    let start = path.len().saturating_sub(ending.len());
    path.as_bytes()[start..].eq_ignore_ascii_case(ending)
}

/// Returns the value of a text of a format, passing over a byte order mark at its begin: of JSON any value, of lines
/// of JSON and of CSV a list, of TOML a map. `lines`, `table` and `document` say more of each.
///
/// The error is `Refused` if the text is not of the format, and `OutOfMemory`.
pub fn read(alloc: Global, format: Format, text: &str) -> Result<Value, DataFault>
    ensures read { IfOk result (λ v. IsValueIn format text.now (view v)) }
    ensures refused { IfErr result (λ fault. is_data_memory fault ≡ false → HasNoValue format text.now) }
{
    match format {
        Format::Json => json(alloc, text),
        Format::JsonLines => lines(alloc, text),
        Format::Csv => table(alloc, text),
        Format::Toml => document(alloc, text),
    }
}
