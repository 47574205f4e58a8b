// What the words of a call say of its data, and which words are refused before anything is read.
ghost use Rattle.std.specs.Prelude.{◌≡◌, All, Contains, IfErr, IfNone, IfSome, IsNone, IsSome, OnOk, false, option_map, true};
ghost use Rattle.std.specs.List.{after_first, before_first, list_any};
ghost use Rattle.upon_tool_data.specs.Words.{asks_again, file_of, format_asked, format_for, has_equals, is_equals, is_input, is_key, is_folder_end, word_key, AreRightWords, IsWordFault};

use crate::fault::ContextFault;
use crate::sources::STANDARD;
use upon_data::format::Format;
use upon_tool_io::arguments::DataCall;

/// What a call says of its data.
#[derive(Clone, Copy)]
pub struct DataWords<'a, 'w> {
    /// Whether the variables of the environment are data, a map at the key `env`.
    pub env: bool,
    /// The words of `--data`, each `FILE` or `KEY=FILE`; the file `-` is standard input.
    pub files: &'w [&'a str],
    /// The name of the format that each file has; without one the file's name says it, or it is JSON.
    pub format: Option<&'a str>,
    /// The words of `--set-json`, each `PATH=JSON`.
    pub values: &'w [&'a str],
    /// The words of `--set`, each `PATH=TEXT`.
    pub texts: &'w [&'a str],
}

impl<'a, 'w> DataWords<'a, 'w> {
    ghost use Rattle.upon_tool_data.specs.Words.{AreWordsOf};

    /// Returns the words of a call's data.
    pub fn of(call: &'w DataCall<'a>) -> DataWords<'a, 'w>
        ensures { AreWordsOf call.entry.now result }
    {
        DataWords {
            env: call.env,
            files: call.files.as_slice(),
            format: call.format,
            values: call.set_json.as_slice(),
            texts: call.set.as_slice(),
        }
    }
}

/// Checks the words, before anything is read. Standard input can be a template's file too.
///
/// The error is `InputTwice` if standard input is asked for twice, and `LacksValue` or `LacksText` if a word that is
/// to set a value has no `=`.
pub fn check<'a>(words: &DataWords<'a, '_>, is_input_taken: bool) -> Result<(), ContextFault<'a>>
    ensures right { OnOk result (AreRightWords is_input_taken words.now.files.now words.now.values.now
        words.now.texts.now) }
    ensures refused { IfErr result (IsWordFault is_input_taken words.now.files.now words.now.values.now
        words.now.texts.now) }
{
    if asks_again(is_input_taken, words.files) {
        return Err(ContextFault::InputTwice);
    }
    if let Some(word) = without_equals(words.values) {
        return Err(ContextFault::LacksValue(word));
    }
    match without_equals(words.texts) {
        Some(word) => Err(ContextFault::LacksText(word)),
        None => Ok(()),
    }
}

/// Returns whether standard input is asked for by words of `--data`, and was before, or is twice.
pub(crate) fn asks_again(is_taken: bool, words: &[&str]) -> bool
    ensures { result ≡ asks_again is_taken words.now }
{
    let mut is_asked = is_taken;
    for word in words {
        let names_input = is_input(word);
        let is_twice = is_asked & names_input;
        if is_twice {
            return true;
        }
        is_asked |= names_input;
    }
    false
}

// Whether the file of a word of `--data` is standard input.
fn is_input(word: &str) -> bool
    ensures { result ≡ is_input word.now }
{
    let (_, name) = key_and_file(word);
    name == STANDARD
}

// The first of the words that has no `=`.
fn without_equals<'a>(words: &[&'a str]) -> Option<&'a str>
    ensures none { IfNone result (All (λ word. has_equals word.now ≡ true) words.now) }
    ensures some { IfSome result (λ word. Contains words.now word) }
    ensures lacks { IfSome result (λ word. has_equals word.now ≡ false) }
{
    for word in words {
        if !has_equals(word) {
            return Some(*word);
        }
    }
    None
}

// Whether a word has a `=`.
fn has_equals(word: &str) -> bool
    ensures { result ≡ has_equals word.now }
{
    parts(word).is_some()
}

/// Returns what is before the first `=` of a word, and what is after it.
pub(crate) fn parts<'w>(word: &'w str) -> Option<(&'w str, &'w str)>
    ensures before { IfSome result (λ parts. parts.0.now ≡ before_first is_equals word.entry.now) }
    ensures after { IfSome result (λ parts. parts.1.now ≡ after_first is_equals word.entry.now) }
    ensures some { IsSome result → has_equals word.entry.now ≡ true }
    ensures none { IsNone result → has_equals word.entry.now ≡ false }
{
    word.split_once('=')
}

/// Returns the key and the file of a word of `--data`. What is before its first `=` is the key, unless that is empty or
/// has a `/`; then the word is the file.
pub(crate) fn key_and_file<'w>(word: &'w str) -> (Option<&'w str>, &'w str)
    ensures key { option_map (λ key. key.now) result.0 ≡ word_key word.entry.now }
    ensures file { result.1.now ≡ file_of word.entry.now }
{
    match parts(word) {
        Some((key, file)) => {
            if is_key(key) {
                (Some(key), file)
            } else {
                (None, word)
            }
        }
        None => (None, word),
    }
}

// Whether a text can be the key of a file: it is not empty, and has no `/`.
fn is_key(text: &str) -> bool
    ensures { result ≡ is_key text.now }
{
    !text.is_empty() && !has_slash(text)
}

// Whether a text has a `/`.
fn has_slash(text: &str) -> bool
    ensures { result ≡ list_any is_folder_end text.now }
{
    text.as_bytes().contains(&b'/')
}

/// Returns the format of a name, if one is given.
pub(crate) fn format_asked(name: Option<&str>) -> Option<Format>
    ensures { result ≡ format_asked name.entry }
{
    match name {
        Some(name) => Format::of_name(name),
        None => None,
    }
}

/// Returns the format of a file: the one that is given for all, or the one that its name says, or JSON.
pub(crate) fn format_for(given: Option<Format>, name: &str) -> Format
    ensures { result ≡ format_for given name.now }
{
    match given {
        Some(format) => format,
        None => Format::of_path(name).unwrap_or(Format::Json),
    }
}
