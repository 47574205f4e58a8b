// The functions of the language, as callables of arguments that fit.
use crate::encoding::encodings::{base64_text, url_text};
use crate::encoding::json_text::json_text;
use crate::encoding::padding::{centered, padded_left, padded_right};
use crate::encoding::tokens::written_by;
use crate::encoding::truncating::truncated;
use std::alloc::{AllocError, Global};
use upon_functions::{Call1, Call1S, Call1V, Call2SO};
use upon_quote::shell::Shell;
use upon_quote::yaml::Yaml;
use upon_types::value::Value;

// A text that is made.
pub(crate) type Made = Result<String, AllocError>;

// A text that is filled up, or the refusal.
pub(crate) type Padded = Result<Result<String, &'static str>, AllocError>;

// A token, or the message of the refusal.
pub(crate) type Token = Result<Result<String, String>, AllocError>;

// The most columns that a text is filled up to.
const MOST_COLUMNS: usize = 10_000;

// The refusal of more columns.
const TOO_MANY: &str = "pad takes at most 10000 columns";

// A text with blanks before it.
#[derive(Drop)]
pub(crate) struct PadLeft;

impl Call2SO<usize, Padded> for PadLeft {
    ghost use Rattle.upon_std.specs.Encoding.Outcomes.{padding_outcome};
    ghost use Rattle.upon_std.specs.Encoding.Padding.{padded_left};

    ghost meaning = { λ _. padding_outcome padded_left };

    fn call(&self, alloc: Global, first: &str, second: usize) -> Padded {
        if MOST_COLUMNS < second {
            return Ok(Err(TOO_MANY));
        }
        Ok(Ok(padded_left(alloc, first, second)?))
    }
}

// A text with blanks after it.
#[derive(Drop)]
pub(crate) struct PadRight;

impl Call2SO<usize, Padded> for PadRight {
    ghost use Rattle.upon_std.specs.Encoding.Outcomes.{padding_outcome};
    ghost use Rattle.upon_std.specs.Encoding.Padding.{padded_right};

    ghost meaning = { λ _. padding_outcome padded_right };

    fn call(&self, alloc: Global, first: &str, second: usize) -> Padded {
        if MOST_COLUMNS < second {
            return Ok(Err(TOO_MANY));
        }
        Ok(Ok(padded_right(alloc, first, second)?))
    }
}

// A text with blanks on both sides.
#[derive(Drop)]
pub(crate) struct Center;

impl Call2SO<usize, Padded> for Center {
    ghost use Rattle.upon_std.specs.Encoding.Outcomes.{padding_outcome};
    ghost use Rattle.upon_std.specs.Encoding.Padding.{centered};

    ghost meaning = { λ _. padding_outcome centered };

    fn call(&self, alloc: Global, first: &str, second: usize) -> Padded {
        if MOST_COLUMNS < second {
            return Ok(Err(TOO_MANY));
        }
        Ok(Ok(centered(alloc, first, second)?))
    }
}

// A text that takes no more than a number of columns.
#[derive(Drop)]
pub(crate) struct Truncate;

impl Call2SO<usize, Made> for Truncate {
    ghost use Rattle.upon_std.specs.Encoding.Outcomes.{truncate_outcome};

    ghost meaning = { λ _. truncate_outcome };

    fn call(&self, alloc: Global, first: &str, second: usize) -> Made {
        truncated(alloc, first, second)
    }
}

// A text as a part of a URL.
#[derive(Drop)]
pub(crate) struct EncodeUrl;

impl Call1S<Made> for EncodeUrl {
    ghost use Rattle.upon_std.specs.Encoding.Outcomes.{encoding_outcome};
    ghost use Rattle.upon_std.specs.Encoding.Url.{url_text};

    ghost meaning = { λ _. encoding_outcome url_text };

    fn call(&self, alloc: Global, first: &str) -> Made {
        url_text(alloc, first)
    }
}

// A text in base64.
#[derive(Drop)]
pub(crate) struct EncodeBase64;

impl Call1S<Made> for EncodeBase64 {
    ghost use Rattle.base64.specs.Engines.{standard};
    ghost use Rattle.base64.specs.GeneralPurpose.{encode_of};
    ghost use Rattle.upon_std.specs.Encoding.Outcomes.{encoding_outcome};

    ghost meaning = { λ _. encoding_outcome (encode_of standard) };

    fn call(&self, alloc: Global, first: &str) -> Made {
        base64_text(alloc, first)
    }
}

// A text as one word of a shell.
#[derive(Drop)]
pub(crate) struct WriteShell;

impl Call1<String, Token> for WriteShell {
    ghost use Rattle.upon_quote.specs.Tokens.{shell_format};
    ghost use Rattle.upon_std.specs.Encoding.Tokens.{token_outcome};

    ghost meaning = { λ _. token_outcome shell_format };

    fn call(&self, alloc: Global, first: String) -> Token {
        written_by(alloc, &Shell, &Value::String(first))
    }
}

// A text as the content of a scalar of YAML.
#[derive(Drop)]
pub(crate) struct WriteYaml;

impl Call1<String, Token> for WriteYaml {
    ghost use Rattle.upon_quote.specs.Tokens.{yaml_format};
    ghost use Rattle.upon_std.specs.Encoding.Tokens.{token_outcome};

    ghost meaning = { λ _. token_outcome yaml_format };

    fn call(&self, alloc: Global, first: String) -> Token {
        written_by(alloc, &Yaml, &Value::String(first))
    }
}

// A value as a text of JSON.
#[derive(Drop)]
pub(crate) struct WriteJson;

impl Call1V<Made> for WriteJson {
    ghost use Rattle.upon_std.specs.Encoding.Outcomes.{json_outcome};

    ghost meaning = { λ _. json_outcome };

    fn call(&self, alloc: Global, first: &Value) -> Made {
        json_text(alloc, first)
    }
}
