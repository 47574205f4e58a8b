// The functions of this crate under one type, each with the name under which templates call it.
ghost use Rattle.std.specs.Prelude.{◌≡◌};

use crate::encoding::callables::{
    Center, EncodeBase64, EncodeUrl, Made, PadLeft, PadRight, Padded, Token, Truncate, WriteJson,
    WriteShell, WriteYaml,
};
use std::alloc::Global;
use upon_functions::function::{CallError, Function};
use upon_functions::{Fn1, Fn1S, Fn1V, Fn2SO};
use upon_types::value::{Value, ValueCow};

/// A function that writes a value for another reader. [`ALL`] has each of them.
#[derive(Clone, Copy)]
pub enum Writing {
    /// `json(a)` returns the text of JSON that a value is, with no white space: texts in double quotes, and maps with
    /// their keys in order.
    Json,
    /// `shell(a)` returns the text as one word of a POSIX shell, in single quotes. It refuses a text with U+0000.
    Shell,
    /// `yaml(a)` returns the text as the content of a double-quoted scalar of YAML: what is between the quotes.
    Yaml,
    /// `url(a)` returns the text as a part of a URL: each byte of its UTF-8 but letters, digits and `-._~` is `%` and
    /// two hexadecimal digits.
    Url,
    /// `base64(a)` returns the UTF-8 of the text in base64, with padding.
    Base64,
    /// `truncate(a, n)` returns the text if it takes no more than so many columns, else the longest front of it with
    /// `…` after it that does.
    Truncate,
    /// `pad_left(a, n)` returns the text with blanks before it, up to so many columns. It takes at most 10000.
    PadLeft,
    /// `pad_right(a, n)` returns the text with blanks after it, up to so many columns. It takes at most 10000.
    PadRight,
    /// `center(a, n)` returns the text with blanks on both sides, up to so many columns, with one more after it when
    /// their number is odd. It takes at most 10000.
    Center,
}

impl Function for Writing {
    ghost use Rattle.upon_std.specs.Encoding.Writing.{writing_answer};

    ghost answers = { writing_answer };

    fn call(&self, alloc: Global, args: &[ValueCow]) -> Result<Value, CallError> {
        match *self {
            Writing::Json => Fn1V::<WriteJson, Made>::new(WriteJson).call(alloc, args),
            Writing::Shell => Fn1::<WriteShell, String, Token>::new(WriteShell).call(alloc, args),
            Writing::Yaml => Fn1::<WriteYaml, String, Token>::new(WriteYaml).call(alloc, args),
            Writing::Url => Fn1S::<EncodeUrl, Made>::new(EncodeUrl).call(alloc, args),
            Writing::Base64 => Fn1S::<EncodeBase64, Made>::new(EncodeBase64).call(alloc, args),
            Writing::Truncate => Fn2SO::<Truncate, usize, Made>::new(Truncate).call(alloc, args),
            Writing::PadLeft => Fn2SO::<PadLeft, usize, Padded>::new(PadLeft).call(alloc, args),
            Writing::PadRight => Fn2SO::<PadRight, usize, Padded>::new(PadRight).call(alloc, args),
            Writing::Center => Fn2SO::<Center, usize, Padded>::new(Center).call(alloc, args),
        }
    }
}

impl Writing {
    ghost use Rattle.upon_std.specs.Encoding.Writing.{writing_name};

    /// Returns the name under which templates call the function.
    pub fn name(self) -> &'static str
        ensures { result.now ≡ writing_name self }
    {
        match self {
            Writing::Json => "json",
            Writing::Shell => "shell",
            Writing::Yaml => "yaml",
            Writing::Url => "url",
            Writing::Base64 => "base64",
            Writing::Truncate => "truncate",
            Writing::PadLeft => "pad_left",
            Writing::PadRight => "pad_right",
            Writing::Center => "center",
        }
    }
}

/// Each function of this crate, once.
pub const ALL: [Writing; 9] = [
    Writing::Json,
    Writing::Shell,
    Writing::Yaml,
    Writing::Url,
    Writing::Base64,
    Writing::Truncate,
    Writing::PadLeft,
    Writing::PadRight,
    Writing::Center,
];
