// The formatter of values that are written into another language.
use upon_fmt::fmt::{self, Format, Formatter};
use upon_html::formatters::Escape as Html;
use upon_quote::json::Json;
use upon_quote::shell::Shell;
use upon_quote::yaml::Yaml;
use upon_types::value::Value;

/// A language into which values are written.
#[derive(Clone, Copy, Debug, PartialEq, Eq)]
pub enum Language {
    /// HTML.
    Html,
    /// JSON.
    Json,
    /// The words of a shell.
    Shell,
    /// YAML.
    Yaml,
}

impl Language {
    ghost use Rattle.std.specs.Prelude.{◌≡◌};
    ghost use Rattle.upon_calls.specs.Escaping.{language_in};

    /// Returns the language of a word.
    pub(crate) fn of_word(word: &str) -> Option<Language>
        ensures { result ≡ language_in word.now }
    {
        if word == "html" {
            Some(Language::Html)
        } else if word == "json" {
            Some(Language::Json)
        } else if word == "shell" {
            Some(Language::Shell)
        } else if word == "yaml" {
            Some(Language::Yaml)
        } else {
            None
        }
    }
}

/// A formatter that writes each value so that it ends nothing of a language's text.
#[derive(Clone, Copy)]
pub struct Escaping {
    /// The language.
    pub language: Language,
}

impl Format for Escaping {
    ghost use Rattle.upon_calls.specs.Escaping.{language_format};

    ghost formats = { λ e. language_format e.language };

    fn format(&self, f: &mut Formatter, value: &Value) -> fmt::Result {
        match self.language {
            Language::Html => Html.format(f, value),
            Language::Json => Json.format(f, value),
            Language::Shell => Shell.format(f, value),
            Language::Yaml => Yaml.format(f, value),
        }
    }
}
