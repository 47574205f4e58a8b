// The text of a name in a template.
ghost use Rattle.std.specs.Prelude.{◌≡◌, IfOk};

use arrayvec::ArrayString;
use std::alloc::{AllocError, Global};
use std::marker::Model;

// How many bytes a short name has at most: so many as make it as large as a `String`.
const SHORT: usize = 16;

// The bytes of a name.
#[derive(Debug, Drop)]
enum Text {
    // They lie in the name itself.
    Short(ArrayString<SHORT>),
    // They have memory of their own.
    Long(String),
}

/// The text of a name. A short one takes no memory of its own.
#[derive(Debug, Drop)]
pub struct Name {
    text: Text,
}

impl Model for Name {
    ghost use Rattle.std.specs.Prelude.{ℕ, List};

    ghost Value = { List ℕ };

    ghost use Rattle.upon_types.specs.Name.{text_bytes};

    ghost view = { λ name. text_bytes name.text };
}

impl Name {
    /// Creates the name of a text. It fails if there is no memory for a long one.
    pub fn from_str(alloc: Global, text: &str) -> Result<Name, AllocError>
        ensures { IfOk result (λ name. name ≡ text.now) }
    {
        let text = match ArrayString::from(text) {
            Ok(short) => Text::Short(short),
            Err(_) => Text::Long(String::from_str(alloc, text)?),
        };
        Ok(Name { text })
    }

    /// Returns the text.
    #[inline]
    pub fn as_str(&self) -> &str
        ensures { result.now ≡ self.now }
    {
        match &self.text {
            Text::Short(text) => text.as_str(),
            Text::Long(text) => text.as_str(),
        }
    }
}
