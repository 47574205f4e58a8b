// The literals of a template.
ghost use Rattle.std.specs.Prelude.{◌≡◌};
ghost use Rattle.upon_types.specs.AstPath.{string_of};

use crate::types::Span;
use crate::value::Value;

/// A value that occurs in the template.
#[derive(Drop)]
pub struct Literal {
    pub value: Value,
    pub span: Span,
}

/// A text in quotes, as what it says, and where it is.
#[derive(Drop)]
pub struct String {
    pub value: std::string::String,
    pub span: Span,
}

impl String {
    /// Returns what the text says.
    pub fn as_str(&self) -> &str
        ensures { result.now ≡ (string_of self.now).text }
    {
        self.value.as_str()
    }
}
