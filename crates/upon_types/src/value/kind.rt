// The kinds of values, and what a message calls each.
ghost use Rattle.std.specs.Prelude.{◌≡◌};
ghost use Rattle.upon_types.specs.ValueKind.{kind_name};

/// A kind of value.
#[derive(Clone, Copy, Debug, PartialEq, Eq)]
pub enum ValueKind {
    /// No value.
    None,
    /// A truth value.
    Bool,
    /// An integer.
    Integer,
    /// A text.
    String,
    /// Values one after the other.
    List,
    /// Values by name.
    Map,
}

impl ValueKind {
    /// Returns what a message calls it.
    pub fn human(self) -> &'static str
        ensures { result.now ≡ kind_name self }
    {
        match self {
            ValueKind::None => "none",
            ValueKind::Bool => "bool",
            ValueKind::Integer => "integer",
            ValueKind::String => "string",
            ValueKind::List => "list",
            ValueKind::Map => "map",
        }
    }
}
