// What opens a block.
use upon_types::types::ast::{Ident, LoopVars};

/// What opens a block, beside its expression.
#[derive(Drop)]
pub enum Opening {
    /// Whether `not` is before the condition.
    If(bool),
    /// The loop's variables.
    For(LoopVars),
    /// The name of the value.
    With(Ident),
}
