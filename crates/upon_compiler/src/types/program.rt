// The instructions of a program. They run over operands, which are values that instructions leave for later ones,
// and over a stack of what names stand for.

use upon_types::types::Span;
use upon_types::types::ast::{Ident, Literal, LoopVars, String, Var};

/// An instruction. A jump goes to the instruction of its number, counted from 0.
#[derive(Drop)]
pub enum Instr {
    /// Goes there.
    Jump(usize),
    /// Takes an operand, and goes there if it is true.
    JumpIfTrue(usize),
    /// Takes an operand, and goes there if it is false.
    JumpIfFalse(usize),
    /// Takes an operand, and shows it by the default formatter.
    Emit,
    /// Shows the source's text at the span.
    EmitRaw(Span),
    /// Takes so many operands, and shows what the formatter or the function of this name makes of them.
    EmitWith(Ident, usize, Span),
    /// Takes an operand, which was at the span, and begins a loop over its items.
    /// (In a box: each instruction would have the size of two names else.)
    LoopStart(Box<LoopVars>, Span),
    /// Gives the innermost loop its next item; if none is left, ends the loop and goes there.
    LoopNext(usize),
    /// Gives the innermost loop its next item, or ends it: goes to the first if it had no item, else to the second.
    LoopNextElse(usize, usize),
    /// Takes an operand, and gives it a name.
    WithStart(Ident),
    /// Ends the innermost name.
    WithEnd,
    /// Shows the template of this name, which sees all names.
    Include(String),
    /// Takes an operand, and shows the template of this name, which sees the operand alone.
    IncludeWith(String),
    /// Leaves the value that a path leads to.
    ExprStartVar(Var),
    /// Leaves a value that occurs in the template.
    ExprStartLiteral(Literal),
    /// Leaves a list without items.
    ExprStartList(Span),
    /// Leaves a map without entries.
    ExprStartMap(Span),
    /// Takes an operand, and puts it at the end of the list on top.
    ExprListPush,
    /// Takes an operand, and puts it at this key into the map on top.
    ExprMapInsert(String),
    /// Takes so many operands, and leaves what the function of this name gives for them.
    Apply(Ident, usize, Span),
}
