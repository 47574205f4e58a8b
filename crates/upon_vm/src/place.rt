// Where a program is, as a span of its text.
ghost use Rattle.std.specs.Prelude.{◌≡◌, option_and_then, slice_get};
ghost use Rattle.upon_compiler.specs.Program.{instr_of, program_view};
ghost use Rattle.upon_vm.specs.Place.{instruction_span, nearest_span};

use upon_compiler::types::program::Instr;
use upon_types::types::Span;

// The span of an instruction, if it has one.
fn span_of(instr: &Instr) -> Option<Span>
    ensures { result ≡ instruction_span (instr_of instr.now) }
{
    match instr {
        Instr::EmitRaw(span) => Some(*span),
        Instr::EmitWith(_, _, span) => Some(*span),
        Instr::LoopStart(_, span) => Some(*span),
        Instr::WithStart(name) => Some(name.span),
        Instr::Include(name) => Some(name.span),
        Instr::IncludeWith(name) => Some(name.span),
        Instr::ExprStartVar(var) => Some(var.span()),
        Instr::ExprStartLiteral(literal) => Some(literal.span),
        Instr::ExprStartList(span) => Some(*span),
        Instr::ExprStartMap(span) => Some(*span),
        Instr::ExprMapInsert(key) => Some(key.span),
        Instr::Apply(_, _, span) => Some(*span),
        _ => None,
    }
}

// The span of the instruction of a number, if it is there and has one.
fn span_at(instrs: &[Instr], position: usize) -> Option<Span>
    ensures { result ≡ option_and_then instruction_span (slice_get (program_view instrs.now) position) }
{
    match instrs.get(position) {
        Some(instr) => span_of(instr),
        None => None,
    }
}

/// Returns the span of the instruction of a number, or of the nearest one before it that has a span; or else the
/// source's end.
pub(crate) fn place(source: &str, instrs: &[Instr], position: usize) -> Span
    ensures { result ≡ nearest_span source.now (program_view instrs.now) position }
{
    let mut at = position;
    loop {
        if let Some(span) = span_at(instrs, at) {
            return span;
        }
        if at == 0 {
            return Span {
                m: source.len(),
                n: source.len(),
            };
        }
        at -= 1;
    }
}
