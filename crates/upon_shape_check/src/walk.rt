// A walk along the instructions of a compiled template, with what is known at each of them.
ghost use Rattle.std.specs.Prelude.{◌≡◌, ◌++◌, IfErr, IfOk, OnOk};
ghost use Rattle.upon_shape_spec.specs.Accepted.{is_planned};
ghost use Rattle.upon_compiler.specs.Program.{instr_of, program_view};
ghost use Rattle.upon_shape_spec.specs.Known as spec;
ghost use Rattle.upon_shape_spec.specs.ProgramDoubts as walks;
ghost use Rattle.upon_shape_check.specs.Callables.{declared_view};
ghost use Rattle.upon_shape_check.specs.DeepLiterals.{EndsAtOne, instr_too_deep, program_too_deep};
ghost use Rattle.upon_shape_check.specs.Doubt.{doubts_view, maybe_doubt};
ghost use Rattle.upon_shape_check.specs.Known.{known_view};
ghost use Rattle.upon_shape_check.specs.Plan.{plan_view};
ghost use Rattle.upon_shape_check.specs.Scope.{scope_view};
ghost use Rattle.upon_shape_check.specs.Steps.{Steps};

use crate::declared::Declared;
use crate::doubt::Doubt;
use crate::known::Known;
use crate::plan::Plan;
use crate::puts::{Part, puts};
use crate::scope::Scope;
use crate::unchecked::Unchecked;
use crate::{calls, steps};
use std::alloc::{AllocError, Global};
use upon_compiler::types::program::Instr;

/// Returns what is in doubt in a template, in the order of its text, where this is declared of callables, planned of
/// includes, and known of names at its begin. It fails if there is no memory, or where something with more than 128
/// levels of lists and maps is put into a literal.
pub fn doubts_of<'t>(
    alloc: Global,
    declared: &Declared,
    plan: &Plan<'_>,
    scope: Scope<'t>,
    instrs: &'t [Instr],
) -> Result<Vec<Doubt<'t>>, Unchecked>
    ensures doubts { IfOk result (λ ds. doubts_view ds.items
        ≡ walks.program_doubts (declared_view declared.now) (is_planned (plan_view plan.now)) 0
        (spec.known_at_begin (scope_view scope.entry)) (program_view instrs.now)) }
    ensures deep { IfErr result (EndsAtOne
        (program_too_deep (declared_view declared.now) (is_planned (plan_view plan.now)) 0
        (spec.known_at_begin (scope_view scope.entry)) (program_view instrs.now))) }
{
    let mut doubts = Vec::new(alloc);
    let mut known = Known::at_begin(alloc, scope);
    for (number, instr) in instrs.iter().enumerate() {
        let doubt = step(alloc, declared, plan, &mut known, number, instr)?;
        add(&mut doubts, doubt)?;
        known.leave_ended(number + 1);
    }
    Ok(doubts)
}

// Adds a doubt, if there is one.
fn add<'t>(doubts: &mut Vec<Doubt<'t>>, doubt: Option<Doubt<'t>>) -> Result<(), AllocError>
    ensures { OnOk result (doubts_view doubts.new.items ≡ doubts_view doubts.old.items ++ maybe_doubt doubt.entry) }
{
    if let Some(doubt) = doubt {
        doubts.push(doubt)?;
    }
    Ok(())
}

// Goes on after an instruction, which has this number, and returns what is in doubt there.
fn step<'t>(
    alloc: Global,
    declared: &Declared,
    plan: &Plan<'_>,
    known: &mut Known<'t>,
    number: usize,
    instr: &'t Instr,
) -> Result<Option<Doubt<'t>>, Unchecked>
    ensures steps { IfOk result (λ d. Steps (declared_view declared.now) (is_planned (plan_view plan.now)) number
        (known_view known.old) (instr_of instr.now) (maybe_doubt d) (known_view known.new)) }
    ensures deep { IfErr result (EndsAtOne (instr_too_deep (known_view known.old) (instr_of instr.now))) }
{
    match instr {
        Instr::Jump(to) => Ok(steps::jumps(alloc, known, number, *to)?),
        Instr::JumpIfTrue(to) => Ok(steps::tests(alloc, known, false, *to)?),
        Instr::JumpIfFalse(to) => Ok(steps::tests(alloc, known, true, *to)?),
        Instr::Emit => Ok(steps::emits(declared, known)),
        Instr::EmitWith(name, count, span) => {
            Ok(calls::emits_with(alloc, declared, known, name, *count, *span)?)
        }
        Instr::LoopStart(names, span) => Ok(steps::starts_loop(alloc, known, names, *span)?),
        Instr::EmitRaw(_) => Ok(None),
        Instr::LoopNext(_) => Ok(None),
        Instr::LoopNextElse(_, _) => Ok(None),
        Instr::WithStart(name) => Ok(steps::starts_with(known, name)?),
        Instr::WithEnd => Ok(steps::ends_with(known)),
        Instr::Include(name) => Ok(steps::includes(alloc, plan, known, name)?),
        Instr::IncludeWith(name) => Ok(steps::includes_with(alloc, plan, known, name)),
        Instr::ExprStartVar(path) => Ok(steps::starts_var(alloc, known, path)?),
        Instr::ExprStartLiteral(literal) => Ok(steps::starts_literal(known, literal)?),
        Instr::ExprStartList(span) => Ok(steps::starts_list(alloc, known, *span)?),
        Instr::ExprStartMap(span) => Ok(steps::starts_map(alloc, known, *span)?),
        Instr::ExprListPush => puts(alloc, known, Part::Item),
        Instr::ExprMapInsert(key) => puts(alloc, known, Part::Entry(key)),
        Instr::Apply(name, count, span) => {
            Ok(calls::applies(alloc, declared, known, name, *count, *span)?)
        }
    }
}
