// How deep templates include each other. They are settled level by level: those that include none, then those that
// include settled ones alone. Templates of a ring never are.
ghost use Rattle.std.specs.Prelude.{◌≡◌, ◌++◌, ◌∷◌, IfErr, IfOk, IsTrue, OnOk};
ghost use Rattle.upon_shape_check.specs.Callables.{declared_view};
ghost use Rattle.upon_shape_check.specs.Plan.{plan_view, planned_view};
ghost use Rattle.upon_shape_check.specs.Planning.{AreAmong};
ghost use Rattle.upon_engine.specs.Engine.{engine_templates};
ghost use Rattle.upon_shape_check.specs.Levels.{AddsAccepted, IsAcceptedAs};
ghost use Rattle.upon_shape_check.specs.Verdict.{IsAcceptedBy, IsUntold, IsUntoldAmong};

use crate::accepted::{Accepted, MOST_DEEP};
use crate::declared::Declared;
use crate::plan::{Plan, Planned};
use crate::refusal::Refusal;
use crate::verdict::doubts_in;
use std::alloc::{AllocError, Global};
use upon_engine::engine::Engine;

/// Returns how a template ends that a plan accepts: within which depth, if the templates of the plan have no ring that
/// it includes.
pub(crate) fn how_it_ends<'t>(
    alloc: Global,
    engine: &'t Engine<'_>,
    declared: &Declared,
    plan: Plan<'t>,
    asked: &Planned<'t>,
) -> Result<Accepted, Refusal<'t>>
    ensures ends { IfOk result (IsAcceptedAs (declared_view declared.now) (engine_templates engine.now)
        (planned_view asked.now)) }
    ensures untold { IfErr result (IsUntoldAmong (declared_view declared.now) (engine_templates engine.now)
        (planned_view asked.now ∷ plan_view plan.entry)) }
{
    let mut settled = Plan::new(alloc);
    let mut left = plan;
    for level in 0..MOST_DEEP {
        if is_accepted(alloc, engine, declared, &settled, asked)? {
            return Ok(Accepted::EndsWithin(level + 1));
        }
        let before = settled.entries.len();
        left = settle(alloc, engine, declared, &mut settled, left)?;
        if settled.entries.len() == before {
            break;
        }
    }
    Ok(Accepted::EndsUnlessDeep)
}

// Moves the templates to the settled ones that include none but these, and returns the others.
fn settle<'t>(
    alloc: Global,
    engine: &'t Engine<'_>,
    declared: &Declared,
    settled: &mut Plan<'t>,
    left: Plan<'t>,
) -> Result<Plan<'t>, Refusal<'t>>
    ensures added { OnOk result (AddsAccepted (declared_view declared.now) (engine_templates engine.now)
        (plan_view settled.old) (plan_view settled.new)) }
    ensures others { IfOk result (λ others. AreAmong (plan_view others) (plan_view left.entry)) }
    ensures untold { IfErr result (IsUntoldAmong (declared_view declared.now) (engine_templates engine.now)
        (plan_view left.entry)) }
{
    let mut added = Plan::new(alloc);
    let mut others = Plan::new(alloc);
    for planned in left.entries {
        if is_accepted(alloc, engine, declared, settled, &planned)? {
            added.add(planned.name, planned.scope)?;
        } else {
            others.add(planned.name, planned.scope)?;
        }
    }
    append(settled, added)?;
    Ok(others)
}

// Returns whether a template is accepted, where includes are those that a plan has.
fn is_accepted<'t>(
    alloc: Global,
    engine: &'t Engine<'_>,
    declared: &Declared,
    plan: &Plan<'t>,
    planned: &Planned<'t>,
) -> Result<bool, Refusal<'t>>
    ensures accepted { IfOk result (λ accepted. IsTrue accepted → IsAcceptedBy (declared_view declared.now)
        (engine_templates engine.now) (plan_view plan.now) (planned_view planned.now)) }
    ensures untold { IfErr result (IsUntold (declared_view declared.now) (engine_templates engine.now)
        (planned_view planned.now)) }
{
    let doubts = doubts_in(alloc, engine, declared, plan, planned)?;
    Ok(doubts.is_empty())
}

// Moves the templates of a plan to the end of another.
fn append<'t>(plan: &mut Plan<'t>, mut added: Plan<'t>) -> Result<(), AllocError>
    ensures { OnOk result (plan_view plan.new ≡ plan_view plan.old ++ plan_view added.entry) }
{
    plan.entries.append(&mut added.entries)?;
    Ok(())
}
