// Whether a template of an engine is accepted on a shape.
ghost use Rattle.std.specs.Prelude.{◌≡◌, ◌++◌, ◌∷◌, [], IfErr, IfOk};
ghost use Rattle.upon_shape_spec.specs.Accepted.{IsClosed};
ghost use Rattle.upon_shape.specs.View.{shape_view};
ghost use Rattle.upon_shape_check.specs.Callables.{declared_view};
ghost use Rattle.upon_shape_check.specs.Doubted.{DoubtedOn, IsMissing, each_misfits, misfits_view, template_misfits};
ghost use Rattle.upon_shape_check.specs.Plan.{plan_view, planned_view};
ghost use Rattle.upon_engine.specs.Engine.{engine_templates};
ghost use Rattle.upon_shape_check.specs.EndsOn.{EndsOn, EndsAs};
ghost use Rattle.upon_shape_check.specs.Verdict.{IsAcceptedBy, IsUntoldAmong};

use crate::accepted::Accepted;
use crate::declared::Declared;
use crate::levels::how_it_ends;
use crate::plan::{Plan, Planned};
use crate::planning::plan_for;
use crate::refusal::{Misfit, Refusal};
use crate::scope::Scope;
use crate::verdict::{add, add_misfits_of_plan, doubts_in};
use std::alloc::Global;
use upon_engine::engine::Engine;
use upon_engine::texts::{AnyEngine, EngineTexts};
use upon_shape::shape::Shape;

/// Returns how the template of a name ends on each value of a shape, or why it isn't known that it ends without a
/// fault.
pub fn accepts<'t>(
    alloc: Global,
    engine: &'t Engine<'_>,
    declared: &Declared,
    name: &'t str,
    shape: &Shape,
) -> Result<Accepted, Refusal<'t>>
    // If callables keep what is declared of them, a rendering on a value that fits has a text, unless includes are
    // too deep one inside another, memory is out, or a writer fails.
    ensures unless_deep { IfOk result (λ accepted. EndsOn (⟦<AnyEngine as EngineTexts>⟧.texts engine.now)
        (declared_view declared.now) name.now (shape_view shape.now)) }
    // They are not too deep where the engine has the depth that is said, or a greater one.
    ensures within { IfOk result (EndsAs (⟦<AnyEngine as EngineTexts>⟧.texts engine.now)
        (declared_view declared.now) name.now (shape_view shape.now)) }
    // There is a misfit if that is why, and each is really in doubt in a template that is reached; or a literal of one
    // that is reached is too deep for a check.
    ensures doubted { IfErr result (DoubtedOn (⟦<AnyEngine as EngineTexts>⟧.texts engine.now)
        (declared_view declared.now) name.now (shape_view shape.now)) }
    // There is no such template only if none is held.
    ensures missing { IfErr result (IsMissing (⟦<AnyEngine as EngineTexts>⟧.texts engine.now) name.now) }
{
    let scope = Scope::over(alloc, shape.try_clone(alloc)?);
    let asked = Planned { name, scope };
    let plan = plan_for(alloc, engine, declared, &asked)?;
    let misfits = misfits_of(alloc, engine, declared, &plan, &asked)?;
    if misfits.is_empty() {
        let accepted = how_it_ends(alloc, engine, declared, plan, &asked)?;
        Ok(accepted)
    } else {
        Err(Refusal::Misfits(misfits))
    }
}

// Where a template, and those of its plan, may fail.
fn misfits_of<'t>(
    alloc: Global,
    engine: &'t Engine<'_>,
    declared: &Declared,
    plan: &Plan<'t>,
    asked: &Planned<'t>,
) -> Result<Vec<Misfit<'t>>, Refusal<'t>>
    ensures accepted { IfOk result (λ misfits. misfits.items ≡ [] → IsAcceptedBy (declared_view declared.now)
        (engine_templates engine.now) (plan_view plan.now) (planned_view asked.now)) }
    ensures closed { IfOk result (λ misfits. misfits.items ≡ []
        → IsClosed (declared_view declared.now) (engine_templates engine.now) (plan_view plan.now)) }
    ensures told { IfOk result (λ misfits. misfits_view misfits.items
        ≡ template_misfits (declared_view declared.now) (plan_view plan.now) (planned_view asked.now)
        (engine_templates engine.now asked.now.name.now)
        ++ each_misfits (declared_view declared.now) (engine_templates engine.now) (plan_view plan.now)
        (plan_view plan.now)) }
    ensures untold { IfErr result (IsUntoldAmong (declared_view declared.now) (engine_templates engine.now)
        (planned_view asked.now ∷ plan_view plan.now)) }
{
    let mut misfits = Vec::new(alloc);
    let doubts = doubts_in(alloc, engine, declared, plan, asked)?;
    add(&mut misfits, asked.name, doubts)?;
    add_misfits_of_plan(alloc, engine, declared, plan, &mut misfits)?;
    Ok(misfits)
}
