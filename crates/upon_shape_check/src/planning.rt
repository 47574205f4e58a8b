// A plan for a template: which templates it includes, also by others, and what is known where they are. Each is
// reached from it, and looked into; what a plan lacks is in doubt where it is included.
ghost use Rattle.std.specs.Prelude.{◌≡◌, IfErr, IfOk, OnOk, option_map};
ghost use Rattle.upon_shape_spec.specs.Doubted.{planned};
ghost use Rattle.upon_shape_check.specs.Callables.{declared_view};
ghost use Rattle.upon_shape_check.specs.Doubt.{doubts_view, unsure_view};
ghost use Rattle.upon_shape_check.specs.Plan.{plan_view, planned_view};
ghost use Rattle.upon_shape_check.specs.Planning.{AddsIncluded, AddsOne, IsPlanFor, include_of};
ghost use Rattle.upon_shape_check.specs.Scope.{scope_view};
ghost use Rattle.upon_shape_check.specs.Verdict.{IsUntoldFrom};
ghost use Rattle.upon_engine.specs.Engine.{engine_templates};

use crate::declared::Declared;
use crate::doubt::{Doubt, Unsure};
use crate::plan::{MOST_PLANNED, Plan, Planned};
use crate::refusal::Refusal;
use crate::scope::Scope;
use crate::verdict::doubts_in;
use std::alloc::{AllocError, Global};
use upon_engine::engine::Engine;

/// Returns a plan for a template.
pub(crate) fn plan_for<'t>(
    alloc: Global,
    engine: &'t Engine<'_>,
    declared: &Declared,
    asked: &Planned<'t>,
) -> Result<Plan<'t>, Refusal<'t>>
    ensures made { IfOk result (λ plan. IsPlanFor (declared_view declared.now) (engine_templates engine.now)
        (planned_view asked.now) (plan_view plan)) }
    ensures untold { IfErr result (IsUntoldFrom (declared_view declared.now) (engine_templates engine.now)
        (planned_view asked.now)) }
{
    let mut plan = Plan::new(alloc);
    let doubts = doubts_in(alloc, engine, declared, &plan, asked)?;
    add_included(engine, &mut plan, doubts)?;
    for at in 0..MOST_PLANNED {
        let Some(planned) = plan.entries.get(at) else {
            break;
        };
        let doubts = doubts_in(alloc, engine, declared, &plan, planned)?;
        add_included(engine, &mut plan, doubts)?;
    }
    Ok(plan)
}

// Adds the templates to a plan whose includes are in doubt, if they are there.
fn add_included<'t>(
    engine: &Engine<'_>,
    plan: &mut Plan<'t>,
    doubts: Vec<Doubt<'t>>,
) -> Result<(), AllocError>
    ensures { OnOk result (AddsIncluded (engine_templates engine.now) (doubts_view doubts.entry.items)
        (plan_view plan.old) (plan_view plan.new)) }
{
    for doubt in doubts {
        match included(doubt.unsure) {
            Some((name, scope)) => add_one(engine, plan, name, scope)?,
            None => {}
        }
    }
    Ok(())
}

// The include that is in doubt, if it is one.
fn included(unsure: Unsure<'_>) -> Option<(&str, Scope<'_>)>
    ensures { option_map (λ it. planned it.0.now (scope_view it.1)) result ≡ include_of (unsure_view unsure.entry) }
{
    match unsure {
        Unsure::IsIncluded(name, scope) => Some((name, scope)),
        Unsure::HasMember(_shape) | Unsure::HasText(_shape) | Unsure::HasItems(_shape) => None,
        Unsure::TakesValues(_shapes) => None,
        Unsure::LoopHasMember => None,
    }
}

// Adds a template to a plan, if it is there and is not planned yet.
fn add_one<'t>(
    engine: &Engine<'_>,
    plan: &mut Plan<'t>,
    name: &'t str,
    scope: Scope<'t>,
) -> Result<(), AllocError>
    ensures { OnOk result (AddsOne (engine_templates engine.now) (planned name.now (scope_view scope.entry))
        (plan_view plan.old) (plan_view plan.new)) }
{
    let Some(_) = engine.get_template(name) else {
        return Ok(());
    };
    if plan.is_planned(name, &scope) {
        return Ok(());
    }
    if plan.entries.len() < MOST_PLANNED {
        plan.add(name, scope)?;
    }
    Ok(())
}
