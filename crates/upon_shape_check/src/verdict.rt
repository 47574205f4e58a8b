// What is in doubt in each template of a plan, and whether it is accepted by the plan.
ghost use Rattle.std.specs.Prelude.{◌≡◌, ◌++◌, [], IfErr, IfOk, OnOk};
ghost use Rattle.upon_shape_spec.specs.Accepted.{IsClosed};
ghost use Rattle.upon_shape_check.specs.Callables.{declared_view};
ghost use Rattle.upon_shape_check.specs.Doubt.{doubts_view};
ghost use Rattle.upon_shape_check.specs.Doubted.{each_misfits, misfits_of, misfits_view};
ghost use Rattle.upon_shape_check.specs.Plan.{plan_view, planned_view};
ghost use Rattle.upon_engine.specs.Engine.{engine_templates};
ghost use Rattle.upon_shape_check.specs.Verdict.{AreDoubtsOf, IsAcceptedBy, IsUntold, IsUntoldAmong};

use crate::declared::Declared;
use crate::doubt::Doubt;
use crate::plan::{Plan, Planned};
use crate::refusal::{Misfit, Refusal};
use crate::unchecked::Unchecked;
use crate::walk::doubts_of;
use std::alloc::{AllocError, Global};
use upon_engine::engine::Engine;

/// Returns where a template is in doubt, where includes are those that a plan has.
pub(crate) fn doubts_in<'t>(
    alloc: Global,
    engine: &'t Engine<'_>,
    declared: &Declared,
    plan: &Plan<'t>,
    planned: &Planned<'t>,
) -> Result<Vec<Doubt<'t>>, Refusal<'t>>
    ensures accepted { IfOk result (λ doubts. doubts.items ≡ [] → IsAcceptedBy (declared_view declared.now)
        (engine_templates engine.now) (plan_view plan.now) (planned_view planned.now)) }
    ensures told { IfOk result (λ doubts. AreDoubtsOf (declared_view declared.now)
        (engine_templates engine.now) (plan_view plan.now) (planned_view planned.now) (doubts_view doubts.items)) }
    ensures untold { IfErr result (IsUntold (declared_view declared.now) (engine_templates engine.now)
        (planned_view planned.now)) }
{
    let Some(template) = engine.get_template(planned.name) else {
        return Err(Refusal::NoTemplate);
    };
    let scope = planned.scope.try_clone(alloc)?;
    match doubts_of(alloc, declared, plan, scope, template.instrs()) {
        Ok(doubts) => Ok(doubts),
        Err(Unchecked::Memory(error)) => Err(Refusal::Memory(error)),
        Err(Unchecked::TooDeep(place)) => Err(Refusal::TooDeep(planned.name, place)),
    }
}

/// Puts the doubts of a template at the end. It fails if memory is out.
pub(crate) fn add<'t>(
    misfits: &mut Vec<Misfit<'t>>,
    name: &'t str,
    doubts: Vec<Doubt<'t>>,
) -> Result<(), AllocError>
    ensures before { OnOk result (misfits.new.items ≡ [] → misfits.old.items ≡ []) }
    ensures none { OnOk result (misfits.new.items ≡ [] → doubts.entry.items ≡ []) }
    ensures added { OnOk result (misfits_view misfits.new.items
        ≡ misfits_view misfits.old.items ++ misfits_of name.now (doubts_view doubts.entry.items)) }
{
    for doubt in doubts {
        misfits.push(Misfit {
            template: name,
            doubt,
        })?;
    }
    Ok(())
}

/// Puts the misfits of each template of a plan at the end.
pub(crate) fn add_misfits_of_plan<'t>(
    alloc: Global,
    engine: &'t Engine<'_>,
    declared: &Declared,
    plan: &Plan<'t>,
    misfits: &mut Vec<Misfit<'t>>,
) -> Result<(), Refusal<'t>>
    ensures before { OnOk result (misfits.new.items ≡ [] → misfits.old.items ≡ []) }
    ensures closed { OnOk result (misfits.new.items ≡ []
        → IsClosed (declared_view declared.now) (engine_templates engine.now) (plan_view plan.now)) }
    ensures added { OnOk result (misfits_view misfits.new.items ≡ misfits_view misfits.old.items
        ++ each_misfits (declared_view declared.now) (engine_templates engine.now) (plan_view plan.now)
        (plan_view plan.now)) }
    ensures untold { IfErr result (IsUntoldAmong (declared_view declared.now) (engine_templates engine.now)
        (plan_view plan.now)) }
{
    for planned in &plan.entries {
        let doubts = doubts_in(alloc, engine, declared, plan, planned)?;
        add(misfits, planned.name, doubts)?;
    }
    Ok(())
}
