// Callers that have each part of what a rendering keeps (the clause `laws`), by the public clauses alone.
ghost use Rattle.std.specs.Prelude.{◌≡◌, ◌≢◌, ◌≤◌, ◌<◌, ℕ, suc, List, Some, Ok, IfOk, string_bytes, true};
ghost use Rattle.upon_types.specs.Expression.{Expression};
ghost use Rattle.upon_types.specs.Path.{Ident};
ghost use Rattle.upon_types.specs.Tree.{include};
ghost use Rattle.upon_types.specs.Val.{Val, Entries, entry_at, map_val};
ghost use Rattle.upon_types.specs.View.{view};
ghost use Rattle.upon_lookup.specs.Asked.{refuses_all};
ghost use Rattle.upon_lookup.specs.Environment.{Environment, context};
ghost use Rattle.upon_meaning_spec.specs.Alone.{included};
ghost use Rattle.upon_meaning_spec.specs.Engine.{Table, Template as Meant, calls_of, from_table};
ghost use Rattle.upon_meaning_spec.specs.IncludeFinds.{IncludeFinds};
ghost use Rattle.upon_meaning_spec.specs.Includes.{IsNumbered, Reaches};
ghost use Rattle.upon_meaning_spec.specs.Meaning.{RunningTemplate, statement_means};
ghost use Rattle.upon_meaning_spec.specs.Names.{AgreeOn, Reads};
ghost use Rattle.upon_meaning_spec.specs.Outcome.{States, too_deep};
ghost use Rattle.upon_meaning_spec.specs.Parts.{WovenOf};
ghost use Rattle.upon_engine.specs.Answers.{AnswersText};
ghost use Rattle.upon_engine.specs.Base.{on_root};
ghost use Rattle.upon_engine.specs.Calls.{at_depth, call_of, outcome, renderer_values};
ghost use Rattle.upon_engine.specs.KeepsLaws.{KeepsLaws};
ghost use Rattle.upon_engine.specs.Engine.{engine_templates};
ghost use Rattle.upon_engine.specs.Pieces.{pieces_of_call};
ghost use Rattle.upon_engine.specs.Template.{template_of};
ghost use Rattle.upon_engine.specs.Theorem.{engine_meant};
ghost use Rattle.upon_users.specs.OnValue.{call_on};

use upon_engine::engine::Engine;
use upon_engine::renderer::Renderer;
use upon_engine::sources::TemplateSource;
use upon_engine::template::Template;
use upon_engine::texts::{AnyEngine, EngineTexts};
use upon_engine::values::Values;
use upon_types::error::Result;
use upon_types::value::Value;
use upon_vm_steps::callables::Callables;

/// Renders a template on a value, with all that a rendering keeps.
pub fn rendered(engine: &Engine<'_>, template: &Template<'_>, value: &Value) -> Result<String>
    ensures means { let e = engine_meant (⟦<AnyEngine as EngineTexts>⟧.texts engine.now)
        (engine_templates engine.now) in
        AnswersText e.depth (outcome (call_on e (template_of template.now) (view value.now))) result }
    ensures laws { let e = engine_meant (⟦<AnyEngine as EngineTexts>⟧.texts engine.now) (engine_templates engine.now) in
        KeepsLaws (call_on e (template_of template.now) (view value.now)) }
{
    template.render_from(engine, value).to_string()
}

/// Renders a template. If the text is there, it is the same at each greater depth.
pub fn deep_enough(engine: &Engine<'_>, template: &Template<'_>, value: &Value) -> Result<String>
    ensures { let e = engine_meant (⟦<AnyEngine as EngineTexts>⟧.texts engine.now) (engine_templates engine.now) in
        let call = call_on e (template_of template.now) (view value.now) in
        (depth : ℕ) → e.depth ≤ depth
        → IfOk result (λ text. AnswersText depth (outcome (at_depth depth call)) (Ok text)) }
{
    rendered(engine, template, value)
}

/// Renders a template. If its includes have numbers that fall, from one below the depth, they are never too deep.
pub fn numbered(engine: &Engine<'_>, template: &Template<'_>, value: &Value) -> Result<String>
    ensures { let e = engine_meant (⟦<AnyEngine as EngineTexts>⟧.texts engine.now) (engine_templates engine.now) in
        let call = call_on e (template_of template.now) (view value.now) in
        (number : List ℕ → ℕ) (k : ℕ) → IsNumbered e.templates number (template_of template.now).tree k → k < e.depth
        → (outcome call).end ≢ too_deep }
{
    rendered(engine, template, value)
}

/// Renders a template. An include with a value in it means the same, whatever is bound around it.
pub fn of_others(engine: &Engine<'_>, template: &Template<'_>, value: &Value) -> Result<String>
    ensures { let e = engine_meant (⟦<AnyEngine as EngineTexts>⟧.texts engine.now) (engine_templates engine.now) in
        let calls = calls_of e refuses_all in
        let resolve = from_table e.templates in
        (running : RunningTemplate) (left : ℕ) (word : Ident) (given : Expression) (one other : Environment)
        (s next : States (Unit {0}) (Unit {0})) (v : Val) (t : Meant)
        → IncludeFinds calls resolve word given one s v t next → IncludeFinds calls resolve word given other s v t next
        → statement_means calls (included calls resolve (suc left)) running (include word (Some given)) one s
        ≡ statement_means calls (included calls resolve (suc left)) running (include word (Some given)) other s }
{
    rendered(engine, template, value)
}

/// Renders a template on two maps, and returns whether the texts are the same: they are if the maps agree on the names
/// that are read.
pub fn on_both(
    engine: &Engine<'_>,
    template: &Template<'_>,
    one: &Value,
    other: &Value,
) -> Result<bool>
    ensures { let e = engine_meant (⟦<AnyEngine as EngineTexts>⟧.texts engine.now) (engine_templates engine.now) in
        (these those : Entries) → view one.now ≡ map_val these → view other.now ≡ map_val those
        → AgreeOn (Reads e.templates (template_of template.now).tree) (λ n. entry_at n these) (λ n. entry_at n those)
        → IfOk result (λ same. same ≡ true) }
{
    let first = rendered(engine, template, one)?;
    let second = rendered(engine, template, other)?;
    Ok(first == second)
}

/// Renders a template. The answer is also that with other templates that agree on those reached.
pub fn with_others(engine: &Engine<'_>, template: &Template<'_>, value: &Value) -> Result<String>
    ensures { let e = engine_meant (⟦<AnyEngine as EngineTexts>⟧.texts engine.now) (engine_templates engine.now) in
        (others : Table) → AgreeOn (Reaches e.templates (template_of template.now).tree) e.templates others
        → AnswersText e.depth
        (outcome (call_on (record e { templates = others }) (template_of template.now) (view value.now))) result }
{
    rendered(engine, template, value)
}

/// Renders a template. Its text is the rendering's pieces joined, in their order: raw parts of templates, and what
/// formatters wrote for values.
pub fn woven(engine: &Engine<'_>, template: &Template<'_>, value: &Value) -> Result<String>
    ensures { let e = engine_meant (⟦<AnyEngine as EngineTexts>⟧.texts engine.now) (engine_templates engine.now) in
        let call = call_on e (template_of template.now) (view value.now) in
        IfOk result (λ text. WovenOf call.rendering.calls call.rendering.resolve call.template (pieces_of_call call)
        (string_bytes text)) }
{
    rendered(engine, template, value)
}

/// Renders on whatever it is. Over a context, the source of values is not asked.
pub fn unasked<'r, E: Callables + Drop, V: Values<'r, T>, T: TemplateSource<'r>>(
    page: Renderer<'r, E, V, T>,
) -> Result<String>
    ensures { let call = call_of E.callables E.default_formatter V.asks V.root V.values_state T.resolve
        T.template_state page.entry in
        (v : Val) → call.base ≡ on_root (context v)
        → (outcome call).next.values ≡ V.values_state (renderer_values page.entry) }
{
    page.to_string()
}
