// Callers of the engine, by its public clauses alone.
ghost use Rattle.std.specs.Prelude.{◌≡◌, ℕ, List, Contains, Some, None, IfOk, IsSomeAnd, true};
ghost use Rattle.std.specs.Cow.{cow_str_bytes};
ghost use Rattle.upon_types.specs.Val.{Entries, entry_at, map_val};
ghost use Rattle.upon_types.specs.View.{view};
ghost use Rattle.upon_lookup.specs.Asked.{refuses_all};
ghost use Rattle.upon_lookup.specs.Environment.{context, value_source};
ghost use Rattle.upon_meaning_spec.specs.Alone.{alone};
ghost use Rattle.upon_meaning_spec.specs.Engine.{Template as TemplateMeant, rendering_of};
ghost use Rattle.upon_meaning_spec.specs.Names.{AgreeOn};
ghost use Rattle.upon_meaning_spec.specs.Outcome.{states};
ghost use Rattle.upon_before_spec.specs.Alone.{Template as TemplateBefore, Table as TableBefore, alone as alone_before};
ghost use Rattle.upon_before_spec.specs.Grammar.{HasTree as HadTree};
ghost use Rattle.upon_before_spec.specs.Kept.{HoldAlike, rendering_before};
ghost use Rattle.upon_before_spec.specs.Now.{template_now};
ghost use Rattle.upon_before_spec.specs.Tree.{Statements as StatementsBefore};
ghost use Rattle.upon_vm.specs.Reports.{IsTakenError, WriteMarks, WritesAndLeaves};
ghost use Rattle.upon_engine.specs.Answers.{AnswersText};
ghost use Rattle.upon_engine.specs.Base.{ContextBase, IsContextOf, outcome_over};
ghost use Rattle.upon_engine.specs.Engine.{engine_depth, engine_syntax, engine_templates};
ghost use Rattle.upon_needs.specs.EngineNeeds.{needed_names};
ghost use Rattle.upon.specs.RenderingLaws.{IsPlainText, IsTextOrMemory};
ghost use Rattle.upon_engine.specs.Template.{template_of};
ghost use Rattle.upon_engine.specs.Theorem.{engine_meant, rendering};

use serde::Serialize;
use std::alloc::AllocError;
use std::borrow::CowStr;
use upon::laws_of_rendering::plain_text;
use upon_engine::engine::Engine;
use upon_engine::template::Template;
use upon_engine::texts::{AnyEngine, EngineTexts};
use upon_engine::theorem::one_table;
use upon_fmt::output::Output;
use upon_lookup::source::ValueSource;
use upon_meaning_spec::laws::needs::names_needed;
use upon_needs::needs::{self, Needs};
use upon_types::error::Result;
use upon_types::value::Value;

/// The text of a template on a value.
pub fn on_value(engine: &Engine<'_>, template: &Template<'_>, value: &Value) -> Result<String>
    ensures { AnswersText
        (engine_depth engine.now)
        (alone (rendering (⟦<AnyEngine as EngineTexts>⟧.texts engine.now) (engine_templates engine.now))
        (template_of template.now) None (context (view value.now)) (states (tt {0}) (tt {0})))
        result }
{
    template.render_from(engine, value).to_string()
}

/// The text of a template whose text had a tree before `for .. else`: what that tree meant, if each template that it
/// reaches is one of before too.
pub fn as_before(engine: &Engine<'_>, template: &Template<'_>, value: &Value) -> Result<String>
    ensures { let e = engine_meant (⟦<AnyEngine as EngineTexts>⟧.texts engine.now) (engine_templates engine.now) in
        (before : TableBefore) (t : TemplateBefore) → template_of template.now ≡ template_now t
        → HoldAlike t.tree before e.templates
        → AnswersText
        e.depth
        (alone_before (rendering_before e refuses_all before) t None (context (view value.now))
        (states (tt {0}) (tt {0})))
        result }
{
    on_value(engine, template, value)
}

/// The text of a text that had a tree before `for .. else`: what that tree meant.
pub fn compiled_as_before(engine: &Engine<'_>, source: CowStr<'_>, value: &Value) -> Result<String>
    ensures { let e = engine_meant (⟦<AnyEngine as EngineTexts>⟧.texts engine.now) (engine_templates engine.now) in
        let delimiters = engine_syntax engine.now in
        let s = cow_str_bytes source.entry in
        (before : TableBefore) (tree : StatementsBefore) → HadTree delimiters s tree
        → HoldAlike tree before e.templates
        → AnswersText
        e.depth
        (alone_before (rendering_before e refuses_all before) (record { source = s; tree = tree }) None
        (context (view value.now)) (states (tt {0}) (tt {0})))
        result }
{
    let template = engine.compile(source)?;
    as_before(engine, &template, value)
}

/// The text of a template on what serde writes of a context.
pub fn on_data<S: Serialize + Drop>(
    engine: &Engine<'_>,
    template: &Template<'_>,
    context: S,
) -> Result<String>
    ensures { (base : ContextBase) × IsContextOf (λ old new. S.writes context old new) base × AnswersText
        (engine_depth engine.now)
        (outcome_over (rendering (⟦<AnyEngine as EngineTexts>⟧.texts engine.now) (engine_templates engine.now))
        (template_of template.now) None base (states (tt {0}) (tt {0})))
        result }
{
    template.render(engine, context).to_string()
}

/// Writes the text of a template on a source of values that is lent. If the rendering ended by itself, the source is
/// left in the next state of the meaning.
pub fn on_source<S: ValueSource, O: Output>(
    engine: &Engine<'_>,
    template: &Template<'_>,
    source: &mut S,
    out: &mut O,
) -> Result<()>
    ensures mark { WriteMarks result (O.mark out.old) (O.mark out.new) }
    ensures means { WritesAndLeaves
        (engine_depth engine.now)
        (IsTakenError (O.mark out.new))
        result
        (O.given out.old)
        (O.given out.new)
        (alone (rendering_of
        (engine_meant (⟦<AnyEngine as EngineTexts>⟧.texts engine.now) (engine_templates engine.now)) (S.ask source.old)
        None) (template_of template.now) None value_source (states (S.value_state source.old) (tt {0})))
        (states (S.value_state source.new) (tt {0})) }
{
    let (result, values, _) = template
        .render_from_fn(engine, source)
        .to_output_and_sources(out);
    let _source = values.into_source();
    result
}

/// Renders a text twice, and returns whether the two texts are the same: they always are.
pub fn rendered_twice(engine: &Engine<'_>, source: &str, value: &Value) -> Result<bool>
    ensures { IfOk result (λ same. same ≡ true) }
{
    one_table(engine);
    let first = engine.render_text(source, value)?;
    let second = engine.render_text(source, value)?;
    Ok(first == second)
}

/// Renders a text. If no delimiter is in it, that is the text itself.
pub fn rendered_plain(engine: &Engine<'_>, source: &str, value: &Value) -> Result<String>
    ensures { IsPlainText (engine_syntax engine.now) source.now
        → IsTextOrMemory source.now result }
{
    plain_text(engine);
    engine.render_text(source, value)
}

/// What the template of a name needs. Contexts that agree on its names render alike, so the values of these names are a
/// key of what is rendered.
pub fn needs_of<'n>(
    engine: &'n Engine<'_>,
    name: &str,
) -> Option<std::result::Result<Needs<'n>, AllocError>>
    ensures { let e = engine_meant (⟦<AnyEngine as EngineTexts>⟧.texts engine.now) (engine_templates engine.now) in
        (t : TemplateMeant) → e.templates name.now ≡ Some t → IsSomeAnd result (λ r. IfOk r (λ needs.
        (these those : Entries) → AgreeOn (Contains (needed_names needs)) (λ n. entry_at n these)
        (λ n. entry_at n those)
        → alone (rendering_of e refuses_all None) t None (context (map_val these)) (states (tt {0}) (tt {0}))
        ≡ alone (rendering_of e refuses_all None) t None (context (map_val those)) (states (tt {0}) (tt {0})))) }
{
    names_needed::<(), ()>();
    needs::needs_of(engine, name)
}
