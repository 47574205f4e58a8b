// What is done with an engine that holds templates. The engine stays in one function: a function that takes `&mut
// Engine` or returns an engine would have a contract that says nothing of what is behind its `dyn`.
ghost use Rattle.std.specs.Prelude.{◌≡◌, ◌↔◌, ⊤, ℕ, List, None, Some, IfErr, IfOk, IsNone, IsSomeAnd, string_bytes};
ghost use Rattle.upon_types.specs.Tree.{Statements};
ghost use Rattle.upon_types.specs.View.{view};
ghost use Rattle.upon_language_spec.specs.Grammar.{HasTree};
ghost use Rattle.upon_engine.specs.Template.{template_of};
ghost use Rattle.upon_engine.specs.Texts.{Stored};
ghost use Rattle.upon_calls.specs.Asked.{asked_by};
ghost use Rattle.upon_calls.specs.Failure.{RefusedIf};
ghost use Rattle.upon_calls.specs.Filled.{filled};
ghost use Rattle.upon_vm.specs.Limits.{is_limited};
ghost use Rattle.upon_calls.specs.Rendering.{AnswersIf, FailsNamed, FailsText, MeansNamed, MeansText};
ghost use Rattle.upon_calls.specs.Templates.{lent_pairs};
ghost use Rattle.upon_calls.specs.Work.{CarriedFails, IsAbsent, WorkFails, WorkFaults, WorkGives};
ghost use Rattle.upon_calls.specs.declared.failure.Argument.TheVariants.{Name};

use crate::arguments::refused;
use crate::escaping::Escaping;
use crate::failure::{Argument, Failure};
use crate::functions::standard;
use crate::misfits::misfits;
use crate::names::list;
use crate::options::Options;
use std::alloc::Global;
use std::borrow::CowStr;
use upon_engine::engine::Engine;
use upon_engine::template::Template;
use upon_engine::texts::{AnyEngine, EngineTexts};
use upon_engine::theorem;
use upon_engine::within::Limits;
use upon_html::formatters::Verbatim;
use upon_shape::shape::Shape;
use upon_shape_check::declared::Declared;
use upon_types::value::Value;

/// What is done with an engine.
#[derive(Clone, Copy)]
pub(crate) enum Work<'w> {
    /// The template of a name is rendered on a value.
    Render(&'w str, &'w Value),
    /// A text is rendered on a value.
    RenderText(&'w str, &'w Value),
    /// It is listed what the template of a name needs.
    Names(&'w str),
    /// It is shown where pages may fail.
    Fit(Pages<'w>),
}

/// Pages that are to end without a fault on each value of a shape.
#[derive(Clone, Copy)]
pub(crate) struct Pages<'w> {
    /// Their names.
    pub(crate) names: &'w [&'w str],
    /// What is declared of what they call.
    pub(crate) declared: &'w Declared,
    /// What is known of the values.
    pub(crate) shape: &'w Shape,
}

/// Fills an engine with templates, does a piece of work with it, and returns the text of that.
pub(crate) fn carry_out(
    alloc: Global,
    options: Options,
    sources: &[(&str, &str)],
    work: Work<'_>,
) -> Result<String, Failure>
    ensures gives { let asked = asked_by options in IfOk result
        (λ text. WorkGives asked.limits (filled asked (lent_pairs sources.now)) work.entry (string_bytes text)) }
    ensures fails { IfErr result (CarriedFails (asked_by options) (lent_pairs sources.now) work.entry) }
{
    let Options {
        escape,
        syntax,
        depth,
        functions,
        limits,
    } = options;
    let mut engine = Engine::new(alloc);
    if let Some(language) = escape {
        engine.add_formatter(CowStr::Borrowed("verbatim"), Box::new(alloc, Verbatim)?)?;
        engine.set_default_formatter(Box::new(alloc, Escaping { language })?);
    }
    engine.set_syntax(syntax);
    engine.set_max_include_depth(depth);
    let callables = standard(functions);
    for function in callables {
        let boxed = Box::new(alloc, *function)?;
        engine.add_function(CowStr::Borrowed(function.name()), boxed)?;
    }
    for (name, source) in sources {
        match engine.add_template(CowStr::Borrowed(name), CowStr::Borrowed(source)) {
            Ok(()) => {}
            Err(error) => return Err(Failure::of_error(alloc, &error)),
        }
    }
    theorem::held_has_tree(&engine);
    do_work(alloc, &engine, &limits, work)
}

// Does a piece of work with an engine, each of whose texts has a tree.
fn do_work(
    alloc: Global,
    engine: &Engine<'_>,
    limits: &Limits,
    work: Work<'_>,
) -> Result<String, Failure>
    requires { let texts = (⟦<AnyEngine as EngineTexts>⟧.texts engine.now).texts in
        (name : List ℕ) (held : Stored) → texts name ≡ Some held
        → (tree : Statements) × ∥ HasTree held.syntax held.text tree ∥₁ }
    ensures gives { IfOk result
        (λ text. WorkGives limits.now (⟦<AnyEngine as EngineTexts>⟧.texts engine.now) work.entry (string_bytes text)) }
    ensures fails { let texts = ⟦<AnyEngine as EngineTexts>⟧.texts engine.now in
        IfErr result (WorkFails (WorkFaults limits.now texts work.entry) (IsAbsent texts work.entry)) }
{
    match work {
        Work::Render(name, value) => render_named(alloc, engine, limits, name, value),
        Work::RenderText(source, value) => render_text(alloc, engine, limits, source, value),
        Work::Names(name) => list(alloc, engine, name),
        Work::Fit(pages) => misfits(alloc, engine, pages),
    }
}

// Whether a limit is set.
fn is_limited(limits: &Limits) -> bool
    ensures { result ≡ is_limited limits.now }
{
    limits.steps.is_some() || limits.output.is_some() || limits.values.is_some()
}

// Renders the template of a name.
fn render_named(
    alloc: Global,
    engine: &Engine<'_>,
    limits: &Limits,
    name: &str,
    value: &Value,
) -> Result<String, Failure>
    requires { let texts = (⟦<AnyEngine as EngineTexts>⟧.texts engine.now).texts in
        (name : List ℕ) (held : Stored) → texts name ≡ Some held
        → (tree : Statements) × ∥ HasTree held.syntax held.text tree ∥₁ }
    ensures gives { let texts = ⟦<AnyEngine as EngineTexts>⟧.texts engine.now in
        IfOk result (λ text. MeansNamed limits.now texts name.now (view value.now) (string_bytes text)) }
    ensures fails { let texts = ⟦<AnyEngine as EngineTexts>⟧.texts engine.now in
        IfErr result (WorkFails
        (FailsNamed limits.now texts name.now (view value.now))
        (texts.texts name.now ≡ None)) }
{
    let Some(answer) = answer_named(engine, limits, name, value) else {
        return Err(no_template(alloc, name));
    };
    match answer {
        Ok(text) => Ok(text),
        Err(error) => Err(Failure::of_error(alloc, &error)),
    }
}

// What rendering the template of a name answers. If no limit is set, nothing is counted.
fn answer_named(
    engine: &Engine<'_>,
    limits: &Limits,
    name: &str,
    value: &Value,
) -> Option<upon_types::error::Result<String>>
    ensures means { let texts = ⟦<AnyEngine as EngineTexts>⟧.texts engine.now in
        (held : Stored) (tree : Statements) → texts.texts name.now ≡ Some held
        → ∥ HasTree held.syntax held.text tree ∥₁
        → IsSomeAnd result (AnswersIf
        (is_limited limits.now) limits.now texts (Some name.now) held.text tree (view value.now)) }
    ensures absent { IsNone result ↔ ((⟦<AnyEngine as EngineTexts>⟧.texts engine.now).texts name.now ≡ None) }
{
    if is_limited(limits) {
        engine.render_template_within(limits, name, value)
    } else {
        engine.render_template(name, value)
    }
}

/// Returns the refusal of a name that no template has.
#[cold]
pub(crate) fn no_template(alloc: Global, name: &str) -> Failure
    ensures { RefusedIf Name ⊤ result }
{
    let reason = format!(in alloc; "no template is named \"{name}\"");
    refused(Argument::Name, reason)
}

// Renders a text.
fn render_text(
    alloc: Global,
    engine: &Engine<'_>,
    limits: &Limits,
    source: &str,
    value: &Value,
) -> Result<String, Failure>
    ensures gives { let texts = ⟦<AnyEngine as EngineTexts>⟧.texts engine.now in
        IfOk result (λ text. MeansText limits.now texts source.now (view value.now) (string_bytes text)) }
    ensures fails { let texts = ⟦<AnyEngine as EngineTexts>⟧.texts engine.now in
        IfErr result (WorkFails (FailsText limits.now texts source.now (view value.now)) ⊥) }
{
    let template = match engine.compile(CowStr::Borrowed(source)) {
        Ok(template) => template,
        Err(error) => return Err(Failure::of_error(alloc, &error)),
    };
    match answer_text(engine, limits, &template, value) {
        Ok(text) => Ok(text),
        Err(error) => Err(Failure::of_error(alloc, &error)),
    }
}

// What rendering a template of an engine answers. If no limit is set, nothing is counted.
fn answer_text(
    engine: &Engine<'_>,
    limits: &Limits,
    template: &Template<'_>,
    value: &Value,
) -> upon_types::error::Result<String>
    requires { let texts = ⟦<AnyEngine as EngineTexts>⟧.texts engine.now in
        let t = template_of template.now in HasTree texts.syntax t.source t.tree }
    ensures { let texts = ⟦<AnyEngine as EngineTexts>⟧.texts engine.now in let t = template_of template.now in
        AnswersIf (is_limited limits.now) limits.now texts None t.source t.tree (view value.now) result }
{
    if is_limited(limits) {
        engine.render_text_within(limits, template.source(), value)
    } else {
        template.render_from(engine, value).to_string()
    }
}
