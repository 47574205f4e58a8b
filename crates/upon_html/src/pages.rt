// Pages whose values write no markup.
ghost use Rattle.std.specs.Prelude.{◌≡◌, None, Some, IsErr, IsNone, IsSomeAnd, IfErr};
ghost use Rattle.upon_types.specs.Tree.{Statements};
ghost use Rattle.upon_types.specs.View.{view};
ghost use Rattle.upon_language_spec.specs.Grammar.{HasTree};
ghost use Rattle.upon_meaning_spec.specs.Engine.{Table};
ghost use Rattle.upon_syntax.specs.TagReading.{IsSyntaxError};
ghost use Rattle.upon_engine.specs.Texts.{Stored};
ghost use Rattle.upon_engine.specs.Theorem.{AnswersTree, IsTable};
ghost use Rattle.upon_html.specs.EscapedPage.{MarkupIsRaw, escaping_all};

use crate::callables::Escaping;
use std::borrow::CowStr;
use upon_engine::engine::Engine;
use upon_engine::texts::{AnyEngine, EngineTexts};
use upon_types::error::Result;
use upon_types::value::Value;

/// Renders the text of a template on a value, with what each formatter writes escaped, or says why there is no text.
pub fn render_text(engine: &Engine<'_>, source: &str, value: &Value) -> Result<String>
    // Whatever the template and the value are, the markup of the text is that of the raw parts that this rendering
    // shows, in their order.
    ensures markup { let texts = ⟦<AnyEngine as EngineTexts>⟧.texts engine.now in
        (tree : Statements) (table : Table) → HasTree texts.syntax source.now tree → IsTable texts.texts table
        → MarkupIsRaw (escaping_all texts) table None source.now tree (view value.now) result }
    // If the source has a tree, the answer is what that tree means on the value, where each formatter escapes.
    ensures means { let texts = ⟦<AnyEngine as EngineTexts>⟧.texts engine.now in
        (tree : Statements) → HasTree texts.syntax source.now tree
        → AnswersTree (escaping_all texts) None source.now tree (view value.now) result }
    // If it has none, the answer is its first fault, or that memory is out.
    ensures refused { let texts = ⟦<AnyEngine as EngineTexts>⟧.texts engine.now in
        ((tree : Statements) → HasTree texts.syntax source.now tree → ⊥)
        → IsErr result × IfErr result (IsSyntaxError texts.syntax source.now) }
{
    let template = engine.compile(CowStr::Borrowed(source))?;
    let page = template.render_from(engine, value);
    page.with_callables(Escaping::new(engine)).to_string()
}

/// Renders the template of a name on a value, with what each formatter writes escaped, or returns `None` if there is
/// none of this name.
pub fn render_template(engine: &Engine<'_>, name: &str, value: &Value) -> Option<Result<String>>
    // Whatever the template and the value are, the markup of the text is that of the raw parts that this rendering
    // shows, in their order.
    ensures markup { let texts = ⟦<AnyEngine as EngineTexts>⟧.texts engine.now in
        (held : Stored) (tree : Statements) (table : Table) → texts.texts name.now ≡ Some held
        → HasTree held.syntax held.text tree → IsTable texts.texts table
        → IsSomeAnd result (MarkupIsRaw (escaping_all texts) table (Some name.now) held.text tree (view value.now)) }
    // If a text is held under the name, the answer is what its tree means on the value, where each formatter escapes.
    ensures means { let texts = ⟦<AnyEngine as EngineTexts>⟧.texts engine.now in
        (held : Stored) (tree : Statements) → texts.texts name.now ≡ Some held → ∥ HasTree held.syntax held.text tree ∥₁
        → IsSomeAnd result (AnswersTree (escaping_all texts) (Some name.now) held.text tree (view value.now)) }
    // If none is, there is no answer.
    ensures absent { (⟦<AnyEngine as EngineTexts>⟧.texts engine.now).texts name.now ≡ None
        → IsNone result }
{
    let template = engine.get_template(name)?;
    let page = template.render_from(value);
    Some(page.with_callables(Escaping::new(engine)).to_string())
}
