// Callers of an engine whose formatters escape, or whose formatters' texts are escaped, by the public clauses alone.
ghost use Rattle.std.specs.Prelude.{None};
ghost use Rattle.upon_types.specs.Tree.{Statements};
ghost use Rattle.upon_types.specs.View.{view};
ghost use Rattle.upon_language_spec.specs.DefaultDelimiters.{default_delimiters};
ghost use Rattle.upon_language_spec.specs.Grammar.{HasTree};
ghost use Rattle.upon_meaning_spec.specs.Engine.{Table};
ghost use Rattle.upon_engine.specs.Theorem.{IsTable};
ghost use Rattle.upon_html.specs.EscapedPage.{MarkupIsRaw, escaping_all};
ghost use Rattle.upon_users.specs.Pages.{escaping_alone, no_templates, CallsEscape, OnlyEscapes};

use std::alloc::Global;
use upon_engine::engine::Engine;
use upon_engine::texts::{AnyEngine, EngineTexts};
use upon_html::formatters::Escape;
use upon_html::pages;
use upon_types::error::Result;
use upon_types::value::Value;

/// Returns the text of a page on a value. If each formatter that the page can call escapes, its markup is that of the
/// raw parts that the rendering shows.
pub fn page(engine: &Engine<'_>, source: &str, value: &Value) -> Result<String>
    ensures { let texts = ⟦<AnyEngine as EngineTexts>⟧.texts engine.now in
        (tree : Statements) (table : Table) → HasTree texts.syntax source.now tree → IsTable texts.texts table
        → CallsEscape texts table source.now tree
        → MarkupIsRaw texts table None source.now tree (view value.now) result }
{
    engine.render_text(source, value)
}

/// Returns the same, if the engine's formatters are the escaping one alone.
pub fn escaped_page(engine: &Engine<'_>, source: &str, value: &Value) -> Result<String>
    ensures { let texts = ⟦<AnyEngine as EngineTexts>⟧.texts engine.now in
        (tree : Statements) (table : Table) → HasTree texts.syntax source.now tree → IsTable texts.texts table
        → OnlyEscapes texts → MarkupIsRaw texts table None source.now tree (view value.now) result }
{
    page(engine, source, value)
}

/// Returns the text of a page on a value by an engine with any formatters, all of whose texts are escaped.
pub fn safe_page(engine: &Engine<'_>, source: &str, value: &Value) -> Result<String>
    ensures markup { let texts = ⟦<AnyEngine as EngineTexts>⟧.texts engine.now in
        (tree : Statements) (table : Table) → HasTree texts.syntax source.now tree → IsTable texts.texts table
        → MarkupIsRaw (escaping_all texts) table None source.now tree (view value.now) result }
{
    pages::render_text(engine, source, value)
}

/// Returns the text of a page on a value by an engine that it makes, whose only formatter escapes: whatever the page
/// and the value are, its markup is that of the page's own text.
pub fn page_of_its_own(alloc: Global, source: &str, value: &Value) -> Result<String>
    ensures { (tree : Statements) → HasTree default_delimiters source.now tree
        → MarkupIsRaw escaping_alone no_templates None source.now tree (view value.now) result }
{
    let mut engine = Engine::new(alloc);
    let escape = Box::new(alloc, Escape)?;
    engine.set_default_formatter(escape);
    escaped_page(&engine, source, value)
}
