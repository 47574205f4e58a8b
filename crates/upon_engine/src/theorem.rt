// The theorem: what rendering a text answers, by texts and trees alone.
ghost use Rattle.std.specs.Prelude.{◌≡◌, ◌↔◌, ℕ, List, None, Some, IsErr, IsNone, IsSomeAnd, IfErr};
ghost use Rattle.upon_types.specs.Tree.{Statements};
ghost use Rattle.upon_types.specs.View.{view};
ghost use Rattle.upon_language_spec.specs.Grammar.{HasTree};
ghost use Rattle.upon_meaning_spec.specs.Engine.{Table};
ghost use Rattle.upon_syntax.specs.TagReading.{IsSyntaxError};
ghost use Rattle.upon_engine.specs.Texts.{Stored, texts_of};
ghost use Rattle.upon_engine.specs.Theorem.{AnswersTree, IsTable, Sends};

use crate::engine::Engine;
use std::borrow::CowStr;
use std::io;
use upon_types::error::Result;
use upon_types::value::Value;

impl<'e> Engine<'e> {
    /// Renders the text of a template on a value, or says why there is no text.
    pub fn render_text(&self, source: &str, value: &Value) -> Result<String>
        // If the source has a tree, the answer is what that tree means on the value.
        ensures means { let engine = texts_of formats answers self.now in (tree : Statements)
            → HasTree engine.syntax source.now tree → AnswersTree engine None source.now tree (view value.now) result }
        // If it has none, the answer is its first fault, or that memory is out.
        ensures refused { let engine = texts_of formats answers self.now in
            ((tree : Statements) → HasTree engine.syntax source.now tree → ⊥)
            → IsErr result × IfErr result (IsSyntaxError engine.syntax source.now) }
    {
        let template = self.compile(CowStr::Borrowed(source))?;
        template.render_from(self, value).to_string()
    }

    /// Renders the template of a name on a value, or returns `None` if there is none of this name.
    pub fn render_template(&self, name: &str, value: &Value) -> Option<Result<String>>
        // If a text is held under the name, the answer is what its tree means on the value.
        ensures means { let engine = texts_of formats answers self.now in
            (held : Stored) (tree : Statements) → engine.texts name.now ≡ Some held
            → ∥ HasTree held.syntax held.text tree ∥₁
            → IsSomeAnd result (AnswersTree engine (Some name.now) held.text tree (view value.now)) }
        // If none is, and only then, there is no answer.
        ensures absent { IsNone result ↔ ((texts_of formats answers self.now).texts name.now ≡ None) }
    {
        let template = self.get_template(name)?;
        Some(template.render_from(value).to_string())
    }

    /// Renders the text of a template on a value to a writer. If the text has no tree, nothing is written.
    pub fn render_text_to<W: io::Write>(
        &self,
        source: &str,
        value: &Value,
        out: &mut W,
    ) -> Result<()>
        // If the source has a tree, the writer receives what that tree means on the value, as far as it can.
        ensures means { let engine = texts_of formats answers self.now in (tree : Statements)
            → HasTree engine.syntax source.now tree
            → Sends engine None source.now tree (view value.now) result (W.contents out.old) (W.contents out.new) }
        // If it has none, the answer is its first fault, or that memory is out.
        ensures refused { let engine = texts_of formats answers self.now in
            ((tree : Statements) → HasTree engine.syntax source.now tree → ⊥)
            → IsErr result × IfErr result (IsSyntaxError engine.syntax source.now) }
        // And then nothing is written.
        ensures unwritten { let engine = texts_of formats answers self.now in
            ((tree : Statements) → HasTree engine.syntax source.now tree → ⊥)
            → W.contents out.new ≡ W.contents out.old }
    {
        let template = self.compile(CowStr::Borrowed(source))?;
        template.render_from(self, value).to_writer(out)
    }

    /// Renders the template of a name on a value to a writer, or returns `None` if there is none of this name.
    pub fn render_template_to<W: io::Write>(
        &self,
        name: &str,
        value: &Value,
        out: &mut W,
    ) -> Option<Result<()>>
        // If a text is held under the name, the writer receives what its tree means on the value, as far as it can.
        ensures means { let engine = texts_of formats answers self.now in
            (held : Stored) (tree : Statements) → engine.texts name.now ≡ Some held
            → ∥ HasTree held.syntax held.text tree ∥₁
            → IsSomeAnd result (λ r.
            Sends engine (Some name.now) held.text tree (view value.now) r (W.contents out.old) (W.contents out.new)) }
        // If none is, and only then, there is no answer.
        ensures absent { IsNone result ↔ ((texts_of formats answers self.now).texts name.now ≡ None) }
        // And then nothing is written.
        ensures unwritten { (texts_of formats answers self.now).texts name.now ≡ None
            → W.contents out.new ≡ W.contents out.old }
    {
        let template = self.get_template(name)?;
        Some(template.render_from(value).to_writer(out))
    }
}

/// States that the texts that an engine holds have exactly one table of trees.
pub fn one_table(engine: &Engine<'_>)
    // There is a table whose entries are trees of the texts, and each such table is this one.
    ensures { let texts = (texts_of formats answers engine.now).texts in
        (table : Table) × IsTable texts table × ((other : Table) → IsTable texts other → other ≡ table) }
{}

/// States that each text that an engine holds has a tree under the syntax that it is held with.
pub fn held_has_tree(engine: &Engine<'_>)
    ensures { let texts = (texts_of formats answers engine.now).texts in
        (name : List ℕ) (held : Stored) → texts name ≡ Some held
        → (tree : Statements) × ∥ HasTree held.syntax held.text tree ∥₁ }
{}
