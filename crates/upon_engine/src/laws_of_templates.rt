// Laws of an engine's templates: what they are beside the texts that it holds.
ghost use Rattle.std.specs.Prelude.{◌≡◌, ℕ, List, Some};
ghost use Rattle.upon_before_spec.specs.Grammar.{HasTree as HadTree};
ghost use Rattle.upon_before_spec.specs.Now.{statements_now};
ghost use Rattle.upon_before_spec.specs.Tree.{Statements as StatementsBefore};
ghost use Rattle.upon_engine.specs.Engine.{engine_templates};
ghost use Rattle.upon_engine.specs.Texts.{Stored};
ghost use Rattle.upon_engine.specs.Theorem.{IsTable};

use crate::engine::Engine;
use crate::texts::{AnyEngine, EngineTexts};

/// States that the templates of an engine are the table of the texts that it holds: each text, with its tree.
pub fn templates_are_the_table(engine: &Engine<'_>)
    ensures { IsTable (⟦<AnyEngine as EngineTexts>⟧.texts engine.now).texts (engine_templates engine.now) }
{}

/// States that a text that is held, and had a tree before `for .. else`, has that tree as a template.
pub fn old_trees_are_kept(engine: &Engine<'_>)
    ensures { let texts = (⟦<AnyEngine as EngineTexts>⟧.texts engine.now).texts in
        (name : List ℕ) (held : Stored) (tree : StatementsBefore) → texts name ≡ Some held
        → HadTree held.syntax held.text tree
        → engine_templates engine.now name ≡ Some (record { source = held.text; tree = statements_now tree }) }
{}
