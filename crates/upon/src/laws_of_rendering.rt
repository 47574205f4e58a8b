// Laws of rendering: what the clauses of the theorem's calls say together.
ghost use Rattle.std.specs.Prelude.{ℕ, List, Option, Result, Ok, String, string_bytes};
ghost use Rattle.std.specs.declared.alloc.Global.{Global};
ghost use Rattle.std.specs.Io.KnownBytes.{Appends};
ghost use Rattle.upon_types.specs.Val.{Val};
ghost use Rattle.upon_types.specs.Tree.{Statements};
ghost use Rattle.upon_types.specs.declared.error.Error.{Error};
ghost use Rattle.upon_language_spec.specs.Grammar.{HasTree};
ghost use Rattle.upon.specs.RenderingLaws.{AnswersFor, IsPlainText, IsTextOrMemory, SendsFor};

use upon_engine::engine::Engine;
use upon_engine::texts::{AnyEngine, EngineTexts};

/// States that a text without a delimiter renders as itself, on each value and under each name.
pub fn plain_text(engine: &Engine<'_>)
    // What a rendering of such a text answers is the text, or that memory is out.
    ensures { let engine = ⟦<AnyEngine as EngineTexts>⟧.texts engine.now in
        (name : Option (List ℕ)) (source : List ℕ) (v : Val) (result : Result (String Global) Error)
        → IsPlainText engine.syntax source → AnswersFor engine name source v result → IsTextOrMemory source result }
{}

/// States that what rendering a text answers is what a writer receives that takes all.
pub fn text_is_sent(engine: &Engine<'_>)
    // If the source has a tree, and both renderings of it end well, the writer has received the text of the one.
    ensures { let engine = ⟦<AnyEngine as EngineTexts>⟧.texts engine.now in
        (name : Option (List ℕ)) (source : List ℕ) (v : Val) (text : String Global) (old new : Option (List ℕ))
        → (((tree : Statements) → HasTree engine.syntax source tree → ⊥) → ⊥)
        → AnswersFor engine name source v (Ok text) → SendsFor engine name source v (Ok tt) old new
        → Appends old new (string_bytes text) }
{}
