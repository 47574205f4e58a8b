// What is known of the renderings of a template that is accepted, and of the places of one that is not.
ghost use Rattle.std.specs.Prelude.{◌≡◌, ℕ, ◌≤◌, List, Some, Result, String};
ghost use Rattle.std.specs.declared.alloc.Global.{Global};
ghost use Rattle.upon_types.specs.Tree.{Statements};
ghost use Rattle.upon_types.specs.Val.{Val};
ghost use Rattle.upon_types.specs.declared.error.Error.{Error};
ghost use Rattle.upon_language_spec.specs.Grammar.{HasTree};
ghost use Rattle.upon_meaning_spec.specs.DefaultFormat.{formatter_or_default};
ghost use Rattle.upon_shape_spec.specs.Declared.{Declared, KeepsDeclared};
ghost use Rattle.upon_shape_spec.specs.Fits.{Fits};
ghost use Rattle.upon_shape_spec.specs.Shape.{Shape};
ghost use Rattle.upon_engine.specs.Texts.{Stored};
ghost use Rattle.upon_engine.specs.Theorem.{AnswersTree};
ghost use Rattle.upon_shape_check.specs.Doubted.{DoubtedOn};
ghost use Rattle.upon_shape_check.specs.Pictures.{EachLies, places_of};
ghost use Rattle.upon_shape_check.specs.declared.refusal.Refusal.{Refusal};
ghost use Rattle.upon_shape_check.specs.EndsOn.{EndsOn, EndsAtDepth, IsTextUnlessDeep, IsTextOrNoMemory};

use upon_engine::engine::Engine;
use upon_engine::texts::{AnyEngine, EngineTexts};

/// States that what `render_template` answers, of a template that is accepted on a shape and on a value that fits, is a
/// text, unless includes are too deep or memory is out; if callables keep what is declared of them.
pub fn an_accepted_template_has_a_text(engine: &Engine<'_>)
    ensures { let e = ⟦<AnyEngine as EngineTexts>⟧.texts engine.now in
        (declared : Declared) (name : List ℕ) (s : Shape) (held : Stored) (tree : Statements) (v : Val)
        (result : Result (String Global) Error)
        → EndsOn e declared name s → e.texts name ≡ Some held → ∥ HasTree held.syntax held.text tree ∥₁
        → KeepsDeclared declared e.callables (formatter_or_default e.default_formatter) → Fits s v
        → AnswersTree e (Some name) held.text tree v result → IsTextUnlessDeep e.depth result }
{}

/// States that this is a text, unless memory is out, of a template that ends within a depth which is not greater than
/// the engine's.
pub fn a_template_within_the_depth_has_a_text(engine: &Engine<'_>)
    ensures { let e = ⟦<AnyEngine as EngineTexts>⟧.texts engine.now in
        (declared : Declared) (name : List ℕ) (s : Shape) (depth : ℕ) (held : Stored) (tree : Statements) (v : Val)
        (result : Result (String Global) Error)
        → EndsAtDepth depth e declared name s → depth ≤ e.depth
        → e.texts name ≡ Some held → ∥ HasTree held.syntax held.text tree ∥₁
        → KeepsDeclared declared e.callables (formatter_or_default e.default_formatter) → Fits s v
        → AnswersTree e (Some name) held.text tree v result → IsTextOrNoMemory result }
{}

/// States that each place for which a template is not accepted lies in the text of the template that has it: so it is
/// shown, if one more may be.
pub fn refused_places_lie_in_their_texts(engine: &Engine<'_>)
    ensures { let e = ⟦<AnyEngine as EngineTexts>⟧.texts engine.now in
        (declared : Declared) (name : List ℕ) (s : Shape) (refusal : Refusal)
        → DoubtedOn e declared name s refusal → EachLies e (places_of refusal) }
{}
