// Laws of limits: what a greater limit changes, what fits the limits and what is stopped, and that each rendering ends
// within some number of steps.
ghost use Rattle.std.specs.Prelude.{◌≡◌, ◌⊎◌, ◌≤◌, ℕ, List, Option, Some, Result, IsErrAnd, String};
ghost use Rattle.std.specs.declared.alloc.Global.{Global};
ghost use Rattle.upon_types.specs.Error.{fault_of};
ghost use Rattle.upon_types.specs.Fault.{out_of_memory};
ghost use Rattle.upon_types.specs.Tree.{Statements};
ghost use Rattle.upon_types.specs.Val.{Val};
ghost use Rattle.upon_types.specs.declared.error.Error.{Error};
ghost use Rattle.upon_meaning_spec.specs.Engine.{Table};
ghost use Rattle.upon_vm.specs.declared.limits.Limit.{Limit};
ghost use Rattle.upon_vm.specs.declared.limits.Limits.{Limits};
ghost use Rattle.upon_engine.specs.Theorem.{AnswersTree, IsTable, Sends, meaning};
ghost use Rattle.upon_engine.specs.Within.{AnswersWithin, AreNoLess, EndsWithin, RenderingFits, RenderingGoesBeyond, NamesALimit, SendsWithin, StopsSending, runs};

use upon_engine::engine::Engine;
use upon_engine::texts::{AnyEngine, EngineTexts};

/// States that each rendering ends within some number of steps and within any greater one, and that what comes out then
/// is what the tree means.
pub fn steps_suffice(engine: &Engine<'_>)
    // There is a number of steps within which it ends.
    ensures some { let engine = ⟦<AnyEngine as EngineTexts>⟧.texts engine.now in
        (table : Table) (name : Option (List ℕ)) (source : List ℕ) (tree : Statements) (v : Val)
        → (n : ℕ) × EndsWithin engine table name source tree v n }
    // It ends within any greater number.
    ensures greater { let engine = ⟦<AnyEngine as EngineTexts>⟧.texts engine.now in
        (table : Table) (name : Option (List ℕ)) (source : List ℕ) (tree : Statements) (v : Val) (m n : ℕ)
        → m ≤ n → EndsWithin engine table name source tree v m → EndsWithin engine table name source tree v n }
    // What comes out is what the tree means.
    ensures means { let engine = ⟦<AnyEngine as EngineTexts>⟧.texts engine.now in
        (table : Table) (name : Option (List ℕ)) (source : List ℕ) (tree : Statements) (v : Val) (n : ℕ)
        → EndsWithin engine table name source tree v n
        → (runs engine table name source tree v).out n ≡ Some (meaning engine table name source tree v) }
{}

/// States that greater limits change no answer but one that names a limit, and that an answer that names none is the
/// theorem's.
pub fn greater_limits(engine: &Engine<'_>)
    // An answer within limits names a limit, or is an answer within greater ones.
    ensures greater { let engine = ⟦<AnyEngine as EngineTexts>⟧.texts engine.now in
        (one other : Limits) (name : Option (List ℕ)) (source : List ℕ) (tree : Statements) (v : Val)
        (result : Result (String Global) Error) → AreNoLess one other
        → AnswersWithin engine one name source tree v result
        → NamesALimit engine name source tree v result ⊎ AnswersWithin engine other name source tree v result }
    // An answer within limits names a limit, or is what a rendering without limits answers.
    ensures theorem { let engine = ⟦<AnyEngine as EngineTexts>⟧.texts engine.now in
        (limits : Limits) (name : Option (List ℕ)) (source : List ℕ) (tree : Statements) (v : Val)
        (result : Result (String Global) Error)
        → AnswersWithin engine limits name source tree v result
        → NamesALimit engine name source tree v result ⊎ AnswersTree engine name source tree v result }
{}

/// States that a rendering that fits its limits is as one without limits.
pub fn what_fits(engine: &Engine<'_>)
    ensures answered { let engine = ⟦<AnyEngine as EngineTexts>⟧.texts engine.now in
        (limits : Limits) (name : Option (List ℕ)) (source : List ℕ) (tree : Statements) (v : Val)
        (result : Result (String Global) Error) → RenderingFits engine limits name source tree v
        → AnswersWithin engine limits name source tree v result
        → AnswersTree engine name source tree v result }
    ensures sent { let engine = ⟦<AnyEngine as EngineTexts>⟧.texts engine.now in
        (limits : Limits) (name : Option (List ℕ)) (source : List ℕ) (tree : Statements) (v : Val)
        (result : Result (Unit {0}) Error) (old new : Option (List ℕ)) → RenderingFits engine limits name source tree v
        → SendsWithin engine limits name source tree v result old new
        → Sends engine name source tree v result old new }
{}

/// States that a rendering is stopped that goes beyond a limit: it does not end within so many steps, its text has more
/// bytes, or it makes more bytes of values.
pub fn what_goes_beyond(engine: &Engine<'_>)
    // The answer names a limit, or memory is out.
    ensures answered { let engine = ⟦<AnyEngine as EngineTexts>⟧.texts engine.now in
        (limits : Limits) (limit : Limit) (n : ℕ) (name : Option (List ℕ)) (source : List ℕ) (tree : Statements)
        (v : Val) (result : Result (String Global) Error) → RenderingGoesBeyond engine limits limit n name source tree v
        → AnswersWithin engine limits name source tree v result
        → NamesALimit engine name source tree v result ⊎ IsErrAnd result (λ e. fault_of e ≡ out_of_memory) }
    // So it is of what is written, but that a failed write may be told of.
    ensures sent { let engine = ⟦<AnyEngine as EngineTexts>⟧.texts engine.now in
        (limits : Limits) (limit : Limit) (n : ℕ) (name : Option (List ℕ)) (source : List ℕ) (tree : Statements)
        (v : Val) (result : Result (Unit {0}) Error) (old new : Option (List ℕ))
        → RenderingGoesBeyond engine limits limit n name source tree v
        → SendsWithin engine limits name source tree v result old new
        → (table : Table) → IsTable engine.texts table
        → StopsSending limits (runs engine table name source tree v) (meaning engine table name source tree v) result }
{}
