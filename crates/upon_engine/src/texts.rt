// What an engine holds, as texts.
ghost use Rattle.upon_engine.specs.Texts.{Texts};

use crate::engine::Engine;
use upon_fmt::fmt::Format;
use upon_functions::function::Function;

/// An engine, as clauses of other crates name its type: they read each lifetime as this one.
pub type AnyEngine = Engine<'static>;

/// What an engine holds, as texts, for clauses of other crates: those can't cite the boxes that it holds.
pub trait EngineTexts {
    // The texts that it holds by their names, its callables, the default formatter, the depth, and its delimiters.
    ghost texts: { Self → Texts };
}

impl<'e> EngineTexts for Engine<'e> {
    ghost use Rattle.upon_engine.specs.Texts.{texts_of};

    ghost texts = { λ e. texts_of (λ f. (Format-box f).formats f.value) (λ f. (Function-box f).answers f.value) e };
}
