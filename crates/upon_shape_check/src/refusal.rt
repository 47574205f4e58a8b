// Why a template is not accepted.

use crate::doubt::Doubt;
use std::alloc::AllocError;
use upon_types::types::Span;

/// A place in a template where it may fail, and what is not sure there.
#[derive(Drop)]
pub struct Misfit<'t> {
    /// The name of the template.
    pub template: &'t str,
    /// The place, in bytes of the template's text, and what is not sure.
    pub doubt: Doubt<'t>,
}

/// Why it isn't known that a template ends without a fault.
#[derive(Drop)]
pub enum Refusal<'t> {
    /// There is no template of the name.
    NoTemplate,
    /// It may fail, or one that it includes may: at each of these places, which are at least one.
    Misfits(Vec<Misfit<'t>>),
    /// Lists or maps are written in each other too deep for a check, in the template of this name and at this place.
    TooDeep(&'t str, Span),
    /// Memory is out.
    Memory(AllocError),
}

impl<'t> From<AllocError> for Refusal<'t> {
    ghost use Rattle.std.specs.Prelude.{◌≡◌};
    ghost use Rattle.upon_shape_check.specs.declared.refusal.Refusal.TheVariants.{Memory};

    ghost from_gives = { λ given refusal. refusal ≡ Memory given };

    fn from(error: AllocError) -> Refusal<'t> {
        Refusal::Memory(error)
    }
}
