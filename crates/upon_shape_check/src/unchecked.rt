// Why a template is not checked.

use std::alloc::AllocError;
use upon_types::types::Span;

/// Why a template is not checked.
#[derive(Debug, Drop)]
pub enum Unchecked {
    /// There is no memory.
    Memory(AllocError),
    /// The list or map here is nested too deep in a literal.
    TooDeep(Span),
}

impl From<AllocError> for Unchecked {
    ghost use Rattle.std.specs.Prelude.{◌≡◌};
    ghost use Rattle.upon_shape_check.specs.declared.unchecked.Unchecked.TheVariants.{Memory};

    ghost from_gives = { λ given error. error ≡ Memory given };

    fn from(error: AllocError) -> Unchecked {
        Unchecked::Memory(error)
    }
}
