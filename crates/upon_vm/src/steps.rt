// How many steps a run still takes: a number that only proofs see.
ghost use Rattle.std.specs.Prelude.{◌≡◌, ◌+◌, ◌<◌, ℕ};
ghost use Rattle.std.specs.Borrow.{ftrue};

use std::marker::{Brand, Model};

/// How many steps are left at most. It takes no bytes.
#[derive(Drop)]
pub(crate) struct Steps {
    pub(crate) ghost left: { ℕ },
}

impl Model for Steps {
    ghost also_owns = { λ _. ftrue };
}

/// What is so of a number.
pub(crate) trait Claim {
    ghost holds: { ℕ → Type 0 };
}

impl Claim for Brand {
    ghost holds = { λ _. Unit {0} };
}

impl Steps {
    /// Some number of which the claim holds. The call picks the claim.
    pub(crate) fn some<A, B, P: Claim>(_a: &A, _b: &B) -> Steps
        requires { (n : ℕ) × P.holds n }
        ensures { P.holds result.left }
    {
        Steps {}
    }

    /// One step less.
    pub(crate) fn less(_before: &Steps) -> Steps
        requires { 0 < _before.now.left }
        ensures { result.left + 1 ≡ _before.now.left }
    {
        Steps {}
    }
}
