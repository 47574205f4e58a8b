// When two syntaxes are the same: where they have the same list of delimiters.
ghost use Rattle.std.specs.Prelude.{◌≡◌, ◌<◌, ◌↔◌, IsTrue, length};
ghost use Rattle.std.specs.Cmp.{partial_equiv_from_equiv, on_equiv, decided};
ghost use Rattle.std.specs.Ordering.{on};
ghost use Rattle.upon_language_spec.specs.SameDelimiters.{delimiters_eq};
ghost use Rattle.upon_language_spec.specs.Search.{kind_at, text_at};
ghost use Rattle.upon_language_spec.proofs.SameDelimiters.{delimiters_eq-Decides};
ghost use Rattle.upon_delimiters.specs.Syntax.{syntax_delimiters};

use super::Syntax;

impl PartialEq for Syntax {
    ghost eq = { on syntax_delimiters delimiters_eq };

    ghost laws = { partial_equiv_from_equiv
        (on_equiv syntax_delimiters (decided delimiters_eq delimiters_eq-Decides)) };

    fn eq(&self, other: &Syntax) -> bool {
        is_same(self, other)
    }
}

impl Eq for Syntax {
    ghost laws = { on_equiv syntax_delimiters (decided delimiters_eq delimiters_eq-Decides) };
}

/// Returns whether the two have the same delimiters in the same order, as `==` says.
pub fn is_same(a: &Syntax, b: &Syntax) -> bool
    ensures { IsTrue result ↔ (syntax_delimiters a.now ≡ syntax_delimiters b.now) }
{
    if a.len() != b.len() {
        return false;
    }
    for i in 0..a.len() {
        if !is_same_at(a, b, i) {
            return false;
        }
    }
    true
}

// Whether they have the same delimiter at an index.
fn is_same_at(a: &Syntax, b: &Syntax, i: usize) -> bool
    requires first { i < length (syntax_delimiters a.now) }
    requires second { i < length (syntax_delimiters b.now) }
    ensures { IsTrue result ↔ ((kind_at (syntax_delimiters a.now) i ≡ kind_at (syntax_delimiters b.now) i)
        × (text_at (syntax_delimiters a.now) i ≡ text_at (syntax_delimiters b.now) i)) }
{
    let (kind, text) = a.get(i);
    let (other_kind, other_text) = b.get(i);
    kind == other_kind && text == other_text
}
