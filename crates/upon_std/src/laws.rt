// Laws of the functions. Nothing runs here: the clauses say what holds of their answers.
ghost use Rattle.std.specs.Prelude.{◌≡◌, ℕ, List};
ghost use Rattle.std.specs.StrCase.Lower.{str_to_lowercase};
ghost use Rattle.std.specs.StrCase.Upper.{str_to_uppercase};

/// States that a text in lower case is its own lower case: `lower` twice gives what `lower` gives.
pub fn lower_twice()
    ensures { (text : List ℕ) → str_to_lowercase (str_to_lowercase text) ≡ str_to_lowercase text }
{}

/// States that a text in upper case is its own upper case: `upper` twice gives what `upper` gives.
pub fn upper_twice()
    ensures { (text : List ℕ) → str_to_uppercase (str_to_uppercase text) ≡ str_to_uppercase text }
{}
