// Laws of the functions. Nothing runs here: the clauses say what holds of their answers.
ghost use Rattle.std.specs.Prelude.{◌≡◌, ◌+◌, ◌<◌, ℕ, List, [], Ok, length, map};
ghost use Rattle.upon_types.specs.Val.{Vals, text_val};
ghost use Rattle.upon_std.specs.Basic.Items.{vals_in_list};
ghost use Rattle.upon_std.specs.Basic.Joined.{joined_from};
ghost use Rattle.upon_std.specs.Cutting.Items.{concatenated, sliced};
ghost use Rattle.upon_std.specs.Cutting.Pieces.{pieces, replaced};

/// States that a text that is split is given back by `join` with the same separator.
pub fn split_and_joined()
    ensures { (separator text : List ℕ)
        → 0 < length separator
        → joined_from [] separator (map text_val (pieces separator text)) ≡ Ok text }
{}

/// States that a text with the same in place of what is found is as it was.
pub fn replaced_by_itself()
    ensures { (from text : List ℕ) → 0 < length from → replaced from from text ≡ text }
{}

/// States that two lists in one have the items of both.
pub fn length_of_both()
    ensures { (vs ws : Vals)
        → length (vals_in_list (concatenated vs ws)) ≡ length (vals_in_list vs) + length (vals_in_list ws) }
{}

/// States that the slice of a list from 0 to its length is the list.
pub fn sliced_whole()
    ensures { (vs : Vals) → sliced 0 (length (vals_in_list vs)) vs ≡ vs }
{}
