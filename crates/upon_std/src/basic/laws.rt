// Laws of the functions. Nothing runs here: the clauses say what holds of their answers.
ghost use Rattle.std.specs.Fmt.{signed_decimal};
ghost use Rattle.std.specs.Prelude.{◌≡◌, ℕ, ℤ, ◌+ℤ◌, ◌*ℤ◌, List, int_div, int_rem, not, option_map};
ghost use Rattle.std.specs.Ordering.{ordering_reverse};
ghost use Rattle.std.specs.declared.cmp.Ordering.{Ordering};
ghost use Rattle.upon_types.specs.Truth.{truth};
ghost use Rattle.upon_types.specs.Val.{Val, Vals, bool_val, int_val, text_val};
ghost use Rattle.upon_std.specs.Basic.Decimal.{decimal_text};
ghost use Rattle.upon_std.specs.Basic.Items.{reversed};
ghost use Rattle.upon_std.specs.Basic.Order.{order_of, relation_holds};
ghost use Rattle.upon_std.specs.declared.basic.order.Relation.TheVariants.{Less, LessOrEqual, Greater, GreaterOrEqual};

/// States that two integers, and two texts, are ordered in one direction as in the other, turned: `lt(a, b)` is
/// `gt(b, a)`, and `le(a, b)` is `ge(b, a)`.
pub fn order_is_turned()
    ensures integers { (y z : ℤ)
        → order_of (int_val z) (int_val y) ≡ option_map ordering_reverse (order_of (int_val y) (int_val z)) }
    ensures texts { (s t : List ℕ)
        → order_of (text_val t) (text_val s) ≡ option_map ordering_reverse (order_of (text_val s) (text_val t)) }
    ensures less { (o : Ordering) → relation_holds Less (ordering_reverse o) ≡ relation_holds Greater o }
    ensures at_most { (o : Ordering)
        → relation_holds LessOrEqual (ordering_reverse o) ≡ relation_holds GreaterOrEqual o }
{}

/// States that `not` twice gives what `if` takes of a value.
pub fn not_twice()
    ensures { (v : Val) → not (truth (bool_val (not (truth v)))) ≡ truth v }
{}

/// States that the quotient and the remainder give the dividend again.
pub fn division()
    ensures { (y z : ℤ) → int_div y z *ℤ z +ℤ int_rem y z ≡ y }
{}

/// States that `decimal` with no places is the integer in decimal.
pub fn no_places()
    ensures { (z : ℤ) → decimal_text z 0 ≡ signed_decimal z }
{}

/// States that a list that is reversed twice is as it was.
pub fn reversed_twice()
    ensures { (vs : Vals) → reversed (reversed vs) ≡ vs }
{}
