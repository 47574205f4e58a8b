// Of which values shapes are that are made of others, and of data.
ghost use Rattle.std.specs.Prelude.{◌≡◌, ℕ, List, false, IsTrue};
ghost use Rattle.upon_types.specs.Path.{Member};
ghost use Rattle.upon_types.specs.Truth.{truth};
ghost use Rattle.upon_types.specs.Val.{Val};
ghost use Rattle.upon_lookup.specs.Walk.{walk};
ghost use Rattle.upon_meaning_spec.specs.MapOrder.{IsAmong};
ghost use Rattle.upon_shape_spec.specs.Cut.{cut_to, RiseTo};
ghost use Rattle.upon_shape_spec.specs.Depth.{is_deeper};
ghost use Rattle.upon_shape_spec.specs.Fits.{Fits, MapsRise};
ghost use Rattle.upon_shape_spec.specs.Found.{Finds, FindsShape};
ghost use Rattle.upon_shape_spec.specs.Join.{join_shapes, shape_of, samples_shape, opened};
ghost use Rattle.upon_shape_spec.specs.Narrowed.{narrowed};
ghost use Rattle.upon_shape_spec.specs.Paths.{walk_shape};
ghost use Rattle.upon_shape_spec.specs.Shape.{Shape};
ghost use Rattle.upon_shape_spec.specs.Wider.{wider};

/// States that what fits a shape fits each that is at least as wide. Each shape is as wide as itself, and one that is
/// as wide as another is as wide as what that one is as wide as.
pub fn wider_fits()
    ensures fits { (s t : Shape) (v : Val) → IsTrue (wider s t) → Fits t v → Fits s v }

    ensures itself { (s : Shape) → IsTrue (wider s s) }

    ensures over { (s t u : Shape) → IsTrue (wider s t) → IsTrue (wider t u) → IsTrue (wider s u) }
{}

/// States that what fits one of two shapes fits both joined, which is the narrowest shape that is as wide as each.
pub fn joined_fits()
    ensures of_first { (s t : Shape) (v : Val) → Fits s v → Fits (join_shapes s t) v }

    ensures of_second { (s t : Shape) (v : Val) → Fits t v → Fits (join_shapes s t) v }

    ensures as_wide { (s t : Shape) → IsTrue (wider (join_shapes s t) s) × IsTrue (wider (join_shapes s t) t) }

    ensures narrowest { (s t u : Shape) → IsTrue (wider u s) → IsTrue (wider u t) → IsTrue (wider u (join_shapes s t)) }
{}

/// States that a value fits its own shape, if the keys of its maps are in their order, as those of each value of a
/// program are; and that this is the narrowest shape that it fits.
pub fn own_shape_fits()
    ensures fits { (v : Val) → MapsRise v → Fits (shape_of v) v }

    ensures narrowest { (s : Shape) (v : Val) → Fits s v → IsTrue (wider s (shape_of v)) }
{}

/// States that a shape which is cut at a depth is at least as wide as it was, and no deeper; and that a value fits its
/// own shape which is cut, if the keys of its maps are in their order down to that depth.
pub fn cut_shape_fits()
    ensures as_wide { (levels : ℕ) (s : Shape) → IsTrue (wider (cut_to levels s) s) }

    ensures no_deeper { (levels : ℕ) (s : Shape) → is_deeper levels (cut_to levels s) ≡ false }

    ensures fits { (levels : ℕ) (v : Val) → RiseTo levels v → Fits (cut_to levels (shape_of v)) v }
{}

/// States that each of some samples fits the shape of them all, and that a shape is as wide if its maps may have other
/// keys.
pub fn samples_fit()
    ensures fit { (samples : List Val) (v : Val) → IsAmong v samples → MapsRise v
        → Fits (samples_shape samples) v }

    ensures opened { (s : Shape) → IsTrue (wider (opened s) s) }
{}

/// States that a path which has a shape in a shape finds a value of it in each value that fits.
pub fn path_finds()
    ensures { (members : List Member) (s : Shape) (v : Val) → Fits s v
        → FindsShape (walk_shape members s) (walk members v) }
{}

/// States that a value in which a path finds what is true fits the shape in which the path's keys are there.
pub fn narrowed_fits()
    ensures { (members : List Member) (s : Shape) (v : Val) → Fits s v
        → Finds (λ found. IsTrue (truth found)) (walk members v) → Fits (narrowed members s) v }
{}
