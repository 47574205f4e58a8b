// Of what the text of a rendering is made, in order: raw parts of templates, and what formatters wrote for values.
ghost use Rattle.std.specs.Prelude.{◌≡◌, ℕ, List, Option, Bool, false, IsTrue};
ghost use Rattle.upon_lookup.specs.Environment.{Root};
ghost use Rattle.upon_meaning_spec.specs.Alone.{alone_within, alone};
ghost use Rattle.upon_meaning_spec.specs.Engine.{Template, Calls, Resolver, Rendering};
ghost use Rattle.upon_meaning_spec.specs.Outcome.{States};
ghost use Rattle.upon_meaning_spec.specs.Marks.{has, FromRawParts};
ghost use Rattle.upon_meaning_spec.specs.Parts.{Each, WroteSuch, WovenOf, WritesOnly};
ghost use Rattle.upon_meaning_spec.specs.Pieces.{pieces_within, pieces_of};

/// States that the text of a rendering, up to its end, is its pieces joined, in their order: each is a raw part of the
/// template or of one that it reaches, or what the default formatter, or one that they name, wrote for a value.
pub fn woven<V, T>()
    ensures within { (calls : Calls V) (resolve : Resolver T) (left : ℕ) (t : Template) (name : Option (List ℕ))
        (root : Root) (s : States V T)
        → WovenOf calls resolve t (pieces_within calls resolve left t name root s)
        (alone_within calls resolve left t name root s).text }

    ensures of_depth { (rendering : Rendering V T) (t : Template) (name : Option (List ℕ)) (root : Root)
        (s : States V T)
        → WovenOf rendering.calls rendering.resolve t (pieces_of rendering t name root s)
        (alone rendering t name root s).text }
{}

/// If each formatter that can be called writes only texts with a property, every piece that isn't a raw part has it.
pub fn written_only<V, T>()
    ensures { (P : List ℕ → Bool) (rendering : Rendering V T) (t : Template) (name : Option (List ℕ)) (root : Root)
        (s : States V T) → WritesOnly rendering.calls rendering.resolve t (λ text. IsTrue (P text))
        → Each (WroteSuch (λ text. IsTrue (P text))) (pieces_of rendering t name root s) }
{}

/// Bytes that no formatter writes are in raw parts alone: those of the text are those of the raw parts that it is made
/// of, in their order.
pub fn raw_marks<V, T>()
    ensures { (p : ℕ → Bool) (rendering : Rendering V T) (t : Template) (name : Option (List ℕ)) (root : Root)
        (s : States V T) → WritesOnly rendering.calls rendering.resolve t (λ text. has p text ≡ false)
        → FromRawParts p (pieces_of rendering t name root s) (alone rendering t name root s).text }
{}
