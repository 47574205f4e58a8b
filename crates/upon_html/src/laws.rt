// What an escaped text holds, and that nothing is lost.
ghost use Rattle.std.specs.Prelude.{◌≡◌, ◌≤◌, ◌*◌, ℕ, List, Option, false, length};
ghost use Rattle.upon_types.specs.Val.{Val};
ghost use Rattle.upon_lookup.specs.Environment.{Root};
ghost use Rattle.upon_meaning_spec.specs.Alone.{alone};
ghost use Rattle.upon_meaning_spec.specs.Engine.{Template, Rendering};
ghost use Rattle.upon_meaning_spec.specs.Outcome.{States};
ghost use Rattle.upon_meaning_spec.specs.Marks.{FromRawParts};
ghost use Rattle.upon_meaning_spec.specs.Pieces.{pieces_of};
ghost use Rattle.upon_html.specs.Escape.{escape, unescape, is_markup, has_markup, AmpersandsRefer};
ghost use Rattle.upon_html.specs.Page.{EscapesAll};
ghost use Rattle.upon_html.specs.Escaped.{escaped};

/// States that what is written for a value holds none of `<`, `>`, `"` and `'`.
pub fn no_markup()
    ensures { (v : Val) → has_markup (escaped v).text ≡ false }
{}

/// Unescaping gives the text again, so that no two texts become one.
pub fn nothing_lost()
    ensures again { (text : List ℕ) → unescape (escape text) ≡ text }
    ensures injective { (a b : List ℕ) → escape a ≡ escape b → a ≡ b }
{}

/// It is at most six times as long.
pub fn at_most_six()
    ensures { (text : List ℕ) → length (escape text) ≤ 6 * length text }
{}

/// Each `&` in it begins one of the five references.
pub fn ampersands()
    ensures { (v : Val) → AmpersandsRefer (escaped v).text }
{}

/// If each formatter that can be called escapes, a rendering's text is its pieces joined, of which the raw parts alone
/// hold `<`, `>`, `"` and `'`: those of the text are those of these raw parts, in their order, whatever the values are.
pub fn markup_is_raw<V, T>()
    ensures { (rendering : Rendering V T) (t : Template) (name : Option (List ℕ)) (root : Root) (s : States V T)
        → EscapesAll rendering.calls rendering.resolve t
        → FromRawParts is_markup (pieces_of rendering t name root s) (alone rendering t name root s).text }
{}
