// The bytes that delimiters have at their second place, or at their first, if they are at most three.
ghost use Rattle.std.specs.Prelude.{◌≡◌, ℕ, ◌<◌, ◌≤◌, List, length, IfSome, slice_index};
ghost use Rattle.memchr.specs.Find.{IsFirstByte, is_byte3};
ghost use Rattle.upon_language_spec.specs.Search.{DelimiterText, NoneFrom, text_at};
ghost use Rattle.upon_delimiters.specs.FewBytes.{IsOneOf, HaveOneOf};
ghost use Rattle.upon_delimiters.specs.Syntax.{syntax_delimiters};

use crate::syntax::Syntax;

/// At most three bytes, and the place in delimiters where they are looked for; fewer bytes are repeated.
#[derive(Clone, Copy)]
pub(crate) struct FewBytes {
    first: u8,
    second: u8,
    third: u8,
    place: usize,
}

impl FewBytes {
    /// Returns the bytes that the delimiters of a syntax have at their second place, else those at their first; `None`
    /// if there are more than three of both. (The hyphens that trim are first bytes, and frequent in texts.)
    pub(crate) fn of(syntax: &Syntax) -> Option<FewBytes>
        ensures { IfSome result (λ few. HaveOneOf few (syntax_delimiters syntax.now)) }
    {
        match FewBytes::at_place(syntax, 1) {
            Some(few) => Some(few),
            None => FewBytes::at_place(syntax, 0),
        }
    }

    // The bytes that the delimiters have at a place; `None` if one ends before, if there are more than three, or none.
    fn at_place(syntax: &Syntax, place: usize) -> Option<FewBytes>
        ensures { IfSome result (λ few. HaveOneOf few (syntax_delimiters syntax.now)) }
    {
        if syntax.len() == 0 {
            return None;
        }
        let byte = byte_of(syntax, 0, place)?;
        let mut few = FewBytes {
            first: byte,
            second: byte,
            third: byte,
            place,
        };
        for i in 1..syntax.len() {
            few = few.with(byte_of(syntax, i, place)?)?;
        }
        Some(few)
    }

    // These bytes and one more; `None` if they are then more than three.
    fn with(self, byte: u8) -> Option<FewBytes>
        ensures more { IfSome result (λ few. IsOneOf few byte) }
        ensures kept { IfSome result (λ few. (b : ℕ) → IsOneOf self b → IsOneOf few b) }
        ensures place { IfSome result (λ few. few.place ≡ self.place) }
    {
        if byte == self.first || byte == self.second || byte == self.third {
            return Some(self);
        }
        if self.third == self.second {
            return Some(FewBytes {
                third: byte,
                ..self
            });
        }
        if self.second == self.first {
            return Some(FewBytes {
                second: byte,
                ..self
            });
        }
        None
    }

    /// Returns the first offset at or after another at whose place one of these bytes is, or the text's length if there
    /// is none.
    pub(crate) fn next(self, source: &str, at: usize) -> usize
        requires { at ≤ length source.now }
        ensures after { at ≤ result }
        ensures within { result ≤ length source.now }
        ensures none { (delimiters : List DelimiterText) → HaveOneOf self delimiters
            → NoneFrom delimiters source.now at result }
    {
        let Some(rest) = source.as_bytes()[at..].get(self.place..) else {
            return source.len();
        };
        match self.look(rest) {
            Some(found) => at + found,
            None => source.len(),
        }
    }

    // The first index of one of these bytes. Two of them are found faster than three.
    fn look(self, bytes: &[u8]) -> Option<usize>
        ensures { IsFirstByte (is_byte3 self.first self.second self.third) bytes.now result }
    {
        if self.first == self.second {
            memchr::memchr2(self.second, self.third, bytes)
        } else {
            memchr::memchr3(self.first, self.second, self.third, bytes)
        }
    }
}

// The byte at a place of the delimiter at an index; `None` if its text ends before.
fn byte_of(syntax: &Syntax, i: usize, place: usize) -> Option<u8>
    requires { i < length (syntax_delimiters syntax.now) }
    ensures { let text = text_at (syntax_delimiters syntax.now) i in
        IfSome result (λ byte. place < length text × (byte ≡ slice_index text place)) }
{
    let (_, text) = syntax.get(i);
    text.as_bytes().get(place).copied()
}
