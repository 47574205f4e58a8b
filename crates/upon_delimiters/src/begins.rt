// The bytes with which delimiters begin, by which a block of a text is seen to begin none: all its offsets are looked
// at at once.
ghost use Rattle.std.specs.Prelude.{◌≡◌, ℕ, ◌+◌, ◌<◌, ◌≤◌, List, length, slice_index, IfSome, true, false};
ghost use Rattle.upon_language_spec.specs.Search.{DelimiterText, HasTexts, NoneFrom};
ghost use Rattle.upon_delimiters.specs.Begins.{BeginsText, BeginEach};
ghost use Rattle.upon_delimiters.specs.ByteSet.{IsIn};
ghost use Rattle.upon_delimiters.specs.Syntax.{syntax_delimiters};

use crate::byte_set::ByteSet;
use crate::syntax::Syntax;

/// How many offsets a block has.
pub(crate) const BLOCK: usize = 64;

/// The bytes of the delimiters of one byte, and the first and second bytes of the others.
#[derive(Clone, Copy)]
pub(crate) struct Begins {
    alone: ByteSet,
    first: ByteSet,
    second: ByteSet,
}

impl Begins {
    /// Returns how the delimiters of a syntax begin; `None` if there are more than six bytes of one sort.
    pub(crate) fn of(syntax: &Syntax) -> Option<Begins>
        ensures { IfSome result (λ begins. BeginEach begins (syntax_delimiters syntax.now)) }
    {
        let mut begins = Begins {
            alone: ByteSet::new(),
            first: ByteSet::new(),
            second: ByteSet::new(),
        };
        for i in 0..syntax.len() {
            let (_, text) = syntax.get(i);
            begins = begins.with(text.as_bytes())?;
        }
        Some(begins)
    }

    // The bytes with those of one text more.
    fn with(self, text: &[u8]) -> Option<Begins>
        requires { 0 < length text.now }
        ensures more { IfSome result (λ begins. BeginsText begins text.now) }
        ensures kept { IfSome result (λ begins. (t : List ℕ) → BeginsText self t → BeginsText begins t) }
    {
        let first = text[0];
        match text.get(1) {
            Some(second) => Some(Begins {
                first: self.first.with(first)?,
                second: self.second.with(*second)?,
                ..self
            }),
            None => Some(Begins {
                alone: self.alone.with(first)?,
                ..self
            }),
        }
    }

    // Whether a delimiter may begin with a byte that another one follows.
    fn may_begin(self, byte: u8, next: u8) -> bool
        ensures { (text : List ℕ) → 0 < length text → BeginsText self text → slice_index text 0 ≡ byte
            → (1 < length text → slice_index text 1 ≡ next) → result ≡ true }
    {
        self.alone.has(byte) | (self.first.has(byte) & self.second.has(next))
    }

    // Whether a delimiter may begin in the block at an offset. (A set that is asked of each byte costs as much if it is
    // empty.)
    fn may_begin_in(self, bytes: &[u8], at: usize) -> bool
        requires { at + 64 < length bytes.now }
        ensures { result ≡ false → (delimiters : List DelimiterText) → HasTexts delimiters → BeginEach self delimiters
            → NoneFrom delimiters bytes.now at (at + 64) }
    {
        if self.alone.is_empty() {
            self.long_one_may_begin_in(bytes, at)
        } else {
            self.any_may_begin_in(bytes, at)
        }
    }

    // Whether any delimiter may.
    fn any_may_begin_in(self, bytes: &[u8], at: usize) -> bool
        requires { at + 64 < length bytes.now }
        ensures { result ≡ false → (delimiters : List DelimiterText) → HasTexts delimiters → BeginEach self delimiters
            → NoneFrom delimiters bytes.now at (at + 64) }
    {
        let mut may = false;
        for i in 0..BLOCK {
            may |= self.may_begin(bytes[at + i], bytes[at + i + 1]);
        }
        may
    }

    // Whether a delimiter may begin so, if none has one byte.
    fn long_one_may_begin(self, byte: u8, next: u8) -> bool
        requires { (alone : ℕ) → IsIn self.alone alone → ⊥ }
        ensures { (text : List ℕ) → 0 < length text → BeginsText self text → slice_index text 0 ≡ byte
            → (1 < length text → slice_index text 1 ≡ next) → result ≡ true }
    {
        self.first.has(byte) & self.second.has(next)
    }

    // Whether one may begin in the block, if none has one byte.
    fn long_one_may_begin_in(self, bytes: &[u8], at: usize) -> bool
        requires long { (alone : ℕ) → IsIn self.alone alone → ⊥ }
        requires inside { at + 64 < length bytes.now }
        ensures { result ≡ false → (delimiters : List DelimiterText) → HasTexts delimiters → BeginEach self delimiters
            → NoneFrom delimiters bytes.now at (at + 64) }
    {
        let mut may = false;
        for i in 0..BLOCK {
            may |= self.long_one_may_begin(bytes[at + i], bytes[at + i + 1]);
        }
        may
    }

    /// Returns where blocks end, from an offset on, in which no delimiter begins; another offset at most.
    pub(crate) fn pass(self, bytes: &[u8], at: usize, end: usize) -> usize
        requires order { at ≤ end }
        requires within { end ≤ length bytes.now }
        ensures after { at ≤ result }
        ensures before { result ≤ end }
        ensures none { (delimiters : List DelimiterText) → HasTexts delimiters → BeginEach self delimiters
            → NoneFrom delimiters bytes.now at result }
    {
        let mut from = at;
        while end - from > BLOCK && !self.may_begin_in(bytes, from) {
            from += BLOCK;
        }
        from
    }
}
