// Marks of the first two bytes of delimiters, by which most offsets are seen to begin none, and whole blocks where
// these bytes are few.
ghost use Rattle.std.specs.Prelude.{◌≡◌, ℕ, ◌<◌, ◌≤◌, List, length, false};
ghost use Rattle.upon_language_spec.specs.Search.{DelimiterText, HasTexts, NoneAt, NoneFrom};
ghost use Rattle.upon_delimiters.specs.Marks.{HasMark, MarksText, MarksEach};
ghost use Rattle.upon_delimiters.specs.Syntax.{syntax_delimiters};

use crate::begins::{BLOCK, Begins};
use crate::syntax::Syntax;

/// For each byte, a bit for each delimiter that it is the first byte of, and for each that it may be the second byte
/// of. A delimiter of one byte may have each byte as its second. Delimiters 16 apart in the list share a bit. And the
/// bytes themselves, if they are few.
#[derive(Drop)]
pub(crate) struct Marks {
    first: [u16; 256],
    second: [u16; 256],
    begins: Option<Begins>,
}

impl Marks {
    /// Returns the marks of the delimiters of a syntax.
    pub(crate) fn of(syntax: &Syntax) -> Marks
        ensures { MarksEach result (syntax_delimiters syntax.now) }
    {
        let mut marks = Marks {
            first: [0; 256],
            second: [0; 256],
            begins: Begins::of(syntax),
        };
        for i in 0..syntax.len() {
            let (_, text) = syntax.get(i);
            marks.add(text.as_bytes(), i % 16);
        }
        marks
    }

    // Marks the first two bytes of a text with a bit.
    fn add(&mut self, text: &[u8], bit: usize)
        requires text { 0 < length text.now }
        requires bit { bit < 16 }
        ensures marked { MarksText self.new bit text.now }
        ensures kept { (b : ℕ) (t : List ℕ) → MarksText self.old b t → MarksText self.new b t }
        ensures begins { self.new.begins ≡ self.old.begins }
    {
        mark(&mut self.first, text[0] as usize, bit);
        match text.get(1) {
            Some(second) => mark(&mut self.second, *second as usize, bit),
            None => mark_all(&mut self.second, bit),
        }
    }

    /// Returns the first offset from one to another at which a delimiter may begin, else the other.
    pub(crate) fn next(&self, source: &str, at: usize, end: usize) -> usize
        requires order { at ≤ end }
        requires within { end ≤ length source.now }
        ensures after { at ≤ result }
        ensures before { result ≤ end }
        ensures none { (delimiters : List DelimiterText) → HasTexts delimiters → MarksEach self.now delimiters
            → NoneFrom delimiters source.now at result }
    {
        let bytes = source.as_bytes();
        let mut from = at;
        while from < end {
            let block_end = from + BLOCK.min(end - from);
            let offset = self.next_of_each(bytes, from, block_end);
            if offset < block_end {
                return offset;
            }
            from = self.pass(bytes, block_end, end);
        }
        end
    }

    // Returns the first offset from one to another at which a delimiter may begin, else the other, by a look at each.
    fn next_of_each(&self, bytes: &[u8], at: usize, end: usize) -> usize
        requires order { at ≤ end }
        requires within { end ≤ length bytes.now }
        ensures after { at ≤ result }
        ensures before { result ≤ end }
        ensures none { (delimiters : List DelimiterText) → HasTexts delimiters → MarksEach self.now delimiters
            → NoneFrom delimiters bytes.now at result }
    {
        for offset in at..end {
            if self.may_begin(bytes, offset) {
                return offset;
            }
        }
        end
    }

    // Where blocks end in which no delimiter begins, if that is seen by a few bytes.
    fn pass(&self, bytes: &[u8], at: usize, end: usize) -> usize
        requires order { at ≤ end }
        requires within { end ≤ length bytes.now }
        ensures after { at ≤ result }
        ensures before { result ≤ end }
        ensures none { (delimiters : List DelimiterText) → HasTexts delimiters → MarksEach self.now delimiters
            → NoneFrom delimiters bytes.now at result }
    {
        match self.begins {
            Some(begins) => begins.pass(bytes, at, end),
            None => at,
        }
    }

    /// Returns whether a delimiter may begin at an offset.
    pub(crate) fn may_begin(&self, bytes: &[u8], at: usize) -> bool
        requires { at < length bytes.now }
        ensures { result ≡ false → (delimiters : List DelimiterText) → HasTexts delimiters
            → MarksEach self.now delimiters
            → NoneAt delimiters bytes.now at }
    {
        let begin = self.first[bytes[at] as usize];
        match bytes.get(at + 1) {
            Some(next) => begin & self.second[*next as usize] != 0,
            None => true,
        }
    }
}

// Marks a byte with a bit.
fn mark(table: &mut [u16; 256], byte: usize, bit: usize)
    requires byte { byte < 256 }
    requires bit { bit < 16 }
    ensures marked { HasMark table.new byte bit }
    ensures kept { (b c : ℕ) → HasMark table.old b c → HasMark table.new b c }
{
    table[byte] |= 1 << bit;
}

// Marks every byte with a bit.
fn mark_all(table: &mut [u16; 256], bit: usize)
    requires { bit < 16 }
    ensures marked { (b : ℕ) → b < 256 → HasMark table.new b bit }
    ensures kept { (b c : ℕ) → HasMark table.old b c → HasMark table.new b c }
{
    for byte in 0..256 {
        mark(table, byte, bit);
    }
}
