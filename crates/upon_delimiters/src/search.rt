// Where delimiters occur in a text: by a brace, by a few bytes or by marks, and then by a walk of the trie.
ghost use Rattle.std.specs.Prelude.{◌≡◌, ℕ, List, ◌<◌, ◌≤◌, ◌+◌, false, length, MatchOption, IfSome};
ghost use Rattle.std.specs.Str.{IsCharBoundary};
ghost use Rattle.upon_types.specs.Span.{LiesIn};
ghost use Rattle.upon_language_spec.specs.DefaultDelimiters.{default_delimiters};
ghost use Rattle.upon_language_spec.specs.Search.{DelimiterText, HasTexts, Occurs, NoneAt, NoneFrom, IsBest, IsBestDelimiter, IsFirst};
ghost use Rattle.upon_language_spec.specs.Raw.{IsRaw};
ghost use Rattle.upon_delimiters.specs.FewBytes.{HaveOneOf};
ghost use Rattle.upon_delimiters.specs.Marks.{MarksEach};
ghost use Rattle.upon_delimiters.specs.Syntax.{syntax_delimiters};
ghost use Rattle.upon_delimiters.specs.Ways.{WayFits};

use crate::braces;
use crate::few_bytes::FewBytes;
use crate::marks::Marks;
use crate::syntax::{Syntax, trie};
use upon_types::types::{Delimiter, Span};

/// Finds the delimiters of a syntax in a text.
#[derive(Drop)]
pub struct Searcher {
    syntax: Syntax,
    way: Way,
    ghost fits: { ∥ WayFits way (syntax_delimiters syntax) ∥₁ },
}

// How it looks for the next delimiter: by the next brace; by the bytes at one place of all delimiters, if there are at
// most three, and marks of their first two bytes; or by marks alone.
#[derive(Drop)]
enum Way {
    Brace,
    Few(FewBytes, Marks),
    Marked(Marks),
}

impl Searcher {
    ghost use Rattle.upon_delimiters.specs.Searcher.{searcher_delimiters, IsNextDelimiter};

    /// Creates a searcher for the default syntax.
    pub fn new() -> Searcher
        ensures { searcher_delimiters result ≡ default_delimiters }
    {
        Searcher::with_syntax(Syntax::default())
    }

    /// Creates a searcher for a syntax.
    pub fn with_syntax(syntax: Syntax) -> Searcher
        ensures { searcher_delimiters result ≡ syntax_delimiters syntax }
    {
        let way = way_of(&syntax);
        Searcher { syntax, way }
    }

    /// Returns the syntax whose delimiters it finds.
    pub fn syntax(&self) -> &Syntax
        ensures { syntax_delimiters result.now ≡ searcher_delimiters self.now }
    {
        &self.syntax
    }

    /// Returns the same syntax, and gives up the searcher. No memory is taken.
    pub fn into_syntax(self) -> Syntax
        ensures { syntax_delimiters result ≡ searcher_delimiters self }
    {
        let Searcher { syntax, way: _ } = self;
        syntax
    }

    /// Returns the first delimiter at or after an offset, which is a character boundary of the text: its kind and its
    /// span, in bytes. At the least offset where one occurs, it is the one with the longest text, and of equal texts
    /// the one listed first.
    pub fn find_at(&self, source: &str, at: usize) -> Option<(Delimiter, Span)>
        requires { IsCharBoundary source.now at }
        ensures found { MatchOption
            result
            (NoneFrom (searcher_delimiters self.now) source.now at (length source.now))
            (λ first. IsFirst (searcher_delimiters self.now) source.now at first.0 first.1) }
        ensures span { IfSome result (λ first. LiesIn source.now first.1) }
    {
        let mut offset = self.skip(source, at);
        while offset < source.len() {
            if let Some((kind, end)) = self.best_at(source, offset) {
                return Some((kind, Span { m: offset, n: end }));
            }
            offset = self.skip(source, offset + 1);
        }
        None
    }

    /// Returns the best delimiter at an offset, which is a character boundary of the text, and its span, in bytes.
    pub fn starts_with(&self, source: &str, at: usize) -> Option<(Delimiter, Span)>
        requires { IsCharBoundary source.now at }
        ensures best { MatchOption
            result
            (NoneAt (searcher_delimiters self.now) source.now at)
            (λ best. IsBestDelimiter (searcher_delimiters self.now) source.now best.0 best.1.m best.1.n) }
        ensures start { IfSome result (λ best. best.1.m ≡ at) }
        ensures span { IfSome result (λ best. LiesIn source.now best.1) }
    {
        if at < source.len() && !self.may_begin(source.as_bytes(), at) {
            return None;
        }
        match self.best_at(source, at) {
            Some((kind, end)) => Some((kind, Span { m: at, n: end })),
            None => None,
        }
    }

    /// Returns the offset where the raw part that begins at an offset ends: at the next delimiter, whose kind is
    /// returned too, or at the text's end. It begins at a character boundary before the text's end if no delimiter
    /// occurs.
    pub fn raw_end(&self, source: &str, at: usize) -> (usize, Option<Delimiter>)
        requires inside { at < length source.now }
        requires boundary { IsCharBoundary source.now at }
        requires bare { NoneAt (searcher_delimiters self.now) source.now at }
        ensures raw { IsRaw (searcher_delimiters self.now) source.now at result.0 }
        ensures next { IsNextDelimiter (searcher_delimiters self.now) source.now result.0 result.1 }
        ensures span { LiesIn source.now (record { m = at; n = result.0 }) }
    {
        match self.find_at(source, at) {
            Some((kind, next)) => (next.m, Some(kind)),
            None => (source.len(), None),
        }
    }

    // The next offset from which a delimiter may occur; the text's end where there is none.
    fn skip(&self, source: &str, at: usize) -> usize
        requires { at ≤ length source.now }
        ensures after { at ≤ result }
        ensures within { result ≤ length source.now }
        ensures none { NoneFrom (searcher_delimiters self.now) source.now at result }
    {
        match &self.way {
            Way::Brace => braces::next(source, at),
            Way::Few(bytes, marks) => next_of_few(*bytes, marks, source, at),
            Way::Marked(marks) => marks.next(source, at, source.len()),
        }
    }

    /// Returns whether a delimiter may begin at an offset, by the first byte there or the first two.
    pub fn may_begin(&self, bytes: &[u8], at: usize) -> bool
        requires { at < length bytes.now }
        ensures { result ≡ false → NoneAt (searcher_delimiters self.now) bytes.now at }
    {
        match &self.way {
            Way::Brace => braces::may_begin(bytes, at),
            Way::Few(_, marks) => marks.may_begin(bytes, at),
            Way::Marked(marks) => marks.may_begin(bytes, at),
        }
    }

    // The kind of the best delimiter at an offset, and the offset of its end.
    #[inline(always)]
    fn best_at(&self, source: &str, at: usize) -> Option<(Delimiter, usize)>
        requires { at ≤ length source.now }
        ensures best { MatchOption
            result
            (NoneAt (searcher_delimiters self.now) source.now at)
            (λ best. IsBestDelimiter (searcher_delimiters self.now) source.now best.0 at best.1) }
        ensures span { IfSome result (λ best. LiesIn source.now (record { m = at; n = best.1 })) }
    {
        if self.syntax.is_default() {
            return braces::best_at(source, at);
        }
        let longest = self.longest_at(source, at)?;
        let (kind, text) = self.syntax.get(longest);
        Some((kind, end_of(source, at, text)))
    }

    // The index of the best delimiter at an offset.
    fn longest_at(&self, source: &str, at: usize) -> Option<usize>
        requires { at ≤ length source.now }
        ensures { MatchOption
            result
            (NoneAt (searcher_delimiters self.now) source.now at)
            (λ i. IsBest (searcher_delimiters self.now) source.now at i) }
    {
        match trie::longest_at(self.syntax.nodes(), source.as_bytes(), at) {
            Some((longest, _)) => Some(longest),
            None => None,
        }
    }
}

// How to look for the delimiters of a syntax.
fn way_of(syntax: &Syntax) -> Way
    ensures { WayFits result (syntax_delimiters syntax.now) }
{
    if syntax.is_default() {
        return Way::Brace;
    }
    let marks = Marks::of(syntax);
    match FewBytes::of(syntax) {
        Some(bytes) => Way::Few(bytes, marks),
        None => Way::Marked(marks),
    }
}

// Where a text ends that occurs at an offset.
fn end_of(source: &str, at: usize, text: &str) -> usize
    requires some { 0 < length text.now }
    requires occurs { Occurs source.now at text.now }
    ensures end { result ≡ at + length text.now }
    ensures span { LiesIn source.now (record { m = at; n = result }) }
{
    at + text.len()
}

// How many bytes are looked at by marks before the next search for few bytes, if one of them is near to where the
// search began (others are often near then, and a search for each would cost more); else only the one that is found is
// looked at.
const WINDOW: usize = 4096;

const NEAR: usize = 256;

// The next offset from which a delimiter may occur that has one of a few bytes; the text's length if there is none.
fn next_of_few(few: FewBytes, marks: &Marks, source: &str, at: usize) -> usize
    requires { at ≤ length source.now }
    ensures after { at ≤ result }
    ensures within { result ≤ length source.now }
    ensures none { (delimiters : List DelimiterText) → HasTexts delimiters → HaveOneOf few delimiters
        → MarksEach marks.now delimiters → NoneFrom delimiters source.now at result }
{
    let mut from = at;
    while from < source.len() {
        let start = few.next(source, from);
        let window = if start - from < NEAR { WINDOW } else { 1 };
        let end = start + window.min(source.len() - start);
        let offset = marks.next(source, start, end);
        if offset < end {
            return offset;
        }
        from = end;
    }
    source.len()
}
