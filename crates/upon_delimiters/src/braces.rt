// Where a default delimiter may begin: with a pair of bytes, of which one is a brace, or a byte before such a pair.
ghost use Rattle.std.specs.Prelude.{◌≡◌, ℕ, ◌+◌, ◌<◌, ◌≤◌, length, slice_index, slice_index_or, false, true, MatchOption, IfSome};
ghost use Rattle.memchr.specs.Find.{IsFirstByte, is_byte2};
ghost use Rattle.upon_types.specs.Span.{LiesIn};
ghost use Rattle.upon_language_spec.specs.DefaultDelimiters.{default_delimiters};
ghost use Rattle.upon_language_spec.specs.Search.{IsBestDelimiter, NoneAt, NoneFrom};
ghost use Rattle.upon_delimiters.specs.DefaultBest.{begin_with, best_of, end_with, hyphened};
ghost use Rattle.upon_delimiters.specs.Pairs.{is_pair, NoPairIn, NoPairWith, IsFirstPairWith};

use crate::begins::BLOCK;
use memchr::memchr2;
use upon_types::types::Delimiter;

/// Returns the first offset at or after another from which a default delimiter may occur; the text's length if there is
/// none.
pub(crate) fn next(source: &str, at: usize) -> usize
    requires { at ≤ length source.now }
    ensures after { at ≤ result }
    ensures within { result ≤ length source.now }
    ensures none { NoneFrom default_delimiters source.now at result }
{
    let bytes = source.as_bytes();
    let mut from = at;
    while let Some(found) = first_brace(&bytes[from..]) {
        let brace = from + found;
        if let Some(pair) = pair_with(bytes, at, brace) {
            return begin_of(bytes, at, pair);
        }
        // More braces are often near then, and a search for each would cost more.
        from = pass_blocks(bytes, brace + 1);
    }
    bytes.len()
}

// How many bytes are looked at one by one before a search that is made for long texts, which takes as long to begin.
const NEAR: usize = 8;

// The index of the first brace.
#[inline]
fn first_brace(bytes: &[u8]) -> Option<usize>
    ensures { IsFirstByte (is_byte2 123 125) bytes.now result }
{
    for i in 0..bytes.len().min(NEAR) {
        if matches!(bytes[i], b'{' | b'}') {
            return Some(i);
        }
    }
    memchr2(b'{', b'}', bytes)
}

// Where a delimiter may begin that has a pair at an offset: there, or with a hyphen before it.
fn begin_of(bytes: &[u8], at: usize, pair: usize) -> usize
    requires after { at ≤ pair }
    requires inside { pair < length bytes.now }
    ensures after { at ≤ result }
    ensures before { result ≤ pair }
    ensures no_hyphen { (q : ℕ) → at ≤ q → q < result → q + 1 ≡ pair → slice_index bytes.now q ≡ 45 → ⊥ }
{
    if at < pair && bytes[pair - 1] == b'-' {
        pair - 1
    } else {
        pair
    }
}

// Where blocks end, from an offset on, in which no pair begins.
fn pass_blocks(bytes: &[u8], at: usize) -> usize
    requires { at ≤ length bytes.now }
    ensures after { at ≤ result }
    ensures within { result ≤ length bytes.now }
    ensures none { NoPairIn bytes.now at result }
{
    let mut from = at;
    while bytes.len() - from > BLOCK && !has_pair_in(bytes, from) {
        from += BLOCK;
    }
    from
}

// Whether a pair begins in the block at an offset.
fn has_pair_in(bytes: &[u8], at: usize) -> bool
    requires { at + 64 < length bytes.now }
    ensures { result ≡ false → NoPairIn bytes.now at (at + 64) }
{
    let mut has = false;
    for i in 0..BLOCK {
        has |= is_pair(bytes[at + i], bytes[at + i + 1]);
    }
    has
}

/// Returns whether a default delimiter may begin at an offset: with one of five bytes.
pub(crate) fn may_begin(bytes: &[u8], at: usize) -> bool
    ensures { result ≡ false → NoneAt default_delimiters bytes.now at }
{
    matches!(bytes.get(at), Some(b'{' | b'}' | b'%' | b'#' | b'-'))
}

/// Returns the kind of the best default delimiter at an offset, and the offset of its end.
pub(crate) fn best_at(source: &str, at: usize) -> Option<(Delimiter, usize)>
    requires { at ≤ length source.now }
    ensures best { MatchOption
        result
        (NoneAt default_delimiters source.now at)
        (λ best. IsBestDelimiter default_delimiters source.now best.0 at best.1) }
    ensures span { IfSome result (λ best. LiesIn source.now (record { m = at; n = best.1 })) }
{
    let bytes = source.as_bytes();
    let first = byte_at(bytes, at);
    let second = byte_at(bytes, at + 1);
    let third = byte_at(bytes, at + 2);
    match best_of(first, second, third) {
        Some((kind, length)) => Some((kind, at + length)),
        None => None,
    }
}

// The byte at an offset; 0 if there is none.
fn byte_at(bytes: &[u8], at: usize) -> u8
    ensures { result ≡ slice_index_or bytes.now at 0 }
{
    match bytes.get(at) {
        Some(byte) => *byte,
        None => 0,
    }
}

// The longest default delimiter that three bytes begin with, and its length.
fn best_of(first: u8, second: u8, third: u8) -> Option<(Delimiter, usize)>
    ensures value { result ≡ best_of first second third }
    ensures short { IfSome result (λ best. best.1 ≤ 3) }
{
    match first {
        b'{' => begin_with(second, third == b'-'),
        b'-' if third == b'}' => end_with(second, true),
        b'-' => None,
        _ if second == b'}' => end_with(first, false),
        _ => None,
    }
}

// The delimiter that an open brace and a byte begin, with a hyphen or without one, and its length.
fn begin_with(byte: u8, hyphen: bool) -> Option<(Delimiter, usize)>
    ensures value { result ≡ begin_with byte hyphen }
    ensures short { IfSome result (λ best. best.1 ≤ 3) }
{
    match byte {
        b'{' => Some(hyphened(hyphen, Delimiter::BeginExpr, Delimiter::BeginExprTrim)),
        b'%' => Some(hyphened(hyphen, Delimiter::BeginBlock, Delimiter::BeginBlockTrim)),
        b'#' => Some(hyphened(hyphen, Delimiter::BeginComment, Delimiter::BeginCommentTrim)),
        _ => None,
    }
}

// The delimiter that a byte and a close brace end, with a hyphen or without one, and its length.
fn end_with(byte: u8, hyphen: bool) -> Option<(Delimiter, usize)>
    ensures value { result ≡ end_with byte hyphen }
    ensures short { IfSome result (λ best. best.1 ≤ 3) }
{
    match byte {
        b'}' => Some(hyphened(hyphen, Delimiter::EndExpr, Delimiter::EndExprTrim)),
        b'%' => Some(hyphened(hyphen, Delimiter::EndBlock, Delimiter::EndBlockTrim)),
        b'#' => Some(hyphened(hyphen, Delimiter::EndComment, Delimiter::EndCommentTrim)),
        _ => None,
    }
}

// The delimiter of two bytes, or the one with a hyphen too, and its length.
fn hyphened(hyphen: bool, plain: Delimiter, trimming: Delimiter) -> (Delimiter, usize)
    ensures value { result ≡ hyphened hyphen plain trimming }
    ensures short { result.1 ≤ 3 }
{
    if hyphen { (trimming, 3) } else { (plain, 2) }
}

// The first offset at or after another where a pair is that a brace belongs to.
fn pair_with(bytes: &[u8], at: usize, brace: usize) -> Option<usize>
    requires after { at ≤ brace }
    requires inside { brace < length bytes.now }
    ensures { MatchOption result (NoPairWith bytes.now at brace) (λ pair. IsFirstPairWith bytes.now at brace pair) }
{
    if at < brace && is_pair(bytes[brace - 1], bytes[brace]) {
        return Some(brace - 1);
    }
    if is_pair(bytes[brace], *bytes.get(brace + 1)?) {
        return Some(brace);
    }
    None
}

// Whether two bytes are such a pair.
fn is_pair(first: u8, second: u8) -> bool
    ensures { result ≡ is_pair first second }
{
    // (No branches: a block is looked at all at once.)
    let begins = (first == b'{') & ((second == b'{') | (second == b'%') | (second == b'#'));
    let ends = ((first == b'}') | (first == b'%') | (first == b'#')) & (second == b'}');
    begins | ends
}
