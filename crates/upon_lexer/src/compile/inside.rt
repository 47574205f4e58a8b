// The tokens inside a tag: what begins each, and how far it goes.
ghost use Rattle.std.specs.Prelude.{◌≡◌, ℕ, ◌+◌, ◌∷◌, [], length, Bool, true, false, codes, MatchOption, IfOk, IfErr, IfSome, encode_utf8};
ghost use Rattle.std.specs.Str.{IsCharBoundary};
ghost use Rattle.upon_types.specs.Span.{LiesIn};
ghost use Rattle.upon_types.specs.declared.types.token.Token.TheVariants.{Ident, QuestionDot, String};
ghost use Rattle.upon_language_spec.specs.Search.{Occurs};
ghost use Rattle.upon_language_spec.specs.Words.{begins_name};
ghost use Rattle.upon_language_spec.specs.Inside.{token_kind, start_kind, Extent, IsQuoted, escape, is_piece};
ghost use Rattle.upon_language_spec.specs.Faults.{LineEnds};
ghost use Rattle.upon_lexer.specs.Reasons.{reason_of};
ghost use Rattle.upon_language_spec.specs.InsideStart.{BeginsInside, NoInside, NoString};

use crate::compile::chars::{CharClass, begins_name, char_at, is_keyword, run_end};
use crate::compile::fault::{SyntaxFault, Wrong};
use upon_types::types::{Span, Token, slice};

/// Returns the token that a character begins inside a tag, and where it ends, in bytes; or why none begins there: a
/// character that begins no token, or a quote that begins no string.
pub fn token_inside(
    source: &str,
    at: usize,
    first: char,
    in_path: bool,
) -> Result<(Token, usize), Wrong>
    requires boundary { IsCharBoundary source.now at }
    requires occurs { Occurs source.now at (encode_utf8 first) }
    ensures token { IfOk result (λ read. BeginsInside source.now in_path read.0 at read.1) }
    ensures span { IfOk result (λ read. LiesIn source.now (record { m = at; n = read.1 })) }
    ensures none { IfErr result (λ wrong. NoInside source.now in_path at wrong.span (reason_of wrong.fault)) }
    ensures wrong_span { IfErr result (λ wrong. LiesIn source.now wrong.span) }
{
    match token_kind(first, in_path) {
        Some(Token::Whitespace) => Ok((Token::Whitespace, run_end(CharClass::Space, source, at))),
        Some(Token::Index) => Ok((Token::Index, run_end(CharClass::Digit, source, at))),
        Some(Token::Number) => Ok((Token::Number, run_end(CharClass::Number, source, at))),
        Some(Token::Ident) => Ok(word_at(source, at, first)),
        Some(Token::String) => string_at(source, at),
        Some(Token::QuestionDot) => question_at(source, at),
        Some(token) => Ok((token, at + 1)),
        None => Err(unexpected(at, at + first.len_utf8())),
    }
}

// The kind of the token that a character begins; a name's denotes keywords too.
fn token_kind(c: char, in_path: bool) -> Option<Token>
    ensures { result ≡ token_kind in_path c }
{
    match c {
        '\t' | '\n' | '\r' | ' ' => Some(Token::Whitespace),
        '.' => Some(Token::Dot),
        '?' => Some(Token::QuestionDot),
        '|' => Some(Token::Pipe),
        ',' => Some(Token::Comma),
        ':' => Some(Token::Colon),
        '+' => Some(Token::Plus),
        '-' => Some(Token::Minus),
        '[' => Some(Token::OpenBracket),
        ']' => Some(Token::CloseBracket),
        '{' => Some(Token::OpenBrace),
        '}' => Some(Token::CloseBrace),
        '(' => Some(Token::OpenParen),
        ')' => Some(Token::CloseParen),
        '"' => Some(Token::String),
        '0'..='9' if in_path => Some(Token::Index),
        '0'..='9' => Some(Token::Number),
        c if begins_name(c) => Some(Token::Ident),
        _ => None,
    }
}

// The name or keyword that a character begins, and where it ends.
fn word_at(source: &str, at: usize, first: char) -> (Token, usize)
    requires boundary { IsCharBoundary source.now at }
    requires occurs { Occurs source.now at (encode_utf8 first) }
    requires begins { begins_name first ≡ true }
    ensures kind { start_kind result.0 ≡ Ident }
    ensures extent { Extent source.now result.0 at result.1 }
    ensures span { LiesIn source.now (record { m = at; n = result.1 }) }
{
    let end = run_end(CharClass::Name, source, at);
    if is_keyword(slice(source, Span { m: at, n: end })) {
        (Token::Keyword, end)
    } else {
        (Token::Ident, end)
    }
}

// A question mark at an offset with the dot after it, and where they end.
fn question_at(source: &str, at: usize) -> Result<(Token, usize), Wrong>
    requires boundary { IsCharBoundary source.now at }
    requires occurs { Occurs source.now at (63 ∷ []) }
    ensures kind { IfOk result (λ read. read.0 ≡ QuestionDot) }
    ensures extent { IfOk result (λ read. Extent source.now QuestionDot at read.1) }
    ensures span { IfOk result (λ read. LiesIn source.now (record { m = at; n = read.1 })) }
    ensures none { IfErr result
        (λ wrong. (in_path : Bool) → NoInside source.now in_path at wrong.span (reason_of wrong.fault)) }
    ensures wrong_span { IfErr result (λ wrong. LiesIn source.now wrong.span) }
{
    match char_at(source, at + 1) {
        Some('.') => Ok((Token::QuestionDot, at + 2)),
        Some(other) => Err(unexpected(at, at + 1 + other.len_utf8())),
        None => Err(unexpected(at, at + 1)),
    }
}

fn unexpected(m: usize, n: usize) -> Wrong
    ensures reason { reason_of result.fault ≡ codes "unexpected character" }
    ensures start { result.span.m ≡ m }
    ensures end { result.span.n ≡ n }
{
    Wrong {
        fault: SyntaxFault::UnexpectedCharacter,
        span: Span { m, n },
    }
}

// The string that the quote at an offset begins, and where it ends.
fn string_at(source: &str, at: usize) -> Result<(Token, usize), Wrong>
    requires boundary { IsCharBoundary source.now at }
    requires occurs { Occurs source.now at (34 ∷ []) }
    ensures kind { IfOk result (λ read. read.0 ≡ String) }
    ensures string { IfOk result (λ read. IsQuoted source.now at read.1) }
    ensures span { IfOk result (λ read. LiesIn source.now (record { m = at; n = read.1 })) }
    ensures none { IfErr result (λ wrong. NoString source.now at wrong.span (reason_of wrong.fault)) }
    ensures wrong_span { IfErr result (λ wrong. LiesIn source.now wrong.span) }
{
    match quote_end(source, at) {
        Some(end) => Ok((Token::String, end)),
        None => Err(Wrong {
            fault: SyntaxFault::UndelimitedString,
            span: Span {
                m: at,
                n: line_end(source, at),
            },
        }),
    }
}

// Where the string that the quote at an offset begins ends, where it does.
fn quote_end(source: &str, at: usize) -> Option<usize>
    requires boundary { IsCharBoundary source.now at }
    requires occurs { Occurs source.now at (34 ∷ []) }
    ensures string { MatchOption
        result
        ((n : ℕ) → IsQuoted source.now at n → ⊥)
        (λ n. IsQuoted source.now at n) }
    ensures span { IfSome result (λ n. LiesIn source.now (record { m = at; n = n })) }
{
    let mut end = at + 1;
    while let Some(c) = char_at(source, end) {
        match c {
            '"' => return Some(end + 1),
            '\\' => match escape_end(source, end) {
                Some(after) => end = after,
                None => return None,
            },
            '\n' | '\r' => return None,
            c => end += c.len_utf8(),
        }
    }
    None
}

// Where the backslash at an offset and the character that it takes end, where it takes one.
fn escape_end(source: &str, at: usize) -> Option<usize>
    requires boundary { IsCharBoundary source.now at }
    requires occurs { Occurs source.now at (92 ∷ []) }
    ensures escape { MatchOption
        result
        ((c : ℕ) → Occurs source.now (at + 1) (encode_utf8 c) → is_piece (escape c) ≡ false)
        (λ n. (c : ℕ)
        × Occurs source.now (at + 1) (encode_utf8 c)
        × (is_piece (escape c) ≡ true)
        × (n ≡ at + 1 + length (encode_utf8 c))) }
    ensures span { IfSome result (λ n. LiesIn source.now (record { m = at; n = n })) }
{
    match char_at(source, at + 1) {
        Some('\n' | '\r') => None,
        Some(c) => Some(at + 1 + c.len_utf8()),
        None => None,
    }
}

// Where the line at an offset ends: before its line feed or carriage return, or at the text's end.
fn line_end(source: &str, at: usize) -> usize
    requires { IsCharBoundary source.now at }
    ensures line { LineEnds source.now at result }
    ensures span { LiesIn source.now (record { m = at; n = result }) }
{
    match memchr::memchr2(b'\n', b'\r', &source.as_bytes()[at..]) {
        Some(found) => at + found,
        None => source.len(),
    }
}
