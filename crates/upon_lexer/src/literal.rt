// What the text of a number or an index denotes, or what is wrong with it.
ghost use Rattle.std.specs.Prelude.{◌≡◌, ℕ, ◌^◌, ◌≤◌, ◌<◌, List, length, drop, nat_lt, false, Some, IfOk, IfErr};
ghost use Rattle.std.specs.Prelude.{MatchOption, ◌+◌, ◌-◌, string_bytes, encode_utf8, None, [], ◌∷◌};
ghost use Rattle.upon_language_spec.specs.Literal.{IsText, escape_value, with_sign, sum_of_digits, digits_in};
ghost use Rattle.upon_language_spec.specs.Literal.{base_and_digits, IsInteger, IsIndex};
ghost use Rattle.upon_language_spec.specs.LiteralFaults.{magnitude_limit, digit_fault, number_fault, index_value, is_float};
ghost use Rattle.upon_language_spec.specs.LiteralFaults.{escape_fault};
ghost use Rattle.upon_language_spec.specs.Inside.{IsQuoted};
ghost use Rattle.upon_language_spec.specs.LaterFaults.{minus_before, start_from, number_report};
ghost use Rattle.upon_types.specs.Span.{LiesIn, slice};
ghost use Rattle.upon_lexer.specs.LiteralReasons.{report_of};
ghost use Rattle.upon_lexer.specs.Literals.{fault_of_digits, before_of};

use crate::compile::chars::char_at;
use crate::literal_fault::{LiteralFault, Refusal};
use std::alloc::{AllocError, Global};
use upon_types::types::{Span, Token, slice};

/// What is wrong with the digits of a number.
#[derive(Clone, Copy, Debug, PartialEq, Eq)]
pub enum DigitFault {
    /// At this offset, in bytes, is no digit of the base.
    BadDigit(usize),
    /// The value leaves the range.
    TooLarge,
}

/// How a number is written: its base, and the offset where its digits begin, in bytes.
#[derive(Clone, Copy)]
pub struct Notation {
    pub base: u32,
    pub start: usize,
}

/// Returns how a number is written, by its prefix `0b`, `0o` or `0x`; without one in base 10.
pub fn notation_of(text: &str) -> Notation
    ensures base { result.base ≡ (base_and_digits text.now).0 }
    ensures digits { drop result.start text.now ≡ (base_and_digits text.now).1 }
    ensures within { result.start ≤ length text.now }
    ensures lower { 2 ≤ result.base }
    ensures upper { result.base ≤ 36 }
{
    match text.as_bytes() {
        [b'0', b'b', ..] => Notation { base: 2, start: 2 },
        [b'0', b'o', ..] => Notation { base: 8, start: 2 },
        [b'0', b'x', ..] => Notation { base: 16, start: 2 },
        _ => Notation { base: 10, start: 0 },
    }
}

/// Returns the integer that a number denotes, after a minus or without one; or what is wrong with its digits.
pub fn number(text: &str, minus: bool) -> Result<i64, DigitFault>
    ensures ok { IfOk result (λ z. IsInteger minus text.now z) }
    ensures err { IfErr result (λ fault. number_fault minus text.now ≡ Some (fault_of_digits fault)) }
{
    let limit = if minus { 1 << 63 } else { (1 << 63) - 1 };
    let value = digits_value(text, notation_of(text), limit)?;
    Ok(signed(minus, value))
}

/// A token, and where it is.
#[derive(Clone, Copy, Debug, PartialEq, Eq)]
pub struct Lexed {
    pub token: Token,
    pub span: Span,
}

/// Returns the integer that the number at an offset denotes, with the sign that the token before it may be; or its
/// fault.
pub fn number_at(source: &str, before: Option<Lexed>, span: Span) -> Result<i64, Refusal>
    requires span { LiesIn source.now span }
    ensures ok { IfOk result (λ z. IsInteger (minus_before (before_of before)) (slice source.now span) z) }
    ensures err { IfErr result (λ refusal.
        number_report (slice source.now span) (before_of before) span.m span.n ≡ Some (report_of refusal)) }
{
    let text = slice(source, span);
    let whole = Span {
        m: start_of(before, span),
        n: span.n,
    };
    if is_float(text) {
        return Err(Refusal {
            fault: LiteralFault::Float,
            span: whole,
        });
    }
    match number(text, is_minus(before)) {
        Ok(value) => Ok(value),
        Err(DigitFault::BadDigit(offset)) => Err(Refusal {
            fault: LiteralFault::InvalidDigit(notation_of(text).base),
            span: Span {
                m: span.m + offset,
                n: span.m + offset + 1,
            },
        }),
        Err(DigitFault::TooLarge) => Err(Refusal {
            fault: LiteralFault::NumberOutOfRange(notation_of(text).base),
            span: whole,
        }),
    }
}

/// Returns the character of the first escape in a string that is none of the five.
pub fn strange_escape(source: &str, span: Span) -> Option<Span>
    requires span { LiesIn source.now span }
    requires string { IsQuoted source.now span.m span.n }
    ensures { (string : IsQuoted source.now span.m span.n) → MatchOption
        result
        (escape_fault (span.m + 1) string.pieces ≡ None)
        (λ found. (found.m ≤ found.n)
        × (escape_fault (span.m + 1) string.pieces ≡ Some (found.m, found.n - found.m))) }
{
    let mut at = span.m + 1;
    while let Some(c) = char_at(source, at) {
        match c {
            '"' => return None,
            '\\' => {
                let Some(taken) = char_at(source, at + 1) else {
                    return None;
                };
                let end = at + 1 + taken.len_utf8();
                match unescape(taken) {
                    None => return Some(Span { m: at + 1, n: end }),
                    Some(_) => at = end,
                }
            }
            c => at += c.len_utf8(),
        }
    }
    None
}

/// Returns the text that a string denotes, whose escapes are all of the five.
pub fn text(alloc: Global, source: &str, span: Span) -> Result<String, AllocError>
    requires span { LiesIn source.now span }
    requires string { IsQuoted source.now span.m span.n }
    requires escapes { (string : IsQuoted source.now span.m span.n)
        → escape_fault (span.m + 1) string.pieces ≡ None }
    ensures { IfOk result (λ text. IsText source.now span.m span.n (string_bytes text)) }
{
    let mut text = String::new(alloc);
    let mut at = span.m + 1;
    while let Some(c) = char_at(source, at) {
        match c {
            '"' => return Ok(text),
            '\\' => {
                let Some(taken) = char_at(source, at + 1) else {
                    return Ok(text);
                };
                let Some(meant) = unescape(taken) else {
                    return Ok(text);
                };
                text.push(meant)?;
                at += 1 + taken.len_utf8();
            }
            c => {
                text.push(c)?;
                at += c.len_utf8();
            }
        }
    }
    Ok(text)
}

// The character that an escape denotes, where it is one of the five.
fn unescape(c: char) -> Option<char>
    ensures { MatchOption result (escape_value c ≡ None) (λ d. escape_value c ≡ Some (encode_utf8 d)) }
{
    match c {
        'n' => Some('\n'),
        'r' => Some('\r'),
        't' => Some('\t'),
        '\\' | '"' => Some(c),
        _ => None,
    }
}

// Whether a dot or a sign occurs in a number.
fn is_float(text: &str) -> bool
    ensures { result ≡ is_float text.now }
{
    text.as_bytes()
        .iter()
        .any(|&b| matches!(b, b'.' | b'+' | b'-'))
}

// Whether the token before a number is its minus.
fn is_minus(before: Option<Lexed>) -> bool
    ensures { result ≡ minus_before (before_of before) }
{
    matches!(
        before,
        Some(Lexed {
            token: Token::Minus,
            ..
        })
    )
}

// Where a number begins, with its sign.
fn start_of(before: Option<Lexed>, span: Span) -> usize
    ensures { result ≡ start_from (before_of before) span.m }
{
    match before {
        Some(
            Lexed {
                token: Token::Minus | Token::Plus,
                span: sign,
            },
        ) => sign.m,
        _ => span.m,
    }
}

/// Returns the number that an index denotes; none if it is too large.
pub fn index(text: &str) -> Option<usize>
    requires { (digits : List ℕ) × (digits_in 10 text.now ≡ Some digits) }
    ensures { MatchOption
        result
        (nat_lt (index_value (digits_in 10 text.now)) (2 ^ 64) ≡ false)
        (λ i. IsIndex text.now i) }
{
    match digits_value(text, Notation { base: 10, start: 0 }, u64::MAX) {
        Ok(value) => Some(value as usize),
        Err(_) => None,
    }
}

// The value of digits, underscores left out; the first digit that is none of the base, or with which the value is
// greater than the limit, decides what is wrong.
fn digits_value(text: &str, notation: Notation, limit: u64) -> Result<u64, DigitFault>
    requires lower { 2 ≤ notation.base }
    requires upper { notation.base ≤ 36 }
    requires within { notation.start ≤ length text.now }
    ensures ok { IfOk result (λ value. (value ≤ limit)
        × (digits : List ℕ)
        × (digits_in notation.base (drop notation.start text.now) ≡ Some digits)
        × (value ≡ sum_of_digits notation.base digits)) }
    ensures err { IfErr result (λ fault.
        digit_fault notation.base limit 0 notation.start (drop notation.start text.now)
        ≡ Some (fault_of_digits fault)) }
{
    let bytes = text.as_bytes();
    let mut value: u64 = 0;
    let mut at = notation.start;
    while at < bytes.len() {
        let byte = bytes[at];
        if byte != b'_' {
            let Some(digit) = char::from(byte).to_digit(notation.base) else {
                return Err(DigitFault::BadDigit(at));
            };
            let next = u128::from(value) * u128::from(notation.base) + u128::from(digit);
            if next > u128::from(limit) {
                return Err(DigitFault::TooLarge);
            }
            value = next as u64;
        }
        at += 1;
    }
    Ok(value)
}

// The integer of this magnitude, below zero after a minus.
fn signed(minus: bool, value: u64) -> i64
    requires { value ≤ magnitude_limit minus }
    ensures { result ≡ with_sign minus value }
{
    if minus {
        (-i128::from(value)) as i64
    } else {
        value as i64
    }
}
