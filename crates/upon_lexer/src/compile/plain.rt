// The frequent tokens inside tags, found by bytes: names and keywords of ASCII, whitespace, and four marks.
ghost use Rattle.std.specs.Prelude.{◌≡◌, ◌⊎◌, ℕ, ◌<◌, List, length, false, true, encode_utf8, IfSome};
ghost use Rattle.std.specs.Str.{IsCharBoundary};
ghost use Rattle.unicode_ident.specs.Ident.{is_xid_continue};
ghost use Rattle.upon_types.specs.Span.{LiesIn};
ghost use Rattle.upon_types.specs.declared.types.token.Token.TheVariants.{Ident};
ghost use Rattle.upon_language_spec.specs.Cut.{Lexeme};
ghost use Rattle.upon_language_spec.specs.Inside.{start_kind, Extent};
ghost use Rattle.upon_language_spec.specs.LexStep.{BracketsFit};
ghost use Rattle.upon_language_spec.specs.Search.{Occurs};
ghost use Rattle.upon_language_spec.specs.Words.{IsRun, is_tag_space};
ghost use Rattle.upon_lexer.specs.Class.{class_test};
ghost use Rattle.upon_lexer.specs.Plain.{IsLetter, IsPlain, byte_token, is_frequent};

use crate::compile::chars::{CharClass, is_keyword};
use upon_types::types::{Span, Token, slice};

/// Returns the token at an offset inside a tag, and where it ends, if it is a frequent one; `None` says nothing.
pub(crate) fn plain_at(source: &str, at: usize) -> Option<(Token, usize)>
    requires inside { at < length source.now }
    requires boundary { IsCharBoundary source.now at }
    ensures token { IfSome result (λ read. IsPlain source.now read.0 at read.1) }
    ensures kind { IfSome result (λ read. is_frequent read.0 ≡ true) }
{
    let byte = source.as_bytes()[at];
    if let Some(mark) = mark_of(byte) {
        return Some((mark, at + 1));
    }
    if is_blank(byte) {
        return Some((Token::Whitespace, ascii_end(CharClass::Space, source, at)?));
    }
    if begins_word(byte) {
        let end = ascii_end(CharClass::Name, source, at)?;
        return Some((word_of(source, at, end), end));
    }
    None
}

// The token that one byte is.
fn mark_of(byte: u8) -> Option<Token>
    ensures { result ≡ byte_token byte }
{
    match byte {
        b'.' => Some(Token::Dot),
        b'|' => Some(Token::Pipe),
        b',' => Some(Token::Comma),
        b':' => Some(Token::Colon),
        _ => None,
    }
}

// Whether a byte is whitespace.
fn is_blank(byte: u8) -> bool
    ensures { result ≡ is_tag_space byte }
{
    matches!(byte, b'\t' | b'\n' | b'\r' | b' ')
}

// Whether a byte begins a name of ASCII.
fn begins_word(byte: u8) -> bool
    ensures { result ≡ true → IsLetter byte }
{
    matches!(byte, b'a'..=b'z' | b'A'..=b'Z' | b'_')
}

// Where the run of a class's characters at an offset ends, if it ends in ASCII; `None` says nothing.
fn ascii_end(class: CharClass, source: &str, at: usize) -> Option<usize>
    requires { IsCharBoundary source.now at }
    ensures run { IfSome result (λ end. (end ≡ at) ⊎ IsRun (class_test class) source.now at end) }
    ensures longest { IfSome result
        (λ end. (c : ℕ) → Occurs source.now end (encode_utf8 c) → class_test class c ≡ false) }
    ensures span { IfSome result (λ end. LiesIn source.now (record { m = at; n = end })) }
{
    let bytes = source.as_bytes();
    let mut end = at;
    while end < bytes.len() {
        if bytes[end] >= 128 {
            return None;
        }
        if !has_ascii(class, bytes[end]) {
            break;
        }
        end += 1;
    }
    Some(end)
}

// Whether a byte of ASCII is of a class.
fn has_ascii(class: CharClass, byte: u8) -> bool
    requires { byte < 128 }
    ensures { result ≡ class_test class byte }
{
    match class {
        CharClass::Name => byte.is_ascii_alphanumeric() || byte == b'_',
        _ => class.has(byte as char),
    }
}

// The name or keyword that goes from an offset to another.
fn word_of(source: &str, at: usize, end: usize) -> Token
    requires run { IsRun is_xid_continue source.now at end }
    requires span { LiesIn source.now (record { m = at; n = end }) }
    ensures kind { start_kind result ≡ Ident }
    ensures extent { Extent source.now result at end }
    ensures fits { (brackets : List Lexeme) → BracketsFit brackets result }
    ensures plain { is_frequent result ≡ true }
{
    if is_keyword(slice(source, Span { m: at, n: end })) {
        Token::Keyword
    } else {
        Token::Ident
    }
}
