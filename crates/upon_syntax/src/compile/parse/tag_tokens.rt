// The tokens inside a tag, up to where they end.
ghost use Rattle.std.specs.Prelude.{◌≡◌, ◌≤◌, [], true, false, Option, Some, None, IfOk, IfErr, IfSome, IfNone};
ghost use Rattle.std.specs.Prelude.{MatchOption};
ghost use Rattle.std.specs.Char.{is_ascii_digit};
ghost use Rattle.upon_types.specs.declared.types.token.Token.TheVariants.{Index, Number, String};
ghost use Rattle.upon_types.specs.Span.{LiesIn, slice};
ghost use Rattle.upon_language_spec.specs.Cut.{Lexeme};
ghost use Rattle.upon_language_spec.specs.Inside.{continues_number, IsQuoted};
ghost use Rattle.upon_language_spec.specs.Tokens.{is_raw};
ghost use Rattle.upon_language_spec.specs.Words.{IsRun};
ghost use Rattle.upon_language_spec.specs.InTags.{is_inside, FineLiteral};
ghost use Rattle.upon_lexer.specs.Spelling.{IsSpelled};
ghost use Rattle.upon_lexer.specs.Lexers.{lexer_text, lexer_state};
ghost use Rattle.upon_lexer.specs.LiteralReasons.{report_of};
ghost use Rattle.upon_lexer.specs.Literals.{lexeme_of, before_of};
ghost use Rattle.upon_tag_parser.specs.TagTokens.{lexemes_of, EachTagToken};
ghost use Rattle.upon_syntax.specs.TagEnds.{DenotesNothing, SignLies, StopsAt, TagEndLies, tag_end, KeepsText, ReadsInside};
ghost use Rattle.upon_syntax.specs.TagEnds.{FindsTagToken, FindsEnd};

use std::alloc::AllocError;
use upon_lexer::compile::lex::Lexer;
use upon_lexer::literal::{Lexed, index, number_at, strange_escape};
use upon_lexer::literal_fault::{LiteralFault, Refusal};
use upon_types::error::Error;
use upon_types::types::{Span, Token, slice};

/// Where the tokens inside a tag end.
#[derive(Drop)]
pub enum Ended {
    /// At the tag's end.
    End(Lexed),
    /// At the first fault that ends the text's cutting, or where there was no memory.
    Fault(Error),
    /// At a literal that denotes nothing.
    Literal(Lexed, Refusal),
    /// At the end of the text.
    Eof,
}

impl Ended {
    /// Returns the tag's end, if it was read.
    pub fn tag_end(&self) -> Option<Lexed>
        ensures { result ≡ tag_end self.now }
    {
        match self {
            Ended::End(end) => Some(*end),
            Ended::Fault(_) => None,
            Ended::Literal(_, _) => None,
            Ended::Eof => None,
        }
    }
}

/// Reads the tokens after a tag's begin, up to where they end.
pub fn read_tokens(
    source: &str,
    lexer: &mut Lexer,
    tokens: &mut Vec<Lexed>,
) -> Result<Ended, AllocError>
    requires same { source.now ≡ lexer_text lexer.now }
    ensures tokens { EachTagToken source.now None (lexemes_of tokens.new.items) }
    ensures ends { IfOk result (FindsEnd source.now lexer.old lexer.new None (lexemes_of tokens.new.items)) }
    ensures keeps { KeepsText lexer.old lexer.new }
{
    tokens.clear();
    let mut before = None;
    'tokens: loop {
        if let Some(found) = plain_token(source, lexer) {
            tokens.push(found)?;
            before = Some(found);
            continue 'tokens;
        }
        match read_token(source, lexer, before) {
            Err(ended) => return Ok(ended),
            Ok(found) => {
                tokens.push(found)?;
                before = Some(found);
            }
        }
    }
}

// The next token inside a tag, if it is a frequent one; `None` says nothing, but that whitespace may have been read.
fn plain_token(source: &str, lexer: &mut Lexer) -> Option<Lexed>
    requires same { source.now ≡ lexer_text lexer.now }
    ensures found { IfSome result
        (λ found. (before : Option Lexeme) → FindsTagToken source.now lexer.old lexer.new before found) }
    ensures blanks { IfNone result (ReadsInside source.now lexer.old lexer.new []) }
    ensures onward { (lexer_state lexer.old).offset ≤ (lexer_state lexer.new).offset }
    ensures keeps { KeepsText lexer.old lexer.new }
{
    match lexer.next_plain() {
        Some((token, span)) => Some(Lexed { token, span }),
        None => None,
    }
}

// The next token inside a tag, after the token before it; or where the tokens end.
fn read_token(source: &str, lexer: &mut Lexer, before: Option<Lexed>) -> Result<Lexed, Ended>
    requires same { source.now ≡ lexer_text lexer.now }
    requires sign { SignLies source.now (before_of before) (lexer_state lexer.now).offset }
    ensures found { IfOk result (FindsTagToken source.now lexer.old lexer.new (before_of before)) }
    ensures ends { IfErr result (FindsEnd source.now lexer.old lexer.new (before_of before) []) }
    ensures keeps { KeepsText lexer.old lexer.new }
{
    match lexer.next() {
        Err(e) => Err(Ended::Fault(e)),
        Ok(None) => Err(Ended::Eof),
        Ok(Some((token, span))) => {
            let found = Lexed { token, span };
            match stop_at(source, before, found) {
                None => Ok(found),
                Some(ended) => Err(ended),
            }
        }
    }
}

// Whether the tokens end at a token: it is none inside a tag, or a literal that denotes nothing.
fn stop_at(source: &str, before: Option<Lexed>, found: Lexed) -> Option<Ended>
    requires span { LiesIn source.now found.span }
    requires spelled { IsSpelled source.now found.token found.span }
    requires sign { is_raw found.token ≡ false → SignLies source.now (before_of before) found.span.m }
    ensures token { MatchOption
        result
        ((is_inside found.token ≡ true) × FineLiteral source.now (before_of before) (lexeme_of found))
        (StopsAt source.now (before_of before) found) }
    ensures lies { IfSome result (TagEndLies source.now) }
{
    if !is_inside(found.token) {
        return Some(Ended::End(found));
    }
    match refusal_of(source, before, found) {
        None => None,
        Some(refusal) => Some(Ended::Literal(found, refusal)),
    }
}

// Whether a token may be inside a tag.
fn is_inside(token: Token) -> bool
    ensures { result ≡ is_inside token }
{
    !matches!(
        token,
        Token::Raw
            | Token::BeginExpr
            | Token::EndExpr
            | Token::BeginBlock
            | Token::EndBlock
            | Token::BeginComment
            | Token::EndComment
    )
}

// What is wrong with a token, after the token before it: it is a literal that denotes nothing.
fn refusal_of(source: &str, before: Option<Lexed>, found: Lexed) -> Option<Refusal>
    requires span { LiesIn source.now found.span }
    requires spelled { IsSpelled source.now found.token found.span }
    requires sign { is_raw found.token ≡ false → SignLies source.now (before_of before) found.span.m }
    ensures token { MatchOption
        result
        (FineLiteral source.now (before_of before) (lexeme_of found))
        (λ refusal. DenotesNothing source.now (before_of before) found.token found.span (report_of refusal)) }
    ensures span { IfSome result (λ refusal. LiesIn source.now refusal.span) }
{
    match found.token {
        Token::Number => refuse_number(source, before, found.span),
        Token::Index => refuse_index(source, found.span),
        Token::String => refuse_string(source, found.span),
        _ => None,
    }
}

// What is wrong with a number.
fn refuse_number(source: &str, before: Option<Lexed>, span: Span) -> Option<Refusal>
    requires span { LiesIn source.now span }
    requires spelled { IsRun continues_number source.now span.m span.n }
    requires sign { SignLies source.now (before_of before) span.m }
    ensures number { MatchOption
        result
        (FineLiteral source.now (before_of before) (record { token = Number; hyphen = false; span = span }))
        (λ refusal. DenotesNothing source.now (before_of before) Number span (report_of refusal)) }
    ensures span { IfSome result (λ refusal. LiesIn source.now refusal.span) }
{
    match number_at(source, before, span) {
        Ok(_) => None,
        Err(refusal) => Some(refusal),
    }
}

// What is wrong with an index.
fn refuse_index(source: &str, span: Span) -> Option<Refusal>
    requires span { LiesIn source.now span }
    requires spelled { IsRun is_ascii_digit source.now span.m span.n }
    ensures index { (before : Option Lexeme) → MatchOption
        result
        (FineLiteral source.now before (record { token = Index; hyphen = false; span = span }))
        (λ refusal. DenotesNothing source.now before Index span (report_of refusal)) }
    ensures span { IfSome result (λ refusal. LiesIn source.now refusal.span) }
{
    match index(slice(source, span)) {
        Some(_) => None,
        None => Some(Refusal {
            fault: LiteralFault::IndexOutOfRange,
            span,
        }),
    }
}

// What is wrong with a string.
fn refuse_string(source: &str, span: Span) -> Option<Refusal>
    requires span { LiesIn source.now span }
    requires spelled { IsQuoted source.now span.m span.n }
    ensures string { (before : Option Lexeme) → MatchOption
        result
        (FineLiteral source.now before (record { token = String; hyphen = false; span = span }))
        (λ refusal. DenotesNothing source.now before String span (report_of refusal)) }
    ensures span { IfSome result (λ refusal. LiesIn source.now refusal.span) }
{
    match strange_escape(source, span) {
        None => None,
        Some(strange) => Some(Refusal {
            fault: LiteralFault::UnknownEscape,
            span: strange,
        }),
    }
}
