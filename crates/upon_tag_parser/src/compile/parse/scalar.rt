// Literals in a tag.
ghost use Rattle.std.specs.Prelude.{◌≡◌, ◌<◌, List, ◌∷◌, Bool, true, false, Some, None, length, string_bytes, ◌+◌};
ghost use Rattle.std.specs.Prelude.{IfOk, IfSome, MatchOption};
ghost use Rattle.upon_types.specs.Span.{LiesIn, slice};
ghost use Rattle.upon_types.specs.View.{view};
ghost use Rattle.upon_types.specs.AstPath.{string_of};
ghost use Rattle.upon_types.specs.declared.types.token.Token.TheVariants.{String as Quoted};
ghost use Rattle.upon_language_spec.specs.Cut.{Lexeme};
ghost use Rattle.upon_language_spec.specs.Inside.{IsQuoted};
ghost use Rattle.upon_language_spec.specs.Literal.{IsInteger, IsText};
ghost use Rattle.upon_language_spec.specs.LiteralFaults.{escape_fault};
ghost use Rattle.upon_language_spec.specs.LaterFaults.{minus_before, number_report};
ghost use Rattle.upon_language_spec.specs.Tokens.{GoesText};
ghost use Rattle.upon_language_spec.specs.Expressions.{sign_token, IsLiteral};
ghost use Rattle.upon_language_spec.specs.Parts.{Part};
ghost use Rattle.upon_language_spec.specs.PartTails.{TakesBase};
ghost use Rattle.upon_tag_parser.specs.declared.compile.parse.want.Want.TheVariants.{Text};
ghost use Rattle.upon_lexer.specs.Literals.{before_of};
ghost use Rattle.upon_tag_parser.specs.TagTokens.{lexemes_of, AreTagTokens, IsRest};
ghost use Rattle.upon_tag_parser.specs.TagParsing.{IfStuck, IsStuck, IsRefused, NoLiteral, NoSign, IsSign, NoNumber};

use crate::compile::parse::path::{Failure, Parsed, TagParser, expect, next_token, take};
use crate::compile::parse::want::Want;
use std::alloc::AllocError;
use upon_lexer::literal::{Lexed, number_at, text};
use upon_types::types::ast::{self, Literal};
use upon_types::types::{Span, Token};
use upon_types::value::Value;

/// Goes past a sign, if one is next.
pub fn take_sign(tokens: &[Lexed]) -> Option<(Lexed, &[Lexed])>
    ensures sign { MatchOption result (NoSign (lexemes_of tokens.now)) (λ r. IsSign r.0.token) }
    ensures rest { IfSome result (λ r. tokens.now ≡ r.0 ∷ r.1.now) }
{
    match next_token(tokens) {
        None => None,
        Some((first, rest)) => {
            if matches!(first.token, Token::Minus | Token::Plus) {
                Some((first, rest))
            } else {
                None
            }
        }
    }
}

impl<'a> TagParser<'a> {
    /// Parses a literal, if one is next.
    pub fn parse_literal<'t>(
        &self,
        tokens: &'t [Lexed],
    ) -> Result<Option<(Literal, &'t [Lexed])>, Failure<'t>>
        requires tokens { AreTagTokens self.now.source.now tokens.now }
        ensures literal { IfOk result (λ found. MatchOption
            found
            (NoLiteral self.now.source.now (lexemes_of tokens.now))
            (λ r. IsLiteral
            self.now.source.now
            (view r.0.value)
            r.0.span
            (lexemes_of tokens.now)
            (lexemes_of r.1.now))) }
        ensures rest { IfOk result (λ found. IfSome found (λ r. IsRest r.1.now tokens.now)) }
        ensures shorter { IfOk result (λ found. IfSome found (λ r. length r.1.now < length tokens.now)) }
        ensures stuck { IfStuck result (λ want left. (from parts : List Part) → TakesBase from parts
            → IsStuck self.now.source.now from tokens.now want left) }
    {
        if let Some((span, rest)) = self.take_keyword("true", tokens) {
            let value = Value::Bool(true);
            return Ok(Some((Literal { value, span }, rest)));
        }
        if let Some((span, rest)) = self.take_keyword("false", tokens) {
            let value = Value::Bool(false);
            return Ok(Some((Literal { value, span }, rest)));
        }
        if let Some((span, rest)) = take(Token::String, tokens) {
            let value = Value::String(self.string_at(span)?);
            return Ok(Some((Literal { value, span }, rest)));
        }
        self.parse_number(tokens)
    }

    /// Parses a string in quotes.
    pub fn parse_string<'t>(&self, tokens: &'t [Lexed]) -> Parsed<'t, ast::String>
        requires tokens { AreTagTokens self.now.source.now tokens.now }
        ensures string { IfOk result (λ r.
            GoesText self.now.source.now (string_of r.0) (lexemes_of tokens.now) (lexemes_of r.1.now)) }
        ensures rest { IfOk result (λ r. IsRest r.1.now tokens.now) }
        ensures shorter { IfOk result (λ r. length r.1.now < length tokens.now) }
        ensures stuck { IfStuck result (IsRefused Quoted Text tokens.now) }
    {
        let (span, rest) = expect(Token::String, Want::Text, tokens)?;
        let value = self.string_at(span)?;
        Ok((ast::String { value, span }, rest))
    }

    // A number with its sign, where one is next.
    fn parse_number<'t>(
        &self,
        tokens: &'t [Lexed],
    ) -> Result<Option<(Literal, &'t [Lexed])>, Failure<'t>>
        requires tokens { AreTagTokens self.now.source.now tokens.now }
        ensures number { IfOk result (λ found. MatchOption
            found
            (NoNumber (lexemes_of tokens.now))
            (λ r. IsLiteral
            self.now.source.now
            (view r.0.value)
            r.0.span
            (lexemes_of tokens.now)
            (lexemes_of r.1.now))) }
        ensures rest { IfOk result (λ found. IfSome found (λ r. IsRest r.1.now tokens.now)) }
        ensures shorter { IfOk result (λ found. IfSome found (λ r. length r.1.now < length tokens.now)) }
        ensures stuck { IfStuck result (λ want left. (from parts : List Part) → TakesBase from parts
            → IsStuck self.now.source.now from tokens.now want left) }
    {
        if let Some((sign, rest)) = take_sign(tokens) {
            let (span, left) = expect(Token::Number, Want::Number, rest)?;
            let value = Value::Integer(self.integer_at(Some(sign), span));
            let span = Span {
                m: sign.span.m,
                n: span.n,
            };
            return Ok(Some((Literal { value, span }, left)));
        }
        match take(Token::Number, tokens) {
            None => Ok(None),
            Some((span, rest)) => {
                let value = Value::Integer(self.integer_at(None, span));
                Ok(Some((Literal { value, span }, rest)))
            }
        }
    }

    // The integer that a number denotes after a sign, or after no sign; it denotes one.
    fn integer_at(&self, sign: Option<Lexed>, span: Span) -> i64
        requires span { LiesIn self.now.source.now span }
        requires integer { number_report (slice self.now.source.now span) (before_of sign) span.m span.n ≡ None }
        ensures { IsInteger (minus_before (before_of sign)) (slice self.now.source.now span) result }
    {
        match number_at(self.source, sign, span) {
            Ok(value) => value,
            Err(_) => unreachable!(),
        }
    }

    // The text that a string denotes.
    fn string_at(&self, span: Span) -> Result<String, AllocError>
        requires span { LiesIn self.now.source.now span }
        requires string { IsQuoted self.now.source.now span.m span.n }
        requires escapes { (string : IsQuoted self.now.source.now span.m span.n)
            → escape_fault (span.m + 1) string.pieces ≡ None }
        ensures { IfOk result (λ text. IsText self.now.source.now span.m span.n (string_bytes text)) }
    {
        text(self.alloc, self.source, span)
    }
}
