// The start of an expression without a filter in a tag, up to where another one is in it; and calls.
ghost use Rattle.std.specs.Prelude.{◌≡◌, ◌<◌, ◌≤◌, List, ◌∷◌, Bool, length, IfOk, None};
ghost use Rattle.upon_types.specs.Span.{LiesIn};
ghost use Rattle.upon_types.specs.declared.types.token.Token.TheVariants.{Ident as Identifier};
ghost use Rattle.upon_types.specs.AstPath.{ident_of};
ghost use Rattle.upon_compiler.specs.Program.{program_view};
ghost use Rattle.upon_language_spec.specs.Cut.{Lexeme};
ghost use Rattle.upon_language_spec.specs.Tokens.{Goes};
ghost use Rattle.upon_language_spec.specs.Parts.{Part, after_name};
ghost use Rattle.upon_tag_parser.specs.TagTokens.{lexemes_of, AreTagTokens, IsRest};
ghost use Rattle.upon_tag_parser.specs.TagParsing.{IfStuck, IsStuck, StartsBase};
ghost use Rattle.upon_tag_parser.specs.Brackets.{place, place_of, IsStep, CallGoesOn, OpenGoesOn, OpenStuck};

use crate::compile::parse::brackets::{Applied, Open, Step};
use crate::compile::parse::instructions::{append, append_literal, append_path};
use crate::compile::parse::path::{Failure, Parsed, TagParser, expect, take, take_op};
use crate::compile::parse::want::Want;
use std::alloc::AllocError;
use upon_compiler::types::program::Instr;
use upon_lexer::literal::Lexed;
use upon_types::types::ast::Ident;
use upon_types::types::{Span, Token};

impl<'a> TagParser<'a> {
    /// Reads an expression without a filter, up to where another one is in it.
    pub(crate) fn start_base<'t>(
        &self,
        tokens: &'t [Lexed],
        code: &mut Vec<Instr>,
    ) -> Parsed<'t, Step>
        requires tokens { AreTagTokens self.now.source.now tokens.now }
        ensures step { IfOk result (λ r. (whole : Bool) → IsStep self.now.source.now whole r.0
            (place_of tokens.now code.old.items) (place_of r.1.now code.new.items)) }
        ensures rest { IfOk result (λ r. IsRest r.1.now tokens.now) }
        ensures shorter { IfOk result (λ r. length r.1.now < length tokens.now) }
        ensures stuck { IfStuck result (λ want left. (from parts : List Part)
            → StartsBase self.now.source.now from parts (lexemes_of tokens.now)
            → IsStuck self.now.source.now from tokens.now want left) }
    {
        if let Some((span, rest)) = take(Token::Ident, tokens) {
            return self.start_name(span, rest, code);
        }
        if let Some(((op, at), rest)) = take_op(tokens) {
            let (path, left) = self.parse_path_from(op, at, rest)?;
            let span = append_path(path, code)?;
            return Ok((Step::Base(span), left));
        }
        if let Some((opening, rest)) = take(Token::OpenBracket, tokens) {
            return Ok(self.start_list(opening, rest, code)?);
        }
        if let Some((opening, rest)) = take(Token::OpenBrace, tokens) {
            return self.start_map(opening, rest, code);
        }
        if let Some((opening, rest)) = take(Token::OpenParen, tokens) {
            return Ok((Step::Opens(Open::Paren(opening)), rest));
        }
        match self.parse_literal(tokens)? {
            None => Err(Failure::Stuck(Want::Expression, tokens)),
            Some((literal, rest)) => {
                let span = append_literal(literal, code)?;
                Ok((Step::Base(span), rest))
            }
        }
    }

    // A call or a path, whose name was read.
    fn start_name<'t>(
        &self,
        span: Span,
        tokens: &'t [Lexed],
        code: &mut Vec<Instr>,
    ) -> Parsed<'t, Step>
        requires tokens { AreTagTokens self.now.source.now tokens.now }
        requires span { LiesIn self.now.source.now span }
        ensures step { IfOk result (λ r. (whole : Bool) (before : List Lexeme)
            → Goes Identifier span before (lexemes_of tokens.now)
            → IsStep self.now.source.now whole r.0 (place before code.old.items) (place_of r.1.now code.new.items)) }
        ensures rest { IfOk result (λ r. IsRest r.1.now tokens.now) }
        ensures shorter { IfOk result (λ r. length r.1.now ≤ length tokens.now) }
        ensures stuck { IfStuck result (λ want left. (parts : List Part)
            → IsStuck self.now.source.now (after_name ∷ parts) tokens.now want left) }
    {
        let name = self.ident(span)?;
        match take(Token::OpenParen, tokens) {
            None => {
                let (path, left) = self.parse_path(name, tokens)?;
                let span = append_path(path, code)?;
                Ok((Step::Base(span), left))
            }
            Some((_, rest)) => Ok(self.start_call(name, rest, code)?),
        }
    }

    // A call, whose name and opening parenthesis were read.
    fn start_call<'t>(
        &self,
        name: Ident,
        tokens: &'t [Lexed],
        code: &mut Vec<Instr>,
    ) -> Result<(Step, &'t [Lexed]), AllocError>
        ensures step { IfOk result (λ r. CallGoesOn self.now.source.now (ident_of name)
            (place_of tokens.now code.old.items) r.0 (place_of r.1.now code.new.items)) }
        ensures rest { IfOk result (λ r. IsRest r.1.now tokens.now) }
        ensures shorter { IfOk result (λ r. length r.1.now ≤ length tokens.now) }
    {
        match take(Token::CloseParen, tokens) {
            None => Ok((Step::Opens(Open::Call(Applied { name, count: 0 })), tokens)),
            Some((closing, rest)) => {
                let span = Span {
                    m: name.span.m,
                    n: closing.n,
                };
                append(Instr::Apply(name, 0, span), code)?;
                Ok((Step::Base(span), rest))
            }
        }
    }

    /// Goes on after an argument of a call.
    pub(crate) fn after_argument<'t>(
        &self,
        call: Applied,
        tokens: &'t [Lexed],
        code: &mut Vec<Instr>,
    ) -> Parsed<'t, Step>
        requires { call.count ≤ length (program_view code.old.items) }
        ensures step { IfOk result (λ r. OpenGoesOn self.now.source.now (Open.Call call)
            (place_of tokens.now code.old.items) r.0 (place_of r.1.now code.new.items)) }
        ensures rest { IfOk result (λ r. IsRest r.1.now tokens.now) }
        ensures shorter { IfOk result (λ r. length r.1.now < length tokens.now) }
        ensures stuck { IfStuck result (OpenStuck
            self.now.source.now
            (Open.Call call)
            (place_of tokens.now code.old.items)) }
    {
        let Applied { name, count } = call;
        let count = count + 1;
        if let Some((_, rest)) = take(Token::Comma, tokens) {
            return Ok((Step::Opens(Open::Call(Applied { name, count })), rest));
        }
        let (closing, rest) = expect(Token::CloseParen, Want::CloseParen, tokens)?;
        let span = Span {
            m: name.span.m,
            n: closing.n,
        };
        append(Instr::Apply(name, count, span), code)?;
        Ok((Step::Base(span), rest))
    }
}
