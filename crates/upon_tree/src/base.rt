// The start of an expression without a filter in a tag, up to where another one is in it; and calls.
ghost use Rattle.std.specs.Prelude.{◌<◌, ◌≤◌, List, ◌∷◌, Bool, length, IfOk};
ghost use Rattle.upon_types.specs.Span.{LiesIn};
ghost use Rattle.upon_types.specs.declared.types.token.Token.TheVariants.{Ident as Identifier};
ghost use Rattle.upon_types.specs.AstPath.{ident_of};
ghost use Rattle.upon_language_spec.specs.Cut.{Lexeme};
ghost use Rattle.upon_language_spec.specs.Tokens.{Goes};
ghost use Rattle.upon_language_spec.specs.Parts.{Part, after_name};
ghost use Rattle.upon_tag_parser.specs.TagTokens.{lexemes_of, AreTagTokens, IsRest};
ghost use Rattle.upon_tag_parser.specs.TagParsing.{IfStuck, IsStuck, StartsBase};
ghost use Rattle.upon_tree.specs.Opened.{tree_reader_text, IsTreeStep};
ghost use Rattle.upon_tree.specs.Opened.{CallTreeGoesOn, OpenTreeGoesOn, OpenTreeStuck};

use crate::ast::{BaseExpr, Ident};
use crate::expression::TreeReader;
use crate::made::{arguments_at, call_base, call_without_arguments, literal_base, path_base};
use crate::opened::{Applied, Open, Step};
use upon_lexer::literal::Lexed;
use upon_tag_parser::compile::parse::path::{Failure, Parsed, expect, take, take_op};
use upon_tag_parser::compile::parse::want::Want;
use upon_types::types::{Span, Token};

impl<'a> TreeReader<'a> {
    /// Reads an expression without a filter, up to where another one is in it.
    pub(crate) fn start_base<'t>(&self, tokens: &'t [Lexed]) -> Parsed<'t, Step>
        requires tokens { AreTagTokens (tree_reader_text self.now) tokens.now }
        ensures step { IfOk result (λ r. (whole : Bool)
            → IsTreeStep (tree_reader_text self.now) whole r.0 (lexemes_of tokens.now) (lexemes_of r.1.now)) }
        ensures rest { IfOk result (λ r. IsRest r.1.now tokens.now) }
        ensures shorter { IfOk result (λ r. length r.1.now < length tokens.now) }
        ensures stuck { IfStuck result (λ want left. (from parts : List Part)
            → StartsBase (tree_reader_text self.now) from parts (lexemes_of tokens.now)
            → IsStuck (tree_reader_text self.now) from tokens.now want left) }
    {
        if let Some((span, rest)) = take(Token::Ident, tokens) {
            return self.start_name(span, rest);
        }
        if let Some(((op, at), rest)) = take_op(tokens) {
            let (path, left) = self.parser.parse_path_from(op, at, rest)?;
            return Ok((Step::Base(path_base(path)), left));
        }
        if let Some((opening, rest)) = take(Token::OpenBracket, tokens) {
            return Ok(self.start_list(opening, rest));
        }
        if let Some((opening, rest)) = take(Token::OpenBrace, tokens) {
            return self.start_map(opening, rest);
        }
        if let Some((opening, rest)) = take(Token::OpenParen, tokens) {
            return Ok((Step::Opens(Open::Paren(opening)), rest));
        }
        match self.parser.parse_literal(tokens)? {
            None => Err(Failure::Stuck(Want::Expression, tokens)),
            Some((literal, rest)) => Ok((Step::Base(literal_base(literal)), rest)),
        }
    }

    // A call or a path, whose name was read.
    fn start_name<'t>(&self, span: Span, tokens: &'t [Lexed]) -> Parsed<'t, Step>
        requires tokens { AreTagTokens (tree_reader_text self.now) tokens.now }
        requires span { LiesIn (tree_reader_text self.now) span }
        ensures step { IfOk result (λ r. (whole : Bool) (before : List Lexeme)
            → Goes Identifier span before (lexemes_of tokens.now)
            → IsTreeStep (tree_reader_text self.now) whole r.0 before (lexemes_of r.1.now)) }
        ensures rest { IfOk result (λ r. IsRest r.1.now tokens.now) }
        ensures shorter { IfOk result (λ r. length r.1.now ≤ length tokens.now) }
        ensures stuck { IfStuck result (λ want left. (parts : List Part)
            → IsStuck (tree_reader_text self.now) (after_name ∷ parts) tokens.now want left) }
    {
        let name = self.parser.ident(span)?;
        match take(Token::OpenParen, tokens) {
            None => {
                let (path, left) = self.parser.parse_path(name, tokens)?;
                Ok((Step::Base(path_base(path)), left))
            }
            Some((_, rest)) => Ok(self.start_call(name, rest)),
        }
    }

    // A call, whose name and opening parenthesis were read.
    fn start_call<'t>(&self, name: Ident, tokens: &'t [Lexed]) -> (Step, &'t [Lexed])
        ensures step { CallTreeGoesOn (tree_reader_text self.now) (ident_of name)
            (lexemes_of tokens.now) result.0 (lexemes_of result.1.now) }
        ensures rest { IsRest result.1.now tokens.now }
        ensures shorter { length result.1.now ≤ length tokens.now }
    {
        match take(Token::CloseParen, tokens) {
            None => {
                let values = Vec::new(self.parser.alloc);
                (Step::Opens(Open::Call(Applied { name, values })), tokens)
            }
            Some((closing, rest)) => {
                let span = Span {
                    m: name.span.m,
                    n: closing.n,
                };
                (Step::Base(call_without_arguments(name, span)), rest)
            }
        }
    }

    /// Goes on after an argument of a call.
    pub(crate) fn after_argument<'t>(
        &self,
        call: Applied,
        argument: BaseExpr,
        tokens: &'t [Lexed],
    ) -> Parsed<'t, Step>
        ensures step { IfOk result (λ r. OpenTreeGoesOn (tree_reader_text self.now) (Open.Call call) argument
            (lexemes_of tokens.now) r.0 (lexemes_of r.1.now)) }
        ensures rest { IfOk result (λ r. IsRest r.1.now tokens.now) }
        ensures shorter { IfOk result (λ r. length r.1.now < length tokens.now) }
        ensures stuck { IfStuck result (OpenTreeStuck
            (tree_reader_text self.now) (Open.Call call) argument (lexemes_of tokens.now)) }
    {
        let Applied { name, mut values } = call;
        let n = argument.span().n;
        values.push(argument)?;
        if let Some((_, rest)) = take(Token::Comma, tokens) {
            return Ok((Step::Opens(Open::Call(Applied { name, values })), rest));
        }
        let (closing, rest) = expect(Token::CloseParen, Want::CloseParen, tokens)?;
        let m = name.span.m;
        let args = arguments_at(values, Span { m, n });
        let base = call_base(name, args, Span { m, n: closing.n });
        Ok((Step::Base(base), rest))
    }
}
