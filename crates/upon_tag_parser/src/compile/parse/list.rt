// Lists and maps in a tag.
ghost use Rattle.std.specs.Prelude.{◌≡◌, ◌<◌, ◌≤◌, List, ◌∷◌, Bool, length, slice_set, IfOk};
ghost use Rattle.upon_types.specs.declared.types.token.Token.TheVariants.{OpenBracket, OpenBrace};
ghost use Rattle.upon_machine_spec.specs.Instr.{expr_start_list, expr_start_map};
ghost use Rattle.upon_compiler.specs.Program.{program_view};
ghost use Rattle.upon_language_spec.specs.Cut.{Lexeme};
ghost use Rattle.upon_language_spec.specs.Tokens.{Goes, from_to};
ghost use Rattle.upon_language_spec.specs.Parts.{Part, map_start};
ghost use Rattle.upon_tag_parser.specs.TagTokens.{lexemes_of, AreTagTokens, IsRest};
ghost use Rattle.upon_tag_parser.specs.TagParsing.{IfStuck, IsStuck};
ghost use Rattle.upon_tag_parser.specs.Brackets.{place, place_of, IsStep, ListGoesOn, MapGoesOn};
ghost use Rattle.upon_tag_parser.specs.Brackets.{OpenGoesOn, OpenStuck};

use crate::compile::parse::brackets::{Beginning, Open, Step};
use crate::compile::parse::instructions::{append, replace};
use crate::compile::parse::path::{Parsed, TagParser, expect, take};
use crate::compile::parse::want::Want;
use std::alloc::AllocError;
use upon_compiler::types::program::Instr;
use upon_lexer::literal::Lexed;
use upon_types::types::{Span, Token, ast};

/// Puts a list's span, up to its closing bracket, into its first instruction, and returns it.
fn close_list(start: Beginning, closing: Span, code: &mut Vec<Instr>) -> Span
    requires { start.at < length (program_view code.old.items) }
    ensures span { result ≡ from_to start.opening closing }
    ensures code { program_view code.new.items
        ≡ slice_set (program_view code.old.items) start.at (expr_start_list (from_to start.opening closing)) }
{
    let span = Span {
        m: start.opening.m,
        n: closing.n,
    };
    replace(start.at, Instr::ExprStartList(span), code);
    span
}

/// Puts a map's span, up to its closing brace, into its first instruction, and returns it.
fn close_map(start: Beginning, closing: Span, code: &mut Vec<Instr>) -> Span
    requires { start.at < length (program_view code.old.items) }
    ensures span { result ≡ from_to start.opening closing }
    ensures code { program_view code.new.items
        ≡ slice_set (program_view code.old.items) start.at (expr_start_map (from_to start.opening closing)) }
{
    let span = Span {
        m: start.opening.m,
        n: closing.n,
    };
    replace(start.at, Instr::ExprStartMap(span), code);
    span
}

impl<'a> TagParser<'a> {
    /// Reads a list, whose opening bracket was read, up to its first item.
    pub(crate) fn start_list<'t>(
        &self,
        opening: Span,
        tokens: &'t [Lexed],
        code: &mut Vec<Instr>,
    ) -> Result<(Step, &'t [Lexed]), AllocError>
        ensures step { IfOk result (λ r. (whole : Bool) (before : List Lexeme)
            → Goes OpenBracket opening before (lexemes_of tokens.now)
            → IsStep self.now.source.now whole r.0 (place before code.old.items) (place_of r.1.now code.new.items)) }
        ensures rest { IfOk result (λ r. IsRest r.1.now tokens.now) }
        ensures shorter { IfOk result (λ r. length r.1.now ≤ length tokens.now) }
    {
        let at = code.len();
        append(Instr::ExprStartList(opening), code)?;
        Ok(self.start_item(Beginning { at, opening }, tokens, code))
    }

    // The closing bracket of a list, or else an item starts.
    fn start_item<'t>(
        &self,
        start: Beginning,
        tokens: &'t [Lexed],
        code: &mut Vec<Instr>,
    ) -> (Step, &'t [Lexed])
        requires { start.at < length (program_view code.old.items) }
        ensures step { ListGoesOn self.now.source.now start
            (place_of tokens.now code.old.items) result.0 (place_of result.1.now code.new.items) }
        ensures rest { IsRest result.1.now tokens.now }
        ensures shorter { length result.1.now ≤ length tokens.now }
    {
        match take(Token::CloseBracket, tokens) {
            None => (Step::Opens(Open::List(start)), tokens),
            Some((closing, rest)) => (Step::Base(close_list(start, closing, code)), rest),
        }
    }

    /// Goes on after an item of a list.
    pub(crate) fn after_item<'t>(
        &self,
        start: Beginning,
        tokens: &'t [Lexed],
        code: &mut Vec<Instr>,
    ) -> Parsed<'t, Step>
        requires { start.at < length (program_view code.old.items) }
        ensures step { IfOk result (λ r. OpenGoesOn self.now.source.now (Open.List start)
            (place_of tokens.now code.old.items) r.0 (place_of r.1.now code.new.items)) }
        ensures rest { IfOk result (λ r. IsRest r.1.now tokens.now) }
        ensures shorter { IfOk result (λ r. length r.1.now < length tokens.now) }
        ensures stuck { IfStuck result (OpenStuck
            self.now.source.now
            (Open.List start)
            (place_of tokens.now code.old.items)) }
    {
        append(Instr::ExprListPush, code)?;
        if let Some((_, rest)) = take(Token::Comma, tokens) {
            return Ok(self.start_item(start, rest, code));
        }
        let (closing, rest) = expect(Token::CloseBracket, Want::CloseBracket, tokens)?;
        Ok((Step::Base(close_list(start, closing, code)), rest))
    }

    /// Reads a map, whose opening brace was read, up to its first value.
    pub(crate) fn start_map<'t>(
        &self,
        opening: Span,
        tokens: &'t [Lexed],
        code: &mut Vec<Instr>,
    ) -> Parsed<'t, Step>
        requires tokens { AreTagTokens self.now.source.now tokens.now }
        ensures step { IfOk result (λ r. (whole : Bool) (before : List Lexeme)
            → Goes OpenBrace opening before (lexemes_of tokens.now)
            → IsStep self.now.source.now whole r.0 (place before code.old.items) (place_of r.1.now code.new.items)) }
        ensures rest { IfOk result (λ r. IsRest r.1.now tokens.now) }
        ensures shorter { IfOk result (λ r. length r.1.now ≤ length tokens.now) }
        ensures stuck { IfStuck result (λ want left. (parts : List Part)
            → IsStuck self.now.source.now (map_start ∷ parts) tokens.now want left) }
    {
        let at = code.len();
        append(Instr::ExprStartMap(opening), code)?;
        self.start_entry(Beginning { at, opening }, tokens, code)
    }

    // The closing brace of a map, or else an entry up to its value.
    fn start_entry<'t>(
        &self,
        start: Beginning,
        tokens: &'t [Lexed],
        code: &mut Vec<Instr>,
    ) -> Parsed<'t, Step>
        requires tokens { AreTagTokens self.now.source.now tokens.now }
        requires number { start.at < length (program_view code.old.items) }
        ensures step { IfOk result (λ r. MapGoesOn self.now.source.now start
            (place_of tokens.now code.old.items) r.0 (place_of r.1.now code.new.items)) }
        ensures rest { IfOk result (λ r. IsRest r.1.now tokens.now) }
        ensures shorter { IfOk result (λ r. length r.1.now ≤ length tokens.now) }
        ensures stuck { IfStuck result (λ want left. (parts : List Part)
            → IsStuck self.now.source.now (map_start ∷ parts) tokens.now want left) }
    {
        if let Some((closing, rest)) = take(Token::CloseBrace, tokens) {
            return Ok((Step::Base(close_map(start, closing, code)), rest));
        }
        let (key, rest) = self.parse_string(tokens)?;
        let (_, left) = expect(Token::Colon, Want::Colon, rest)?;
        Ok((Step::Opens(Open::Map(start, key)), left))
    }

    /// Goes on after the value of a key in a map.
    pub(crate) fn after_entry<'t>(
        &self,
        start: Beginning,
        key: ast::String,
        tokens: &'t [Lexed],
        code: &mut Vec<Instr>,
    ) -> Parsed<'t, Step>
        requires tokens { AreTagTokens self.now.source.now tokens.now }
        requires number { start.at < length (program_view code.old.items) }
        ensures step { IfOk result (λ r. OpenGoesOn self.now.source.now (Open.Map start key)
            (place_of tokens.now code.old.items) r.0 (place_of r.1.now code.new.items)) }
        ensures rest { IfOk result (λ r. IsRest r.1.now tokens.now) }
        ensures shorter { IfOk result (λ r. length r.1.now < length tokens.now) }
        ensures stuck { IfStuck result (OpenStuck
            self.now.source.now
            (Open.Map start key)
            (place_of tokens.now code.old.items)) }
    {
        append(Instr::ExprMapInsert(key), code)?;
        if let Some((_, rest)) = take(Token::Comma, tokens) {
            return self.start_entry(start, rest, code);
        }
        let (closing, rest) = expect(Token::CloseBrace, Want::CloseBrace, tokens)?;
        Ok((Step::Base(close_map(start, closing, code)), rest))
    }
}
