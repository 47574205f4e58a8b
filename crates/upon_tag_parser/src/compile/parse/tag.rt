// What is in a tag: an expression, or one of the tags of blocks.
ghost use Rattle.std.specs.Prelude.{◌≡◌, List, ◌∷◌, [], codes, IfOk, OnOk};
ghost use Rattle.upon_types.specs.declared.types.token.Token.TheVariants.{EndExpr, EndBlock};
ghost use Rattle.upon_types.specs.AstPath.{loop_vars_of};
ghost use Rattle.upon_language_spec.specs.Cut.{Lexeme};
ghost use Rattle.upon_language_spec.specs.Tokens.{GoesKeyword};
ghost use Rattle.upon_language_spec.specs.Wanted.{an_end_expression, an_end_block};
ghost use Rattle.upon_language_spec.specs.Parts.{Part, a_base, filters, end_expr, end_block, block_word, condition};
ghost use Rattle.upon_language_spec.specs.Parts.{else_rest, loop_name, as_word, include_name};
ghost use Rattle.upon_tag_parser.specs.BlockTags.{BlockTag, Keeps, tokens_before};
ghost use Rattle.upon_tag_parser.specs.TagTokens.{lexemes_of, AreTagTokens, IsRest};
ghost use Rattle.upon_tag_parser.specs.TagParsing.{IfStuck, IsStuck};
ghost use Rattle.upon_tag_parser.specs.Brackets.{place, place_of};
ghost use Rattle.upon_tag_parser.specs.WholeTags.{LeadsToEnd, HoldsInline, HoldsTag, TagRead, ClosingRead, ConditionRead};
ghost use Rattle.upon_tag_parser.specs.WholeTags.{ReadsLoopVars, IsTooLong, NoOpeningWord};

use crate::compile::parse::instructions::show;
use crate::compile::parse::path::{Failure, Parsed, TagParser, take};
use crate::compile::parse::want::Want;
use upon_compiler::types::program::Instr;
use upon_lexer::literal::Lexed;
use upon_types::types::ast::{self, Ident, KeyValue, LoopVars};
use upon_types::types::block::BlockKind;
use upon_types::types::{Span, Token, slice};

/// What is in the tag of a block, without its expression: the instructions of that are appended.
#[derive(Drop)]
pub enum Tag {
    /// Whether `not` is before the condition.
    If(bool),
    /// Whether `not` is before the condition.
    ElseIf(bool),
    Else,
    /// The loop's variables, and where the iterable is.
    For(Box<LoopVars>, Span),
    /// The name of the value.
    With(Ident),
    /// The kind of the block that ends.
    End(BlockKind),
    /// The name of a template that sees all names.
    Include(ast::String),
    /// The name of a template that sees a value alone.
    IncludeWith(ast::String),
}

impl Tag {
    /// Returns how many tokens of the tag are before its expression: 0 if it has none.
    pub fn tokens_before_expression(&self) -> usize
        ensures { (tag : BlockTag) → Keeps self.now tag → result ≡ tokens_before tag }
    {
        match self {
            Tag::If(not) => 1 + usize::from(*not),
            Tag::ElseIf(not) => 2 + usize::from(*not),
            Tag::For(vars, _) => match &**vars {
                LoopVars::Item(_) => 3,
                LoopVars::KeyValue(_) => 5,
            },
            Tag::With(_) => 1,
            Tag::IncludeWith(_) => 3,
            Tag::Else | Tag::End(_) | Tag::Include(_) => 0,
        }
    }
}

impl<'a> TagParser<'a> {
    /// Parses the expression in an inline tag, whose tokens are these, and appends the instructions that show it. After
    /// an error the instructions can be any.
    pub fn parse_inline_tag<'t>(
        &self,
        tokens: &'t [Lexed],
        code: &mut Vec<Instr>,
    ) -> Result<(), Failure<'t>>
        requires tokens { AreTagTokens self.now.source.now tokens.now }
        ensures tag { OnOk result (HoldsInline self.now.source.now (lexemes_of tokens.now) code.old.items
            code.new.items) }
        ensures leads { OnOk result (LeadsToEnd
            self.now.source.now
            (a_base ∷ filters ∷ end_expr ∷ [])
            (lexemes_of tokens.now)
            EndExpr
            an_end_expression) }
        ensures stuck { IfStuck result (IsStuck self.now.source.now (a_base ∷ filters ∷ end_expr ∷ []) tokens.now) }
    {
        let (_, rest) = self.parse_expr(tokens, code)?;
        expect_end(Want::EndExpr, rest)?;
        Ok(show(code)?)
    }

    /// Parses what is in the tag of a block, whose tokens are these, and appends the instructions that leave the
    /// value of its expression, if it has one. After an error the instructions can be any.
    pub fn parse_block_tag<'t>(
        &self,
        tokens: &'t [Lexed],
        code: &mut Vec<Instr>,
    ) -> Result<Tag, Failure<'t>>
        requires tokens { AreTagTokens self.now.source.now tokens.now }
        ensures tag { IfOk result (λ tag. HoldsTag self.now.source.now tag (lexemes_of tokens.now) code.old.items
            code.new.items) }
        ensures leads { IfOk result (λ _. LeadsToEnd
            self.now.source.now
            (block_word ∷ [])
            (lexemes_of tokens.now)
            EndBlock
            an_end_block) }
        ensures stuck { IfStuck result (IsStuck self.now.source.now (block_word ∷ []) tokens.now) }
    {
        let (tag, rest) = self.parse_tag(tokens, code)?;
        expect_end(Want::EndBlock, rest)?;
        Ok(tag)
    }

    // A tag of a block, up to where its end may be.
    fn parse_tag<'t>(&self, tokens: &'t [Lexed], code: &mut Vec<Instr>) -> Parsed<'t, Tag>
        requires tokens { AreTagTokens self.now.source.now tokens.now }
        ensures tag { IfOk result (λ r. TagRead self.now.source.now r.0
            (place_of tokens.now code.old.items) (place_of r.1.now code.new.items)) }
        ensures rest { IfOk result (λ r. IsRest r.1.now tokens.now) }
        ensures stuck { IfStuck result (IsStuck self.now.source.now (block_word ∷ []) tokens.now) }
    {
        if let Some((_, rest)) = self.take_keyword("if", tokens) {
            let (not, left) = self.parse_condition(rest, code)?;
            return Ok((Tag::If(not), left));
        }
        if let Some((_, rest)) = self.take_keyword("else", tokens) {
            return self.parse_else(rest, code);
        }
        if let Some((_, rest)) = self.take_keyword("for", tokens) {
            return self.parse_for(rest, code);
        }
        if let Some((_, rest)) = self.take_keyword("with", tokens) {
            return self.parse_with(rest, code);
        }
        if let Some((_, rest)) = self.take_keyword("include", tokens) {
            return self.parse_include(rest, code);
        }
        self.parse_closing_tag(tokens)
    }

    // The end of a block, where none of the other tags begins.
    fn parse_closing_tag<'t>(&self, tokens: &'t [Lexed]) -> Parsed<'t, Tag>
        requires tokens { AreTagTokens self.now.source.now tokens.now }
        ensures tag { IfOk result (λ r.
            ClosingRead self.now.source.now r.0 (lexemes_of tokens.now) (lexemes_of r.1.now)) }
        ensures rest { IfOk result (λ r. IsRest r.1.now tokens.now) }
        ensures stuck { NoOpeningWord self.now.source.now (lexemes_of tokens.now)
            → IfStuck result (IsStuck self.now.source.now (block_word ∷ []) tokens.now) }
    {
        let Some((span, rest)) = take(Token::Keyword, tokens) else {
            return Err(Failure::Stuck(Want::BlockWord, tokens));
        };
        match BlockKind::ended_by(slice(self.source, span)) {
            None => Err(Failure::Stuck(Want::BlockWord, tokens)),
            Some(kind) => Ok((Tag::End(kind), rest)),
        }
    }

    // An `else`, whose keyword was read.
    fn parse_else<'t>(&self, tokens: &'t [Lexed], code: &mut Vec<Instr>) -> Parsed<'t, Tag>
        requires tokens { AreTagTokens self.now.source.now tokens.now }
        ensures tag { IfOk result (λ r. (before : List Lexeme)
            → GoesKeyword self.now.source.now (codes "else") before (lexemes_of tokens.now)
            → TagRead self.now.source.now r.0 (place before code.old.items) (place_of r.1.now code.new.items)) }
        ensures rest { IfOk result (λ r. IsRest r.1.now tokens.now) }
        ensures stuck { IfStuck result (IsStuck self.now.source.now (else_rest ∷ []) tokens.now) }
    {
        match self.take_keyword("if", tokens) {
            None => Ok((Tag::Else, tokens)),
            Some((_, rest)) => {
                let (not, left) = self.parse_condition(rest, code)?;
                Ok((Tag::ElseIf(not), left))
            }
        }
    }

    // A condition: an expression, before which `not` may be; whether it is there is returned.
    fn parse_condition<'t>(&self, tokens: &'t [Lexed], code: &mut Vec<Instr>) -> Parsed<'t, bool>
        requires tokens { AreTagTokens self.now.source.now tokens.now }
        ensures condition { IfOk result (λ r. ConditionRead self.now.source.now r.0
            (place_of tokens.now code.old.items) (place_of r.1.now code.new.items)) }
        ensures rest { IfOk result (λ r. IsRest r.1.now tokens.now) }
        ensures stuck { IfStuck result (λ want left. (parts : List Part)
            → IsStuck self.now.source.now (condition ∷ parts) tokens.now want left) }
    {
        match self.take_keyword("not", tokens) {
            None => {
                let (_, left) = self.parse_expr(tokens, code)?;
                Ok((false, left))
            }
            Some((_, rest)) => {
                let (_, left) = self.parse_expr(rest, code)?;
                Ok((true, left))
            }
        }
    }

    // A `for`, whose keyword was read.
    fn parse_for<'t>(&self, tokens: &'t [Lexed], code: &mut Vec<Instr>) -> Parsed<'t, Tag>
        requires tokens { AreTagTokens self.now.source.now tokens.now }
        ensures tag { IfOk result (λ r. (before : List Lexeme)
            → GoesKeyword self.now.source.now (codes "for") before (lexemes_of tokens.now)
            → TagRead self.now.source.now r.0 (place before code.old.items) (place_of r.1.now code.new.items)) }
        ensures rest { IfOk result (λ r. IsRest r.1.now tokens.now) }
        ensures stuck { IfStuck result (IsStuck self.now.source.now (loop_name ∷ end_block ∷ []) tokens.now) }
    {
        let (vars, rest) = self.parse_loop_vars(tokens)?;
        match self.take_keyword("in", rest) {
            None => Err(Failure::Stuck(Want::In, rest)),
            Some((_, rest)) => {
                let (span, left) = self.parse_expr(rest, code)?;
                let names = Box::new(self.alloc, vars)?;
                Ok((Tag::For(names, span), left))
            }
        }
    }

    // The variables of a loop.
    fn parse_loop_vars<'t>(&self, tokens: &'t [Lexed]) -> Parsed<'t, LoopVars>
        requires tokens { AreTagTokens self.now.source.now tokens.now }
        ensures vars { IfOk result (λ r. ReadsLoopVars
            self.now.source.now
            (loop_vars_of r.0)
            (lexemes_of tokens.now)
            (lexemes_of r.1.now)) }
        ensures rest { IfOk result (λ r. IsRest r.1.now tokens.now) }
        ensures stuck { IfStuck result (λ want left. (parts : List Part)
            → IsStuck self.now.source.now (loop_name ∷ parts) tokens.now want left) }
    {
        let (key, rest) = self.parse_ident(tokens)?;
        match take(Token::Comma, rest) {
            None => Ok((LoopVars::Item(key), rest)),
            Some((_, rest)) => {
                let (value, left) = self.parse_ident(rest)?;
                let span = Span {
                    m: key.span.m,
                    n: value.span.n,
                };
                Ok((LoopVars::KeyValue(KeyValue { key, value, span }), left))
            }
        }
    }

    // A `with`, whose keyword was read.
    fn parse_with<'t>(&self, tokens: &'t [Lexed], code: &mut Vec<Instr>) -> Parsed<'t, Tag>
        requires tokens { AreTagTokens self.now.source.now tokens.now }
        ensures tag { IfOk result (λ r. (before : List Lexeme)
            → GoesKeyword self.now.source.now (codes "with") before (lexemes_of tokens.now)
            → TagRead self.now.source.now r.0 (place before code.old.items) (place_of r.1.now code.new.items)) }
        ensures rest { IfOk result (λ r. IsRest r.1.now tokens.now) }
        ensures stuck { IfStuck result (IsStuck
            self.now.source.now
            (a_base ∷ filters ∷ as_word ∷ end_block ∷ [])
            tokens.now) }
    {
        let (_, rest) = self.parse_expr(tokens, code)?;
        match self.take_keyword("as", rest) {
            None => Err(Failure::Stuck(Want::As, rest)),
            Some((_, rest)) => {
                let (name, left) = self.parse_ident(rest)?;
                Ok((Tag::With(name), left))
            }
        }
    }

    // An `include`, whose keyword was read.
    fn parse_include<'t>(&self, tokens: &'t [Lexed], code: &mut Vec<Instr>) -> Parsed<'t, Tag>
        requires tokens { AreTagTokens self.now.source.now tokens.now }
        ensures tag { IfOk result (λ r. (before : List Lexeme)
            → GoesKeyword self.now.source.now (codes "include") before (lexemes_of tokens.now)
            → TagRead self.now.source.now r.0 (place before code.old.items) (place_of r.1.now code.new.items)) }
        ensures rest { IfOk result (λ r. IsRest r.1.now tokens.now) }
        ensures stuck { IfStuck result (IsStuck self.now.source.now (include_name ∷ []) tokens.now) }
    {
        let (name, rest) = self.parse_string(tokens)?;
        match self.take_keyword("with", rest) {
            None => Ok((Tag::Include(name), rest)),
            Some((_, rest)) => {
                let (_, left) = self.parse_expr(rest, code)?;
                Ok((Tag::IncludeWith(name), left))
            }
        }
    }
}

// No token is left but the tag's end.
fn expect_end(want: Want, tokens: &[Lexed]) -> Result<(), Failure<'_>>
    ensures end { IfOk result (λ _. tokens.now ≡ []) }
    ensures stuck { IfStuck result (IsTooLong want tokens.now) }
{
    if tokens.is_empty() {
        Ok(())
    } else {
        Err(Failure::Stuck(want, tokens))
    }
}
