// The tree of an expression in a tag, read without recursion: what is open around the one that is read is on a stack.
ghost use Rattle.std.specs.Prelude.{◌≡◌, ◌<◌, ◌≤◌, ◌+◌, ◌*◌, List, length, IfOk, true};
ghost use Rattle.upon_tag_parser.specs.TagTokens.{lexemes_of, AreTagTokens, IsRest};
ghost use Rattle.upon_tag_parser.specs.TagParsing.{IfStuck, ReadsExpression};
ghost use Rattle.upon_tree.specs.AstExpression.{expression_tree};
ghost use Rattle.upon_types.specs.Expression.{Expression};
ghost use Rattle.upon_tag_parser.specs.Brackets.{StuckFrom};
ghost use Rattle.upon_tree.specs.Opened.{IsExpressionKnown, step_weight, tree_reader_text};
ghost use Rattle.upon_tree.specs.Opened.{EndTreeGoesOn, EndTreeStuck};
ghost use Rattle.upon_tree.specs.Opened.{OpenTreeGoesOn, OpenTreeStuck, PartTreeGoesOn};
ghost use Rattle.upon_tree.specs.Opened.{PartTreeStuck, ReadsTreeOn, ReadsTreeStuck};

use crate::ast::{BaseExpr, Expr};
use crate::made::{arguments_at, filter_with, filter_without_arguments, paren_base, part_of};
use crate::opened::{Applied, Open, Receiver, Step};
use std::alloc::AllocError;
use upon_lexer::literal::Lexed;
use upon_tag_parser::compile::parse::path::{Failure, Parsed, TagParser, expect, take};
use upon_tag_parser::compile::parse::want::Want;
use upon_types::types::{Span, Token};

/// Reads trees from the tokens of tags.
#[derive(Drop)]
pub struct TreeReader<'a> {
    pub parser: TagParser<'a>,
}

impl<'a> TreeReader<'a> {
    /// Returns the tree of the expression that is known to be at the start of these tokens. It fails if memory is out.
    pub fn known(&self, tokens: &[Lexed]) -> Result<Expr, AllocError>
        requires tokens { AreTagTokens (tree_reader_text self.now) tokens.now }
        requires known { (e : Expression) × IsExpressionKnown (tree_reader_text self.now) e (lexemes_of tokens.now) }
        ensures { (e : Expression) → IsExpressionKnown (tree_reader_text self.now) e (lexemes_of tokens.now)
            → IfOk result (λ expr. expression_tree expr ≡ e) }
    {
        match self.expression(tokens) {
            Ok((expr, _)) => Ok(expr),
            Err(Failure::Memory) => Err(AllocError),
            Err(Failure::Stuck(_, _)) => unreachable!(),
        }
    }

    // Reads an expression, and returns its tree.
    fn expression<'t>(&self, tokens: &'t [Lexed]) -> Parsed<'t, Expr>
        requires tokens { AreTagTokens (tree_reader_text self.now) tokens.now }
        ensures expression { IfOk result (λ r. ReadsExpression
            (tree_reader_text self.now) (expression_tree r.0) (lexemes_of tokens.now) (lexemes_of r.1.now)) }
        ensures rest { IfOk result (λ r. IsRest r.1.now tokens.now) }
        ensures stuck { IfStuck result (StuckFrom (tree_reader_text self.now) true (lexemes_of tokens.now)) }
    {
        let mut stack = Vec::new(self.parser.alloc);
        let (mut last, mut left) = self.start_base(tokens)?;
        'steps: loop {
            match last {
                Step::Whole(expr) => return Ok((expr, left)),
                Step::Opens(top) => {
                    let (next, rest) = self.enter(top, left, &mut stack)?;
                    last = next;
                    left = rest;
                }
                Step::Base(base) => {
                    let (next, rest) = self.leave(base, left, &mut stack)?;
                    last = next;
                    left = rest;
                }
            }
        }
    }

    // What opens is put on the stack, and an expression without a filter starts in it.
    fn enter<'t>(&self, top: Open, tokens: &'t [Lexed], stack: &mut Vec<Open>) -> Parsed<'t, Step>
        requires tokens { AreTagTokens (tree_reader_text self.now) tokens.now }
        ensures step { IfOk result (λ r. ReadsTreeOn (tree_reader_text self.now)
            stack.old.items (Step.Opens top) (lexemes_of tokens.now) stack.new.items r.0 (lexemes_of r.1.now)) }
        ensures rest { IfOk result (λ r. IsRest r.1.now tokens.now) }
        ensures shorter { IfOk result (λ r. length r.1.now < length tokens.now) }
        ensures deeper { IfOk result (λ _. length stack.new.items ≡ length stack.old.items + 1) }
        ensures stuck { IfStuck result (ReadsTreeStuck
            (tree_reader_text self.now) stack.old.items (Step.Opens top) (lexemes_of tokens.now)) }
    {
        stack.push(top)?;
        self.start_base(tokens)
    }

    // An expression without a filter was read, and what is innermost on the stack goes on after it.
    fn leave<'t>(
        &self,
        base: BaseExpr,
        tokens: &'t [Lexed],
        stack: &mut Vec<Open>,
    ) -> Parsed<'t, Step>
        requires tokens { AreTagTokens (tree_reader_text self.now) tokens.now }
        ensures step { IfOk result (λ r. ReadsTreeOn (tree_reader_text self.now)
            stack.old.items (Step.Base base) (lexemes_of tokens.now) stack.new.items r.0 (lexemes_of r.1.now)) }
        ensures rest { IfOk result (λ r. IsRest r.1.now tokens.now) }
        ensures less { IfOk result (λ r. 2 * length r.1.now + step_weight r.0 + length stack.new.items
            < 2 * length tokens.now + 1 + length stack.old.items) }
        ensures stuck { IfStuck result (ReadsTreeStuck
            (tree_reader_text self.now) stack.old.items (Step.Base base) (lexemes_of tokens.now)) }
    {
        match stack.pop() {
            None => self.after_part(None, part_of(base), tokens),
            Some(top) => self.after_base(top, base, tokens),
        }
    }

    // What is open goes on after an expression without a filter.
    fn after_base<'t>(&self, top: Open, base: BaseExpr, tokens: &'t [Lexed]) -> Parsed<'t, Step>
        requires tokens { AreTagTokens (tree_reader_text self.now) tokens.now }
        ensures step { IfOk result (λ r. OpenTreeGoesOn (tree_reader_text self.now) top base
            (lexemes_of tokens.now) r.0 (lexemes_of r.1.now)) }
        ensures rest { IfOk result (λ r. IsRest r.1.now tokens.now) }
        ensures shorter { IfOk result (λ r. length r.1.now + step_weight r.0 ≤ length tokens.now) }
        ensures stuck { IfStuck result (OpenTreeStuck (tree_reader_text self.now) top base (lexemes_of tokens.now)) }
    {
        match top {
            Open::List(list) => self.after_item(list, base, tokens),
            Open::Map(map, key) => self.after_entry(map, key, base, tokens),
            Open::Call(call) => self.after_argument(call, base, tokens),
            Open::Paren(opening) => self.after_part(Some(opening), part_of(base), tokens),
            Open::Filter(receiver, filter) => {
                self.after_filter_argument(receiver, filter, base, tokens)
            }
        }
    }

    // A filter goes on after an argument.
    fn after_filter_argument<'t>(
        &self,
        receiver: Receiver,
        filter: Applied,
        argument: BaseExpr,
        tokens: &'t [Lexed],
    ) -> Parsed<'t, Step>
        requires tokens { AreTagTokens (tree_reader_text self.now) tokens.now }
        ensures step { IfOk result (λ r.
            OpenTreeGoesOn (tree_reader_text self.now) (Open.Filter receiver filter) argument
            (lexemes_of tokens.now) r.0 (lexemes_of r.1.now)) }
        ensures rest { IfOk result (λ r. IsRest r.1.now tokens.now) }
        ensures shorter { IfOk result (λ r. length r.1.now + step_weight r.0 ≤ length tokens.now) }
        ensures stuck { IfStuck result (OpenTreeStuck
            (tree_reader_text self.now) (Open.Filter receiver filter) argument (lexemes_of tokens.now)) }
    {
        let Applied { name, mut values } = filter;
        let n = argument.span().n;
        values.push(argument)?;
        if let Some((_, rest)) = take(Token::Comma, tokens) {
            return Ok((
                Step::Opens(Open::Filter(receiver, Applied { name, values })),
                rest,
            ));
        }
        let Receiver {
            opening,
            expr,
            colon,
        } = receiver;
        let span = Span {
            m: expr.span().m,
            n,
        };
        let args = arguments_at(values, Span { m: colon.m, n });
        let part = filter_with(self.parser.alloc, expr, name, args, span)?;
        self.after_part(opening, part, tokens)
    }

    // The filters after what was read of an expression, up to one that has arguments, or else up to the expression's
    // end.
    fn after_part<'t>(
        &self,
        opening: Option<Span>,
        first: Expr,
        tokens: &'t [Lexed],
    ) -> Parsed<'t, Step>
        requires tokens { AreTagTokens (tree_reader_text self.now) tokens.now }
        ensures step { IfOk result (λ r. PartTreeGoesOn (tree_reader_text self.now) opening first
            (lexemes_of tokens.now) r.0 (lexemes_of r.1.now)) }
        ensures rest { IfOk result (λ r. IsRest r.1.now tokens.now) }
        ensures shorter { IfOk result (λ r. length r.1.now + step_weight r.0 ≤ length tokens.now) }
        ensures stuck { IfStuck result
            (PartTreeStuck (tree_reader_text self.now) opening first (lexemes_of tokens.now)) }
    {
        let mut part = first;
        let mut left = tokens;
        'filters: while let Some((_, rest)) = take(Token::Pipe, left) {
            let (name, rest) = self.parser.parse_ident(rest)?;
            if let Some((colon, inside)) = take(Token::Colon, rest) {
                let receiver = Receiver {
                    opening,
                    expr: part,
                    colon,
                };
                let values = Vec::new(self.parser.alloc);
                let filter = Applied { name, values };
                return Ok((Step::Opens(Open::Filter(receiver, filter)), inside));
            }
            let span = Span {
                m: part.span().m,
                n: name.span.n,
            };
            part = filter_without_arguments(self.parser.alloc, part, name, span)?;
            left = rest;
        }
        self.end_part(opening, part, left)
    }

    // The end of an expression, after which no filter comes: its closing parenthesis, if it is in parentheses.
    fn end_part<'t>(
        &self,
        opening: Option<Span>,
        expr: Expr,
        tokens: &'t [Lexed],
    ) -> Parsed<'t, Step>
        ensures step { IfOk result (λ r.
            EndTreeGoesOn (tree_reader_text self.now) opening expr (lexemes_of tokens.now) r.0 (lexemes_of r.1.now)) }
        ensures rest { IfOk result (λ r. IsRest r.1.now tokens.now) }
        ensures shorter { IfOk result (λ r. length r.1.now + step_weight r.0 ≤ length tokens.now) }
        ensures stuck { IfStuck result (EndTreeStuck (tree_reader_text self.now) opening expr (lexemes_of tokens.now)) }
    {
        match opening {
            None => Ok((Step::Whole(expr), tokens)),
            Some(opening) => {
                let (closing, rest) = expect(Token::CloseParen, Want::CloseParen, tokens)?;
                let span = Span {
                    m: opening.m,
                    n: closing.n,
                };
                Ok((Step::Base(paren_base(self.parser.alloc, expr, span)?), rest))
            }
        }
    }
}
