// Expressions in a tag, without recursion: what is open around the one that is read is on a stack.
ghost use Rattle.std.specs.Prelude.{◌≡◌, ◌<◌, ◌≤◌, ◌+◌, ◌*◌, List, length, IfOk, true};
ghost use Rattle.upon_compiler.specs.Program.{program_view};
ghost use Rattle.upon_language_spec.specs.Cut.{Lexeme};
ghost use Rattle.upon_tag_parser.specs.TagTokens.{lexemes_of, AreTagTokens, IsRest};
ghost use Rattle.upon_tag_parser.specs.TagParsing.{IfStuck};
ghost use Rattle.upon_tag_parser.specs.Brackets.{place_of, weight, HasInstructions, Place, AreRead, ExpressionRead, StuckFrom};
ghost use Rattle.upon_tag_parser.specs.Brackets.{EndGoesOn, EndStuck, OpenGoesOn, OpenGoesOnAt, OpenStuckAt, PartGoesOn};
ghost use Rattle.upon_tag_parser.specs.Brackets.{PartStuck, ReadsOn, ReadsStuck};

use crate::compile::parse::brackets::{Applied, Open, Receiver, Step};
use crate::compile::parse::instructions::append;
use crate::compile::parse::path::{Parsed, TagParser, expect, take};
use crate::compile::parse::want::Want;
use upon_compiler::types::program::Instr;
use upon_lexer::literal::Lexed;
use upon_types::types::{Span, Token};

impl<'a> TagParser<'a> {
    /// Reads an expression, appends the instructions that leave its value, and returns where it is. After an error the
    /// instructions can be any.
    pub fn parse_expr<'t>(&self, tokens: &'t [Lexed], code: &mut Vec<Instr>) -> Parsed<'t, Span>
        requires tokens { AreTagTokens self.now.source.now tokens.now }
        ensures expression { IfOk result (λ r. ExpressionRead self.now.source.now r.0
            (place_of tokens.now code.old.items) (place_of r.1.now code.new.items)) }
        ensures rest { IfOk result (λ r. IsRest r.1.now tokens.now) }
        ensures shorter { IfOk result (λ r. length r.1.now < length tokens.now) }
        ensures stuck { IfStuck result (StuckFrom self.now.source.now true (lexemes_of tokens.now)) }
    {
        let mut stack = Vec::new(self.alloc);
        let (mut last, mut left) = self.start_base(tokens, code)?;
        'steps: loop {
            match last {
                Step::Whole(span) => return Ok((span, left)),
                Step::Opens(top) => {
                    let (next, rest) = self.enter(top, left, &mut stack, code)?;
                    last = next;
                    left = rest;
                }
                Step::Base(span) => {
                    let (next, rest) = self.leave(span, left, &mut stack, code)?;
                    last = next;
                    left = rest;
                }
            }
        }
    }

    // What opens is put on the stack, and an expression without a filter starts in it.
    fn enter<'t>(
        &self,
        top: Open,
        tokens: &'t [Lexed],
        stack: &mut Vec<Open>,
        code: &mut Vec<Instr>,
    ) -> Parsed<'t, Step>
        requires tokens { AreTagTokens self.now.source.now tokens.now }
        ensures step { IfOk result (λ r. ReadsOn self.now.source.now
            stack.old.items (Step.Opens top) (place_of tokens.now code.old.items)
            stack.new.items r.0 (place_of r.1.now code.new.items)) }
        ensures rest { IfOk result (λ r. IsRest r.1.now tokens.now) }
        ensures shorter { IfOk result (λ r. length r.1.now < length tokens.now) }
        ensures deeper { IfOk result (λ _. length stack.new.items ≡ length stack.old.items + 1) }
        ensures stuck { IfStuck result (ReadsStuck
            self.now.source.now
            stack.old.items
            (Step.Opens top)
            (place_of tokens.now code.old.items)) }
    {
        stack.push(top)?;
        self.start_base(tokens, code)
    }

    // An expression without a filter was read, and what is innermost on the stack goes on after it.
    fn leave<'t>(
        &self,
        span: Span,
        tokens: &'t [Lexed],
        stack: &mut Vec<Open>,
        code: &mut Vec<Instr>,
    ) -> Parsed<'t, Step>
        requires tokens { AreTagTokens self.now.source.now tokens.now }
        requires read { (from : Place)
            × AreRead self.now.source.now stack.old.items (Step.Base span) from (place_of tokens.now code.old.items) }
        ensures step { IfOk result (λ r. ReadsOn self.now.source.now
            stack.old.items (Step.Base span) (place_of tokens.now code.old.items)
            stack.new.items r.0 (place_of r.1.now code.new.items)) }
        ensures rest { IfOk result (λ r. IsRest r.1.now tokens.now) }
        ensures less { IfOk result (λ r. 2 * length r.1.now + weight r.0 + length stack.new.items
            < 2 * length tokens.now + 1 + length stack.old.items) }
        ensures shorter { IfOk result (λ r. length r.1.now ≤ length tokens.now) }
        ensures stuck { IfStuck result (ReadsStuck
            self.now.source.now
            stack.old.items
            (Step.Base span)
            (place_of tokens.now code.old.items)) }
    {
        match stack.pop() {
            None => self.after_part(None, span, tokens, code),
            Some(top) => self.after_base(top, span, tokens, code),
        }
    }

    // What is open goes on after an expression without a filter, which is at a span.
    fn after_base<'t>(
        &self,
        top: Open,
        span: Span,
        tokens: &'t [Lexed],
        code: &mut Vec<Instr>,
    ) -> Parsed<'t, Step>
        requires tokens { AreTagTokens self.now.source.now tokens.now }
        requires fits { HasInstructions top (length (program_view code.old.items)) }
        ensures step { IfOk result (λ r. OpenGoesOnAt self.now.source.now top span
            (place_of tokens.now code.old.items) r.0 (place_of r.1.now code.new.items)) }
        ensures rest { IfOk result (λ r. IsRest r.1.now tokens.now) }
        ensures shorter { IfOk result (λ r. length r.1.now + weight r.0 ≤ length tokens.now) }
        ensures stuck { IfStuck result (OpenStuckAt
            self.now.source.now
            top
            span
            (place_of tokens.now code.old.items)) }
    {
        match top {
            Open::List(start) => self.after_item(start, tokens, code),
            Open::Map(start, key) => self.after_entry(start, key, tokens, code),
            Open::Call(call) => self.after_argument(call, tokens, code),
            Open::Paren(opening) => self.after_part(Some(opening), span, tokens, code),
            Open::Filter(receiver, filter) => {
                self.after_filter_argument(receiver, filter, span, tokens, code)
            }
        }
    }

    // A filter goes on after an argument, which is at a span.
    fn after_filter_argument<'t>(
        &self,
        receiver: Receiver,
        filter: Applied,
        argument: Span,
        tokens: &'t [Lexed],
        code: &mut Vec<Instr>,
    ) -> Parsed<'t, Step>
        requires tokens { AreTagTokens self.now.source.now tokens.now }
        requires count { filter.count ≤ length (program_view code.old.items) }
        ensures step { IfOk result (λ r. OpenGoesOnAt self.now.source.now (Open.Filter receiver filter) argument
            (place_of tokens.now code.old.items) r.0 (place_of r.1.now code.new.items)) }
        ensures rest { IfOk result (λ r. IsRest r.1.now tokens.now) }
        ensures shorter { IfOk result (λ r. length r.1.now + weight r.0 ≤ length tokens.now) }
        ensures stuck { IfStuck result (OpenStuckAt
            self.now.source.now
            (Open.Filter receiver filter)
            argument
            (place_of tokens.now code.old.items)) }
    {
        let Applied { name, count } = filter;
        let count = count + 1;
        if let Some((_, rest)) = take(Token::Comma, tokens) {
            return Ok((
                Step::Opens(Open::Filter(receiver, Applied { name, count })),
                rest,
            ));
        }
        let span = Span {
            m: receiver.start,
            n: argument.n,
        };
        append(Instr::Apply(name, count + 1, span), code)?;
        self.after_part(receiver.opening, span, tokens, code)
    }

    // The filters after what was read of an expression, up to one that has arguments, or else up to the expression's
    // end.
    fn after_part<'t>(
        &self,
        opening: Option<Span>,
        first: Span,
        tokens: &'t [Lexed],
        code: &mut Vec<Instr>,
    ) -> Parsed<'t, Step>
        requires tokens { AreTagTokens self.now.source.now tokens.now }
        ensures step { IfOk result (λ r. PartGoesOn self.now.source.now opening first
            (place_of tokens.now code.old.items) r.0 (place_of r.1.now code.new.items)) }
        ensures rest { IfOk result (λ r. IsRest r.1.now tokens.now) }
        ensures shorter { IfOk result (λ r. length r.1.now + weight r.0 ≤ length tokens.now) }
        ensures stuck { IfStuck result (PartStuck
            self.now.source.now
            opening
            first
            (place_of tokens.now code.old.items)) }
    {
        let mut span = first;
        let mut left = tokens;
        'filters: while let Some((_, rest)) = take(Token::Pipe, left) {
            let (name, rest) = self.parse_ident(rest)?;
            if let Some((_, inside)) = take(Token::Colon, rest) {
                let receiver = Receiver {
                    opening,
                    start: span.m,
                };
                let filter = Applied { name, count: 0 };
                return Ok((Step::Opens(Open::Filter(receiver, filter)), inside));
            }
            span = Span {
                m: span.m,
                n: name.span.n,
            };
            append(Instr::Apply(name, 1, span), code)?;
            left = rest;
        }
        self.end_part(opening, span, left)
    }

    // The end of an expression, after which no filter comes: its closing parenthesis, if it is in parentheses.
    fn end_part<'t>(
        &self,
        opening: Option<Span>,
        span: Span,
        tokens: &'t [Lexed],
    ) -> Parsed<'t, Step>
        ensures step { IfOk result (λ r.
            EndGoesOn self.now.source.now opening span (lexemes_of tokens.now) r.0 (lexemes_of r.1.now)) }
        ensures rest { IfOk result (λ r. IsRest r.1.now tokens.now) }
        ensures shorter { IfOk result (λ r. length r.1.now + weight r.0 ≤ length tokens.now) }
        ensures stuck { IfStuck result (EndStuck self.now.source.now opening span (lexemes_of tokens.now)) }
    {
        match opening {
            None => Ok((Step::Whole(span), tokens)),
            Some(opening) => {
                let (closing, rest) = expect(Token::CloseParen, Want::CloseParen, tokens)?;
                let span = Span {
                    m: opening.m,
                    n: closing.n,
                };
                Ok((Step::Base(span), rest))
            }
        }
    }
}
