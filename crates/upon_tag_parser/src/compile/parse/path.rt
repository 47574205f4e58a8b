// Names and paths in a tag.
ghost use Rattle.std.specs.Prelude.{◌≡◌, ℕ, ◌<◌, ◌≤◌, ◌^◌, nat_lt, true, false, Some, List, [], ◌∷◌, length, IfOk};
ghost use Rattle.std.specs.Prelude.{IfSome, MatchOption};
ghost use Rattle.upon_types.specs.Span.{LiesIn, slice};
ghost use Rattle.upon_language_spec.specs.Literal.{IsIndex, digits_in};
ghost use Rattle.upon_language_spec.specs.LiteralFaults.{index_value};
ghost use Rattle.upon_types.specs.AstPath.{ident_of, access_of, member_of, first_member, rest_members};
ghost use Rattle.upon_types.specs.Expression.{var};
ghost use Rattle.upon_language_spec.specs.Cut.{Lexeme};
ghost use Rattle.upon_language_spec.specs.Tokens.{Goes, GoesName, GoesWord};
ghost use Rattle.upon_language_spec.specs.Expressions.{op_token, IsAccess, IsMember};
ghost use Rattle.upon_language_spec.specs.Parts.{Part, a_member, after_name};
ghost use Rattle.upon_language_spec.specs.PartTails.{No, TakesOp};
ghost use Rattle.upon_types.specs.declared.types.token.Token.TheVariants.{Ident as Identifier, Dot, QuestionDot};
ghost use Rattle.upon_types.specs.declared.types.token.Token.TheVariants.{OpenParen};
ghost use Rattle.upon_tag_parser.specs.declared.compile.parse.want.Want.TheVariants.{Name};
ghost use Rattle.upon_tag_parser.specs.TagTokens.{lexemes_of, is_minus, AreTagTokens, IsRest};
ghost use Rattle.upon_tag_parser.specs.TagParsing.{IfStuck, IsStuck, IsRefused, NoWord, ReadsBase, ReadsMembers};

use crate::compile::parse::want::Want;
use std::alloc::{AllocError, AllocFailed, Global};
use upon_lexer::literal::{Lexed, index};
use upon_types::types::ast::{self, Access, AccessOp, Ident, Index, Member, Var};
use upon_types::types::{Span, Token, slice};

/// Why a part of a tag was not read.
#[derive(Drop)]
pub enum Failure<'t> {
    /// There was no memory.
    Memory,
    /// What is next may not be there: what is wanted, and the tokens left.
    Stuck(Want, &'t [Lexed]),
}

impl<'t> From<AllocError> for Failure<'t> {
    ghost use Rattle.upon_tag_parser.specs.declared.compile.parse.path.Failure.TheVariants.{Memory};

    ghost from_gives = { λ _ e. e ≡ Memory };

    fn from(_: AllocError) -> Failure<'t> {
        Failure::Memory
    }
}

impl<'t, T: Drop> From<AllocFailed<T>> for Failure<'t> {
    ghost use Rattle.upon_tag_parser.specs.declared.compile.parse.path.Failure.TheVariants.{Memory};

    ghost from_gives = { λ _ e. e ≡ Memory };

    fn from(_: AllocFailed<T>) -> Failure<'t> {
        Failure::Memory
    }
}

/// What was read of a tag's tokens and what is left of them, or why it was not read.
pub type Parsed<'t, T> = Result<(T, &'t [Lexed]), Failure<'t>>;

/// Returns the next token, and what is left after it.
pub fn next_token(tokens: &[Lexed]) -> Option<(Lexed, &[Lexed])>
    ensures { MatchOption result (tokens.now ≡ []) (λ r. tokens.now ≡ r.0 ∷ r.1.now) }
{
    match tokens {
        [first, rest @ ..] => Some((*first, rest)),
        [] => None,
    }
}

/// Goes past the next token if it is of this kind.
pub fn take(token: Token, tokens: &[Lexed]) -> Option<(Span, &[Lexed])>
    ensures token { MatchOption result
        (No token (lexemes_of tokens.now))
        (λ r. Goes token r.0 (lexemes_of tokens.now) (lexemes_of r.1.now)) }
    ensures rest { is_minus token ≡ false → IfSome result (λ r. IsRest r.1.now tokens.now) }
    ensures shorter { IfSome result (λ r. length r.1.now < length tokens.now) }
{
    match next_token(tokens) {
        None => None,
        Some((first, rest)) => {
            if first.token == token {
                Some((first.span, rest))
            } else {
                None
            }
        }
    }
}

/// Goes past the next token, which has to be of this kind; else this is wanted.
pub fn expect(token: Token, want: Want, tokens: &[Lexed]) -> Parsed<'_, Span>
    ensures token { IfOk result (λ r. Goes token r.0 (lexemes_of tokens.now) (lexemes_of r.1.now)) }
    ensures rest { is_minus token ≡ false → IfOk result (λ r. IsRest r.1.now tokens.now) }
    ensures shorter { IfOk result (λ r. length r.1.now < length tokens.now) }
    ensures stuck { IfStuck result (IsRefused token want tokens.now) }
{
    take(token, tokens).ok_or(Failure::Stuck(want, tokens))
}

/// Goes past `.` or `?.`, if one is next.
pub fn take_op(tokens: &[Lexed]) -> Option<((AccessOp, Span), &[Lexed])>
    ensures op { MatchOption result
        (No Dot (lexemes_of tokens.now) × No QuestionDot (lexemes_of tokens.now))
        (λ r. Goes (op_token r.0.0) r.0.1 (lexemes_of tokens.now) (lexemes_of r.1.now)) }
    ensures rest { IfSome result (λ r. IsRest r.1.now tokens.now) }
    ensures shorter { IfSome result (λ r. length r.1.now < length tokens.now) }
{
    if let Some((span, rest)) = take(Token::Dot, tokens) {
        return Some(((AccessOp::Direct, span), rest));
    }
    match take(Token::QuestionDot, tokens) {
        None => None,
        Some((span, rest)) => Some(((AccessOp::Optional, span), rest)),
    }
}

/// Reads the tokens of a tag of a text.
#[derive(Clone, Copy)]
pub struct TagParser<'a> {
    pub alloc: Global,
    pub source: &'a str,
}

impl<'a> TagParser<'a> {
    /// Goes past the next token if it is this keyword.
    pub fn take_keyword<'t>(&self, word: &str, tokens: &'t [Lexed]) -> Option<(Span, &'t [Lexed])>
        requires tokens { AreTagTokens self.now.source.now tokens.now }
        ensures word { MatchOption result
            (NoWord self.now.source.now word.now (lexemes_of tokens.now))
            (λ r. GoesWord self.now.source.now word.now r.0 (lexemes_of tokens.now) (lexemes_of r.1.now)) }
        ensures rest { IfSome result (λ r. IsRest r.1.now tokens.now) }
        ensures shorter { IfSome result (λ r. length r.1.now < length tokens.now) }
    {
        match next_token(tokens) {
            None => None,
            Some((first, rest)) => {
                if first.token == Token::Keyword && slice(self.source, first.span) == word {
                    Some((first.span, rest))
                } else {
                    None
                }
            }
        }
    }

    /// Returns the name at a span.
    pub fn ident(&self, span: Span) -> Result<Ident, AllocError>
        requires { LiesIn self.now.source.now span }
        ensures text { IfOk result (λ ident. (ident_of ident).text ≡ slice self.now.source.now span) }
        ensures span { IfOk result (λ ident. ident.span ≡ span) }
    {
        let name = ast::Name::from_str(self.alloc, slice(self.source, span))?;
        Ok(Ident { name, span })
    }

    /// Parses a name.
    pub fn parse_ident<'t>(&self, tokens: &'t [Lexed]) -> Parsed<'t, Ident>
        requires tokens { AreTagTokens self.now.source.now tokens.now }
        ensures name { IfOk result (λ r.
            GoesName self.now.source.now (ident_of r.0) (lexemes_of tokens.now) (lexemes_of r.1.now)) }
        ensures rest { IfOk result (λ r. IsRest r.1.now tokens.now) }
        ensures shorter { IfOk result (λ r. length r.1.now < length tokens.now) }
        ensures stuck { IfStuck result (IsRefused Identifier Name tokens.now) }
    {
        let (span, rest) = expect(Token::Ident, Want::Name, tokens)?;
        Ok((self.ident(span)?, rest))
    }

    // The number that an index denotes, which is not too large.
    fn index_at(&self, span: Span) -> usize
        requires span { LiesIn self.now.source.now span }
        requires digits { (digits : List ℕ) × (digits_in 10 (slice self.now.source.now span) ≡ Some digits) }
        requires small { nat_lt (index_value (digits_in 10 (slice self.now.source.now span))) (2 ^ 64) ≡ true }
        ensures { IsIndex (slice self.now.source.now span) result }
    {
        index(slice(self.source, span)).unwrap()
    }

    // A name or an index.
    fn parse_access<'t>(&self, tokens: &'t [Lexed]) -> Parsed<'t, Access>
        requires tokens { AreTagTokens self.now.source.now tokens.now }
        ensures access { IfOk result (λ r.
            IsAccess self.now.source.now (access_of r.0) (lexemes_of tokens.now) (lexemes_of r.1.now)) }
        ensures rest { IfOk result (λ r. IsRest r.1.now tokens.now) }
        ensures shorter { IfOk result (λ r. length r.1.now < length tokens.now) }
        ensures stuck { IfStuck result (λ want left. (parts : List Part)
            → IsStuck self.now.source.now (a_member ∷ parts) tokens.now want left) }
    {
        if let Some((span, rest)) = take(Token::Ident, tokens) {
            return Ok((Access::Key(self.ident(span)?), rest));
        }
        let (span, rest) = expect(Token::Index, Want::NameOrIndex, tokens)?;
        let value = self.index_at(span);
        Ok((Access::Index(Index { value, span }), rest))
    }

    // A member whose operator was read.
    fn parse_member<'t>(&self, op: AccessOp, at: Span, tokens: &'t [Lexed]) -> Parsed<'t, Member>
        requires tokens { AreTagTokens self.now.source.now tokens.now }
        ensures member { IfOk result (λ r. (before : List Lexeme) → Goes (op_token op) at before (lexemes_of tokens.now)
            → IsMember self.now.source.now (member_of r.0) before (lexemes_of r.1.now)) }
        ensures access { IfOk result (λ r.
            IsAccess self.now.source.now (access_of r.0.access) (lexemes_of tokens.now) (lexemes_of r.1.now)) }
        ensures rest { IfOk result (λ r. IsRest r.1.now tokens.now) }
        ensures shorter { IfOk result (λ r. length r.1.now < length tokens.now) }
        ensures stuck { IfStuck result (λ want left. (parts : List Part)
            → IsStuck self.now.source.now (a_member ∷ parts) tokens.now want left) }
    {
        let (access, rest) = self.parse_access(tokens)?;
        let span = Span {
            m: at.m,
            n: access.span().n,
        };
        Ok((Member { op, access, span }, rest))
    }

    // The members after a first one.
    fn parse_members<'t>(&self, first: Member, tokens: &'t [Lexed]) -> Parsed<'t, Var>
        requires tokens { AreTagTokens self.now.source.now tokens.now }
        ensures members { IfOk result (λ r. ReadsMembers
            self.now.source.now
            (member_of first)
            r.0
            (lexemes_of tokens.now)
            (lexemes_of r.1.now)) }
        ensures rest { IfOk result (λ r. IsRest r.1.now tokens.now) }
        ensures shorter { IfOk result (λ r. length r.1.now ≤ length tokens.now) }
        ensures stuck { IfStuck result (λ want left. (from parts : List Part) → TakesOp from parts
            → IsStuck self.now.source.now from tokens.now want left) }
    {
        // Most paths have one member.
        let mut path = Vec::with_capacity(self.alloc, 1)?;
        path.push(first)?;
        let mut left = tokens;
        'members: loop {
            match take_op(left) {
                None => return Ok((Var { path }, left)),
                Some(((op, at), rest)) => {
                    let (member, rest) = self.parse_member(op, at, rest)?;
                    path.push(member)?;
                    left = rest;
                }
            }
        }
    }

    /// Parses a path from a member, whose operator was read.
    pub fn parse_path_from<'t>(
        &self,
        op: AccessOp,
        at: Span,
        tokens: &'t [Lexed],
    ) -> Parsed<'t, Var>
        requires tokens { AreTagTokens self.now.source.now tokens.now }
        ensures path { IfOk result (λ r. (before : List Lexeme) → Goes (op_token op) at before (lexemes_of tokens.now)
            → ReadsBase self.now.source.now (var (first_member r.0) (rest_members r.0)) before (lexemes_of r.1.now)) }
        ensures rest { IfOk result (λ r. IsRest r.1.now tokens.now) }
        ensures shorter { IfOk result (λ r. length r.1.now < length tokens.now) }
        ensures stuck { IfStuck result (λ want left. (parts : List Part)
            → IsStuck self.now.source.now (a_member ∷ parts) tokens.now want left) }
    {
        let (first, rest) = self.parse_member(op, at, tokens)?;
        self.parse_members(first, rest)
    }

    /// Parses a path from a name, which was read, and after which no parenthesis opens.
    pub fn parse_path<'t>(&self, name: Ident, tokens: &'t [Lexed]) -> Parsed<'t, Var>
        requires tokens { AreTagTokens self.now.source.now tokens.now }
        ensures path { IfOk result (λ r. (before : List Lexeme)
            → GoesName self.now.source.now (ident_of name) before (lexemes_of tokens.now)
            → No OpenParen (lexemes_of tokens.now)
            → ReadsBase self.now.source.now (var (first_member r.0) (rest_members r.0)) before (lexemes_of r.1.now)) }
        ensures rest { IfOk result (λ r. IsRest r.1.now tokens.now) }
        ensures shorter { IfOk result (λ r. length r.1.now ≤ length tokens.now) }
        ensures stuck { IfStuck result (λ want left. (parts : List Part)
            → IsStuck self.now.source.now (after_name ∷ parts) tokens.now want left) }
    {
        let span = name.span;
        let first = Member {
            op: AccessOp::Direct,
            access: Access::Key(name),
            span,
        };
        self.parse_members(first, tokens)
    }
}
