// The brackets inside a tag: which token opens or closes which, and those that are open.
ghost use Rattle.std.specs.Prelude.{◌≡◌, ◌⊎◌, option_map, true, IfSome, IfOk, IfErr};
ghost use Rattle.std.specs.List.{Contains};
ghost use Rattle.upon_lexer.specs.Brackets.{open_token, close_token, HasBracketEffect, bracket_lexeme, plain_lexeme, brackets_of, innermost};
ghost use Rattle.upon_language_spec.specs.Faults.{closes_first};
ghost use Rattle.upon_language_spec.specs.Lexing.{opens_bracket};
ghost use Rattle.upon_language_spec.specs.Reading.{brackets_after};
ghost use Rattle.upon_lexer.specs.declared.compile.brackets.OpenBracket.{OpenBracket};

use std::alloc::AllocError;
use upon_types::types::{Span, Token};

/// A shape of brackets.
#[derive(Clone, Copy, PartialEq, Eq)]
pub enum Shape {
    /// `[` and `]`
    Bracket,
    /// `{` and `}`
    Brace,
    /// `(` and `)`
    Paren,
}

impl Shape {
    /// Returns the token that opens such brackets.
    pub fn open_token(self) -> Token
        ensures { result ≡ open_token self }
    {
        match self {
            Shape::Bracket => Token::OpenBracket,
            Shape::Brace => Token::OpenBrace,
            Shape::Paren => Token::OpenParen,
        }
    }

    /// Returns the token that closes them.
    pub fn close_token(self) -> Token
        ensures { result ≡ close_token self }
    {
        match self {
            Shape::Bracket => Token::CloseBracket,
            Shape::Brace => Token::CloseBrace,
            Shape::Paren => Token::CloseParen,
        }
    }
}

/// What a token does to the open brackets.
#[derive(Clone, Copy, PartialEq, Eq)]
pub enum BracketEffect {
    /// It opens one of this shape.
    Opens(Shape),
    /// It closes one of this shape.
    Closes(Shape),
    /// It is no bracket.
    Nothing,
}

/// Returns what a token does to the open brackets.
pub fn effect_of(token: Token) -> BracketEffect
    ensures { HasBracketEffect token result }
{
    match token {
        Token::OpenBracket => BracketEffect::Opens(Shape::Bracket),
        Token::CloseBracket => BracketEffect::Closes(Shape::Bracket),
        Token::OpenBrace => BracketEffect::Opens(Shape::Brace),
        Token::CloseBrace => BracketEffect::Closes(Shape::Brace),
        Token::OpenParen => BracketEffect::Opens(Shape::Paren),
        Token::CloseParen => BracketEffect::Closes(Shape::Paren),
        _ => BracketEffect::Nothing,
    }
}

/// An open bracket, and where it is, in bytes.
#[derive(Clone, Copy)]
pub struct OpenBracket {
    pub shape: Shape,
    pub span: Span,
}

/// Returns the innermost of the open brackets: it is last.
pub fn innermost(brackets: &[OpenBracket]) -> Option<OpenBracket>
    ensures value { option_map bracket_lexeme result ≡ innermost (brackets_of brackets.now) }
    ensures listed { IfSome result (λ bracket. Contains brackets.now bracket) }
{
    brackets.last().copied()
}

/// Returns whether a closing bracket of a shape closes the innermost open one.
pub fn closes_innermost(brackets: &[OpenBracket], shape: Shape) -> bool
    ensures { result ≡ closes_first (brackets_of brackets.now) (close_token shape) }
{
    match innermost(brackets) {
        Some(bracket) => bracket.shape == shape,
        None => false,
    }
}

/// Opens or closes a bracket for a token at an offset, if the token does so. An error, if there is no memory for
/// a bracket that opens, leaves the brackets as they were.
pub fn apply(brackets: &mut Vec<OpenBracket>, token: Token, span: Span) -> Result<(), AllocError>
    ensures turned { IfOk result (λ _. brackets_of brackets.new.items
        ≡ brackets_after (brackets_of brackets.old.items) token (plain_lexeme token span)) }
    ensures listed { (b : OpenBracket)
        → Contains brackets.new.items b
        → Contains brackets.old.items b ⊎ (b.span ≡ span) }
    ensures opens { IfErr result (λ _. opens_bracket token ≡ true) }
    ensures kept { IfErr result (λ _. brackets_of brackets.new.items ≡ brackets_of brackets.old.items) }
{
    match effect_of(token) {
        BracketEffect::Opens(shape) => {
            brackets.push(OpenBracket { shape, span })?;
        }
        BracketEffect::Closes(_) => {
            brackets.pop();
        }
        BracketEffect::Nothing => {}
    }
    Ok(())
}
