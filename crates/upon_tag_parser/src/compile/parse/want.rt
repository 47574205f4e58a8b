// What a tag wants at an offset, and the cause of a fault if it is not there.
ghost use Rattle.std.specs.Prelude.{◌≡◌, codes, IfOk};
ghost use Rattle.upon_types.specs.Cause.{cause_text, name_at_end, wanted_name};
ghost use Rattle.upon_types.specs.Span.{LiesIn};
ghost use Rattle.upon_language_spec.specs.Tags.{word_of};
ghost use Rattle.upon_language_spec.specs.Wanted.{wanted_word, wanted_at_end, expected_found, reason_for};
ghost use Rattle.upon_language_spec.specs.Wanted.{reason_for_keyword};
ghost use Rattle.upon_language_spec.specs.LiteralWords.{fits_word};
ghost use Rattle.upon_tag_parser.specs.Wants.{wanted_of};

use std::alloc::{AllocError, Global};
use upon_lexer::literal::Lexed;
use upon_types::error::cause::{Cause, TagKeyword, Wanted};
use upon_types::types::ast::name::Name;
use upon_types::types::{Token, slice};

/// What may be at an offset of a tag.
#[derive(Clone, Copy, Debug, PartialEq, Eq)]
pub enum Want {
    /// An expression.
    Expression,
    /// A text in quotes.
    Text,
    /// A name or an index.
    NameOrIndex,
    /// The end of an inline tag.
    EndExpr,
    /// The end of a block's tag.
    EndBlock,
    /// `)`
    CloseParen,
    /// `]`
    CloseBracket,
    /// `}`
    CloseBrace,
    /// The word `in`.
    In,
    /// The word `as`.
    As,
    /// The word that begins a block's tag.
    BlockWord,
    /// A name.
    Name,
    /// A number.
    Number,
    /// `:`
    Colon,
}

impl Want {
    /// Returns what it is in a cause.
    pub fn wanted(self) -> Wanted
        ensures word { wanted_name result ≡ wanted_word (wanted_of self) }
        ensures end { name_at_end result ≡ wanted_at_end (wanted_of self) }
    {
        match self {
            Want::Expression => Wanted::Expression,
            Want::Text => Wanted::Token(Token::String),
            Want::NameOrIndex => Wanted::NameOrIndex,
            Want::EndExpr => Wanted::Token(Token::EndExpr),
            Want::EndBlock => Wanted::Token(Token::EndBlock),
            Want::CloseParen => Wanted::Token(Token::CloseParen),
            Want::CloseBracket => Wanted::Token(Token::CloseBracket),
            Want::CloseBrace => Wanted::Token(Token::CloseBrace),
            Want::In => Wanted::Token(Token::Keyword),
            Want::As => Wanted::Token(Token::Keyword),
            Want::BlockWord => Wanted::Token(Token::Keyword),
            Want::Name => Wanted::Token(Token::Ident),
            Want::Number => Wanted::Token(Token::Number),
            Want::Colon => Wanted::Token(Token::Colon),
        }
    }

    /// Returns whether a literal may be there.
    pub fn takes_literal(self, token: Token) -> bool
        ensures { result ≡ fits_word token (wanted_of self) }
    {
        match token {
            Token::Number => matches!(self, Want::Expression | Want::Number),
            Token::String => matches!(self, Want::Expression | Want::Text),
            Token::Index => matches!(self, Want::NameOrIndex),
            _ => false,
        }
    }

    /// Returns the cause of a fault if the text ends there.
    pub fn cause_at_end(self) -> Cause
        ensures { cause_text result ≡ expected_found (wanted_at_end (wanted_of self)) (codes "EOF") }
    {
        Cause::ExpectedAtEnd(self.wanted())
    }

    /// Returns the cause of a fault for a token that may not be there. The error is that memory is out.
    pub fn cause(self, alloc: Global, source: &str, found: Lexed) -> Result<Cause, AllocError>
        requires { LiesIn source.now found.span }
        ensures { IfOk result (λ cause. cause_text cause
            ≡ reason_for (wanted_of self) found.token (word_of source.now found.token found.span)) }
    {
        match found.token {
            Token::Keyword => self.keyword_cause(alloc, slice(source, found.span)),
            token => Ok(Cause::Expected(self.wanted(), token)),
        }
    }

    // The cause for a keyword that may not be there.
    fn keyword_cause(self, alloc: Global, word: &str) -> Result<Cause, AllocError>
        ensures { IfOk result (λ cause. cause_text cause ≡ reason_for_keyword (wanted_of self) word.now) }
    {
        match self {
            Want::Expression => Ok(Cause::UnexpectedKeyword(Name::from_str(alloc, word)?)),
            Want::BlockWord => Ok(Cause::UnexpectedKeyword(Name::from_str(alloc, word)?)),
            Want::In => {
                let found = Name::from_str(alloc, word)?;
                Ok(Cause::ExpectedKeyword(TagKeyword::In, found))
            }
            Want::As => {
                let found = Name::from_str(alloc, word)?;
                Ok(Cause::ExpectedKeyword(TagKeyword::As, found))
            }
            want => Ok(Cause::Expected(want.wanted(), Token::Keyword)),
        }
    }
}
