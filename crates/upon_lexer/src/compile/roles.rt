// What the kinds of delimiters have in common: what each begins or ends, and whether it has the hyphen.
ghost use Rattle.std.specs.Prelude.{◌≡◌};
ghost use Rattle.upon_language_spec.specs.Delimiters.{begin_token, end_token, has_hyphen};
ghost use Rattle.upon_lexer.specs.Roles.{sort_of, HasRole};

use upon_types::types::{Delimiter, Token};

/// What a delimiter opens or closes.
#[derive(Clone, Copy, PartialEq, Eq)]
pub enum Sort {
    /// An expression that is shown.
    Expr,
    /// A tag of a block.
    Block,
    /// A comment.
    Comment,
}

impl Sort {
    /// Returns the token of its begin.
    pub fn begin_token(self) -> Token
        ensures { result ≡ begin_token (sort_of self) }
    {
        match self {
            Sort::Expr => Token::BeginExpr,
            Sort::Block => Token::BeginBlock,
            Sort::Comment => Token::BeginComment,
        }
    }

    /// Returns the token of its end.
    pub fn end_token(self) -> Token
        ensures { result ≡ end_token (sort_of self) }
    {
        match self {
            Sort::Expr => Token::EndExpr,
            Sort::Block => Token::EndBlock,
            Sort::Comment => Token::EndComment,
        }
    }
}

/// What a delimiter does.
#[derive(Clone, Copy, PartialEq, Eq)]
pub enum Role {
    /// It begins one of this sort.
    Begin(Sort),
    /// It ends one of this sort.
    End(Sort),
}

/// Returns what a kind of delimiter does.
pub fn role_of(kind: Delimiter) -> Role
    ensures { HasRole kind result }
{
    match kind {
        Delimiter::BeginExpr | Delimiter::BeginExprTrim => Role::Begin(Sort::Expr),
        Delimiter::EndExpr | Delimiter::EndExprTrim => Role::End(Sort::Expr),
        Delimiter::BeginBlock | Delimiter::BeginBlockTrim => Role::Begin(Sort::Block),
        Delimiter::EndBlock | Delimiter::EndBlockTrim => Role::End(Sort::Block),
        Delimiter::BeginComment | Delimiter::BeginCommentTrim => Role::Begin(Sort::Comment),
        Delimiter::EndComment | Delimiter::EndCommentTrim => Role::End(Sort::Comment),
    }
}

/// Returns whether a kind of delimiter has the hyphen, which trims the raw part beside it.
pub fn has_hyphen(kind: Delimiter) -> bool
    ensures { result ≡ has_hyphen kind }
{
    matches!(
        kind,
        Delimiter::BeginExprTrim
            | Delimiter::EndExprTrim
            | Delimiter::BeginBlockTrim
            | Delimiter::EndBlockTrim
            | Delimiter::BeginCommentTrim
            | Delimiter::EndCommentTrim
    )
}
