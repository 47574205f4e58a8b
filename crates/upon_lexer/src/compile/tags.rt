// The tag that is open, and what a token does to it.
ghost use Rattle.std.specs.Prelude.{◌≡◌, ◌&&◌, true, false};
ghost use Rattle.upon_language_spec.specs.Cut.{mode_after, same_mode};
ghost use Rattle.upon_language_spec.specs.Inside.{in_path_after};
ghost use Rattle.upon_language_spec.specs.Shown.{is_end};
ghost use Rattle.upon_language_spec.specs.Tokens.{is_space};
ghost use Rattle.upon_lexer.specs.OpenTags.{mode_of, begin_of};
ghost use Rattle.upon_language_spec.specs.LexStep.{begin_after};

use crate::compile::roles::Sort;
use upon_types::types::{Span, Token};

/// A tag or a comment that was begun: its sort, where its begin is, in bytes, and whether a digit begins an index
/// there.
#[derive(Clone, Copy)]
pub struct OpenTag {
    pub sort: Sort,
    pub begin: Span,
    pub in_path: bool,
}

impl OpenTag {
    // A tag that has just begun.
    fn new(sort: Sort, begin: Span) -> OpenTag
        ensures sort { result.sort ≡ sort }
        ensures begin { result.begin ≡ begin }
        ensures in_path { result.in_path ≡ false }
    {
        OpenTag {
            sort,
            begin,
            in_path: false,
        }
    }
}

/// Goes past a token at an offset: a tag may be open after it.
pub fn pass_token(tag: &mut Option<OpenTag>, token: Token, span: Span)
    ensures mode { mode_of tag.new ≡ mode_after (mode_of tag.old) token }
    ensures begin { begin_of tag.new ≡ begin_after token span (begin_of tag.old) }
{
    match token {
        Token::BeginExpr => *tag = Some(OpenTag::new(Sort::Expr, span)),
        Token::BeginBlock => *tag = Some(OpenTag::new(Sort::Block, span)),
        Token::BeginComment => *tag = Some(OpenTag::new(Sort::Comment, span)),
        Token::EndExpr | Token::EndBlock | Token::EndComment => *tag = None,
        _ => pass_inner(tag, token),
    }
}

/// Goes past a token that begins and ends no tag.
pub fn pass_inner(tag: &mut Option<OpenTag>, token: Token)
    ensures mode { mode_of tag.new ≡ same_mode (mode_of tag.old) token }
    ensures begin { begin_of tag.new ≡ begin_of tag.old }
{
    if let Some(tag) = tag {
        tag.in_path = path_after(tag.in_path, token);
    }
}

// Whether a digit after a token begins an index.
fn path_after(in_path: bool, token: Token) -> bool
    ensures { result ≡ in_path_after in_path token }
{
    match token {
        Token::Ident | Token::Dot | Token::QuestionDot => true,
        Token::OpenParen | Token::Pipe | Token::Comma | Token::Colon | Token::Keyword => false,
        _ => in_path,
    }
}

/// Returns whether a token is whitespace inside a tag.
pub fn is_space(token: Token) -> bool
    ensures { result ≡ is_space token }
{
    matches!(token, Token::Whitespace)
}

/// Returns whether a token is an end with the hyphen.
pub fn end_trims(token: Token, hyphen: bool) -> bool
    ensures { result ≡ (is_end token && hyphen) }
{
    hyphen && matches!(token, Token::EndExpr | Token::EndBlock | Token::EndComment)
}
