// The error of a tag whose tokens go no further: the text's first fault.
ghost use Rattle.std.specs.Prelude.{◌≡◌, List, [], length, true, false, codes};
ghost use Rattle.upon_types.specs.Error.{fault_of};
ghost use Rattle.upon_types.specs.Fault.{OrMemory};
ghost use Rattle.upon_types.specs.Span.{LiesIn};
ghost use Rattle.upon_language_spec.specs.Search.{DelimiterText};
ghost use Rattle.upon_language_spec.specs.Faults.{span_of};
ghost use Rattle.upon_language_spec.specs.Wanted.{wanted_at_end, expected_found};
ghost use Rattle.upon_language_spec.specs.LiteralWords.{fits_word};
ghost use Rattle.upon_lexer.specs.LiteralReasons.{literal_reason};
ghost use Rattle.upon_tag_parser.specs.Wants.{wanted_of};
ghost use Rattle.upon_syntax.specs.TagReading.{IsSyntaxError};
ghost use Rattle.upon_syntax.specs.TagEnds.{syntax_fault, TagEndLies};
ghost use Rattle.upon_syntax.specs.TagFaults.{FirstLies, token_fault, GoesNoFurther};

use crate::compile::parse::fault::syntax_error;
use crate::compile::parse::tag_tokens::Ended;
use std::alloc::Global;
use upon_lexer::literal::Lexed;
use upon_lexer::literal_fault::Refusal;
use upon_tag_parser::compile::parse::path::next_token;
use upon_tag_parser::compile::parse::want::Want;
use upon_types::error::Error;
use upon_types::types::Span;

/// Returns the error if the tokens of a tag go no further, while this is wanted and these tokens are left.
pub fn refuse(alloc: Global, source: &str, want: Want, left: &[Lexed], ended: Ended) -> Error
    requires left { FirstLies source.now left.now }
    requires ended { TagEndLies source.now ended }
    ensures { (delimiters : List DelimiterText) → GoesNoFurther delimiters source.now want left.now ended
        → IsSyntaxError delimiters source.now result }
{
    match next_token(left) {
        Some((found, _)) => refuse_token(alloc, source, want, found),
        None => refuse_end(alloc, source, want, ended),
    }
}

/// Does the same if no token is left.
pub fn refuse_end(alloc: Global, source: &str, want: Want, ended: Ended) -> Error
    requires { TagEndLies source.now ended }
    ensures { (delimiters : List DelimiterText) → GoesNoFurther delimiters source.now want [] ended
        → IsSyntaxError delimiters source.now result }
{
    match ended {
        Ended::End(found) => refuse_token(alloc, source, want, found),
        Ended::Fault(e) => e,
        Ended::Literal(found, refusal) => refuse_literal(alloc, source, want, found, refusal),
        Ended::Eof => refuse_eof(alloc, source, want),
    }
}

// The error for a token that may not be there.
fn refuse_token(alloc: Global, source: &str, want: Want, found: Lexed) -> Error
    requires { LiesIn source.now found.span }
    ensures { OrMemory (token_fault source.now (wanted_of want) found) (fault_of result) }
{
    match want.cause(alloc, source, found) {
        Ok(cause) => syntax_error(alloc, source, found.span, cause),
        Err(e) => e.into(),
    }
}

// The error for a literal that denotes nothing: that it does, where it may be there.
fn refuse_literal(alloc: Global, source: &str, want: Want, found: Lexed, refusal: Refusal) -> Error
    requires span { LiesIn source.now found.span }
    requires refusal { LiesIn source.now refusal.span }
    ensures fits { fits_word found.token (wanted_of want) ≡ true
        → OrMemory (syntax_fault source.now refusal.span (literal_reason refusal.fault)) (fault_of result) }
    ensures other { fits_word found.token (wanted_of want) ≡ false
        → OrMemory (token_fault source.now (wanted_of want) found) (fault_of result) }
{
    if want.takes_literal(found.token) {
        syntax_error(alloc, source, refusal.span, refusal.fault.cause())
    } else {
        refuse_token(alloc, source, want, found)
    }
}

// The error for the end of the text.
fn refuse_eof(alloc: Global, source: &str, want: Want) -> Error
    ensures { OrMemory
        (syntax_fault
        source.now
        (span_of (length source.now) (length source.now))
        (expected_found (wanted_at_end (wanted_of want)) (codes "EOF")))
        (fault_of result) }
{
    let end = Span {
        m: source.len(),
        n: source.len(),
    };
    syntax_error(alloc, source, end, want.cause_at_end())
}
