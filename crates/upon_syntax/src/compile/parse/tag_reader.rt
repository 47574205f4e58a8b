// A whole tag of a text: its tokens from the lexer, what they are read to, and the fault where they are no tag.
ghost use Rattle.std.specs.Prelude.{◌≡◌, List, [], Some, None, IfOk, IfErr};
ghost use Rattle.upon_language_spec.specs.Delimiters.{expression, block};
ghost use Rattle.upon_lexer.specs.Lexers.{lexer_text};
ghost use Rattle.upon_language_spec.specs.Search.{DelimiterText};
ghost use Rattle.upon_syntax.specs.TagEnds.{TagEndLies, tag_end, KeepsText};
ghost use Rattle.upon_syntax.specs.TagFaults.{FirstLies, GoesNoFurther};
ghost use Rattle.upon_tag_parser.specs.TagParsing.{OnStuck};
ghost use Rattle.upon_syntax.specs.TagReading.{IsSyntaxError, ReadsInlineTag, ReadsBlockTag, RefusesTag};

use crate::compile::parse::tag_faults::{refuse, refuse_end};
use crate::compile::parse::tag_tokens::{Ended, read_tokens};
use std::alloc::{AllocError, Global};
use upon_compiler::types::program::Instr;
use upon_lexer::compile::lex::Lexer;
use upon_lexer::literal::Lexed;
use upon_tag_parser::compile::parse::path::{Failure, TagParser};
use upon_tag_parser::compile::parse::tag::Tag;
use upon_tag_parser::compile::parse::want::Want;
use upon_types::error::{Error, Result};
use upon_types::types::Span;

/// Reads tags; it keeps the room for their tokens.
#[derive(Drop)]
pub struct TagReader<'a> {
    alloc: Global,
    source: &'a str,
    tokens: Vec<Lexed>,
}

impl<'a> TagReader<'a> {
    ghost use Rattle.upon_tag_parser.specs.TagTokens.{lexemes_of};
    ghost use Rattle.upon_syntax.specs.TagReaders.{reader_text, reader_tokens};

    /// Creates a reader of the tags of a text.
    pub fn new(alloc: Global, source: &'a str) -> TagReader<'a>
        ensures { reader_text result ≡ source.now }
    {
        TagReader {
            alloc,
            source,
            tokens: Vec::new(alloc),
        }
    }

    /// Reads the inline tag whose begin was read, appends the instructions that show its expression, and returns where
    /// the whole tag is. The error reports the text's first fault, or that there was no memory; after it the
    /// instructions can be any.
    pub fn read_inline(
        &mut self,
        lexer: &mut Lexer,
        begin: Span,
        code: &mut Vec<Instr>,
    ) -> Result<Span>
        requires same { reader_text self.now ≡ lexer_text lexer.now }
        ensures tag { IfOk result
            (λ span. ReadsInlineTag self.new lexer.old lexer.new begin code.old.items code.new.items span) }
        ensures start { IfOk result (λ span. span.m ≡ begin.m) }
        ensures fault { IfErr result (RefusesTag lexer.old expression begin) }
        ensures keeps { KeepsText lexer.old lexer.new }
        ensures reader { reader_text self.new ≡ reader_text self.old }
    {
        let ended = read_tokens(self.source, lexer, &mut self.tokens)?;
        match self.parser().parse_inline_tag(&self.tokens, code) {
            Ok(()) => {
                let end = end_of(self.alloc, self.source, Want::EndExpr, ended)?;
                Ok(Span { m: begin.m, n: end })
            }
            Err(failure) => Err(refuse_failure(self.alloc, self.source, failure, ended)),
        }
    }

    /// Returns the tag of a block whose begin was read, and where the whole tag is, and appends the instructions that
    /// leave the value of its expression, if it has one. The error reports the text's first fault, or that there was
    /// no memory; after it the instructions can be any.
    pub fn read_block(
        &mut self,
        lexer: &mut Lexer,
        begin: Span,
        code: &mut Vec<Instr>,
    ) -> Result<(Tag, Span)>
        requires same { reader_text self.now ≡ lexer_text lexer.now }
        ensures tag { IfOk result
            (λ r. ReadsBlockTag self.new lexer.old lexer.new begin code.old.items code.new.items r.0 r.1) }
        ensures start { IfOk result (λ r. r.1.m ≡ begin.m) }
        ensures fault { IfErr result (RefusesTag lexer.old block begin) }
        ensures keeps { KeepsText lexer.old lexer.new }
        ensures reader { reader_text self.new ≡ reader_text self.old }
    {
        let ended = read_tokens(self.source, lexer, &mut self.tokens)?;
        match self.parser().parse_block_tag(&self.tokens, code) {
            Ok(tag) => match end_of(self.alloc, self.source, Want::EndBlock, ended) {
                Ok(end) => Ok((tag, Span { m: begin.m, n: end })),
                // What was read is dropped by a call, not part by part: a proof of that is several times as long.
                Err(error) => {
                    drop(tag);
                    Err(error)
                }
            },
            Err(failure) => Err(refuse_failure(self.alloc, self.source, failure, ended)),
        }
    }

    /// Returns the tokens of the tag that was read last, between its begin and its end.
    pub fn tokens(&self) -> &[Lexed]
        ensures { lexemes_of result.now ≡ reader_tokens self.now }
    {
        &self.tokens
    }

    // The parser of the tokens.
    fn parser(&self) -> TagParser<'a>
        ensures { result.source.now ≡ reader_text self.now }
    {
        TagParser {
            alloc: self.alloc,
            source: self.source,
        }
    }
}

// Where the tag ends, while this is wanted and no token is left; or the error that it does not end there.
fn end_of(alloc: Global, source: &str, want: Want, ended: Ended) -> Result<usize>
    requires { TagEndLies source.now ended }
    ensures end { IfOk result (λ n. (l : Lexed) × (tag_end ended ≡ Some l) × (n ≡ l.span.n)) }
    ensures fault { IfErr result (λ e. (delimiters : List DelimiterText)
        → (tag_end ended ≡ None → GoesNoFurther delimiters source.now want [] ended)
        → IsSyntaxError delimiters source.now e) }
{
    match ended.tag_end() {
        Some(end) => Ok(end.span.n),
        None => Err(refuse_end(alloc, source, want, ended)),
    }
}

// The error for a tag whose tokens were not read to the end.
fn refuse_failure(alloc: Global, source: &str, failure: Failure, ended: Ended) -> Error
    requires failure { OnStuck failure (λ _ left. FirstLies source.now left) }
    requires ended { TagEndLies source.now ended }
    ensures { (delimiters : List DelimiterText)
        → OnStuck failure.entry (λ want left. GoesNoFurther delimiters source.now want left ended)
        → IsSyntaxError delimiters source.now result }
{
    match failure {
        Failure::Memory => Error::from(AllocError),
        Failure::Stuck(want, left) => refuse(alloc, source, want, left, ended),
    }
}
