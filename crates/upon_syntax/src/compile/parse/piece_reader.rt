// From piece to piece through a template's text: raw parts, comments, tags.
ghost use Rattle.std.specs.Prelude.{◌≡◌, ℕ, List, [], ◌∷◌, ◌++◌, length, codes, IfOk, IfErr};
ghost use Rattle.std.specs.Str.{IsUtf8};
ghost use Rattle.upon_types.specs.Span.{LiesIn};
ghost use Rattle.upon_types.specs.Error.{fault_of};
ghost use Rattle.upon_types.specs.Fault.{OrMemory};
ghost use Rattle.upon_types.specs.declared.types.token.Token.TheVariants.{BeginExpr, BeginBlock};
ghost use Rattle.upon_types.specs.BlockKinds.{block_word};
ghost use Rattle.upon_language_spec.specs.Blocks.{closer_words};
ghost use Rattle.upon_language_spec.specs.Cut.{Lexeme};
ghost use Rattle.upon_language_spec.specs.Faults.{span_of};
ghost use Rattle.upon_language_spec.specs.Lexing.{LexerState};
ghost use Rattle.upon_language_spec.specs.Wanted.{in_quotes};
ghost use Rattle.upon_lexer.specs.Lexers.{lexer_text};
ghost use Rattle.upon_delimiters.specs.Searcher.{searcher_delimiters};
ghost use Rattle.upon_types.specs.BlockKinds.{block_kind};
ghost use Rattle.upon_tag_parser.specs.TagTokens.{lexemes_of};
ghost use Rattle.upon_syntax.specs.CommentReasons.{comment_reason};
ghost use Rattle.upon_syntax.specs.OpenBlocks.{closer_view};
ghost use Rattle.upon_syntax.specs.declared.compile.parse.piece.Piece.TheVariants.{InlineExpr, Block};
ghost use Rattle.upon_syntax.specs.TagEnds.{syntax_fault};
ghost use Rattle.upon_syntax.specs.TagReaders.{reader_text};

use crate::compile::parse::comment_fault::CommentFault;
use crate::compile::parse::fault::syntax_error;
use crate::compile::parse::open_blocks::{OpenBlock, OpenBlocks};
use crate::compile::parse::piece::Piece;
use crate::compile::parse::tag_reader::TagReader;
use std::alloc::Global;
use upon_compiler::types::program::Instr;
use upon_delimiters::search::Searcher;
use upon_lexer::compile::lex::Lexer;
use upon_lexer::literal::Lexed;
use upon_tag_parser::compile::parse::tag::Tag;
use upon_types::error::cause::Cause;
use upon_types::error::{Error, Result};
use upon_types::types::block::Closing;
use upon_types::types::{Span, Token};

/// What a reader finds next.
#[derive(Drop)]
pub enum Next {
    /// A piece.
    OnePiece(Piece),
    /// A comment, which leaves nothing.
    Comment,
    /// The text's end, if no block is open.
    End,
}

/// Reads the pieces of a text, and keeps the blocks that are open.
#[derive(Drop)]
pub struct PieceReader<'a> {
    alloc: Global,
    source: &'a str,
    lexer: Lexer<'a>,
    tags: TagReader<'a>,
    blocks: OpenBlocks,
    ghost is_text: { ∥ IsUtf8 source.now ∥₁ },
    ghost same_text: { lexer_text lexer ≡ source.now },
    ghost same_tags: { reader_text tags ≡ source.now },
}

impl<'a> PieceReader<'a> {
    ghost use Rattle.upon_syntax.specs.PieceReading.{text_of_reader, pieces_delimiters, pieces_state, pieces_blocks, pieces_tokens, Pieces, KeepsReading, IsBetween, IsGivenTo, ReadsPiece, ReadsFound, HasBegunComment, IsInComment, HasPassedEnd, HasPassedComment, HasFound, FindsNext, RefusesPieces};

    /// Creates a reader at the start of a text, over the delimiters of a searcher.
    pub fn new(alloc: Global, searcher: &'a Searcher, source: &'a str) -> PieceReader<'a>
        ensures text { text_of_reader result ≡ source.now }
        ensures delimiters { pieces_delimiters result ≡ searcher_delimiters searcher.now }
        ensures start { HasFound result [] }
    {
        PieceReader {
            alloc,
            source,
            lexer: Lexer::new(alloc, searcher, source),
            tags: TagReader::new(alloc, source),
            blocks: OpenBlocks::new(alloc),
        }
    }

    /// Returns the next piece or comment, or the text's end, and appends the instructions of the piece's expression.
    /// The error reports the text's first fault, or that memory is out; after it the instructions can be any.
    pub fn next(&mut self, code: &mut Vec<Instr>) -> Result<Next>
        requires so_far { (found : Pieces) × HasFound self.old found }
        ensures found { IfOk result (λ next. (found : Pieces)
            → HasFound self.old found
            → FindsNext self.old self.new found code.old.items code.new.items next) }
        ensures fault { IfErr result (RefusesPieces self.old) }
        ensures keeps { KeepsReading self.old self.new }
    {
        let given = self.lexer.next()?;
        match given {
            None => {
                self.all_closed()?;
                Ok(Next::End)
            }
            Some((token, span)) => match self.read_piece(token, span, code)? {
                Some(piece) => Ok(Next::OnePiece(piece)),
                None => Ok(Next::Comment),
            },
        }
    }

    /// Returns the tokens of the tag that was read last, between its begin and its end.
    pub fn tag_tokens(&self) -> &[Lexed]
        ensures { lexemes_of result.now ≡ pieces_tokens self.now }
    {
        self.tags.tokens()
    }

    // The piece that a token begins, or none for a comment.
    fn read_piece(
        &mut self,
        token: Token,
        span: Span,
        code: &mut Vec<Instr>,
    ) -> Result<Option<Piece>>
        requires given { (before : LexerState) × (ls : List Lexeme) × IsGivenTo self.old before ls token span }
        ensures piece { IfOk result (λ piece. (before : LexerState) (ls : List Lexeme)
            → IsGivenTo self.old before ls token span
            → ReadsFound self.old self.new before ls code.old.items code.new.items piece) }
        ensures fault { IfErr result (RefusesPieces self.old) }
        ensures keeps { KeepsReading self.old self.new }
    {
        match token {
            Token::BeginComment => {
                self.pass_comment()?;
                Ok(None)
            }
            Token::BeginExpr => Ok(Some(Piece::InlineExpr(self.read_inline(span, code)?))),
            Token::BeginBlock => Ok(Some(Piece::Block(self.read_block(span, code)?))),
            _ => Ok(Some(Piece::Raw(span))),
        }
    }

    // The inline tag whose begin was read.
    fn read_inline(&mut self, begin: Span, code: &mut Vec<Instr>) -> Result<Span>
        requires given { (before : LexerState) × (ls : List Lexeme) × IsGivenTo self.old before ls BeginExpr begin }
        ensures tag { IfOk result (λ span. (before : LexerState) (ls : List Lexeme)
            → IsGivenTo self.old before ls BeginExpr begin
            → ReadsPiece self.old self.new before ls code.old.items code.new.items (InlineExpr span)) }
        ensures fault { IfErr result (RefusesPieces self.old) }
        ensures keeps { KeepsReading self.old self.new }
    {
        self.tags.read_inline(&mut self.lexer, begin, code)
    }

    // The tag of a block whose begin was read: the innermost open block takes it, where it closes one.
    fn read_block(&mut self, begin: Span, code: &mut Vec<Instr>) -> Result<Tag>
        requires given { (before : LexerState) × (ls : List Lexeme) × IsGivenTo self.old before ls BeginBlock begin }
        ensures tag { IfOk result (λ tag. (before : LexerState) (ls : List Lexeme)
            → IsGivenTo self.old before ls BeginBlock begin
            → ReadsPiece self.old self.new before ls code.old.items code.new.items (Block tag)) }
        ensures fault { IfErr result (RefusesPieces self.old) }
        ensures keeps { KeepsReading self.old self.new }
    {
        let (tag, span) = self.tags.read_block(&mut self.lexer, begin, code)?;
        match self.blocks.pass(&tag, span) {
            Ok(untaken) => match untaken {
                None => Ok(tag),
                // Dropped by a call, here and below, as in `TagReader::read_block`.
                Some(closer) => {
                    drop(tag);
                    Err(self.unexpected(closer, span))
                }
            },
            Err(error) => {
                drop(tag);
                Err(Error::from(error))
            }
        }
    }

    // Goes past a comment whose begin was read.
    fn pass_comment(&mut self) -> Result<()>
        ensures passes { IfOk result
            (λ _. (ls : List Lexeme) → HasBegunComment self.old ls → HasPassedComment self.old self.new ls) }
        ensures fault { IfErr result
            (λ e. (ls : List Lexeme) → HasBegunComment self.old ls → RefusesPieces self.old e) }
        ensures keeps { KeepsReading self.old self.new }
        ensures blocks { pieces_blocks self.new ≡ pieces_blocks self.old }
    {
        let inside = self.lexer.next()?;
        match inside {
            None => Err(self.refusal(CommentFault::BeginAtEnd, self.end())),
            Some((token, span)) => {
                if matches!(token, Token::EndComment) {
                    return Err(self.refusal(CommentFault::Empty, span));
                }
                self.pass_comment_end()
            }
        }
    }

    // Goes past the end of a comment whose raw part was read.
    fn pass_comment_end(&mut self) -> Result<()>
        ensures passes { IfOk result
            (λ _. (ls : List Lexeme) → IsInComment self.old ls → HasPassedEnd self.old self.new ls) }
        ensures fault { IfErr result (λ e. (ls : List Lexeme) → IsInComment self.old ls → RefusesPieces self.old e) }
        ensures keeps { KeepsReading self.old self.new }
        ensures blocks { pieces_blocks self.new ≡ pieces_blocks self.old }
    {
        let end = self.lexer.next()?;
        match end {
            None => Err(self.refusal(CommentFault::Unclosed, self.end())),
            Some(_) => Ok(()),
        }
    }

    // No block is open at the text's end.
    fn all_closed(&self) -> Result<()>
        requires between { (ls : List Lexeme) × IsBetween self.now ls }
        requires eof { (pieces_state self.now).offset ≡ length (text_of_reader self.now) }
        ensures closed { IfOk result (λ _. pieces_blocks self.now ≡ []) }
        ensures fault { IfErr result (RefusesPieces self.now) }
    {
        match self.blocks.outermost() {
            None => Ok(()),
            Some(block) => Err(self.unclosed(block)),
        }
    }

    // The error for a block that is open at the text's end.
    fn unclosed(&self, block: OpenBlock) -> Error
        requires { LiesIn (text_of_reader self.now) block.span }
        ensures { OrMemory
            (syntax_fault
            (text_of_reader self.now)
            block.span
            (codes "unclosed " ++ (in_quotes (block_word (block_kind block.kind)) ++ codes " block")))
            (fault_of result) }
    {
        let cause = Cause::UnclosedBlock(block.kind);
        syntax_error(self.alloc, self.source, block.span, cause)
    }

    // The error for a closing tag that the innermost open block does not take.
    fn unexpected(&self, closer: Closing, span: Span) -> Error
        requires { LiesIn (text_of_reader self.now) span }
        ensures { OrMemory
            (syntax_fault
            (text_of_reader self.now)
            span
            (codes "unexpected " ++ (in_quotes (closer_words (closer_view closer)) ++ codes " block")))
            (fault_of result) }
    {
        syntax_error(
            self.alloc,
            self.source,
            span,
            Cause::UnexpectedBlock(closer),
        )
    }

    // The error for a comment that the text does not go on with.
    fn refusal(&self, fault: CommentFault, span: Span) -> Error
        requires { LiesIn (text_of_reader self.now) span }
        ensures { OrMemory (syntax_fault (text_of_reader self.now) span (comment_reason fault)) (fault_of result) }
    {
        syntax_error(self.alloc, self.source, span, fault.cause())
    }

    // The text's end.
    fn end(&self) -> Span
        ensures end { result ≡ span_of (length (text_of_reader self.now)) (length (text_of_reader self.now)) }
        ensures span { LiesIn (text_of_reader self.now) result }
    {
        let n = self.source.len();
        Span { m: n, n }
    }
}
