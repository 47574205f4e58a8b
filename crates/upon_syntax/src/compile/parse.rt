// From a template's text to its program, and to its tree.
ghost use Rattle.std.specs.Prelude.{◌≡◌, IfOk, IfErr};
ghost use Rattle.upon_types.specs.Tree.{Statements};
ghost use Rattle.upon_types.specs.Error.{fault_of};
ghost use Rattle.upon_types.specs.Fault.{syntax};
ghost use Rattle.upon_language_spec.specs.Grammar.{HasTree};
ghost use Rattle.upon_tree.specs.Ast.{tree_of};
ghost use Rattle.upon_delimiters.specs.Searcher.{searcher_delimiters};
ghost use Rattle.upon_machine_spec.specs.Code.{program_of};
ghost use Rattle.upon_compiler.specs.Program.{program_view};
ghost use Rattle.upon_syntax.specs.TagReading.{IsSyntaxError};

mod comment_fault;
mod fault;
pub mod open_blocks;
pub mod piece;
pub mod piece_reader;
pub mod program;
pub mod tag_faults;
pub mod tag_reader;
pub mod tag_tokens;
mod tell;

use crate::compile::parse::program::{read_program, read_tree};
use std::alloc::Global;
use upon_compiler::types::program::Instr;
use upon_delimiters::search::Searcher;
pub use upon_lexer::{literal, literal_fault};
pub use upon_tag_parser::compile::parse::{base, expression, list, path, scalar, tag, want};
use upon_tree::ast::Template;
use upon_types::error::Result;

/// Parses a template's text.
#[derive(Drop)]
pub struct Parser<'a> {
    alloc: Global,
    searcher: &'a Searcher,
    source: &'a str,
}

impl<'a> Parser<'a> {
    ghost use Rattle.upon_syntax.specs.Parsed.{source_of, syntax_of, IsParsedProgram};

    /// Creates a parser for a text, over the delimiters of a searcher.
    pub fn new(alloc: Global, searcher: &'a Searcher, source: &'a str) -> Parser<'a>
        ensures source { source_of result ≡ source.now }
        ensures syntax { syntax_of result ≡ searcher_delimiters searcher.now }
    {
        Parser {
            alloc,
            searcher,
            source,
        }
    }

    /// Returns the program of the text's tree. A text that has none is refused: the error reports its first fault, at
    /// its span. If memory is out, the error says that.
    pub fn compile_template(self) -> Result<Vec<Instr>>
        ensures program { IfOk result (λ code. IsParsedProgram (syntax_of self.entry) (source_of self.entry)
            code.items) }
        ensures only_tree { IfOk result
            (λ code. (tree : Statements)
            → HasTree (syntax_of self.entry) (source_of self.entry) tree → program_view code.items ≡ program_of tree) }
        ensures fault { IfErr result (IsSyntaxError (syntax_of self.entry) (source_of self.entry)) }
        ensures no_tree { IfErr result
            (λ e. (fault_of e).kind ≡ syntax
            → (tree : Statements) → HasTree (syntax_of self.entry) (source_of self.entry) tree → ⊥) }
    {
        read_program(self.alloc, self.searcher, self.source)
    }

    /// Returns the text's tree, with its spans and parentheses. A text that has none is refused: the error reports its
    /// first fault, at its span, as that of `compile_template` does. If memory is out, the error says that.
    pub fn parse_template(self) -> Result<Template>
        ensures tree { IfOk result
            (λ template. HasTree (syntax_of self.entry) (source_of self.entry) (tree_of template)) }
        ensures only_tree { IfOk result (λ template. (tree : Statements)
            → HasTree (syntax_of self.entry) (source_of self.entry) tree → tree ≡ tree_of template) }
        ensures fault { IfErr result (IsSyntaxError (syntax_of self.entry) (source_of self.entry)) }
        ensures no_tree { IfErr result
            (λ e. (fault_of e).kind ≡ syntax
            → (tree : Statements) → HasTree (syntax_of self.entry) (source_of self.entry) tree → ⊥) }
    {
        read_tree(self.alloc, self.searcher, self.source)
    }
}
