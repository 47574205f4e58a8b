// From a template's text to its program, or to its tree, in one loop over its pieces: the compiler is told of each, or
// a builder of a tree.
ghost use Rattle.std.specs.Prelude.{◌≡◌, true, false, IfOk, IfErr};
ghost use Rattle.upon_language_spec.specs.Grammar.{HasTree};
ghost use Rattle.upon_delimiters.specs.Searcher.{searcher_delimiters};
ghost use Rattle.upon_tree.specs.Ast.{tree_of};
ghost use Rattle.upon_tree.specs.Statements.{builder_state, nothing_read};
ghost use Rattle.upon_syntax.specs.Parsed.{IsParsedProgram};
ghost use Rattle.upon_syntax.specs.TagReading.{IsSyntaxError};
ghost use Rattle.upon_syntax.specs.TreeTold.{HasBuiltText};

use crate::compile::parse::piece_reader::{Next, PieceReader};
use crate::compile::parse::tell::{tell, tell_tree};
use std::alloc::Global;
use upon_compiler::compile::Compiler;
use upon_compiler::types::program::Instr;
use upon_delimiters::search::Searcher;
use upon_tag_parser::compile::parse::path::TagParser;
use upon_tree::ast::Template;
use upon_tree::expression::TreeReader;
use upon_tree::statements::TreeBuilder;
use upon_types::error::Result;

/// Returns the program of a text, over the delimiters of a searcher. A text that has no tree is refused: the error
/// reports its first fault. If memory is out, the error says that.
pub fn read_program(alloc: Global, searcher: &Searcher, source: &str) -> Result<Vec<Instr>>
    ensures program { IfOk result (λ code. IsParsedProgram (searcher_delimiters searcher.now) source.now code.items) }
    ensures fault { IfErr result (IsSyntaxError (searcher_delimiters searcher.now) source.now) }
{
    let mut unused = TreeBuilder::new(alloc);
    read_pieces(alloc, searcher, source, false, &mut unused)
}

/// Returns the tree of a text, over the delimiters of a searcher. A text that has no tree is refused: the error reports
/// its first fault. If memory is out, the error says that.
pub fn read_tree(alloc: Global, searcher: &Searcher, source: &str) -> Result<Template>
    ensures tree { IfOk result (λ template. HasTree (searcher_delimiters searcher.now) source.now (tree_of template)) }
    ensures fault { IfErr result (IsSyntaxError (searcher_delimiters searcher.now) source.now) }
{
    let mut builder = TreeBuilder::new(alloc);
    read_pieces(alloc, searcher, source, true, &mut builder)?;
    Ok(builder.finish())
}

// Goes over the pieces of a text. Where a tree is wanted, the builder is told of them, and the program is empty. There
// is one loop for both, and one call of what reads a piece: beside a second one, compiling took a tenth more
// instructions.
fn read_pieces(
    alloc: Global,
    searcher: &Searcher,
    source: &str,
    is_tree: bool,
    builder: &mut TreeBuilder,
) -> Result<Vec<Instr>>
    requires { builder_state builder.now ≡ nothing_read }
    ensures program { is_tree ≡ false
        → IfOk result (λ code. IsParsedProgram (searcher_delimiters searcher.now) source.now code.items) }
    ensures tree { is_tree ≡ true
        → IfOk result (λ _. HasBuiltText (searcher_delimiters searcher.now) source.now builder.new) }
    ensures fault { IfErr result (IsSyntaxError (searcher_delimiters searcher.now) source.now) }
{
    let mut reader = PieceReader::new(alloc, searcher, source);
    let mut compiler = Compiler::new(alloc);
    let mut code = Vec::new(alloc);
    let parser = TagParser { alloc, source };
    let trees = TreeReader { parser };
    'pieces: loop {
        match reader.next(&mut code)? {
            Next::OnePiece(piece) if is_tree => {
                tell_tree(builder, piece, &trees, reader.tag_tokens())?;
                code.clear();
            }
            Next::OnePiece(piece) => tell(&mut compiler, piece, &mut code)?,
            Next::Comment => {}
            Next::End => return Ok(compiler.finish()),
        }
    }
}
