// What a compiler is told of a piece of a template, and what a builder of a tree.
ghost use Rattle.std.specs.Prelude.{◌≡◌, [], IfOk, OnOk};
ghost use Rattle.upon_types.specs.Expression.{Expression};
ghost use Rattle.upon_compiler.specs.After.{after_event};
ghost use Rattle.upon_compiler.specs.Compiler.{compiler_state};
ghost use Rattle.upon_compiler.specs.Events.{end_event};
ghost use Rattle.upon_compiler.specs.Program.{program_view};
ghost use Rattle.upon_tag_parser.specs.BlockTags.{BlockTag, Keeps, tag_code};
ghost use Rattle.upon_types.specs.BlockKinds.{block_kind};
ghost use Rattle.upon_tag_parser.specs.TagTokens.{lexemes_of};
ghost use Rattle.upon_tree.specs.AstExpression.{expression_tree};
ghost use Rattle.upon_tree.specs.Opened.{tree_reader_text};
ghost use Rattle.upon_tree.specs.Statements.{builder_state};
ghost use Rattle.upon_syntax.specs.Pieces.{TemplatePiece, KeepsPiece, HoldsPiece, block_piece, piece_code};
ghost use Rattle.upon_syntax.specs.TagExpressions.{HasExpressionAfter};
ghost use Rattle.upon_syntax.specs.TreeTold.{tree_after, tree_after_tag};
ghost use Rattle.upon_syntax.specs.Told.{event_of, tag_event};

use crate::compile::parse::piece::Piece;
use std::alloc::AllocError;
use upon_compiler::compile::Compiler;
use upon_compiler::types::program::Instr;
use upon_lexer::literal::Lexed;
use upon_tag_parser::compile::parse::kind::Opening;
use upon_tag_parser::compile::parse::tag::Tag;
use upon_tree::ast::Expr;
use upon_tree::expression::TreeReader;
use upon_tree::statements::TreeBuilder;
use upon_types::types::block::BlockKind;

/// Tells a compiler of a piece, whose expression has these instructions if it has one, and leaves none of them
/// behind. It fails if memory is out.
pub(crate) fn tell(
    compiler: &mut Compiler,
    piece: Piece,
    code: &mut Vec<Instr>,
) -> Result<(), AllocError>
    ensures state { (told : TemplatePiece) → KeepsPiece piece told → program_view code.old.items ≡ piece_code told
        → OnOk result (compiler_state compiler.new ≡ after_event (event_of told) (compiler_state compiler.old)) }
    ensures moved { (told : TemplatePiece) → KeepsPiece piece told → program_view code.old.items ≡ piece_code told
        → OnOk result (code.new.items ≡ []) }
{
    match piece {
        Piece::Raw(span) => compiler.raw(span),
        Piece::InlineExpr(_) => compiler.shown(code),
        Piece::Block(tag) => tell_tag(compiler, tag, code),
    }
}

// Does the same for a tag of a block.
fn tell_tag(compiler: &mut Compiler, tag: Tag, code: &mut Vec<Instr>) -> Result<(), AllocError>
    ensures state { (told : BlockTag) → Keeps tag told → program_view code.old.items ≡ tag_code told
        → OnOk result (compiler_state compiler.new ≡ after_event (tag_event told) (compiler_state compiler.old)) }
    ensures moved { (told : BlockTag) → Keeps tag told → program_view code.old.items ≡ tag_code told
        → OnOk result (code.new.items ≡ []) }
{
    match tag {
        Tag::If(not) => compiler.begin_if(code, not),
        Tag::ElseIf(not) => compiler.else_if(code, not),
        Tag::Else => compiler.begin_else(),
        Tag::For(vars, span) => compiler.begin_for(code, vars, span),
        Tag::With(name) => compiler.begin_with(code, name),
        Tag::End(kind) => tell_end(compiler, kind),
        Tag::Include(name) => compiler.include(name),
        Tag::IncludeWith(name) => compiler.include_with(code, name),
    }
}

// Tells it of the last tag of a block.
fn tell_end(compiler: &mut Compiler, kind: BlockKind) -> Result<(), AllocError>
    ensures { OnOk result (compiler_state compiler.new
        ≡ after_event (end_event (block_kind kind)) (compiler_state compiler.old)) }
{
    match kind {
        BlockKind::If => {
            compiler.end_if();
            Ok(())
        }
        BlockKind::For => compiler.end_for(),
        BlockKind::With => compiler.end_with(),
    }
}

/// Tells a builder of a tree of a piece: if it is a tag, of these tokens. It fails if memory is out.
pub(crate) fn tell_tree(
    builder: &mut TreeBuilder,
    piece: Piece,
    trees: &TreeReader,
    tokens: &[Lexed],
) -> Result<(), AllocError>
    requires { (told : TemplatePiece) × KeepsPiece piece told
        × HoldsPiece (tree_reader_text trees.now) told (lexemes_of tokens.now) }
    ensures { (told : TemplatePiece) → KeepsPiece piece told
        → HoldsPiece (tree_reader_text trees.now) told (lexemes_of tokens.now)
        → OnOk result (builder_state builder.new ≡ tree_after told (builder_state builder.old)) }
{
    match piece {
        Piece::Raw(span) => builder.raw(span),
        Piece::InlineExpr(span) => builder.inline_expr(expression_after(trees, 0, tokens)?, span),
        Piece::Block(tag) => tell_tree_tag(builder, tag, trees, tokens),
    }
}

// Does the same for a tag of a block.
fn tell_tree_tag(
    builder: &mut TreeBuilder,
    tag: Tag,
    trees: &TreeReader,
    tokens: &[Lexed],
) -> Result<(), AllocError>
    requires { (told : BlockTag) × Keeps tag told
        × HoldsPiece (tree_reader_text trees.now) (block_piece told) (lexemes_of tokens.now) }
    ensures { (told : BlockTag) → Keeps tag told
        → HoldsPiece (tree_reader_text trees.now) (block_piece told) (lexemes_of tokens.now)
        → OnOk result (builder_state builder.new ≡ tree_after_tag told (builder_state builder.old)) }
{
    let count = tag.tokens_before_expression();
    match tag {
        Tag::If(not) => builder.begin(Opening::If(not), expression_after(trees, count, tokens)?),
        Tag::ElseIf(not) => builder.else_if(not, expression_after(trees, count, tokens)?),
        Tag::Else => {
            builder.begin_else();
            Ok(())
        }
        Tag::For(vars, _) => {
            let iterable = expression_after(trees, count, tokens)?;
            builder.begin(Opening::For(Box::into_inner(vars)), iterable)
        }
        Tag::With(name) => builder.begin(
            Opening::With(name),
            expression_after(trees, count, tokens)?,
        ),
        Tag::End(_) => builder.end(),
        Tag::Include(name) => builder.include(name, None),
        Tag::IncludeWith(name) => {
            let globals = expression_after(trees, count, tokens)?;
            builder.include(name, Some(globals))
        }
    }
}

// The tree of the expression that is after so many of the tokens.
fn expression_after(trees: &TreeReader, count: usize, tokens: &[Lexed]) -> Result<Expr, AllocError>
    requires { (e : Expression) × HasExpressionAfter (tree_reader_text trees.now) count (lexemes_of tokens.now) e }
    ensures { (e : Expression) → HasExpressionAfter (tree_reader_text trees.now) count (lexemes_of tokens.now) e
        → IfOk result (λ expr. expression_tree expr ≡ e) }
{
    trees.known(&tokens[count..])
}
