// Callers that have the tree of a text beside its program and its fault, by the public clauses alone.
ghost use Rattle.std.specs.Prelude.{◌≡◌, true, false, IfOk, IfSome};
ghost use Rattle.upon_types.specs.Tree.{Statements};
ghost use Rattle.upon_delimiters.specs.Searcher.{searcher_delimiters};
ghost use Rattle.upon_compiler.specs.Program.{program_view};
ghost use Rattle.upon_language_spec.specs.Grammar.{HasTree};
ghost use Rattle.upon_machine_spec.specs.Code.{program_of};
ghost use Rattle.upon_tree.specs.Ast.{tree_of};
ghost use Rattle.upon_engine.specs.Template.{template_tree};

use std::alloc::Global;
use upon::compile::parse::Parser;
use upon::compile::search::Searcher;
use upon::error::ErrorKind;
use upon::types::ast;
use upon::types::program::Instr;
use upon::{Engine, Result, Syntax, Template};

/// Returns the tree of a text and its program: the program is that of the tree.
pub fn tree_and_program(
    alloc: Global,
    searcher: &Searcher,
    source: &str,
) -> Result<(ast::Template, Vec<Instr>)>
    ensures { IfOk result (λ r. program_view r.1.items ≡ program_of (tree_of r.0)) }
{
    let tree = Parser::new(alloc, searcher, source).parse_template()?;
    let code = Parser::new(alloc, searcher, source).compile_template()?;
    Ok((tree, code))
}

/// Returns what an engine compiles of a text, and the text's tree, which is the template's.
pub fn template_and_tree<'s>(
    alloc: Global,
    syntax: Syntax,
    source: &'s str,
) -> Result<(Template<'s>, ast::Template)>
    ensures { IfOk result (λ r. template_tree r.0 ≡ tree_of r.1) }
{
    let searcher = Searcher::with_syntax(syntax.try_clone()?);
    let mut engine = Engine::new(alloc);
    engine.set_syntax(syntax);
    let template = engine.compile(source.into())?;
    let tree = Parser::new(alloc, &searcher, source).parse_template()?;
    Ok((template, tree))
}

/// Returns the instructions of a template whose tree this is: the tree's program.
pub fn instructions_of_tree<'t>(template: &'t Template<'_>, tree: &ast::Template) -> &'t [Instr]
    requires { template_tree template.now ≡ tree_of tree.now }
    ensures { program_view result.now ≡ program_of (tree_of tree.now) }
{
    template.instrs()
}

/// Returns whether a text has a tree. If memory is out, there is no answer.
pub fn has_tree(alloc: Global, searcher: &Searcher, source: &str) -> Option<bool>
    ensures tree { IfSome result (λ has. has ≡ true
        → (tree : Statements) × HasTree (searcher_delimiters searcher.now) source.now tree) }
    ensures no_tree { IfSome result (λ has. has ≡ false
        → (tree : Statements) → HasTree (searcher_delimiters searcher.now) source.now tree → ⊥) }
{
    match Parser::new(alloc, searcher, source).parse_template() {
        Ok(_) => Some(true),
        Err(error) => match error.kind() {
            ErrorKind::Syntax => Some(false),
            _ => None,
        },
    }
}
