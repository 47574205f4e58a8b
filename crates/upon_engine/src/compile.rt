// From a template's text to a template.
ghost use Rattle.std.specs.Prelude.{◌≡◌, ◌↔◌, ℕ, List, true, IfOk, IfErr};
ghost use Rattle.std.specs.Cow.{cow_str_bytes};
ghost use Rattle.upon_types.specs.Error.{fault_of};
ghost use Rattle.upon_types.specs.Fault.{syntax as of_syntax};
ghost use Rattle.upon_types.specs.Tree.{Statements};
ghost use Rattle.upon_language_spec.specs.Grammar.{HasTree};
ghost use Rattle.upon_language_spec.specs.Search.{DelimiterText};
ghost use Rattle.upon_delimiters.specs.Searcher.{searcher_delimiters};
ghost use Rattle.upon_delimiters.specs.Syntax.{syntax_delimiters};
ghost use Rattle.upon_syntax.specs.TagReading.{IsSyntaxError};
ghost use Rattle.upon_compiler.specs.Compiled.{HasProgram};
ghost use Rattle.upon_engine.specs.Before.{KeepsOldTree, HadNoTree};
ghost use Rattle.upon_engine.specs.Faults.{IsSyntaxErrorOf};
ghost use Rattle.upon_engine.specs.Template.{template_source, template_syntax, template_tree};

use crate::template::Template;
use std::alloc::Global;
use std::borrow::CowStr;
use upon_compiler::types::program::Instr;
use upon_syntax::compile::parse::Parser;
use upon_syntax::compile::search::Searcher;
use upon_syntax::types::syntax::Syntax;
use upon_types::error::{Error, ErrorKind, Result};

/// Returns the template of a text under a syntax. A text that has no tree is refused, with its first fault; out of
/// memory has the kind `OutOfMemory`. A text that had a tree before `for .. else` has that tree.
pub fn template<'s>(alloc: Global, syntax: &Syntax, source: CowStr<'s>) -> Result<Template<'s>>
    ensures source { IfOk result (λ t. template_source t ≡ cow_str_bytes source.entry) }
    ensures syntax { IfOk result (λ t. template_syntax t ≡ syntax_delimiters syntax.now) }
    ensures has_tree { IfOk result
        (λ t. HasTree (syntax_delimiters syntax.now) (cow_str_bytes source.entry) (template_tree t)) }
    ensures only_tree { IfOk result
        (λ t. (tree : Statements)
        → HasTree (syntax_delimiters syntax.now) (cow_str_bytes source.entry) tree → tree ≡ template_tree t) }
    ensures fault { IfErr result (IsSyntaxError (syntax_delimiters syntax.now) (cow_str_bytes source.entry)) }
    ensures no_tree { IfErr result
        (λ e. (fault_of e).kind ≡ of_syntax
        → (tree : Statements) → HasTree (syntax_delimiters syntax.now) (cow_str_bytes source.entry) tree → ⊥) }
    ensures kept { IfOk result
        (λ t. KeepsOldTree (syntax_delimiters syntax.now) (cow_str_bytes source.entry) (template_tree t)) }
    ensures accepted { IfErr result
        (λ e. (fault_of e).kind ≡ of_syntax → HadNoTree (syntax_delimiters syntax.now) (cow_str_bytes source.entry)) }
{
    let searcher = Searcher::with_syntax(syntax.try_clone()?);
    let instrs = compiled(alloc, &searcher, source.as_str())?;
    Ok(Template::from_parts(source, searcher.into_syntax(), instrs))
}

/// Does the same over the delimiters of a searcher.
pub(crate) fn with_searcher<'s>(
    alloc: Global,
    searcher: &Searcher,
    source: CowStr<'s>,
) -> Result<Template<'s>>
    ensures source { IfOk result (λ t. template_source t ≡ cow_str_bytes source.entry) }
    ensures syntax { IfOk result (λ t. template_syntax t ≡ searcher_delimiters searcher.now) }
    ensures has_tree { IfOk result
        (λ t. HasTree (searcher_delimiters searcher.now) (cow_str_bytes source.entry) (template_tree t)) }
    ensures only_tree { IfOk result
        (λ t. (tree : Statements)
        → HasTree (searcher_delimiters searcher.now) (cow_str_bytes source.entry) tree → tree ≡ template_tree t) }
    ensures fault { IfErr result (IsSyntaxError (searcher_delimiters searcher.now) (cow_str_bytes source.entry)) }
    ensures no_tree { IfErr result
        (λ e. (fault_of e).kind ≡ of_syntax
        → (tree : Statements) → HasTree (searcher_delimiters searcher.now) (cow_str_bytes source.entry) tree → ⊥) }
{
    let syntax = searcher.syntax().try_clone()?;
    let instrs = compiled(alloc, searcher, source.as_str())?;
    Ok(Template::from_parts(source, syntax, instrs))
}

// The program of a text's only tree.
fn compiled(alloc: Global, searcher: &Searcher, source: &str) -> Result<Vec<Instr>>
    ensures program { IfOk result (λ instrs. HasProgram (searcher_delimiters searcher.now) source.now instrs.items) }
    ensures has_tree { IfOk result
        (λ _. (tree : Statements) × HasTree (searcher_delimiters searcher.now) source.now tree) }
    ensures fault { IfErr result (IsSyntaxError (searcher_delimiters searcher.now) source.now) }
    ensures no_tree { IfErr result
        (λ e. (fault_of e).kind ≡ of_syntax
        → (tree : Statements) → HasTree (searcher_delimiters searcher.now) source.now tree → ⊥) }
{
    let parser = Parser::new(alloc, searcher, source);
    parser.compile_template()
}

/// Does the same for the template of a name, which its fault has.
pub(crate) fn with_name<'s>(
    alloc: Global,
    searcher: &Searcher,
    name: &str,
    source: CowStr<'s>,
) -> Result<Template<'s>>
    ensures source { IfOk result (λ t. template_source t ≡ cow_str_bytes source.entry) }
    ensures syntax { IfOk result (λ t. template_syntax t ≡ searcher_delimiters searcher.now) }
    ensures has_tree { IfOk result
        (λ t. HasTree (searcher_delimiters searcher.now) (cow_str_bytes source.entry) (template_tree t)) }
    ensures only_tree { IfOk result
        (λ t. (tree : Statements)
        → HasTree (searcher_delimiters searcher.now) (cow_str_bytes source.entry) tree → tree ≡ template_tree t) }
    ensures fault { IfErr result
        (IsSyntaxErrorOf name.now (searcher_delimiters searcher.now) (cow_str_bytes source.entry)) }
    ensures no_tree { IfErr result
        (λ e. (fault_of e).kind ≡ of_syntax
        → (tree : Statements) → HasTree (searcher_delimiters searcher.now) (cow_str_bytes source.entry) tree → ⊥) }
{
    match with_searcher(alloc, searcher, source) {
        Ok(template) => Ok(template),
        Err(error) => Err(named(alloc, name, error)),
    }
}

// A fault of compiling in the template of a name; that memory is out has no name.
fn named(alloc: Global, name: &str, error: Error) -> Error
    ensures fault { (delimiters : List DelimiterText) (s : List ℕ)
        → IsSyntaxError delimiters s error → IsSyntaxErrorOf name.now delimiters s result }
    ensures kind { (fault_of result).kind ≡ of_syntax → (fault_of error).kind ≡ of_syntax }
{
    if is_of_syntax(&error) {
        error.with_name(alloc, name)
    } else {
        error
    }
}

// Whether it is a fault of the template's text.
fn is_of_syntax(error: &Error) -> bool
    ensures { (result ≡ true) ↔ ((fault_of error.now).kind ≡ of_syntax) }
{
    match error.kind() {
        ErrorKind::Syntax => true,
        ErrorKind::OutOfMemory => false,
        ErrorKind::Serialize => false,
        ErrorKind::Render => false,
        ErrorKind::Function => false,
        ErrorKind::Format => false,
        ErrorKind::Io(_) => false,
    }
}
