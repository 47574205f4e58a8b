// A compiled template.
ghost use Rattle.std.specs.Prelude.{◌≡◌};
ghost use Rattle.std.specs.Cow.{cow_str_bytes};
ghost use Rattle.upon_delimiters.specs.Syntax.{syntax_delimiters};
ghost use Rattle.upon_compiler.specs.Compiled.{HasProgram};

use std::alloc::Global;
use std::borrow::CowStr;
use upon_compiler::types::program::Instr;
use upon_syntax::types::syntax::Syntax;

/// A compiled template: its text, the syntax that it was compiled under, and its instructions.
#[derive(Drop)]
pub struct Template<'s> {
    source: CowStr<'s>,
    syntax: Syntax,
    instrs: Vec<Instr>,
    ghost is_compiled: { HasProgram (syntax_delimiters syntax) (cow_str_bytes source) instrs.items },
}

impl<'s> Template<'s> {
    ghost use Rattle.upon_language_spec.specs.Grammar.{HasTree};
    ghost use Rattle.upon_machine_spec.specs.Code.{program_of};
    ghost use Rattle.upon_compiler.specs.Program.{program_view};
    ghost use Rattle.upon_engine.specs.Template.{template_source, template_syntax, template_tree};

    /// Creates the template of a text under a syntax, with the program of its only tree.
    pub(crate) fn from_parts(source: CowStr<'s>, syntax: Syntax, instrs: Vec<Instr>) -> Template<'s>
        requires { HasProgram (syntax_delimiters syntax) (cow_str_bytes source) instrs.items }
        ensures source { template_source result ≡ cow_str_bytes source.entry }
        ensures syntax { template_syntax result ≡ syntax_delimiters syntax }
    {
        Template {
            source,
            syntax,
            instrs,
        }
    }

    /// Returns the text that the template was compiled from.
    pub fn source(&self) -> &str
        ensures source { result.now ≡ template_source self.now }
        ensures has_tree { ∥ HasTree (template_syntax self.now) (template_source self.now) (template_tree self.now) ∥₁ }
    {
        // No field but these: a template keeps no tree.
        let Template {
            source,
            syntax: _,
            instrs: _,
        } = self;
        source.as_str()
    }

    /// Returns its instructions: the program of its text's tree.
    pub fn instrs(&self) -> &[Instr]
        ensures { program_view result.now ≡ program_of (template_tree self.now) }
    {
        self.instrs.as_slice()
    }

    /// Returns what took memory for its instructions.
    pub fn alloc(&self) -> Global {
        *self.instrs.allocator()
    }

    /// Returns the same template, lent for a shorter time.
    pub fn lent(&self) -> &Template<'_>
        ensures { result.now ≡ self.now }
    {
        self
    }
}
