// Where the templates of includes come from.
ghost use Rattle.std.specs.Prelude.{◌≡◌, ℕ, List};
ghost use Rattle.upon_lookup.specs.Asked.{HasReply};
ghost use Rattle.upon_meaning_spec.specs.Engine.{Resolver};
ghost use Rattle.upon_meaning_spec.specs.RenderFaults.{TemplatesLie};
ghost use Rattle.upon_vm_steps.specs.Program.{IsProgramOf};
ghost use Rattle.upon_engine.specs.Template.{template_of};

use crate::engine::Engine;
use crate::template::Template;
use std::marker::PhantomData;
use upon_lookup::source::SourceError;
use upon_types::error::cause::Cause;
use upon_vm_steps::source::{NoProgram, Program, ProgramSource};

/// What gives templates by their names.
///
/// Answer and next state are functions of the state and the name, out of memory aside.
pub trait TemplateSource<'r>: Drop {
    /// What the answers depend on, beside the name.
    ghost State: { Type 0 };

    ghost template_state: { Self → State };

    /// The answer and the next state, in each state and for each name.
    ghost resolve: { Self → Resolver State };

    /// The references that it holds.
    ghost holds: { Self → List ℕ };

    /// The spans in the trees of all templates that answer lie in their texts.
    ghost templates_lie: { (s : Self) → TemplatesLie (resolve s) };

    /// Returns the template of this name.
    fn template(&mut self, name: &str) -> Result<&'r Template<'r>, SourceError>
        ensures same { holds self.new ≡ holds self.old }
        ensures stays { resolve self.new ≡ resolve self.old }
        ensures resolved { HasReply (λ t. template_of t.now) result (template_state self.new)
            (resolve self.old (template_state self.old) name.now) };
}

impl<'r, S: TemplateSource<'r>> TemplateSource<'r> for &mut S {
    ghost use Rattle.std.specs.Prelude.{◌∷◌};

    ghost State = { S.State };

    ghost template_state = { λ s. S.template_state s.now };

    ghost resolve = { λ s. S.resolve s.now };

    ghost holds = { λ s. s.ghost_name ∷ S.holds s.now };

    ghost templates_lie = { λ s. S.templates_lie s.now };

    fn template(&mut self, name: &str) -> Result<&'r Template<'r>, SourceError> {
        (**self).template(name)
    }
}

/// The templates that an engine holds. Another name is refused as an unknown template.
#[derive(Clone, Copy)]
pub struct EngineTemplates<'r, 'e> {
    pub(crate) engine: &'r Engine<'e>,
}

impl<'r, 'e> TemplateSource<'r> for EngineTemplates<'r, 'e> {
    ghost use Rattle.upon_meaning_spec.specs.Engine.{from_table};
    ghost use Rattle.upon_engine.specs.Engine.{engine_templates};
    ghost use Rattle.std.specs.BTreeMap.{get_by_text};
    ghost use Rattle.std.specs.Prelude.{[]};
    ghost use Rattle.upon_compiler.proofs.CompiledTree.{spans};
    ghost use Rattle.upon_compiler.proofs.Templates.{map_lies};
    ghost use Rattle.upon_engine.specs.Template.{template_source, template_syntax};

    ghost State = { Unit {0} };

    ghost template_state = { λ _. tt };

    ghost resolve = { λ s. from_table (engine_templates s.engine.now) };

    ghost holds = { λ _. [] };

    ghost templates_lie = { λ s. map_lies template_of
        (λ t. spans (template_syntax t) (template_source t) t.instrs.items t.is_compiled)
        (get_by_text s.engine.now.templates) };

    fn template(&mut self, name: &str) -> Result<&'r Template<'r>, SourceError> {
        match self.engine.held(name) {
            Some(template) => Ok(template.lent()),
            None => match Cause::UnknownTemplate.text(self.engine.alloc()) {
                Ok(reason) => Err(SourceError::Refused(reason)),
                Err(_) => Err(SourceError::Memory),
            },
        }
    }
}

// The same templates as programs. That there is none is a cause, and no text of a source.
impl<'r, 'e> ProgramSource<'r> for EngineTemplates<'r, 'e> {
    ghost use Rattle.upon_meaning_spec.specs.Engine.{from_table};
    ghost use Rattle.upon_engine.specs.Engine.{engine_templates};
    ghost use Rattle.std.specs.BTreeMap.{get_by_text};
    ghost use Rattle.std.specs.Prelude.{[]};
    ghost use Rattle.upon_compiler.proofs.CompiledTree.{spans};
    ghost use Rattle.upon_compiler.proofs.Templates.{map_lies};
    ghost use Rattle.upon_engine.specs.Template.{template_source, template_syntax};

    ghost State = { Unit {0} };

    ghost template_state = { λ _. tt };

    ghost resolve = { λ s. from_table (engine_templates s.engine.now) };

    ghost holds = { λ _. [] };

    ghost templates_lie = { λ s. map_lies template_of
        (λ t. spans (template_syntax t) (template_source t) t.instrs.items t.is_compiled)
        (get_by_text s.engine.now.templates) };

    fn program(&mut self, name: &str) -> Result<Program<'r>, NoProgram> {
        match self.engine.held(name) {
            Some(template) => Ok(program_of(template.lent())),
            None => Err(NoProgram::Unknown),
        }
    }
}

/// A source of templates that lends them for a shorter time.
#[derive(Drop)]
pub(crate) struct ShorterLoans<'r, T> {
    pub(crate) templates: T,
    longer: PhantomData<&'r ()>,
}

impl<'r, T: TemplateSource<'r>> ShorterLoans<'r, T> {
    pub(crate) fn new(templates: T) -> Self
        ensures { result.templates ≡ templates }
    {
        ShorterLoans {
            templates,
            longer: PhantomData,
        }
    }
}

impl<'s, 'r: 's, T: TemplateSource<'r>> TemplateSource<'s> for ShorterLoans<'r, T> {
    ghost State = { T.State };

    ghost template_state = { λ s. T.template_state s.templates };

    ghost resolve = { λ s. T.resolve s.templates };

    ghost holds = { λ s. T.holds s.templates };

    ghost templates_lie = { λ s. T.templates_lie s.templates };

    fn template(&mut self, name: &str) -> Result<&'s Template<'s>, SourceError> {
        match self.templates.template(name) {
            Ok(template) => Ok(template.lent()),
            Err(error) => Err(error),
        }
    }
}

/// A source of templates, as one of their programs.
#[derive(Drop)]
pub(crate) struct Programs<T> {
    pub(crate) templates: T,
}

impl<'r, T: TemplateSource<'r>> ProgramSource<'r> for Programs<T> {
    ghost State = { T.State };

    ghost template_state = { λ s. T.template_state s.templates };

    ghost resolve = { λ s. T.resolve s.templates };

    ghost holds = { λ s. T.holds s.templates };

    ghost templates_lie = { λ s. T.templates_lie s.templates };

    fn program(&mut self, name: &str) -> Result<Program<'r>, NoProgram> {
        match self.templates.template(name) {
            Ok(template) => Ok(program_of(template)),
            Err(SourceError::Refused(reason)) => Err(NoProgram::Refused(reason)),
            Err(SourceError::Memory) => Err(NoProgram::Memory),
        }
    }
}

/// Returns the program of a template that is lent.
pub(crate) fn program_of<'r>(template: &'r Template<'r>) -> Program<'r>
    ensures { IsProgramOf result (template_of template.entry.now) }
{
    Program {
        source: template.source(),
        instrs: template.instrs(),
    }
}
