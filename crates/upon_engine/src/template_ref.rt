// A template of an engine, with its name.
ghost use Rattle.std.specs.Prelude.{◌≡◌, Some, IfSome, IsSome, option_map};
ghost use Rattle.upon_types.specs.View.{view};
ghost use Rattle.upon_machine_spec.specs.Code.{program_of};
ghost use Rattle.upon_compiler.specs.Program.{program_view};
ghost use Rattle.upon_engine.specs.Base.{IsContextOf};
ghost use Rattle.upon_engine.specs.Calls.{engine_in, renderer_values, templates_in, template_in, name_in, limit_in};
ghost use Rattle.upon_engine.specs.Engine.{engine_depth, engine_templates};
ghost use Rattle.upon_engine.specs.Sources.{base_in, engine_of_templates, source_in, value_in};
ghost use Rattle.upon_engine.specs.Template.{template_of};
ghost use Rattle.upon_engine.specs.Texts.{texts_of};
ghost use Rattle.upon_engine.specs.TemplateRef.{ref_engine, ref_name, ref_template};

use crate::engine::Engine;
use crate::renderer::Renderer;
use crate::sources::EngineTemplates;
use crate::template::Template;
use crate::values::{Context, SerdeContext, SourceValues};
use serde::Serialize;
use upon_compiler::types::program::Instr;
use upon_lookup::source::ValueSource;
use upon_types::value::Value;

/// A template that an engine holds, with its name. A fault of its rendering has the name.
#[derive(Clone, Copy)]
pub struct TemplateRef<'r, 'e> {
    engine: &'r Engine<'e>,
    name: &'r str,
    template: &'r Template<'e>,
}

impl<'e> Engine<'e> {
    /// Returns the template of a name, or `None` if there is none. The name need not live as long as the template does.
    pub fn get_template<'r>(&'r self, name: &str) -> Option<TemplateRef<'r, 'e>>
        ensures template { option_map ref_template result ≡ engine_templates self.now name.now }
        ensures engine { IfSome result (λ t. ref_engine t ≡ self.now) }
        ensures name { IfSome result (λ t. ref_name t ≡ name.now) }
    {
        match self.held_with_name(name) {
            Some((name, template)) => Some(TemplateRef {
                engine: self,
                name,
                template,
            }),
            None => None,
        }
    }

    /// Returns the template of a name that is there. The name need not live as long as the template does.
    pub fn template<'r>(&'r self, name: &str) -> TemplateRef<'r, 'e>
        requires { IsSome ((texts_of formats answers self.now).texts name.now) }
        ensures template { Some (ref_template result) ≡ engine_templates self.now name.now }
        ensures engine { ref_engine result ≡ self.now }
        ensures name { ref_name result ≡ name.now }
    {
        let Some((name, template)) = self.held_with_name(name) else {
            unreachable!()
        };
        TemplateRef {
            engine: self,
            name,
            template,
        }
    }
}

impl<'r, 'e> TemplateRef<'r, 'e> {
    /// Returns the text that the template was compiled from.
    pub fn source(self) -> &'r str
        ensures { result.now ≡ (ref_template self.entry).source }
    {
        self.template.source()
    }

    /// Returns its instructions: the program of its text's tree. A checker of templates walks along them.
    pub fn instrs(self) -> &'r [Instr]
        ensures { program_view result.now ≡ program_of (ref_template self.entry).tree }
    {
        self.template.instrs()
    }

    /// Returns a rendering on what serde writes of the context, with the engine's callables, templates and depth. It is
    /// not made yet; a context that is no value is reported in place of a text, before anything is written.
    pub fn render<S: Serialize + Drop>(
        self,
        context: S,
    ) -> Renderer<'r, &'r Engine<'e>, SerdeContext, EngineTemplates<'r, 'e>>
        ensures template { template_in result ≡ ref_template self.entry }
        ensures name { name_in result ≡ Some (ref_name self.entry) }
        ensures engine { (engine_in result).now ≡ ref_engine self.entry }
        ensures templates { engine_of_templates (templates_in result) ≡ ref_engine self.entry }
        ensures context { IsContextOf (λ old new. S.writes context old new) (base_in (renderer_values result)) }
        ensures limit { limit_in result ≡ engine_depth (ref_engine self.entry) }
    {
        Renderer {
            name: Some(self.name),
            ..self.template.render(self.engine, context)
        }
    }

    /// Returns a rendering on a value, with the engine's callables, templates and depth. It is not made yet.
    pub fn render_from(
        self,
        value: &'r Value,
    ) -> Renderer<'r, &'r Engine<'e>, Context<'r>, EngineTemplates<'r, 'e>>
        ensures template { template_in result ≡ ref_template self.entry }
        ensures name { name_in result ≡ Some (ref_name self.entry) }
        ensures engine { (engine_in result).now ≡ ref_engine self.entry }
        ensures templates { engine_of_templates (templates_in result) ≡ ref_engine self.entry }
        ensures value { value_in (renderer_values result) ≡ view value.now }
        ensures limit { limit_in result ≡ engine_depth (ref_engine self.entry) }
    {
        Renderer {
            name: Some(self.name),
            ..self.template.render_from(self.engine, value)
        }
    }

    /// Returns a rendering on a source of values, with the engine's callables, templates and depth. It is not made yet.
    pub fn render_from_fn<S: ValueSource>(
        self,
        source: S,
    ) -> Renderer<'r, &'r Engine<'e>, SourceValues<S>, EngineTemplates<'r, 'e>>
        ensures template { template_in result ≡ ref_template self.entry }
        ensures name { name_in result ≡ Some (ref_name self.entry) }
        ensures engine { (engine_in result).now ≡ ref_engine self.entry }
        ensures templates { engine_of_templates (templates_in result) ≡ ref_engine self.entry }
        ensures source { source_in (renderer_values result) ≡ source }
        ensures limit { limit_in result ≡ engine_depth (ref_engine self.entry) }
    {
        Renderer {
            name: Some(self.name),
            ..self.template.render_from_fn(self.engine, source)
        }
    }
}
