// Sources of templates, ready to use: one template, a map of templates, and a function.
ghost use Rattle.std.specs.Prelude.{◌≡◌, ℕ, List, option_map};
ghost use Rattle.upon_engine.specs.Engine.{table_in};
ghost use Rattle.upon_engine.specs.Template.{template_of};
ghost use Rattle.upon_engine.specs.declared.template.Template.{Template as Held};
ghost use Rattle.upon_lookup.specs.Asked.{HasReply};
ghost use Rattle.upon_lookup.specs.Finding.{Reply};
ghost use Rattle.upon_lookup.specs.Source.{SourceAnswer};

use std::alloc::Global;
use std::collections::BTreeMap;
use upon_engine::sources::TemplateSource;
use upon_engine::template::Template;
use upon_lookup::source::SourceError;
use upon_types::error::cause::Cause;

/// The source that has one template, under each name.
#[derive(Clone, Copy)]
pub struct OneTemplate<'r> {
    /// The template.
    pub template: &'r Template<'r>,
}

impl<'r> OneTemplate<'r> {
    /// Returns the source that has this template.
    pub fn new(template: &'r Template<'_>) -> Self
        ensures { result.template.now ≡ template.now }
    {
        OneTemplate {
            template: template.lent(),
        }
    }
}

impl<'r> TemplateSource<'r> for OneTemplate<'r> {
    ghost use Rattle.std.specs.Prelude.{[], Some};
    ghost use Rattle.upon_meaning_spec.specs.Engine.{from_table};
    ghost use Rattle.upon_engine.proofs.TemplateSpans.{held_lie};
    ghost use Rattle.upon.specs.Sources.{one_template};

    ghost State = { Unit {0} };

    ghost template_state = { λ _. tt };

    ghost resolve = { λ s. from_table (one_template s.template.now) };

    ghost holds = { λ _. [] };

    ghost templates_lie = { λ s. held_lie (λ _. Some s.template.now) };

    fn template(&mut self, _name: &str) -> Result<&'r Template<'r>, SourceError> {
        Ok(self.template)
    }
}

/// The source that has the templates of a map by their names. Another name is refused as an unknown template.
#[derive(Clone, Copy)]
pub struct TemplateMap<'r, 'e> {
    alloc: Global,
    /// The templates.
    pub templates: &'r BTreeMap<String, Template<'e>>,
}

impl<'r, 'e> TemplateMap<'r, 'e> {
    /// Returns the source that has these templates. A refusal takes memory for its words from the allocator.
    pub fn new(alloc: Global, templates: &'r BTreeMap<String, Template<'e>>) -> Self
        ensures { result.templates.now ≡ templates.now }
    {
        TemplateMap { alloc, templates }
    }

    // The template of a name.
    fn get(&self, name: &str) -> Option<&'r Template<'e>>
        ensures { option_map (λ t. template_of t.now) result ≡ table_in self.now.templates.now name.now }
    {
        self.templates.get(name)
    }
}

impl<'r, 'e> TemplateSource<'r> for TemplateMap<'r, 'e> {
    ghost use Rattle.std.specs.Prelude.{[]};
    ghost use Rattle.std.specs.BTreeMap.{get_by_text};
    ghost use Rattle.upon_meaning_spec.specs.Engine.{from_table};
    ghost use Rattle.upon_engine.proofs.TemplateSpans.{held_lie};

    ghost State = { Unit {0} };

    ghost template_state = { λ _. tt };

    ghost resolve = { λ s. from_table (table_in s.templates.now) };

    ghost holds = { λ _. [] };

    ghost templates_lie = { λ s. held_lie (get_by_text s.templates.now) };

    fn template(&mut self, name: &str) -> Result<&'r Template<'r>, SourceError> {
        match self.get(name) {
            Some(template) => Ok(template.lent()),
            None => match Cause::UnknownTemplate.text(self.alloc) {
                Ok(reason) => Err(SourceError::Refused(reason)),
                Err(_) => Err(SourceError::Memory),
            },
        }
    }
}

/// A function from names to templates, which may keep a state. It is named by a type, since no field can hold a fact
/// about a closure.
pub trait CallName<'r>: Drop {
    // What its answers depend on, beside the name.
    ghost State: { Type 0 };

    ghost name_state: { Self → State };

    // The template or the refusal, and the next state, in each state and for each name.
    ghost answers_name: { State → List ℕ → Reply State (SourceAnswer Held) };

    /// Returns the template of this name. The error is `Refused` if the function refuses, and `Memory` if memory is
    /// out.
    fn call(&mut self, name: &str) -> Result<&'r Template<'r>, SourceError>
        ensures { HasReply (λ t. t.now) result (name_state self.new) (answers_name (name_state self.old) name.now) };
}

/// The source that is a function.
#[derive(Drop)]
pub struct TemplateFn<C> {
    /// The function.
    pub callable: C,
}

impl<C> TemplateFn<C> {
    /// Returns the source that calls this function.
    pub fn new(callable: C) -> Self
        ensures { result.callable ≡ callable }
    {
        TemplateFn { callable }
    }
}

impl<'r, C: CallName<'r>> TemplateSource<'r> for TemplateFn<C> {
    ghost use Rattle.std.specs.Prelude.{[]};
    ghost use Rattle.upon_engine.specs.HandsOn.{hands_on};
    ghost use Rattle.upon_engine.proofs.TemplateSpans.{handed_on_lie};

    ghost State = { C.State };

    ghost template_state = { λ s. C.name_state s.callable };

    ghost resolve = { λ _. hands_on C.answers_name };

    ghost holds = { λ _. [] };

    ghost templates_lie = { λ _. handed_on_lie C.answers_name };

    fn template(&mut self, name: &str) -> Result<&'r Template<'r>, SourceError> {
        self.callable.call(name)
    }
}
