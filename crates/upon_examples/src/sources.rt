// Contexts and templates from functions.
ghost use Rattle.std.specs.Prelude.{◌≡◌, ◌++◌, ℕ, List, string_bytes};

use std::alloc::{AllocError, Global};
use std::borrow::CowStr;
use std::collections::BTreeMap;
use upon::render::{CallName, CallPath, SourceError, TemplateFn, TemplateMap};
use upon::{Engine, Template, Value, ValueMember};

/// A function that answers 1, 2, .. in turn.
#[derive(Drop)]
pub struct Counter {
    pub asked: u32,
}

impl CallPath for Counter {
    ghost use Rattle.std.specs.Prelude.{ℕ, ◌+◌, ◌%◌, ◌^◌, pos};
    ghost use Rattle.upon.specs.Val.{int_val};
    ghost use Rattle.upon.specs.Finding.{reply};
    ghost use Rattle.upon.specs.Source.{says};

    ghost State = { ℕ };

    ghost call_state = { λ s. s.asked };

    ghost answers_path = { λ n path. reply (says (int_val (pos ((n + 1) % 2 ^ 32)))) ((n + 1) % 2 ^ 32) };

    fn call(&mut self, _path: &[ValueMember]) -> Result<Value, SourceError> {
        self.asked = self.asked.wrapping_add(1);
        Ok(Value::Integer(self.asked as i64))
    }
}

/// It refuses each path.
#[derive(Drop)]
pub struct NoUser {
    pub alloc: Global,
}

impl NoUser {
    ghost use Rattle.std.specs.Prelude.{◌≡◌, IfOk, string_bytes, codes};

    fn reason(&self) -> Result<String, AllocError>
        ensures { IfOk result (λ reason. string_bytes reason ≡ codes "no user") }
    {
        String::from_str(self.alloc, "no user")
    }
}

impl CallPath for NoUser {
    ghost use Rattle.std.specs.Prelude.{codes};
    ghost use Rattle.upon.specs.Finding.{reply};
    ghost use Rattle.upon.specs.Source.{refuses};

    ghost State = { Unit {0} };

    ghost call_state = { λ _. tt };

    ghost answers_path = { λ _ _. reply (refuses (codes "no user")) tt };

    fn call(&mut self, _path: &[ValueMember]) -> Result<Value, SourceError> {
        match self.reason() {
            Ok(reason) => Err(SourceError::Refused(reason)),
            Err(_) => Err(SourceError::Memory),
        }
    }
}

// A function that gives one template for each name, and counts how often it is asked.
#[derive(Drop)]
struct Counted<'r> {
    template: &'r Template<'r>,
    asked: u32,
}

impl<'r> CallName<'r> for Counted<'r> {
    ghost use Rattle.std.specs.Prelude.{ℕ, ◌+◌, ◌%◌, ◌^◌};
    ghost use Rattle.upon.specs.Finding.{reply};
    ghost use Rattle.upon.specs.Source.{says};
    ghost use Rattle.upon.specs.DeclaredTemplate.{Template};

    ghost State = { Template × ℕ };

    ghost name_state = { λ s. (s.template.now, s.asked) };

    ghost answers_name = { λ q _. reply (says q.0) (q.0, (q.1 + 1) % 2 ^ 32) };

    fn call(&mut self, _name: &str) -> std::result::Result<&'r Template<'r>, SourceError> {
        self.asked = self.asked.wrapping_add(1);
        Ok(self.template)
    }
}

/// Writes a template with another in place of each that it includes, and answers how many those are.
#[tactic(auto, using(crate::proofs::Written::left_follows))]
pub fn with_counted(
    engine: &Engine<'_>,
    template: &Template<'_>,
    included: &Template<'_>,
    out: &mut String,
) -> upon::Result<u32>
    // What is written follows what was there, after an error too.
    ensures { (written : List ℕ) × (string_bytes out.new ≡ string_bytes out.old ++ written) }
{
    let context = Value::None;
    let mut templates = TemplateFn::new(Counted {
        template: included.lent(),
        asked: 0,
    });
    let (result, _, _) = template
        .render_from(engine, &context)
        .with_template_fn(&mut templates)
        .to_output_and_sources(out);
    result?;
    Ok(templates.callable.asked)
}

/// Renders a text with the templates of a map in place of the engine's.
pub fn by_map(
    alloc: Global,
    engine: &Engine<'_>,
    templates: &BTreeMap<String, Template<'_>>,
    source: &str,
) -> upon::Result<String> {
    let template = engine.compile(CowStr::Borrowed(source))?;
    template
        .render_from(engine, &Value::None)
        .with_template_fn(TemplateMap::new(alloc, templates))
        .to_string()
}
