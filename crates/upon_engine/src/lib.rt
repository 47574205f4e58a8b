// The public calls: templates, engines and renderings.
#![tactic(auto)]

pub mod callables;
pub mod compile;
pub mod engine;
pub mod laws_of_templates;
pub mod renderer;
pub mod sources;
pub mod template;
pub mod template_ref;
pub mod texts;
pub mod theorem;
pub mod values;
pub mod within;
