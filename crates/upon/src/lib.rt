// A template engine: an engine compiles templates, and a template renders values as text.
#![tactic(auto)]

pub mod compile;
pub mod fmt;
pub mod functions;
pub mod laws_of_limits;
pub mod laws_of_rendering;
pub mod laws_of_values;
pub mod program;
pub mod render;
mod sources;
pub mod types;

pub use program::run;
pub use render::Renderer;
pub use types::syntax::{Syntax, SyntaxBuilder};
pub use upon_engine::engine::Engine;
pub use upon_engine::template::Template;
pub use upon_engine::template_ref::TemplateRef;
pub use upon_engine::texts::{AnyEngine, EngineTexts};
pub use upon_engine::within::Limits;
pub use upon_engine::{laws_of_templates, theorem};
pub use upon_lookup::source::{ValueAccess, ValueAccessOp, ValueMember};
pub use upon_needs::needs::{Needs, needs_of};
pub use upon_needs::template_names::{includes, names_needed};
pub use upon_serde::{to_value, value};
pub use upon_syntax::laws_of_trees;
pub use upon_types::error::{Error, Result};
pub use upon_types::value::Value;
pub use upon_types::{error, value};
pub use upon_vm_steps::callables::EngineCallable;
