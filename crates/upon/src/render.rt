// Renderings: what they are made on, where they go, and what templates see while they run.
pub use crate::sources::{CallName, OneTemplate, TemplateFn, TemplateMap};
pub use upon_engine::renderer::Renderer;
pub use upon_engine::sources::{EngineTemplates, TemplateSource};
pub use upon_engine::values::{Context, SerdeContext, SourceValues};
pub use upon_fmt::output::{Mark, Output, Writer};
pub use upon_lookup::source::{NoSource, SourceError, ValueSource};
pub use upon_lookup::value::{lookup, lookup_path, lookup_path_maybe};
pub use upon_lookup::value_fn::{CallPath, ValueFn};
pub use upon_render::iter::LoopState;
pub use upon_render::stack::{Stack, State};
