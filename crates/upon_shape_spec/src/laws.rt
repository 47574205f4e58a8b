// Laws of shapes, and of templates that are accepted on them.

pub mod callables;
pub mod scopes;
pub mod shapes;
pub mod templates;
