// The types of compiled templates.
pub mod program;
