// Many pages at once: a template that is rendered once for each item of a list, and a folder of templates that is built
// into another. An engine holds the templates; files are read and written by a runtime.
#![tactic(auto)]

pub mod build;
pub mod each;
pub mod names;
pub mod pages;
pub mod progress;
pub mod values;
pub mod written;
