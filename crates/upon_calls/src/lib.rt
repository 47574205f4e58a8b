// The engine by bytes: templates, contexts and options are JSON, and each call answers a text.
#![tactic(auto)]

mod arguments;
pub mod check;
mod contexts;
mod declared;
pub mod escaping;
pub mod failure;
pub mod functions;
mod includes;
pub mod laws;
mod misfits;
pub mod names;
pub mod options;
pub mod pages;
mod pairs;
pub mod render;
mod templates;
pub mod version;
mod work;
