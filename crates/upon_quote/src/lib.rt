// Formatters that write each value as the content of one token of another language.
#![tactic(auto)]

mod escapes;
pub mod json;
pub mod laws;
pub mod shell;
pub mod yaml;
