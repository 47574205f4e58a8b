// What a call of `upon-tool` renders templates on: files of several formats, one after the other, and values that are
// set at paths, from the words of the call.
#![tactic(auto)]

pub mod context;
mod environment;
pub mod fault;
pub mod files;
pub mod held;
pub mod samples;
mod settings;
pub mod sources;
pub mod words;
