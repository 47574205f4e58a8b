// Contexts from serde: whatever serde can write becomes a `Value`.
#![tactic(auto)]

mod build;
mod entries;
mod fault;
pub mod laws;
mod macros;
mod note;
mod recorder;
mod ser;

#[doc(hidden)]
pub use macros::{push, put};
pub use ser::to_value;
pub use upon_types::error::{Error, Result};
pub use upon_types::value::Value;
