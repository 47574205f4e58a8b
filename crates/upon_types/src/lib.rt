// The values, spans, trees and faults that every part of the template engine speaks of.
#![tactic(auto)]

pub mod error;
pub mod types;
pub mod value;
