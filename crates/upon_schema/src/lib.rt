// JSON Schema: the shape of the values that are valid by a schema, and the schema of a shape.
#![tactic(auto, using(crate::proofs::Views::views))]

pub mod fault;
mod kept;
mod keywords;
pub mod laws;
mod place;
pub mod read;
mod reference;
mod types;
pub mod write;
