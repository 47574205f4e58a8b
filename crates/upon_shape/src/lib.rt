// Shapes of values, as values of a program: what is known of data before they are there.
#![tactic(auto, using(crate::proofs::ShapeViews::views))]

pub mod copy;
pub mod depth;
pub mod join;
pub mod keys;
pub mod of;
pub mod open;
pub mod paths;
pub mod shape;
pub mod wider;

pub use keys::KeyShape;
pub use paths::MemberShape;
pub use shape::{Key, Keys, Plain, Shape};
