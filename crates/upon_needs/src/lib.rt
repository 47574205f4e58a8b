// What a template needs of its context, and which templates it includes.
#![tactic(auto)]

pub mod needs;
pub mod places;
mod starts;
pub mod template_names;
