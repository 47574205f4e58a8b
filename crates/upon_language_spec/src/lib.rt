// The written language: its definitions and laws.
#![tactic(auto)]

pub mod laws;
