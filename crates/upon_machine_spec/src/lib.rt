// The machine that renders, as mathematics sees it: instructions, the program of a tree, steps and runs.
#![tactic(auto)]

pub mod laws;
