// What is in a tag: from its tokens to expressions and tags, by the written grammar.
#![tactic(auto)]

pub mod compile;
