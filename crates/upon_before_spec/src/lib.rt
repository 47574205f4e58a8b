// The language and its meaning before `for .. else`, and that both are kept. The definitions in specs/ are those of the
// commit 0244436, text for text; `checks/before` shows that.
#![tactic(auto)]

pub mod laws;
