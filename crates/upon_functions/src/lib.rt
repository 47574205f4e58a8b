// The functions that templates call: what a function is, what it takes and returns, and functions made of callables.
#![tactic(auto)]

pub mod arguments;
pub mod closures;
mod few;
pub mod function;
mod lent;
mod many;
pub mod returns;
mod two;

pub use few::{Call0, Call1, Call2, Fn0, Fn1, Fn2};
pub use lent::{Call1L, Call1M, Call1S, Call1V, Fn1L, Fn1M, Fn1S, Fn1V};
pub use many::{Call3, Call4, Call5, Fn3, Fn4, Fn5};
pub use two::list::{Call2LO, Call2LS, Call2LV, Fn2LO, Fn2LS, Fn2LV};
pub use two::map::{Call2MO, Call2MS, Call2MV, Fn2MO, Fn2MS, Fn2MV};
pub use two::owned::{Call2OS, Call2OV, Fn2OS, Fn2OV};
pub use two::text::{Call2SO, Call2SS, Call2SV, Fn2SO, Fn2SS, Fn2SV};
pub use two::value::{Call2VO, Call2VS, Call2VV, Fn2VO, Fn2VS, Fn2VV};
