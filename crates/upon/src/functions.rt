// The functions that templates call, with all that is needed to make one: the trait, its arguments and returns, and the
// adapters.
pub use upon_functions::arguments::OwnedArgument;
pub use upon_functions::closures::{Meaning, call_1};
pub use upon_functions::function::{ArgError, CallError, Function};
pub use upon_functions::returns::{FunctionError, FunctionReturn};
pub use upon_functions::{
    Call0, Call1, Call1L, Call1M, Call1S, Call1V, Call2, Call2LO, Call2LS, Call2LV, Call2MO,
    Call2MS, Call2MV, Call2OS, Call2OV, Call2SO, Call2SS, Call2SV, Call2VO, Call2VS, Call2VV,
    Call3, Call4, Call5, Fn0, Fn1, Fn1L, Fn1M, Fn1S, Fn1V, Fn2, Fn2LO, Fn2LS, Fn2LV, Fn2MO, Fn2MS,
    Fn2MV, Fn2OS, Fn2OV, Fn2SO, Fn2SS, Fn2SV, Fn2VO, Fn2VS, Fn2VV, Fn3, Fn4, Fn5,
};
