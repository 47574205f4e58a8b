// The functions that templates may call.
ghost use Rattle.std.specs.Prelude.{◌≡◌};
ghost use Rattle.upon_calls.specs.Filled.{functions_if};

use upon_std::table::{ALL, StandardFunction};

/// Returns the standard functions if they are wanted, else none.
pub fn standard(wanted: bool) -> &'static [StandardFunction]
    ensures { result.now ≡ functions_if wanted }
{
    if wanted {
        ALL.as_slice()
    } else {
        [].as_slice()
    }
}
