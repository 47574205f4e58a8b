// The standard functions declared under their names.
ghost use Rattle.std.specs.Prelude.{◌≡◌, ℕ, List, take, OnOk, OnErr};
ghost use Rattle.upon_shape_check.specs.Callables.{declared_view};
ghost use Rattle.upon_std_shapes.specs.Tables.{with_declared, with_all_declared};

use crate::signatures::signatures_of;
use std::alloc::{AllocError, Global};
use upon_shape_check::declared::Declared;
use upon_std::table::StandardFunction;

/// Declares what standard functions take and give, under their names, one after the other, each in place of what was
/// declared of its name. A function that may refuse arguments of each shape is declared to take nothing. If there is no
/// memory, the first ones are declared, and the others are not.
pub fn declare_standard(
    alloc: Global,
    functions: &[StandardFunction],
    declared: &mut Declared,
) -> Result<(), AllocError>
    ensures ok { OnOk result ((name : List ℕ) → (declared_view declared.new).callables name
        ≡ with_all_declared functions.now (declared_view declared.old).callables name) }
    ensures err { OnErr result ((n : ℕ) × ((name : List ℕ) → (declared_view declared.new).callables name
        ≡ with_all_declared (take n functions.now) (declared_view declared.old).callables name)) }
    ensures default { (declared_view declared.new).default_formats ≡ (declared_view declared.old).default_formats }
{
    for function in functions {
        declare(alloc, *function, declared)?;
    }
    Ok(())
}

// Declares a standard function. If there is no memory, nothing changes.
fn declare(
    alloc: Global,
    function: StandardFunction,
    declared: &mut Declared,
) -> Result<(), AllocError>
    ensures ok { OnOk result ((name : List ℕ) → (declared_view declared.new).callables name
        ≡ with_declared function (declared_view declared.old).callables name) }
    ensures err { OnErr result ((name : List ℕ) → (declared_view declared.new).callables name
        ≡ (declared_view declared.old).callables name) }
    ensures default { (declared_view declared.new).default_formats ≡ (declared_view declared.old).default_formats }
{
    let signatures = signatures_of(alloc, function)?;
    let name = String::from_str(alloc, function.name())?;
    declared.add_function(name, signatures)
}
