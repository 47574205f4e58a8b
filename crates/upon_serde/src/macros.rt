// `value!`, which builds a map where it is written.
ghost use Rattle.std.specs.Prelude.{◌≡◌, [], ◌∷◌, ◌++◌, OnOk};
ghost use Rattle.upon_types.specs.View.{view};
ghost use Rattle.upon_serde.specs.Data.{with_pair};
ghost use Rattle.upon_serde.specs.Reads.{entry_pairs};

use std::alloc::{AllocError, Global};
use std::collections::BTreeMap;
use upon_types::value::Value;

/// Appends an item, for [`value!`].
#[doc(hidden)]
pub fn push(items: &mut Vec<Value>, item: Value) -> Result<(), AllocError>
    ensures { OnOk result (items.new.items ≡ items.old.items ++ item ∷ []) }
{
    items.push(item)?;
    Ok(())
}

/// Puts an item at a key, for [`value!`]. Of equal keys the last counts.
#[doc(hidden)]
pub fn put(
    alloc: Global,
    entries: &mut BTreeMap<String, Value>,
    key: &str,
    item: Value,
) -> Result<(), AllocError>
    ensures { OnOk result
        (entry_pairs entries.new.entries ≡ with_pair key.now (view item) (entry_pairs entries.old.entries)) }
{
    drop(entries.insert(String::from_str(alloc, key)?, item)?);
    Ok(())
}

/// The map of what is written: `value! { in alloc; name: "John", tags: ["a", {b: true}], none: None }`.
///
/// It answers a `Result<Value>`. The allocator comes first. A key is an identifier; a value is `None`, a list in `[ ]`,
/// a map in `{ }` or an expression, of which [`to_value`](crate::to_value) makes a value. The last item of a list or
/// map may have a comma after it. Of equal keys the last counts. An error is the first one that `to_value` answers, or
/// out of memory.
#[macro_export]
macro_rules! value {
    (in $alloc:expr; $($entries:tt)*) => {{
        let alloc: std::alloc::Global = $alloc;
        let made: $crate::Result<$crate::Value> = 'value: {
            Ok($crate::value_inside!(alloc 'value; {$($entries)*}))
        };
        made
    }};
    ($($entries:tt)*) => {
        compile_error!("`value!` takes an allocator first: `value! { in alloc; name: 1 }?`")
    };
}

#[doc(hidden)]
#[macro_export]
macro_rules! value_inside {
    // `?`, but it leaves the block of `value!`, not the function in which that is.
    (@done $out:lifetime $step:expr) => {
        match $step {
            Ok(done) => done,
            Err(error) => break $out Err($crate::Error::from(error)),
        }
    };

    (@items $alloc:ident $out:lifetime $items:ident) => {};
    (@items $alloc:ident $out:lifetime $items:ident None $(, $($rest:tt)*)?) => {
        $crate::value_inside!(@done $out $crate::push(&mut $items, $crate::Value::None));
        $crate::value_inside!(@items $alloc $out $items $($($rest)*)?);
    };
    (@items $alloc:ident $out:lifetime $items:ident [$($inner:tt)*] $(, $($rest:tt)*)?) => {
        let item = $crate::value_inside!($alloc $out; [$($inner)*]);
        $crate::value_inside!(@done $out $crate::push(&mut $items, item));
        $crate::value_inside!(@items $alloc $out $items $($($rest)*)?);
    };
    (@items $alloc:ident $out:lifetime $items:ident {$($inner:tt)*} $(, $($rest:tt)*)?) => {
        let item = $crate::value_inside!($alloc $out; {$($inner)*});
        $crate::value_inside!(@done $out $crate::push(&mut $items, item));
        $crate::value_inside!(@items $alloc $out $items $($($rest)*)?);
    };
    (@items $alloc:ident $out:lifetime $items:ident $item:expr $(, $($rest:tt)*)?) => {
        let item = $crate::value_inside!(@done $out $crate::to_value($alloc, $item));
        $crate::value_inside!(@done $out $crate::push(&mut $items, item));
        $crate::value_inside!(@items $alloc $out $items $($($rest)*)?);
    };

    (@entries $alloc:ident $out:lifetime $entries:ident) => {};
    (@entries $alloc:ident $out:lifetime $entries:ident $key:ident: None $(, $($rest:tt)*)?) => {
        $crate::value_inside!(@put $alloc $out $entries $key $crate::Value::None);
        $crate::value_inside!(@entries $alloc $out $entries $($($rest)*)?);
    };
    (@entries $alloc:ident $out:lifetime $entries:ident $key:ident: [$($inner:tt)*] $(, $($rest:tt)*)?) => {
        let item = $crate::value_inside!($alloc $out; [$($inner)*]);
        $crate::value_inside!(@put $alloc $out $entries $key item);
        $crate::value_inside!(@entries $alloc $out $entries $($($rest)*)?);
    };
    (@entries $alloc:ident $out:lifetime $entries:ident $key:ident: {$($inner:tt)*} $(, $($rest:tt)*)?) => {
        let item = $crate::value_inside!($alloc $out; {$($inner)*});
        $crate::value_inside!(@put $alloc $out $entries $key item);
        $crate::value_inside!(@entries $alloc $out $entries $($($rest)*)?);
    };
    (@entries $alloc:ident $out:lifetime $entries:ident $key:ident: $item:expr $(, $($rest:tt)*)?) => {
        let item = $crate::value_inside!(@done $out $crate::to_value($alloc, $item));
        $crate::value_inside!(@put $alloc $out $entries $key item);
        $crate::value_inside!(@entries $alloc $out $entries $($($rest)*)?);
    };
    (@put $alloc:ident $out:lifetime $entries:ident $key:ident $item:expr) => {
        $crate::value_inside!(@done $out $crate::put($alloc, &mut $entries, stringify!($key), $item));
    };

    ($alloc:ident $out:lifetime; []) => {
        $crate::Value::List(Vec::new($alloc))
    };
    ($alloc:ident $out:lifetime; [$($items:tt)+]) => {{
        let mut items = Vec::new($alloc);
        $crate::value_inside!(@items $alloc $out items $($items)+);
        $crate::Value::List(items)
    }};
    ($alloc:ident $out:lifetime; {}) => {
        $crate::Value::Map(std::collections::BTreeMap::new($alloc))
    };
    ($alloc:ident $out:lifetime; {$($entries:tt)+}) => {{
        let mut entries = std::collections::BTreeMap::new($alloc);
        $crate::value_inside!(@entries $alloc $out entries $($entries)+);
        $crate::Value::Map(entries)
    }};
}
