// Laws of values: what holds of each value that a program makes.
ghost use Rattle.upon_types.specs.View.{view};
ghost use Rattle.upon_render.specs.LoopItems.{KeysRise};

use upon_types::value::Value;

/// States that the keys of a map ascend, in the order of their bytes: what laws of maps ask for holds of each context
/// that is a map, and of each map that a loop goes over.
pub fn keys_ascend(value: &Value)
    ensures { KeysRise (view value.now) }
{
    match value {
        Value::None => {}
        Value::Bool(_) => {}
        Value::Integer(_) => {}
        Value::String(_) => {}
        Value::List(_) => {}
        Value::Map(entries) => {
            let _ = entries.len();
        }
    }
}
