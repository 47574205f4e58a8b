// A step from a value to one inside it, for the crates that render: a template's `user.name` is such a step.
ghost use Rattle.std.specs.Prelude.{◌≡◌, option_map};
ghost use Rattle.upon_types.specs.Val.{key_of};
ghost use Rattle.upon_types.specs.View.{view};

use super::Value;

/// Returns the value at a key of a map. Other values have no keys.
pub fn entry<'a>(value: &'a Value, key: &str) -> Option<&'a Value>
    ensures { option_map (λ v. view v.now) result ≡ key_of key.now (view value.now) }
{
    match value {
        Value::Map(entries) => entries.get(key),
        _ => None,
    }
}
