// The schema that a reference is to.
ghost use Rattle.std.specs.Prelude.{◌≡◌, ◌++◌, ℕ, List, Some, true, IfNone, IfSome, option_map};
ghost use Rattle.upon_types.specs.Val.{key_of};
ghost use Rattle.upon_types.specs.View.{view};
ghost use Rattle.upon_schema.specs.Counted.{referred_in, spelled_entry};
ghost use Rattle.upon_schema.specs.Reference.{RefersTo, spelled, spelled_byte};
ghost use Rattle.upon_schema.specs.Valid.{entries_or_none};

use upon_types::value::Value;
use upon_types::value::look::entry;

// The schema that a reference is to, in the whole schema.
pub(crate) fn referred<'a>(root: &'a Value, reference: &str) -> Option<&'a Value>
    ensures refers { IfSome result (λ s. RefersTo (view root.now) reference.now (view s.now)) }
    ensures found { option_map (λ s. view s.now) result ≡ referred_in (view root.now) reference.now }
{
    if reference == "#" {
        return Some(root);
    }
    if let Some(name) = reference.strip_prefix("#/$defs/") {
        return definition(entry(root, "$defs")?, name);
    }
    let name = reference.strip_prefix("#/definitions/")?;
    definition(entry(root, "definitions")?, name)
}

// The definition at the key that `name` spells in a reference.
fn definition<'a>(definitions: &'a Value, name: &str) -> Option<&'a Value>
    ensures at_key { IfSome result (λ s. (key : List ℕ) × (name.now ≡ spelled key)
        × (key_of key (view definitions.now) ≡ Some (view s.now))) }
    ensures found { option_map (λ s. view s.now) result
        ≡ spelled_entry name.now (entries_or_none (Some (view definitions.now))) }
{
    let Value::Map(entries) = definitions else {
        return None;
    };
    for (key, _) in entries.iter() {
        if is_spelled(name.as_bytes(), key.as_bytes()) {
            return entry(definitions, key);
        }
    }
    None
}

// Whether `name` is the spelling of the key in a reference.
fn is_spelled(name: &[u8], key: &[u8]) -> bool
    ensures spelled { result ≡ true → name.now ≡ spelled key.now }
    ensures others { name.now ≡ spelled key.now → result ≡ true }
{
    let mut rest = name;
    for byte in key {
        match after_byte(rest, *byte) {
            Some(after) => rest = after,
            None => return false,
        }
    }
    rest.is_empty()
}

// What is left of a spelling after that of a byte; `None` if it does not begin with it.
fn after_byte(name: &[u8], byte: u8) -> Option<&[u8]>
    ensures rest { IfSome result (λ rest. name.now ≡ spelled_byte byte ++ rest.now) }
    ensures none { IfNone result ((rest : List ℕ) → name.now ≡ spelled_byte byte ++ rest → ⊥) }
{
    match (byte, name) {
        (b'~', [b'~', b'0', rest @ ..]) => Some(rest),
        (b'/', [b'~', b'1', rest @ ..]) => Some(rest),
        (b'~' | b'/', _) => None,
        (_, [first, rest @ ..]) if *first == byte => Some(rest),
        _ => None,
    }
}
