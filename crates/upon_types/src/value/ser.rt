// Values as serde's data, so that a value can be written to any format, and be part of a context.
ghost use Rattle.std.specs.Prelude.{OnOk};
ghost use Rattle.upon_types.specs.Events.{SendsVal};
ghost use Rattle.upon_types.specs.Val.{list_val, map_val};
ghost use Rattle.upon_types.specs.View.{view, vals_view, entries_view};

use super::Value;
use serde::{Described, Serialize, Serializer};
use std::collections::BTreeMap;

impl Described for Value {
    ghost writes = { λ v. SendsVal (view v) };
}

impl Serialize for Value {
    fn serialize<S: Serializer>(&self, out: &mut S) -> Result<(), S::Error> {
        send(self, out)
    }
}

#[cycle(send)]
#[inline(always)]
fn send<S: Serializer>(value: &Value, out: &mut S) -> Result<(), S::Error>
    ensures { OnOk result (SendsVal (view value.now) (S.written out.old) (S.written out.new)) }
{
    match value {
        Value::None => out.unit(),
        Value::Bool(truth) => out.bool(*truth),
        Value::Integer(number) => out.i64(*number),
        Value::String(text) => out.str(text.as_str()),
        Value::List(items) => send_items(items, out),
        Value::Map(entries) => send_entries(entries, out),
    }
}

#[cycle(send)]
#[inline(never)]
fn send_items<S: Serializer>(items: &Vec<Value>, out: &mut S) -> Result<(), S::Error>
    ensures { OnOk result
        (SendsVal (list_val (vals_view items.now.items)) (S.written out.old) (S.written out.new)) }
{
    out.begin_seq(Some(items.len()))?;
    for item in items {
        send(item, out)?;
    }
    out.end_seq()
}

#[cycle(send)]
#[inline(never)]
fn send_entries<S: Serializer>(
    entries: &BTreeMap<String, Value>,
    out: &mut S,
) -> Result<(), S::Error>
    ensures { OnOk result
        (SendsVal (map_val (entries_view entries.now.entries)) (S.written out.old) (S.written out.new)) }
{
    out.begin_map(Some(entries.len()))?;
    for (key, value) in entries.iter() {
        out.begin_key()?;
        out.str(key.as_str())?;
        out.end_key()?;
        send(value, out)?;
    }
    out.end_map()
}
