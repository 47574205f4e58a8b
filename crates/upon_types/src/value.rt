// The values that templates read and make.
ghost use Rattle.std.specs.Prelude.{◌≡◌, ◌⊎◌, ℕ, List, ◌+◌, ◌<◌, ◌≤◌, false, true, IfOk, IfErr, IfSome, vec_len};
ghost use Rattle.std.specs.BTreeMap.{IsEmpty, btree_map_len, values};
ghost use Rattle.upon_types.specs.Val.{Vals, Entries, none_val, text_val, list_val, map_val, kind_word};
ghost use Rattle.upon_types.specs.ValueKind.{kind_name};
ghost use Rattle.upon_types.specs.View.{view};
ghost use Rattle.upon_types.specs.Weight.{bulk, items_bulk, entries_bulk, holds, all_bare, HasHolder, IsMap, IsWholeMap};

mod clone;
pub mod comparing;
mod copy;
mod cow;
mod from;
mod from_lists;
mod from_maps;
mod from_texts;
pub mod kind;
pub mod look;
pub mod same;
mod ser;
pub mod walk;

pub use clone::{clone_entries, clone_items};
pub use cow::ValueCow;
use kind::ValueKind;
use std::collections::BTreeMap;
use std::mem;

// How many levels of maps in each other are dropped by a call a level.
const LEVELS: usize = 16;

/// A value that a template can read or make.
#[derive(Debug)]
pub enum Value {
    /// No value.
    None,
    /// A truth value.
    Bool(bool),
    /// A whole number.
    Integer(i64),
    /// A text.
    String(String),
    /// Values in a row.
    List(Vec<Value>),
    /// Values by name.
    Map(BTreeMap<String, Value>),
}

impl Value {
    /// Returns what kind of value it is.
    pub fn kind(&self) -> ValueKind
        ensures { kind_name result ≡ kind_word (view self.now) }
    {
        match self {
            Value::None => ValueKind::None,
            Value::Bool(_) => ValueKind::Bool,
            Value::Integer(_) => ValueKind::Integer,
            Value::String(_) => ValueKind::String,
            Value::List(_) => ValueKind::List,
            Value::Map(_) => ValueKind::Map,
        }
    }

    /// Returns what a message calls this kind of value.
    pub fn human(&self) -> &'static str
        ensures { result.now ≡ kind_word (view self.now) }
    {
        let kind = self.kind();
        kind.human()
    }

    /// Returns the text if it is one. Otherwise the value comes back.
    pub fn into_text(self) -> Result<String, Value>
        ensures text { IfOk result (λ text. self ≡ Value.String text) }
        ensures back { IfErr result (λ back. back ≡ self) }
        ensures other { IfErr result (λ back. (bytes : List ℕ) → view back ≡ text_val bytes → ⊥) }
    {
        match self {
            Value::String(text) => Ok(text),
            other => Err(other),
        }
    }

    /// Returns the items if it is a list. Otherwise the value comes back.
    pub fn into_items(self) -> Result<Vec<Value>, Value>
        ensures items { IfOk result (λ items. self ≡ Value.List items) }
        ensures back { IfErr result (λ back. back ≡ self) }
        ensures other { IfErr result (λ back. (vs : Vals) → view back ≡ list_val vs → ⊥) }
    {
        match self {
            Value::List(items) => Ok(items),
            other => Err(other),
        }
    }

    /// Returns the entries if it is a map. Otherwise the value comes back.
    pub fn into_entries(self) -> Result<BTreeMap<String, Value>, Value>
        ensures entries { IfOk result (λ entries. self ≡ Value.Map entries) }
        ensures back { IfErr result (λ back. back ≡ self) }
        ensures other { IfErr result (λ back. (es : Entries) → view back ≡ map_val es → ⊥) }
    {
        match self {
            Value::Map(entries) => Ok(entries),
            other => Err(other),
        }
    }
}

impl Default for Value {
    ghost is_default = { λ v. view v ≡ none_val };

    fn default() -> Self {
        Self::None
    }
}

impl AsRef<Value> for Value {
    fn as_ref(&self) -> &Value
        ensures { result.now ≡ self.now }
    {
        self
    }
}

impl Drop for Value {
    // It is written into each place that drops a value: most hold none.
    #[cycle(drop)]
    #[inline(always)]
    fn drop(self) {
        match self {
            Value::None | Value::Bool(_) | Value::Integer(_) => {}
            Value::String(text) => drop(text),
            Value::List(items) => drop_items(items),
            Value::Map(entries) => {
                if are_shallow(&entries, LEVELS, true) {
                    drop(entries);
                } else {
                    Value::Map(entries).take_apart();
                }
            }
        }
    }
}

// Drops the items of a list, from the end. Of what is in them it calls `drop` only on the values of maps of few levels.
#[cycle(drop)]
#[inline(never)]
fn drop_items(mut items: Vec<Value>) {
    while let Some(item) = items.pop() {
        let Some(left) = item.shed() else {
            continue;
        };
        match left.into_entries() {
            Ok(entries) => {
                if are_shallow(&entries, LEVELS, false) {
                    drop(entries);
                } else {
                    Value::Map(entries).take_apart();
                }
            }
            Err(list) => list.take_apart(),
        }
    }
    items.destroy_empty();
}

impl Value {
    // Whether there is a value in it.
    #[inline(always)]
    fn holds_values(&self) -> bool
        ensures { result ≡ holds self.now }
    {
        match self {
            Value::None | Value::Bool(_) | Value::Integer(_) | Value::String(_) => false,
            Value::List(items) => 0 < items.len(),
            Value::Map(entries) => 0 < entries.len(),
        }
    }

    // Drops a value that holds none.
    #[inline(always)]
    fn drop_bare(self)
        requires { holds self ≡ false }
    {
        match self {
            Value::None | Value::Bool(_) | Value::Integer(_) => {}
            Value::String(text) => drop(text),
            Value::List(items) => items.destroy_empty(),
            Value::Map(entries) => entries.destroy_empty(),
        }
    }

    // Drops it if it holds no values, or is a list of such as hold none. Of another list those at its end are dropped.
    #[inline(always)]
    fn shed(self) -> Option<Value>
        ensures left { IfSome result (λ left. IsMap left ⊎ HasHolder self) }
        ensures whole { IfSome result (λ left. IsWholeMap left self) }
    {
        match self {
            Value::None | Value::Bool(_) | Value::Integer(_) => None,
            Value::String(text) => {
                drop(text);
                None
            }
            Value::List(mut items) => {
                shed_items(&mut items);
                if items.is_empty() {
                    items.destroy_empty();
                    return None;
                }
                Some(Value::List(items))
            }
            Value::Map(entries) => Some(Value::Map(entries)),
        }
    }

    // Drops it without memory, however deep it is. Each list or map that it goes into is left in `above`, in whose last
    // place hangs the one that it came from in turn. It calls `drop` only on a map whose values hold none.
    #[cycle(drop)]
    #[inline(never)]
    fn take_apart(mut self) {
        let mut above = Value::None;
        loop {
            let entered = match self {
                Value::Map(entries) => if are_bare(&entries) {
                    drop(entries);
                    Err(above)
                } else {
                    Value::Map(entries).enter(above)
                },
                value => value.enter(above),
            };
            let next = match entered {
                Ok(inside) => Some(inside),
                Err(above) => above.leave(),
            };
            let Some((value, outer)) = next else {
                return;
            };
            self = value;
            above = outer;
        }
    }

    // Goes into a list or a map: returns its last value that is no bare one, and the list or the map. In the last place
    // hangs `above` then. If there is none, this is dropped, and `above` comes back.
    #[inline(always)]
    fn enter(self, above: Self) -> Result<(Self, Self), Self>
        ensures all { IfOk result (λ entered. bulk entered.0 + bulk entered.1 ≤ bulk self + bulk above) }
        ensures less { IfOk result (λ entered. bulk entered.0 < bulk self) }
        ensures back { IfErr result (λ back. back ≡ above) }
    {
        match self {
            Value::None | Value::Bool(_) | Value::Integer(_) => Err(above),
            Value::String(text) => {
                drop(text);
                Err(above)
            }
            Value::List(mut items) => {
                shed_items(&mut items);
                match hang_on_list(&mut items, above) {
                    Ok(last) => Ok((last, Value::List(items))),
                    Err(above) => {
                        items.destroy_empty();
                        Err(above)
                    }
                }
            }
            Value::Map(mut entries) => {
                shed_entries(&mut entries);
                match hang_on_map(&mut entries, above) {
                    Ok(last) => Ok((last, Value::Map(entries))),
                    Err(above) => {
                        entries.destroy_empty();
                        Err(above)
                    }
                }
            }
        }
    }

    // Goes out of a list or a map: returns it without its last value, and that value, which is the one that it hung on.
    // If there is none, this is dropped.
    #[inline(always)]
    fn leave(self) -> Option<(Self, Self)>
        ensures { IfSome result (λ left. bulk left.0 + bulk left.1 ≤ bulk self) }
    {
        match self {
            Value::None | Value::Bool(_) | Value::Integer(_) => None,
            Value::String(text) => {
                drop(text);
                None
            }
            Value::List(mut items) => match items.pop() {
                Some(outer) => Some((Value::List(items), outer)),
                None => {
                    items.destroy_empty();
                    None
                }
            },
            Value::Map(mut entries) => match entries.pop_last() {
                Some((key, outer)) => {
                    drop(key);
                    Some((Value::Map(entries), outer))
                }
                None => {
                    entries.destroy_empty();
                    None
                }
            },
        }
    }
}

// Drops the values at the end that hold none.
#[inline(always)]
fn shed_items(items: &mut Vec<Value>)
    ensures lighter { items_bulk items.new.items ≤ items_bulk items.old.items }
    ensures left { 0 < vec_len items.new → all_bare items.old.items ≡ false }
{
    while let Some(last) = items.last() {
        if last.holds_values() {
            return;
        }
        match items.pop() {
            Some(bare) => bare.drop_bare(),
            None => return,
        }
    }
}

// Drops the values at the end of the map that hold none.
fn shed_entries(entries: &mut BTreeMap<String, Value>)
    ensures { entries_bulk entries.new.entries ≤ entries_bulk entries.old.entries }
{
    while let Some((_, last)) = entries.last_key_value() {
        if last.holds_values() {
            return;
        }
        match entries.pop_last() {
            Some((key, bare)) => {
                drop(key);
                bare.drop_bare();
            }
            None => return,
        }
    }
}

// Whether none of the values in the map holds a value.
#[inline(always)]
fn are_bare(entries: &BTreeMap<String, Value>) -> bool
    ensures { result ≡ all_bare (values entries.now) }
{
    match entries.len() {
        0..=2 => ends_are_bare(entries),
        3..=15 => few_are_bare(entries),
        _ => many_are_bare(entries),
    }
}

// Whether none of the values in the map holds a value, if these are at most its first and its last: that is fastest.
#[inline(never)]
fn ends_are_bare(entries: &BTreeMap<String, Value>) -> bool
    requires { btree_map_len entries.now ≤ 2 }
    ensures { result ≡ all_bare (values entries.now) }
{
    match (entries.first_key_value(), entries.last_key_value()) {
        (Some((_, first)), Some((_, last))) => !first.holds_values() & !last.holds_values(),
        _ => true,
    }
}

// Whether none of the values in the map holds a value. It looks from the start, which is faster.
#[inline(never)]
fn few_are_bare(entries: &BTreeMap<String, Value>) -> bool
    ensures { result ≡ all_bare (values entries.now) }
{
    for value in entries.values() {
        if value.holds_values() {
            return false;
        }
    }
    true
}

// Whether none of the values in the map holds a value. It looks from the end, where leaves are taken off. So it does
// not look at the same leaves again each time that it comes back to a map.
#[inline(never)]
fn many_are_bare(entries: &BTreeMap<String, Value>) -> bool
    ensures { result ≡ all_bare (values entries.now) }
{
    for value in entries.values().rev() {
        if value.holds_values() {
            return false;
        }
    }
    true
}

// Whether at most so many levels of maps are in each other in the map, and no list is in them but such whose items hold
// no values, or any list where `lists` says so.
#[cycle(shallow)]
#[inline(always)]
fn are_shallow(entries: &BTreeMap<String, Value>, levels: usize, lists: bool) -> bool
    ensures { result ≡ false → all_bare (values entries.now) ≡ false }
{
    if entries.len() <= 2 && ends_are_bare(entries) {
        return true;
    }
    are_all_shallow(entries, levels, lists)
}

// Whether each value of the map is such as `are_shallow` wants.
#[cycle(shallow)]
#[inline(never)]
fn are_all_shallow(entries: &BTreeMap<String, Value>, levels: usize, lists: bool) -> bool
    ensures { result ≡ false → all_bare (values entries.now) ≡ false }
{
    for value in entries.values() {
        if value.holds_values() && !is_shallow(value, levels, lists) {
            return false;
        }
    }
    true
}

// Whether a value of a map is such as `are_shallow` wants.
#[cycle(shallow)]
#[inline(always)]
fn is_shallow(value: &Value, levels: usize, lists: bool) -> bool {
    match value {
        Value::List(items) => lists || are_items_bare(items),
        Value::Map(entries) => 0 < levels && are_shallow(entries, levels - 1, lists),
        _ => true,
    }
}

// Whether none of the items holds a value.
fn are_items_bare(items: &[Value]) -> bool
    ensures { result ≡ all_bare items.now }
{
    for item in items {
        if item.holds_values() {
            return false;
        }
    }
    true
}

// Puts the value in the place of the last item, and returns that item. Where there is none, the value comes back.
#[inline(always)]
fn hang_on_list(items: &mut Vec<Value>, above: Value) -> Result<Value, Value>
    ensures last { IfOk result (λ last.
        items_bulk items.new.items + bulk last ≡ items_bulk items.old.items + bulk above) }
    ensures part { IfOk result (λ last. bulk last ≤ items_bulk items.old.items) }
    ensures back { IfErr result (λ back. back ≡ above) }
    ensures empty { IfErr result (λ back. vec_len items.new ≡ 0) }
{
    match items.last_mut() {
        Some(place) => Ok(mem::replace(place, above)),
        None => Err(above),
    }
}

// Puts the value in the place of the map's last value, and returns that. Where there is none, the value comes back.
#[inline(always)]
fn hang_on_map(entries: &mut BTreeMap<String, Value>, above: Value) -> Result<Value, Value>
    ensures last { IfOk result (λ last.
        entries_bulk entries.new.entries + bulk last ≡ entries_bulk entries.old.entries + bulk above) }
    ensures part { IfOk result (λ last. bulk last ≤ entries_bulk entries.old.entries) }
    ensures back { IfErr result (λ back. back ≡ above) }
    ensures empty { IfErr result (λ back. IsEmpty entries.new) }
{
    match entries.last_entry() {
        Some(place) => Ok(mem::replace(place.into_mut(), above)),
        None => Err(above),
    }
}
