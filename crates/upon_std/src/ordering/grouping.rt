// Groups the items of lists. Each item's key is looked up once, and its group is found once; the items of each group
// stay lent until all are found, and are then copied.
ghost use Rattle.std.specs.Prelude.{◌≡◌, IfOk, OnOk, map};
ghost use Rattle.upon_types.specs.View.{view};
ghost use Rattle.upon_std.specs.Basic.Items.{value_at_key};
ghost use Rattle.upon_std.specs.Ordering.Grouping.{group_val, grouped};
ghost use Rattle.upon_std.specs.Ordering.Groups.{added_at, group_parts, lent_vals, parted};
ghost use Rattle.upon_std.specs.Ordering.Keys.{lent_val};

use crate::ordering::places::Places;
use std::alloc::{AllocError, Global};
use std::collections::BTreeMap;
use upon_types::value::{Value, look};

// What some items have at a key, and these items.
#[derive(Drop)]
struct Group<'a> {
    key: Option<&'a Value>,
    members: Vec<&'a Value>,
}

// A group for each value that items have at a key, in the order in which these first come.
pub(crate) fn grouped(alloc: Global, items: &[Value], name: &str) -> Result<Vec<Value>, AllocError>
    ensures { IfOk result (λ groups. map view groups.items ≡ grouped (value_at_key name.now) (map view items.now)) }
{
    let groups = groups(alloc, items, name)?;
    let mut maps = Vec::with_capacity(alloc, groups.len())?;
    for group in &groups {
        maps.push(map_of(alloc, group)?)?;
    }
    Ok(maps)
}

// The items in groups, by what they have at a key.
fn groups<'a>(alloc: Global, items: &'a [Value], name: &str) -> Result<Vec<Group<'a>>, AllocError>
    ensures { IfOk result
        (λ groups. map group_parts groups.items ≡ parted (value_at_key name.now) (map view items.now)) }
{
    let none = Value::None;
    let mut groups = Vec::new(alloc);
    let mut places = Places::new(alloc);
    for item in items {
        let key = look::entry(item, name);
        let place = places.place(alloc, key.unwrap_or(&none), groups.len())?;
        add(alloc, &mut groups, place, key, item)?;
    }
    Ok(groups)
}

// Adds an item to the group at a place. Where there is none, it gets a new group after the others.
fn add<'a>(
    alloc: Global,
    groups: &mut Vec<Group<'a>>,
    place: usize,
    key: Option<&'a Value>,
    item: &'a Value,
) -> Result<(), AllocError>
    ensures { OnOk result (map group_parts groups.new.items
        ≡ added_at place (lent_val key.entry) (view item.now) (map group_parts groups.old.items)) }
{
    if let Some(group) = groups.get_mut(place) {
        group.members.push(item)?;
        return Ok(());
    }
    let mut members = Vec::new(alloc);
    members.push(item)?;
    groups.push(Group { key, members })?;
    Ok(())
}

// The map of a group.
fn map_of(alloc: Global, group: &Group) -> Result<Value, AllocError>
    ensures { IfOk result
        (λ v. view v ≡ group_val (lent_val group.now.key) (lent_vals group.now.members.items)) }
{
    let key = match group.key {
        Some(key) => key.try_clone()?,
        None => Value::None,
    };
    let members = copied(alloc, &group.members)?;
    let mut entries = BTreeMap::new(alloc);
    drop(entries.insert(String::from_str(alloc, "items")?, Value::List(members))?);
    drop(entries.insert(String::from_str(alloc, "key")?, key)?);
    Ok(Value::Map(entries))
}

// Copies of lent items.
fn copied(alloc: Global, items: &[&Value]) -> Result<Vec<Value>, AllocError>
    ensures { IfOk result (λ copies. map view copies.items ≡ lent_vals items.now) }
{
    let mut copies = Vec::with_capacity(alloc, items.len())?;
    for item in items {
        copies.push(item.try_clone()?)?;
    }
    Ok(copies)
}
