// What lists are sorted and grouped by: the items themselves, or what is at a key of them.
ghost use Rattle.std.specs.Prelude.{◌≡◌};
ghost use Rattle.upon_types.specs.View.{view};
ghost use Rattle.upon_std.specs.Ordering.Keys.{lent_val, key_val};

use upon_types::value::{Value, look};

// What an item is sorted or grouped by.
#[derive(Clone, Copy)]
pub(crate) enum Key<'k> {
    // The item itself.
    Item,
    // What is at this key of the item. An item that has none there, or is no map, counts as one with none.
    At(&'k str),
}

impl<'k> Key<'k> {
    pub(crate) fn of<'a>(self, item: &'a Value) -> Option<&'a Value>
        ensures { lent_val result ≡ key_val self.entry (view item.now) }
    {
        match self {
            Key::Item => Some(item),
            Key::At(name) => look::entry(item, name),
        }
    }
}
