// What serde's data send, written down.
ghost use Rattle.std.specs.Prelude.{◌≡◌, ◌+◌, ◌∷◌, ◌++◌, [], true, length, option_to_list, IsTrue, if◌then◌else◌};
ghost use Rattle.serde.specs.Event.{seq_ends};
ghost use Rattle.upon_serde.specs.Notes.{joined_notes, notes_in, notes_left, notes_events};

use serde::Case;
use std::alloc::Global;
use std::collections::{BTreeMap, LinkedList, VecDeque};
use upon_types::value::Value;

/// What serde's data send: one thing, or a key with its begin and its end. A name of a field or variant is as it is in
/// the program, with the case that it is spelled in; the case comes first, where a note has room for it anyway.
#[derive(Drop)]
pub enum Note {
    Unit,
    Bool(bool),
    Signed(i64),
    Unsigned(u64),
    Char(char),
    Text(String),
    Bytes(Vec<u8>),
    UnitVariant(Case, String),
    BeginSeq(Option<usize>),
    EndSeq,
    BeginMap(Option<usize>),
    /// The begin of a map that is not large, with how many entries it has, and the map that they are put into.
    BeginRoom(u8, BTreeMap<String, Value>),
    EndMap,
    FieldKey(Case, String),
    VariantKey(Case, String),
    BeginKey,
    EndKey,
    /// A key that is a text, with its begin and its end.
    TextKey(String),
    Flatten,
}

/// A row of notes, which are in blocks.
pub type Blocks = LinkedList<Vec<Note>>;

/// Notes in the order in which they were sent: those of the block that is read, and the blocks after it.
#[derive(Drop)]
pub struct Notes {
    first: VecDeque<Note>,
    rest: Blocks,
}

impl Notes {
    /// Creates the notes of blocks.
    pub fn new(alloc: Global, blocks: Blocks) -> Notes
        ensures { notes_in result ≡ joined_notes blocks }
    {
        Notes {
            first: VecDeque::new(alloc),
            rest: blocks,
        }
    }

    /// Returns whether no note is left.
    pub fn is_empty(&self) -> bool
        ensures { IsTrue result → notes_in self.now ≡ [] }
    {
        self.first.is_empty() && self.rest.is_empty()
    }

    /// Takes the first note, if a block has one.
    #[inline(always)]
    pub fn pop_front(&mut self) -> Option<Note>
        ensures items { notes_in self.old ≡ option_to_list result ++ notes_in self.new }
        ensures len { notes_left self.new + length (option_to_list result) ≡ notes_left self.old }
    {
        self.begin_block();
        self.first.pop_front()
    }

    /// Takes the end of a sequence, where it is next.
    #[inline(always)]
    pub fn takes_end_of_seq(&mut self) -> bool
        ensures end { notes_events self.old ≡ (if result then seq_ends
            ∷ notes_events self.new else notes_events self.new) }
        ensures shorter { (if result then notes_left self.new + 1 else notes_left self.new) ≡ notes_left self.old }
    {
        self.begin_block();
        let ends = matches!(self.first.front(), Some(Note::EndSeq));
        if ends {
            self.first.pop_front();
        }
        ends
    }

    // Goes on with the next block where the first is over.
    #[inline(always)]
    fn begin_block(&mut self)
        ensures { notes_in self.new ≡ notes_in self.old }
    {
        if self.first.is_empty() {
            self.take_block();
        }
    }

    // Puts the next block in the place of the first, which is over.
    #[inline(never)]
    fn take_block(&mut self)
        requires { self.old.first.items ≡ [] }
        ensures { notes_in self.new ≡ notes_in self.old }
    {
        if let Some(block) = self.rest.pop_front() {
            self.first = VecDeque::from(block);
        }
    }
}
