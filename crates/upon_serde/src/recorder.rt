// The serializer: it writes down what serde's data send, and refuses at once what no value can hold.
ghost use Rattle.std.specs.Prelude.{◌≡◌, ◌<◌, [], ◌∷◌, ◌++◌, Some, OnOk, IfOk, vec_len, vec_capacity, string_bytes};
ghost use Rattle.serde.specs.Event as event;
ghost use Rattle.upon_serde.specs.Notes.{noted, notes_events, notes_of, begun, sent};

use crate::entries::LARGE;
use crate::fault::{Refused, Result, integer};
use crate::note::{Blocks, Note, Notes};
use serde::{Case, Serializer};
use std::alloc::{AllocError, Global};
use std::collections::{BTreeMap, LinkedList};
use std::fmt::Display;
use std::mem;

// How many notes a block has. It takes less than 1,024 bytes: at each larger request the C library's allocator joins
// all small pieces that were freed, as those of the last context, and cuts them anew for the texts.
const BLOCK: usize = 30;

/// What was sent of a key of a map.
#[derive(Drop)]
pub enum Key {
    /// Nothing: no key is open.
    None,
    /// Its begin, which is not noted yet.
    Begun,
    /// Its begin and a text, which are not noted yet.
    Text(String),
    /// What is noted.
    Noted,
}

/// A serializer that keeps what it is sent.
#[derive(Drop)]
pub struct Recorder {
    alloc: Global,
    full: Blocks,
    notes: Vec<Note>,
    key: Key,
}

impl Recorder {
    /// Creates a recorder that was sent nothing yet.
    pub fn new(alloc: Global) -> Recorder
        ensures { sent result ≡ [] }
    {
        Recorder {
            alloc,
            full: LinkedList::new(alloc),
            notes: Vec::new(alloc),
            key: Key::None,
        }
    }

    /// Returns what it was sent.
    pub fn into_notes(mut self) -> Result<Notes>
        ensures { IfOk result (λ notes. notes_events notes ≡ sent self) }
    {
        self.settle()?;
        let Recorder {
            alloc,
            mut full,
            notes,
            ..
        } = self;
        full.push_back(notes)?;
        Ok(Notes::new(alloc, full))
    }

    #[inline(always)]
    fn push(&mut self, note: Note) -> Result<()>
        ensures notes { OnOk result (notes_of self.new ≡ notes_of self.old ++ note ∷ []) }
        ensures key { self.new.key ≡ self.old.key }
    {
        if self.notes.capacity() <= self.notes.len() {
            self.begin_block()?;
        }
        self.notes.push_reserved(note);
        Ok(())
    }

    // Begins the next block.
    #[inline(never)]
    fn begin_block(&mut self) -> std::result::Result<(), AllocError>
        ensures notes { OnOk result (notes_of self.new ≡ notes_of self.old) }
        ensures room { OnOk result (vec_len self.new.notes < vec_capacity self.new.notes) }
        ensures key { self.new.key ≡ self.old.key }
    {
        let block = Vec::with_capacity(self.alloc, BLOCK)?;
        let full = mem::replace(&mut self.notes, block);
        if !full.is_empty() {
            self.full.push_back(full)?;
        }
        Ok(())
    }

    // Notes what is sent of a key and not noted yet.
    #[inline(always)]
    fn settle(&mut self) -> Result<()>
        ensures sent { OnOk result (sent self.new ≡ sent self.old) }
        ensures noted { OnOk result (begun self.new.key ≡ []) }
    {
        match self.key {
            Key::None => Ok(()),
            _ => self.settle_key(),
        }
    }

    // Notes what is sent of a key that is open.
    #[inline(never)]
    fn settle_key(&mut self) -> Result<()>
        ensures sent { OnOk result (sent self.new ≡ sent self.old) }
        ensures noted { OnOk result (begun self.new.key ≡ []) }
    {
        match mem::replace(&mut self.key, Key::Noted) {
            Key::Begun => self.push(Note::BeginKey),
            Key::Text(text) => {
                self.push(Note::BeginKey)?;
                self.push(Note::Text(text))
            }
            Key::None | Key::Noted => Ok(()),
        }
    }

    #[inline(always)]
    fn note(&mut self, note: Note) -> Result<()>
        ensures { OnOk result (sent self.new ≡ sent self.old ++ noted note []) }
    {
        self.settle()?;
        self.push(note)
    }

    // What may be a value, but no key.
    #[inline(always)]
    fn note_value(&mut self, note: Note) -> Result<()>
        ensures { OnOk result (sent self.new ≡ sent self.old ++ noted note []) }
    {
        match self.key {
            Key::None => self.push(note),
            _ => Err(self.no_key()),
        }
    }

    // The begin of a map that is not large. The map is made at once, so that its node lies among its texts: nodes that
    // lie side by side are joined when they are freed, and with them all small pieces.
    #[inline(always)]
    fn note_room(&mut self, len: u8) -> Result<()>
        ensures { OnOk result (sent self.new ≡ sent self.old ++ event.map_begins (Some len) ∷ []) }
    {
        let mut room = BTreeMap::new(self.alloc);
        drop(room.entry(String::new(self.alloc))?);
        self.note_value(Note::BeginRoom(len, room))
    }

    // A text, which may be a key.
    #[inline(always)]
    fn note_text(&mut self, text: String) -> Result<()>
        ensures { OnOk result (sent self.new ≡ sent self.old ++ event.text (string_bytes text) ∷ []) }
    {
        match self.key {
            Key::Begun => {
                self.key = Key::Text(text);
                Ok(())
            }
            _ => self.note(Note::Text(text)),
        }
    }

    // The begin of a key where a key is open.
    #[inline(never)]
    fn begin_key_in_key(&mut self) -> Result<()>
        ensures { OnOk result (sent self.new ≡ sent self.old ++ event.key_begins ∷ []) }
    {
        self.settle_key()?;
        self.key = Key::Begun;
        Ok(())
    }

    #[inline(never)]
    fn no_key(&self) -> Refused {
        Refused::new(self.alloc, "map key must be a string")
    }

    // What is neither a value nor a key.
    fn refusal(&self, reason: &str) -> Refused {
        match self.key {
            Key::None => Refused::new(self.alloc, reason),
            _ => self.no_key(),
        }
    }
}

impl Serializer for Recorder {
    type Error = Refused;

    ghost written = { λ recorder. Some (sent recorder) };

    #[inline(always)]
    fn bool(&mut self, v: bool) -> Result<()> {
        self.note_value(Note::Bool(v))
    }

    #[inline(always)]
    fn i64(&mut self, v: i64) -> Result<()> {
        self.note(Note::Signed(v))
    }

    fn u64(&mut self, v: u64) -> Result<()> {
        if matches!(self.key, Key::None) {
            integer(self.alloc, v)?;
        }
        self.note(Note::Unsigned(v))
    }

    fn i128(&mut self, _v: i128) -> Result<()> {
        Err(self.refusal("i128 is not supported"))
    }

    fn u128(&mut self, _v: u128) -> Result<()> {
        Err(self.refusal("u128 is not supported"))
    }

    fn f32(&mut self, _v: f32) -> Result<()> {
        Err(self.refusal("floating point numbers are not supported"))
    }

    fn f64(&mut self, _v: f64) -> Result<()> {
        Err(self.refusal("floating point numbers are not supported"))
    }

    fn char(&mut self, v: char) -> Result<()> {
        self.note(Note::Char(v))
    }

    #[inline(always)]
    fn str(&mut self, v: &str) -> Result<()> {
        let text = String::from_str(self.alloc, v)?;
        self.note_text(text)
    }

    fn bytes(&mut self, v: &[u8]) -> Result<()> {
        let bytes = Vec::from_slice(self.alloc, v)?;
        self.note_value(Note::Bytes(bytes))
    }

    fn unit(&mut self) -> Result<()> {
        self.note_value(Note::Unit)
    }

    fn str_cased(&mut self, name: &str, case: Case) -> Result<()> {
        let name = String::from_str(self.alloc, name)?;
        self.note(Note::UnitVariant(case, name))
    }

    fn begin_seq(&mut self, len: Option<usize>) -> Result<()> {
        self.note_value(Note::BeginSeq(len))
    }

    fn end_seq(&mut self) -> Result<()> {
        self.note(Note::EndSeq)
    }

    fn begin_map(&mut self, len: Option<usize>) -> Result<()> {
        match len {
            Some(len) if 0 < len && len <= LARGE => self.note_room(len as u8),
            _ => self.note_value(Note::BeginMap(len)),
        }
    }

    fn end_map(&mut self) -> Result<()> {
        self.note(Note::EndMap)
    }

    fn key_cased(&mut self, name: &str, case: Case) -> Result<()> {
        let name = String::from_str(self.alloc, name)?;
        self.note(Note::FieldKey(case, name))
    }

    fn variant_key(&mut self, name: &str, case: Case) -> Result<()> {
        let name = String::from_str(self.alloc, name)?;
        self.note(Note::VariantKey(case, name))
    }

    fn begin_key(&mut self) -> Result<()> {
        match self.key {
            Key::None => {
                self.key = Key::Begun;
                Ok(())
            }
            _ => self.begin_key_in_key(),
        }
    }

    fn end_key(&mut self) -> Result<()> {
        match mem::replace(&mut self.key, Key::None) {
            Key::Text(text) => self.push(Note::TextKey(text)),
            Key::Begun => {
                self.push(Note::BeginKey)?;
                self.push(Note::EndKey)
            }
            _ => self.push(Note::EndKey),
        }
    }

    fn flatten_next(&mut self) -> Result<()> {
        self.note(Note::Flatten)
    }

    fn custom(&self, message: &str) -> Refused {
        Refused::new(self.alloc, message)
    }

    fn collect_str<T: Display>(&mut self, value: &T) -> Result<()> {
        let text = format!(in self.alloc; "{value}")?;
        self.note_text(text)
    }
}
