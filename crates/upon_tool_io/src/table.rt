// Words in memory, of which all is known.
ghost use Rattle.std.specs.Prelude.{◌≡◌, is_some, IfOk, IfSome};
ghost use Rattle.upon_tool_io.specs.Asks.{is_command, AsksFor};
ghost use Rattle.upon_tool_io.specs.Table.{has_flag, table_words, value_under};

use crate::arguments::{Call, asked_by};
use crate::words::Words;
use std::alloc::{AllocError, Global};

/// Words in memory.
#[derive(Drop)]
pub struct Table<'a> {
    /// The arguments with a text, each with its name. Where one takes a single text, the first of a name counts.
    pub texts: Vec<(&'a str, &'a str)>,
    /// The names of the arguments that take nothing.
    pub flags: Vec<&'a str>,
    /// The arguments with a number, each with its name, of which the first counts.
    pub numbers: Vec<(&'a str, usize)>,
}

impl<'a> Table<'a> {
    /// Returns what these words of a command ask for, if it is one of the program's.
    ///
    /// The error says that there is no memory.
    pub fn asked(&self, alloc: Global, command: &str) -> Option<Result<Call<'a>, AllocError>>
        ensures known { is_some result ≡ is_command command.now }
        ensures asks { IfSome result (λ asked. IfOk asked (AsksFor (table_words self.now) command.now)) }
    {
        asked_by(alloc, command, self)
    }
}

impl<'a> Words<'a> for Table<'a> {
    ghost said = { table_words };

    fn text(&self, name: &str) -> Option<&'a str> {
        value_under(self.texts.as_slice(), name)
    }

    fn texts(&self, alloc: Global, name: &str) -> Result<Vec<&'a str>, AllocError> {
        let mut found = Vec::new(alloc);
        for row in &self.texts {
            if row.0 == name {
                found.push(row.1)?;
            }
        }
        Ok(found)
    }

    fn flag(&self, name: &str) -> bool {
        has_flag(self.flags.as_slice(), name)
    }

    fn number(&self, name: &str) -> Option<usize> {
        value_under(self.numbers.as_slice(), name)
    }
}

// The first value of a name.
fn value_under<V: Copy>(rows: &[(&str, V)], name: &str) -> Option<V>
    ensures { result ≡ value_under name.now rows.now }
{
    for row in rows {
        if row.0 == name {
            return Some(row.1);
        }
    }
    None
}

// Whether a name is among those of flags.
fn has_flag(flags: &[&str], name: &str) -> bool
    ensures { result ≡ has_flag name.now flags.now }
{
    for flag in flags {
        if *flag == name {
            return true;
        }
    }
    false
}
