// The words of a command, by the names of its arguments.
ghost use Rattle.std.specs.Prelude.{IfOk};
ghost use Rattle.upon_tool_io.specs.Rows.{matched_words};
ghost use Rattle.upon_tool_io.specs.Said.{lent_text, lent_texts, Said};

use clap::ArgMatches;
use std::alloc::{AllocError, Global};

/// The words of a command, by the names of its arguments.
///
/// A program that is generic over it knows no more of the words than what `said` says. So it can't take the text of one
/// argument for that of another, nor make up one.
pub trait Words<'a> {
    /// What the words may say.
    ghost said: { Self → Said };

    /// Returns the text of an argument, if it is there.
    fn text(&self, name: &str) -> Option<&'a str>
        ensures { (said self.now).text name.now (lent_text result) };

    /// Returns the texts of an argument that may be there several times, in their order.
    ///
    /// It fails if there is no memory.
    fn texts(&self, alloc: Global, name: &str) -> Result<Vec<&'a str>, AllocError>
        ensures { IfOk result (λ texts. (said self.now).texts name.now (lent_texts texts.items)) };

    /// Returns whether an argument is there.
    fn flag(&self, name: &str) -> bool
        ensures { (said self.now).flag name.now result };

    /// Returns the number of an argument, if it is there.
    fn number(&self, name: &str) -> Option<usize>
        ensures { (said self.now).number name.now result };
}

// The words as clap has read them.
impl<'a> Words<'a> for ArgMatches<'a> {
    ghost said = { matched_words };

    fn text(&self, name: &str) -> Option<&'a str> {
        self.get_str(name)
    }

    fn texts(&self, alloc: Global, name: &str) -> Result<Vec<&'a str>, AllocError> {
        match self.get_strs(name) {
            Some(texts) => Vec::from_slice(alloc, texts),
            None => Ok(Vec::new(alloc)),
        }
    }

    fn flag(&self, name: &str) -> bool {
        self.get_flag(name)
    }

    fn number(&self, name: &str) -> Option<usize> {
        self.get_one::<usize>(name)
    }
}
