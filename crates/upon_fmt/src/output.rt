// Where rendered text goes.
ghost use Rattle.std.specs.Prelude.{◌≡◌, List, ℕ, [], Option, Some, string_bytes};
ghost use Rattle.upon_fmt.specs.Given.{Gave, Wrote};
ghost use Rattle.upon_fmt.specs.Mark.{set_aside, waiting, Notes};
ghost use Rattle.upon_fmt.specs.declared.output.Mark.{Mark};
ghost use Rattle.upon_fmt.specs.declared.output.Mark.TheVariants.{Clear};

use std::{fmt, io};

/// The mark of an output: whether a write has failed, and with which error.
#[derive(Clone, Copy, Debug)]
pub enum Mark {
    /// No write has failed.
    Clear,
    /// A write has failed. The last that did answered this error, which waits to be taken.
    Waits(io::Error),
    /// A write has failed. The last that did answered this error, which was taken, or put aside if memory was
    /// refused.
    Taken(io::Error),
}

impl Mark {
    // Takes the error that waits.
    fn take_err(&mut self) -> Option<io::Error>
        ensures error { result ≡ waiting self.old }
        ensures mark { self.new ≡ set_aside self.old }
    {
        match *self {
            Mark::Waits(error) => {
                *self = Mark::Taken(error);
                Some(error)
            }
            Mark::Clear | Mark::Taken(_) => None,
        }
    }

    // Notes how writing ended: where it failed, its error waits.
    fn note(&mut self, written: io::Result<()>) -> fmt::Result
        ensures { Notes written self.old self.new result }
    {
        match written {
            Ok(()) => Ok(()),
            Err(error) => {
                *self = Mark::Waits(error);
                Err(fmt::Error)
            }
        }
    }
}

/// What receives a text, or a beginning of it.
pub trait Output {
    /// The bytes that were received, if they are known.
    ghost given: { Self → Option (List ℕ) };

    /// Whether a write has failed, with which error, and whether that waits to be taken.
    ghost mark: { Self → Mark };

    /// The references that it holds, which it keeps.
    ghost holds: { Self → List ℕ };

    /// Hands on the whole text. It fails if something of the text was not received: a beginning was.
    ///
    /// Then a write failed, whose error waits; or memory was refused, and no error waits.
    fn give(&mut self, text: &str) -> fmt::Result
        ensures same { holds self.new ≡ holds self.old }
        ensures gave { Gave (given self.old) (given self.new) (mark self.old) (mark self.new) result text.now };

    /// Takes the error of a write, right after a text that was not received whole; `None` if memory was refused.
    fn take_err(&mut self) -> Option<io::Error>
        ensures same { holds self.new ≡ holds self.old }
        ensures error { result ≡ waiting (mark self.old) }
        ensures mark { mark self.new ≡ set_aside (mark self.old) }
        ensures given { given self.new ≡ given self.old };
}

/// A text receives all, or nothing if there is no memory. Its mark is always clear.
impl Output for String {
    ghost given = { λ text. Some (string_bytes text) };

    ghost mark = { λ _. Clear };

    ghost holds = { λ _. [] };

    fn give(&mut self, text: &str) -> fmt::Result {
        match self.push_str(text) {
            Ok(()) => Ok(()),
            Err(_) => Err(fmt::Error),
        }
    }

    fn take_err(&mut self) -> Option<io::Error> {
        None
    }
}

// Writes a text whole. It fails where a write fails or takes nothing.
fn write_whole<W: io::Write>(writer: &mut W, text: &str) -> io::Result<()>
    ensures { Wrote (W.contents writer.old) (W.contents writer.new) result text.now }
{
    let bytes = text.as_bytes();
    let mut sent = 0;
    while sent < bytes.len() {
        match writer.write(&bytes[sent..]) {
            Ok(0) => return Err(io::ErrorKind::WriteZero.into()),
            Ok(count) => sent += count,
            Err(error) => return Err(error),
        }
    }
    Ok(())
}

// Writes a text whole, or sets the mark with the error.
fn write_or_mark<W: io::Write>(writer: &mut W, mark: &mut Mark, text: &str) -> fmt::Result
    ensures { Gave (W.contents writer.old) (W.contents writer.new) mark.old mark.new result text.now }
{
    mark.note(write_whole(writer, text))
}

/// A writer as an output. Its mark is set if a write fails, with the error that it answered, or takes nothing; an
/// empty text calls no write.
#[derive(Drop)]
pub struct Writer<W> {
    writer: W,
    mark: Mark,
}

impl<W: io::Write> Writer<W> {
    ghost use Rattle.std.specs.Prelude.{◌≡◌};
    ghost use Rattle.upon_fmt.specs.Writer.{writer_of, mark_of};

    /// Creates a writer that no write has failed for.
    pub fn new(writer: W) -> Writer<W>
        ensures writer { writer_of result ≡ writer }
        ensures mark { mark_of result ≡ Clear }
    {
        let mark = Mark::Clear;
        Writer { writer, mark }
    }
}

impl<W: io::Write> Output for Writer<W> {
    ghost use Rattle.upon_fmt.specs.Writer.{writer_of, mark_of};

    ghost given = { λ w. W.contents (writer_of w) };

    ghost mark = { λ w. mark_of w };

    ghost holds = { λ _. [] };

    fn give(&mut self, text: &str) -> fmt::Result {
        write_or_mark(&mut self.writer, &mut self.mark, text)
    }

    fn take_err(&mut self) -> Option<io::Error> {
        self.mark.take_err()
    }
}

/// A writer that is lent, as an output. It is the same writer throughout, so that its lender knows what it received.
#[derive(Drop)]
pub struct LentWriter<'w, W> {
    writer: &'w mut W,
    mark: Mark,
}

impl<'w, W: io::Write> LentWriter<'w, W> {
    ghost use Rattle.std.specs.Prelude.{◌≡◌};
    ghost use Rattle.upon_fmt.specs.Writer.{lent_writer_of, lent_mark_of};

    /// Creates a writer that no write has failed for.
    pub fn new(writer: &'w mut W) -> LentWriter<'w, W>
        ensures writer { lent_writer_of result ≡ writer.entry }
        ensures mark { lent_mark_of result ≡ Clear }
    {
        let mark = Mark::Clear;
        LentWriter { writer, mark }
    }
}

impl<'w, W: io::Write> Output for LentWriter<'w, W> {
    ghost use Rattle.std.specs.Prelude.{◌∷◌};
    ghost use Rattle.upon_fmt.specs.Writer.{lent_writer_of, lent_mark_of};

    ghost given = { λ w. W.contents (lent_writer_of w).now };

    ghost mark = { λ w. lent_mark_of w };

    ghost holds = { λ w. (lent_writer_of w).ghost_name ∷ [] };

    fn give(&mut self, text: &str) -> fmt::Result {
        write_or_mark(&mut *self.writer, &mut self.mark, text)
    }

    fn take_err(&mut self) -> Option<io::Error> {
        self.mark.take_err()
    }
}
