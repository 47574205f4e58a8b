// Files that are written, each whole or not at all.
ghost use Rattle.std.specs.Prelude.{◌≡◌, [], None, Some, IfOk, IfSome};
ghost use Rattle.upon_tool_io.specs.Written.{KeepsFile, Log};

use crate::output::{Replacement, WriteFault};
use std::alloc::Global;
use std::fs;
use std::io::{self, BufWriter, Write};
use std::rt::Files;

/// Files that are written, each whole or not at all.
///
/// A program that is generic over it writes no file but through it, and its clauses say what was written under which
/// name. So no type that implements it may be `Clone` in the bounds of such a program: a copy could be written to.
pub trait Targets {
    /// A new file, which has no name yet.
    type New: Write + Drop;

    /// What was written, each text under the name of its file, the first first, if that is known.
    ghost written: { Self → Log };

    /// Makes a folder, and those above it, if they are not there.
    ///
    /// The error is the system's.
    fn make_folders(&mut self, folder: &str) -> io::Result<()>
        ensures { written self.new ≡ written self.old };

    /// Opens a new file for a name, which holds so many bytes until they are written. What it holds is known, if it is
    /// known what was written.
    ///
    /// The error says why the file of the name can't be replaced.
    fn open(&mut self, alloc: Global, name: &str, buffer: usize) -> Result<Self::New, WriteFault>
        ensures start { IfOk result (λ new. IfSome (written self.old) (λ _. Self.New.contents new ≡ Some [])) }
        ensures same { written self.new ≡ written self.old };

    /// Puts a new file in the place of the one of a name.
    ///
    /// The error is the system's; then the file is as it was.
    fn keep(&mut self, name: &str, new: Self::New) -> io::Result<()>
        ensures { KeepsFile (Self.New.contents new) name.now result (written self.old) (written self.new) };

    /// Removes a new file. The one of its name is as it was.
    fn discard(&mut self, new: Self::New)
        ensures { written self.new ≡ written self.old };
}

/// The system's files, as they are written. What was written is not known.
#[derive(Drop)]
pub struct SystemTargets<'r, R> {
    rt: &'r R,
}

impl<'r, R: Files + AllocGlobal> SystemTargets<'r, R> {
    /// Returns the files of a runtime.
    pub fn new(rt: &'r R) -> SystemTargets<'r, R> {
        SystemTargets { rt }
    }
}

/// A new file of the system.
#[derive(Drop)]
pub struct SystemNew<F: Write + Drop> {
    writer: BufWriter<F>,
    replacement: Replacement,
}

impl<F: Write + Drop> Write for SystemNew<F> {
    fn write(&mut self, buf: &[u8]) -> io::Result<usize> {
        self.writer.write(buf)
    }

    fn flush(&mut self) -> io::Result<()> {
        self.writer.flush()
    }
}

impl<'r, R: Files + AllocGlobal> Targets for SystemTargets<'r, R> {
    type New = SystemNew<R::File>;

    ghost written = { λ _. None };

    fn make_folders(&mut self, folder: &str) -> io::Result<()> {
        fs::create_dir_all(self.rt, folder)
    }

    fn open(
        &mut self,
        alloc: Global,
        name: &str,
        buffer: usize,
    ) -> Result<SystemNew<R::File>, WriteFault> {
        let (replacement, file) = Replacement::open(self.rt, name)?;
        match BufWriter::with_capacity(alloc, buffer, file) {
            Ok(writer) => Ok(SystemNew {
                writer,
                replacement,
            }),
            Err(error) => {
                replacement.discard(self.rt);
                Err(WriteFault::Io(error))
            }
        }
    }

    fn keep(&mut self, _: &str, new: SystemNew<R::File>) -> io::Result<()> {
        let SystemNew {
            mut writer,
            replacement,
        } = new;
        match writer.flush() {
            Ok(()) => replacement.keep(self.rt, writer.get_ref()),
            Err(error) => {
                replacement.discard(self.rt);
                Err(error)
            }
        }
    }

    fn discard(&mut self, new: SystemNew<R::File>) {
        new.replacement.discard(self.rt);
    }
}
