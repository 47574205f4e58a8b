// Files that are read as texts.
ghost use Rattle.std.specs.Prelude.{◌≡◌, ◌⊎◌, Err, IfOk, IfSome, string_bytes};
ghost use Rattle.std.specs.Str.{IsUtf8};
ghost use Rattle.upon_tool_io.specs.Paths.{joined_path};
ghost use Rattle.upon_tool_io.specs.World.{GivesFileText};
ghost use Rattle.upon_tool_io.specs.declared.files.ReadFault.TheVariants.{NotText, Unreadable, OutOfMemory as MemoryIsOut};

use crate::sources::Sources;
use std::alloc::{AllocError, AllocFailed, Global};
use std::io::{self, Read};

/// Why a file gives no text.
#[derive(Debug, Drop)]
pub enum ReadFault {
    /// It could not be read, by this error of the system.
    Unreadable(io::Error),
    /// It is not UTF-8.
    NotText,
    /// It is a link that leads out of the folder that it is in.
    Outside,
    /// There was no memory.
    OutOfMemory,
}

impl From<AllocError> for ReadFault {
    ghost from_gives = { λ _ fault. fault ≡ MemoryIsOut };

    fn from(_: AllocError) -> ReadFault {
        ReadFault::OutOfMemory
    }
}

impl<T: Drop> From<AllocFailed<T>> for ReadFault {
    ghost from_gives = { λ _ fault. fault ≡ MemoryIsOut };

    fn from(_: AllocFailed<T>) -> ReadFault {
        ReadFault::OutOfMemory
    }
}

impl From<io::Error> for ReadFault {
    ghost from_gives = { λ error fault. (fault ≡ MemoryIsOut) ⊎ (fault ≡ Unreadable error) };

    fn from(error: io::Error) -> ReadFault {
        if error.kind() == io::ErrorKind::OutOfMemory {
            ReadFault::OutOfMemory
        } else {
            ReadFault::Unreadable(error)
        }
    }
}

/// Returns the text that a reader gives to its end.
pub fn read_text<I: Read>(alloc: Global, reader: &mut I) -> Result<String, ReadFault>
    // If it is known what the reader has left, that is the text.
    ensures text { IfOk result (λ text. IfSome (I.remaining reader.old) (λ bytes. string_bytes text ≡ bytes)) }
    // And it is not UTF-8, if that is said of it.
    ensures not_text { result ≡ Err NotText → IfSome (I.remaining reader.old) (λ bytes. ¬ IsUtf8 bytes) }
{
    let mut bytes = Vec::new(alloc);
    reader.read_to_end(&mut bytes)?;
    match String::from_utf8(bytes) {
        Ok(text) => Ok(text),
        Err(_) => Err(ReadFault::NotText),
    }
}

/// Returns the text of a file.
///
/// The error says why it is not read, or is `NotText` if it is not UTF-8.
pub fn read_file<R: Sources>(rt: &R, alloc: Global, path: &str) -> Result<String, ReadFault>
    // The file may hold this text, or it gives none.
    ensures { GivesFileText (R.world rt.now) path.now result }
{
    match String::from_utf8(rt.bytes_of(alloc, path)?) {
        Ok(text) => Ok(text),
        Err(_) => Err(ReadFault::NotText),
    }
}

/// Returns the path of a name in a folder; if the folder's name is empty, the name. It fails if there is no memory.
pub fn joined(alloc: Global, folder: &str, name: &str) -> Result<String, AllocError>
    ensures { IfOk result (λ path. string_bytes path ≡ joined_path folder.now name.now) }
{
    let mut path = String::from_str(alloc, folder)?;
    if !folder.is_empty() {
        path.push('/')?;
    }
    path.push_str(name)?;
    Ok(path)
}
