// The texts that a run reads: files by their names, standard input, and the files of a folder.
ghost use Rattle.std.specs.Prelude.{◌≡◌, false, IfErr, IfOk, IsSomeAnd, string_bytes};
ghost use Rattle.upon_tool_data.specs.Sources.{is_standard, IsTextOf};
ghost use Rattle.upon_tool_many.specs.Pages.{EachWith};
ghost use Rattle.upon_tool_pages.specs.Sources.{AreFolderFiles, IsReadBy, IsReadFile, IsUnlisted, IsUnread, Unread};

use std::alloc::AllocError;
use std::collections::BTreeMap;
use std::io::{ErrorKind, Read};
use upon_tool_data::sources::read_source;
use upon_tool_io::files::{ReadFault, joined, read_file};
use upon_tool_io::sources::Sources;
use upon_tool_messages::failure::Failure;

/// A file of a folder, by its path there, with what was read of it.
#[derive(Drop)]
pub struct FolderFile {
    /// The path.
    pub name: String,
    /// The text, or why there is none.
    pub read: Result<String, ReadFault>,
}

/// Reads the files of a folder, if one is given; those that links out of it lead to, if such links are followed.
///
/// The error says why the folder is not read.
pub fn files_in<'a, R: Sources + AllocGlobal>(
    rt: &R,
    folder: Option<&'a str>,
    follows: bool,
) -> Result<Vec<FolderFile>, Failure<'a>>
    // They are those that the folder may list, each with a text that it may hold, or with why it gives none.
    ensures files { IfOk result (λ files. AreFolderFiles (R.world rt.now) folder.entry follows files.items) }
    ensures unread { IfErr result (λ failure. IsSomeAnd folder.entry
        (λ folder. IsUnlisted (R.world rt.now) folder failure)) }
{
    let alloc = rt.alloc();
    let Some(folder) = folder else {
        return Ok(Vec::new(alloc));
    };
    match rt.files_of(alloc, folder, follows) {
        Ok(listed) => Ok(read_each(rt, folder, listed)?),
        Err(fault) => Err(failure_of(folder, fault)),
    }
}

// Reads the files that a folder lists.
fn read_each<R: Sources + AllocGlobal>(
    rt: &R,
    folder: &str,
    listed: BTreeMap<String, Option<ReadFault>>,
) -> Result<Vec<FolderFile>, AllocError>
    ensures { IfOk result
        (λ files. EachWith (IsReadFile (R.world rt.now) folder.now) listed.entries files.items) }
{
    let mut files = Vec::new(rt.alloc());
    for (name, fault) in listed {
        files.push(read_one(rt, folder, name, fault)?)?;
    }
    Ok(files)
}

// Reads a file that a folder lists, unless it is known why it can't be read.
fn read_one<R: Sources + AllocGlobal>(
    rt: &R,
    folder: &str,
    name: String,
    fault: Option<ReadFault>,
) -> Result<FolderFile, AllocError>
    ensures { IfOk result (IsReadFile (R.world rt.now) folder.now (name, fault)) }
{
    let path = joined(rt.alloc(), folder, name.as_str())?;
    let read = read_unless(rt, path.as_str(), fault);
    Ok(FolderFile { name, read })
}

// Reads the file of a path, unless it is known why it can't be read.
fn read_unless<R: Sources + AllocGlobal>(
    rt: &R,
    path: &str,
    fault: Option<ReadFault>,
) -> Result<String, ReadFault>
    ensures { IsReadBy (R.world rt.now) fault path.now result }
{
    match fault {
        Some(fault) => Err(fault),
        None => read_file(rt, rt.alloc(), path),
    }
}

/// Returns the text of a file, or of standard input.
///
/// The error says why it is not read, or that it is not UTF-8.
pub fn text_of<'a, R: Sources + AllocGlobal, I: Read>(
    rt: &R,
    name: &'a str,
    input: &mut I,
) -> Result<String, Failure<'a>>
    // The text of standard input is what it has left, if that is known; that of a file is one that it may hold.
    ensures text { IfOk result (λ text. IsTextOf (R.world rt.now) name.entry.now (I.remaining input.old)
        (string_bytes text)) }
    // For a file the input is not read.
    ensures kept { is_standard name.entry.now ≡ false → I.remaining input.new ≡ I.remaining input.old }
    ensures unread { IfErr result (IsUnread (R.world rt.now) name.entry (I.remaining input.old)) }
{
    match read_source(rt, name, input) {
        Ok(text) => Ok(text),
        Err(fault) => Err(failure_of(name, fault)),
    }
}

// Why a file of this name is not read.
fn failure_of<'a>(name: &'a str, fault: ReadFault) -> Failure<'a>
    ensures { Unread name.entry fault result }
{
    match fault {
        ReadFault::Unreadable(error) => Failure::Unreadable(name, error),
        ReadFault::Outside => Failure::Unreadable(name, ErrorKind::PermissionDenied.into()),
        ReadFault::NotText => Failure::NotText(name),
        ReadFault::OutOfMemory => AllocError.into(),
    }
}
