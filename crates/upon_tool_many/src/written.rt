// Files that are written only if what they hold changes.
ghost use Rattle.std.specs.Prelude.{◌≡◌, true};
ghost use Rattle.upon_tool_io.specs.Paths.{joined_path};
ghost use Rattle.upon_tool_io.specs.Written.{Changes};

use std::io::{self, Write};
use upon_tool_io::files::joined;
use upon_tool_io::output::WriteFault;
use upon_tool_io::sources::Sources;
use upon_tool_io::targets::Targets;

/// Writes bytes to the file of a name in a folder, which is made if it is not there, and so are the folders between.
/// Returns whether the file is another one now: one that holds these bytes already is not written.
///
/// The error says why it is not written; then nothing is.
pub fn write_page<R: Sources + AllocGlobal, T: Targets>(
    rt: &R,
    targets: &mut T,
    folder: &str,
    name: &str,
    bytes: &[u8],
) -> Result<bool, WriteFault>
    ensures { Changes (R.world rt.now) (joined_path folder.now name.now) bytes.now result
        (T.written targets.old) (T.written targets.new) }
{
    let path = joined(rt.alloc(), folder, name)?;
    make_folders(targets, path.as_str())?;
    write_changed(rt, targets, path.as_str(), bytes)
}

// Makes the folder of a path, and those above it, if they are not there.
fn make_folders<T: Targets>(targets: &mut T, path: &str) -> io::Result<()>
    ensures { T.written targets.new ≡ T.written targets.old }
{
    match path.rsplit_once('/') {
        Some((inside, _)) => targets.make_folders(inside),
        None => Ok(()),
    }
}

/// Writes bytes to the file of a path, which is replaced at the good end alone, unless it holds them already. Returns
/// whether it was written.
///
/// The error says why it is not written; then nothing is.
pub fn write_changed<R: Sources + AllocGlobal, T: Targets>(
    rt: &R,
    targets: &mut T,
    path: &str,
    bytes: &[u8],
) -> Result<bool, WriteFault>
    ensures { Changes (R.world rt.now) path.now bytes.now result (T.written targets.old) (T.written targets.new) }
{
    if file_holds(rt, path, bytes) {
        return Ok(false);
    }
    let mut new = targets.open(rt.alloc(), path, 0)?;
    match new.write_all(bytes) {
        Ok(()) => {
            targets.keep(path, new)?;
            Ok(true)
        }
        Err(error) => {
            targets.discard(new);
            Err(error.into())
        }
    }
}

// Whether a path is a file that holds these bytes and no more. One of another length is not read.
fn file_holds<R: Sources + AllocGlobal>(rt: &R, path: &str, bytes: &[u8]) -> bool
    ensures { result ≡ true → (R.world rt.now).holds path.now bytes.now }
{
    match rt.length_of(path) {
        Ok(Some(length)) if length == bytes.len() as u64 => {}
        _ => return false,
    }
    match rt.bytes_of(rt.alloc(), path) {
        Ok(found) => found.as_slice() == bytes,
        Err(_) => false,
    }
}
