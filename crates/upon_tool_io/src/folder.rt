// The files of a folder and of its subfolders, as the system has them.
use crate::files::{ReadFault, joined};
use std::alloc::AllocError;
use std::collections::BTreeMap;
use std::fs::{self, DirEntry};
use std::io;
use std::path::PathBuf;
use std::rt::Files;

/// Returns the paths of the files of a folder and of its subfolders, as they are in it, in ascending order, each with
/// the reason why it can't be read, if that is known already.
///
/// A link to a file is one of them, and so is a link to nothing. It is refused if it leads out of the folder, unless
/// such links are followed. Links to folders are not followed. A subfolder that can't be listed stands for the files in
/// it. What is no file is left out, and so is a file whose name is not UTF-8: no template can name it.
pub(crate) fn files_of<R: Files + AllocGlobal + Clone + Drop>(
    rt: &R,
    folder: &str,
    follows: bool,
) -> Result<BTreeMap<String, Option<ReadFault>>, ReadFault> {
    let alloc = rt.alloc();
    let mut listing = Listing {
        root: String::from_str(alloc, fs::canonicalize(rt, folder)?.as_str())?,
        follows,
        files: BTreeMap::new(alloc),
        folders: Vec::new(alloc),
    };
    list(rt, folder, "", &mut listing)?;
    for _ in 0..u64::MAX {
        let Some(inside) = listing.folders.pop() else {
            break;
        };
        match list(rt, folder, inside.as_str(), &mut listing) {
            Ok(()) => {}
            Err(ReadFault::OutOfMemory) => return Err(ReadFault::OutOfMemory),
            Err(fault) => drop(listing.files.insert(inside, Some(fault))?),
        }
    }
    Ok(listing.files)
}

// The files that were found, and the folders that wait to be read, by their paths in the folder.
#[derive(Drop)]
struct Listing {
    // The folder's own path, without links.
    root: String,
    follows: bool,
    files: BTreeMap<String, Option<ReadFault>>,
    folders: Vec<String>,
}

// Lists what is in a folder of the folder.
fn list<R: Files + AllocGlobal + Clone + Drop>(
    rt: &R,
    folder: &str,
    inside: &str,
    listing: &mut Listing,
) -> Result<(), ReadFault> {
    let alloc = rt.alloc();
    let path = joined(alloc, folder, inside)?;
    for entry in fs::read_dir(rt, path.as_str())? {
        match entry {
            Ok(entry) => {
                let name = joined(alloc, inside, entry.file_name())?;
                put(rt, &entry, name, listing)?;
            }
            Err(error) if error.kind() == io::ErrorKind::InvalidFilename => {}
            Err(error) => return Err(error.into()),
        }
    }
    Ok(())
}

// What an entry of a folder is.
#[derive(Drop)]
enum Kind {
    Folder,
    File,
    // A file that can't be read.
    Refused(ReadFault),
    Other,
}

// Puts an entry where it belongs.
fn put<R: Files + AllocGlobal + Clone + Drop>(
    rt: &R,
    entry: &DirEntry<R, R::A>,
    name: String,
    listing: &mut Listing,
) -> Result<(), AllocError> {
    match kind_of(rt, entry, listing) {
        Kind::Folder => listing.folders.push(name)?,
        Kind::File => drop(listing.files.insert(name, None)?),
        Kind::Refused(fault) => drop(listing.files.insert(name, Some(fault))?),
        Kind::Other => {}
    }
    Ok(())
}

// What an entry is.
fn kind_of<R: Files + AllocGlobal + Clone + Drop>(
    rt: &R,
    entry: &DirEntry<R, R::A>,
    listing: &Listing,
) -> Kind {
    match entry.file_type() {
        Ok(kind) if kind.is_dir() => Kind::Folder,
        Ok(kind) if kind.is_file() => Kind::File,
        Ok(kind) if kind.is_symlink() => kind_of_link(rt, entry.path().as_str(), listing),
        Ok(_) => Kind::Other,
        Err(error) => Kind::Refused(error.into()),
    }
}

// What a link is, by what it leads to.
fn kind_of_link<R: Files + AllocGlobal>(rt: &R, path: &str, listing: &Listing) -> Kind {
    let target = match fs::canonicalize(rt, path) {
        Ok(target) => target,
        Err(error) => return Kind::Refused(error.into()),
    };
    match fs::metadata(rt, target.as_str()) {
        Ok(metadata) if !metadata.is_file() => Kind::Other,
        Ok(_) if listing.follows || is_inside(target.as_str(), listing.root.as_str()) => Kind::File,
        Ok(_) => Kind::Refused(ReadFault::Outside),
        Err(error) => Kind::Refused(error.into()),
    }
}

// Whether a path without links is one in a folder.
fn is_inside(path: &str, folder: &str) -> bool {
    match path.strip_prefix(folder) {
        Some(rest) => folder.ends_with('/') || rest.starts_with('/'),
        None => false,
    }
}

/// Returns whether a folder is another one, or would be in it. It is not, if one of them is not read.
pub(crate) fn is_within<R: Files + AllocGlobal>(rt: &R, folder: &str, other: &str) -> bool {
    match (nearest(rt, folder), fs::canonicalize(rt, other)) {
        (Ok(inner), Ok(outer)) => match inner.as_str().strip_prefix(outer.as_str()) {
            Some(rest) => rest.is_empty() || rest.starts_with('/') || outer.as_str().ends_with('/'),
            None => false,
        },
        _ => false,
    }
}

// The path, without links, of a folder, or of the nearest one above it that is there.
fn nearest<R: Files + AllocGlobal>(rt: &R, folder: &str) -> io::Result<PathBuf> {
    let mut path = folder;
    for _ in 0..folder.len() {
        match fs::canonicalize(rt, path) {
            Err(error) if error.kind() == io::ErrorKind::NotFound => {}
            found => return found,
        }
        path = match path.rsplit_once('/') {
            Some(("", _)) => "/",
            Some((above, _)) => above,
            None => ".",
        };
    }
    fs::canonicalize(rt, path)
}
