// A file that is replaced at the good end alone.
use std::alloc::AllocError;
use std::fs::{self, Metadata, OpenFile, OpenOptions};
use std::io;
use std::os::unix::fs::{MetadataExt, OpenOptionsExt};
use std::rt::Files;

/// Why a file is not replaced.
#[derive(Drop)]
pub enum WriteFault {
    /// The system's error.
    Io(io::Error),
    /// It belongs to another user or group than a new file would.
    OtherOwner,
    /// It has several names, by hard links, of which the new file would have one.
    SeveralNames,
}

impl From<io::Error> for WriteFault {
    fn from(error: io::Error) -> WriteFault {
        WriteFault::Io(error)
    }
}

impl From<AllocError> for WriteFault {
    fn from(error: AllocError) -> WriteFault {
        WriteFault::Io(error.into())
    }
}

/// Where a text goes before it takes the place of a file.
#[derive(Drop)]
pub(crate) struct Replacement {
    target: String,
    // The new file beside it; none, if the target is written as it is.
    beside: Option<String>,
}

// The permissions of a new file: its owner's alone, or everybody's that the process allows.
const OWN: u32 = 0o600;

const ALL: u32 = 0o666;

// How many seconds older than a new file one that a run has left is: a day.
const STALE: i64 = 24 * 60 * 60;

impl Replacement {
    /// Opens a new file beside the one of a path, to which a link may lead, with the permissions of that one: nobody
    /// else may read it before. What is there and is no file, as a terminal, is opened as it is. A file of another
    /// owner or of several names is refused, as the new one would not be in its place.
    pub(crate) fn open<R: Files + AllocGlobal>(
        rt: &R,
        path: &str,
    ) -> Result<(Replacement, R::File), WriteFault> {
        let target = target_of(rt, path)?;
        match fs::metadata(rt, target.as_str()) {
            Ok(metadata) if metadata.is_file() => replace(rt, target, &metadata),
            Ok(_) => {
                let file = OpenOptions::new().write(true).open(rt, target.as_str())?;
                Ok((
                    Replacement {
                        target,
                        beside: None,
                    },
                    file,
                ))
            }
            Err(_) => {
                let (beside, file) = new_file(rt, target.as_str(), ALL)?;
                Ok((
                    Replacement {
                        target,
                        beside: Some(beside),
                    },
                    file,
                ))
            }
        }
    }

    /// Puts the new file in the place of the old one, after all that was written to it is on the disk. Then the folder
    /// is written to the disk too, where the system can.
    pub(crate) fn keep<R: Files>(self, rt: &R, file: &R::File) -> io::Result<()> {
        let Some(beside) = &self.beside else {
            return Ok(());
        };
        match put(rt, file, beside.as_str(), self.target.as_str()) {
            Ok(()) => {
                let _ = sync_folder(rt, self.target.as_str());
                Ok(())
            }
            Err(error) => {
                let _ = fs::remove_file(rt, beside.as_str());
                Err(error)
            }
        }
    }

    /// Removes the new file; the old one is as it was.
    pub(crate) fn discard<R: Files>(self, rt: &R) {
        if let Some(beside) = &self.beside {
            let _ = fs::remove_file(rt, beside.as_str());
        }
    }
}

// A new file beside one that is there, which has its permissions.
fn replace<R: Files + AllocGlobal>(
    rt: &R,
    target: String,
    old: &Metadata,
) -> Result<(Replacement, R::File), WriteFault> {
    if old.nlink() > 1 {
        return Err(WriteFault::SeveralNames);
    }
    let (beside, file) = new_file(rt, target.as_str(), OWN)?;
    let replacement = Replacement {
        target,
        beside: Some(beside),
    };
    match take_over(&file, old) {
        Ok(()) => Ok((replacement, file)),
        Err(fault) => {
            replacement.discard(rt);
            Err(fault)
        }
    }
}

// Gives a new file the permissions of an old one of the same owner.
fn take_over<F: OpenFile>(file: &F, old: &Metadata) -> Result<(), WriteFault> {
    let new = file.metadata()?;
    if new.uid() != old.uid() || new.gid() != old.gid() {
        return Err(WriteFault::OtherOwner);
    }
    file.set_permissions(old.permissions())?;
    Ok(())
}

// Writes a file to the disk, and gives it a path.
fn put<R: Files>(rt: &R, file: &R::File, beside: &str, target: &str) -> io::Result<()> {
    file.sync_all()?;
    fs::rename(rt, beside, target)
}

// Writes the folder of a path to the disk.
fn sync_folder<R: Files>(rt: &R, path: &str) -> io::Result<()> {
    let folder = match path.rsplit_once('/') {
        Some(("", _)) => "/",
        Some((folder, _)) => folder,
        None => ".",
    };
    OpenOptions::new().read(true).open(rt, folder)?.sync_all()
}

// The path itself, or the file that a link there leads to.
fn target_of<R: Files + AllocGlobal>(rt: &R, path: &str) -> io::Result<String> {
    match fs::canonicalize(rt, path) {
        Ok(target) => Ok(String::from_str(rt.alloc(), target.as_str())?),
        Err(error) if error.kind() == io::ErrorKind::NotFound => Ok(String::from_str(
            rt.alloc(),
            path,
        )?),
        Err(error) => Err(error),
    }
}

// A file that was not there, with its path. Those that ended runs have left go.
fn new_file<R: Files + AllocGlobal>(
    rt: &R,
    target: &str,
    mode: u32,
) -> io::Result<(String, R::File)> {
    let mut options = OpenOptions::new();
    options.write(true).create_new(true).mode(mode);
    for number in 0..u64::MAX {
        let path = new_path(rt, target, number)?;
        match options.open(rt, path.as_str()) {
            Ok(file) => {
                let _ = remove_stale(rt, target, number, &file);
                return Ok((path, file));
            }
            Err(error) if error.kind() == io::ErrorKind::AlreadyExists => {}
            Err(error) => return Err(error),
        }
    }
    Err(io::Error::from(io::ErrorKind::AlreadyExists))
}

// The path of a new file of a number.
fn new_path<R: AllocGlobal>(rt: &R, target: &str, number: u64) -> io::Result<String> {
    Ok(format!(in rt.alloc(); "{target}.upon-tool-{number}")?)
}

// Removes new files of lower numbers that are a day older than this one.
fn remove_stale<R: Files + AllocGlobal>(
    rt: &R,
    target: &str,
    count: u64,
    file: &R::File,
) -> io::Result<()> {
    let new = file.metadata()?;
    for number in 0..count {
        let path = new_path(rt, target, number)?;
        if is_stale(rt, path.as_str(), &new) {
            let _ = fs::remove_file(rt, path.as_str());
        }
    }
    Ok(())
}

// Whether a path is a file of the same owner that is a day older than a new one.
fn is_stale<R: Files>(rt: &R, path: &str, new: &Metadata) -> bool {
    match fs::symlink_metadata(rt, path) {
        Ok(old) => {
            old.is_file()
                && old.uid() == new.uid()
                && old.mtime().saturating_add(STALE) < new.mtime()
        }
        Err(_) => false,
    }
}
