// Files, folders and the environment, as they are read.
ghost use Rattle.std.specs.Prelude.{IfErr, IfOk};
ghost use Rattle.upon_tool_io.specs.World.{World, GivesBytes, GivesVariables, RefusesName};

use crate::files::ReadFault;
use crate::folder;
use std::alloc::Global;
use std::collections::BTreeMap;
use std::env::{self, Env, VarError};
use std::rt::Files;
use std::{fs, io};

/// Files, folders and the environment, as they are read.
///
/// A program that is generic over it knows no more of what it was given than what `world` says. So it can't put another
/// text in the place of a file's, nor one that it never read, and it can't make up why a file is refused.
pub trait Sources {
    /// What may be read.
    ghost world: { Self → World };

    /// Returns the bytes of a file.
    ///
    /// The error says why it is not read: by the system's error, or as there is no memory.
    fn bytes_of(&self, alloc: Global, name: &str) -> Result<Vec<u8>, ReadFault>
        ensures { GivesBytes (world self.now) name.now result };

    /// Returns how many bytes a file has, or `None` if what has this name is no file. Nothing is read.
    ///
    /// The error is the system's.
    fn length_of(&self, name: &str) -> io::Result<Option<u64>>;

    /// Returns the paths of the files of a folder and of its subfolders, as they are in it, in ascending order, each
    /// with the reason why it can't be read, if that is known already; those that links out of the folder lead to, if
    /// such links are followed.
    ///
    /// The error says why the folder is not read.
    fn files_of(
        &self,
        alloc: Global,
        folder: &str,
        follows: bool,
    ) -> Result<BTreeMap<String, Option<ReadFault>>, ReadFault>
        ensures listed { IfOk result (λ files. (world self.now).lists folder.now follows files.entries) }
        ensures refused { IfErr result (RefusesName (world self.now) folder.now) };

    /// Returns whether a folder is another one, or would be in it.
    fn is_within(&self, alloc: Global, folder: &str, other: &str) -> bool
        ensures { (world self.now).within folder.now other.now result };

    /// Returns the variables of the environment, each with its text.
    ///
    /// The error is `NotText` if one is not UTF-8, or there is no memory.
    fn variables(&self, alloc: Global) -> Result<Vec<(String, String)>, ReadFault>
        ensures { GivesVariables (world self.now) result };
}

// The system's files and environment. Nothing is known of them: each text may be what a file holds.
impl<R: Files + Env + AllocGlobal + Clone + Drop> Sources for R {
    ghost world = { λ _. record {
      holds = λ name bytes. Unit {0};
      lists = λ folder follows files. Unit {0};
      refuses = λ name fault. Unit {0};
      within = λ folder other result. Unit {0};
      has = λ found. Unit {0};
      garbled = Unit {0};
    } };

    fn bytes_of(&self, _: Global, name: &str) -> Result<Vec<u8>, ReadFault> {
        Ok(fs::read(self, name)?)
    }

    fn length_of(&self, name: &str) -> io::Result<Option<u64>> {
        let metadata = fs::metadata(self, name)?;
        if metadata.is_file() {
            Ok(Some(metadata.len()))
        } else {
            Ok(None)
        }
    }

    fn files_of(
        &self,
        _: Global,
        folder: &str,
        follows: bool,
    ) -> Result<BTreeMap<String, Option<ReadFault>>, ReadFault> {
        folder::files_of(self, folder, follows)
    }

    fn is_within(&self, _: Global, folder: &str, other: &str) -> bool {
        folder::is_within(self, folder, other)
    }

    fn variables(&self, alloc: Global) -> Result<Vec<(String, String)>, ReadFault> {
        let mut all = Vec::new(alloc);
        match env::vars(self) {
            Ok(found) => {
                for variable in found {
                    all.push(variable)?;
                }
                Ok(all)
            }
            Err(VarError::NotUnicode) => Err(ReadFault::NotText),
            Err(VarError::NotPresent | VarError::OutOfMemory) => Err(ReadFault::OutOfMemory),
        }
    }
}
