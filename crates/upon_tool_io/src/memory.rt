// Files in memory, of which all is known that may be read, and all that was written.
ghost use Rattle.std.specs.Prelude.{◌≡◌, Some, option_map};
ghost use Rattle.upon_tool_io.specs.Memory.{bytes_under, memory_world, written_files};

use crate::files::ReadFault;
use crate::output::WriteFault;
use crate::sources::Sources;
use crate::targets::Targets;
use std::alloc::{AllocError, Global};
use std::collections::BTreeMap;
use std::io;
use std::time::{Clock, Duration};

/// A file in memory.
#[derive(Drop)]
pub struct HeldFile {
    /// Its name.
    pub name: String,
    /// Its bytes.
    pub bytes: Vec<u8>,
}

/// Files in memory, of which the first of a name counts, and variables. Each folder is empty.
#[derive(Drop)]
pub struct Memory {
    /// The allocator of the program that reads them.
    pub alloc: Global,
    /// The files.
    pub files: Vec<HeldFile>,
    /// The variables, each with its text.
    pub variables: Vec<(String, String)>,
}

impl Alloc for Memory {
    type A = Global;

    fn alloc(&self) -> Global {
        self.alloc
    }
}

// A clock that stands still.
impl Clock for Memory {
    fn monotonic(&self) -> io::Result<Duration> {
        Ok(Duration::from_secs(0))
    }

    fn since_1970(&self) -> io::Result<Duration> {
        Ok(Duration::from_secs(0))
    }
}

impl Sources for Memory {
    ghost world = { memory_world };

    fn bytes_of(&self, alloc: Global, name: &str) -> Result<Vec<u8>, ReadFault> {
        match bytes_under(self.files.as_slice(), name) {
            Some(bytes) => Ok(Vec::from_slice(alloc, bytes)?),
            None => Err(ReadFault::Unreadable(io::ErrorKind::NotFound.into())),
        }
    }

    fn length_of(&self, name: &str) -> io::Result<Option<u64>> {
        match bytes_under(self.files.as_slice(), name) {
            Some(bytes) => Ok(Some(bytes.len() as u64)),
            None => Err(io::ErrorKind::NotFound.into()),
        }
    }

    fn files_of(
        &self,
        alloc: Global,
        _: &str,
        _: bool,
    ) -> Result<BTreeMap<String, Option<ReadFault>>, ReadFault> {
        Ok(BTreeMap::new(alloc))
    }

    fn is_within(&self, _: Global, _: &str, _: &str) -> bool {
        false
    }

    fn variables(&self, alloc: Global) -> Result<Vec<(String, String)>, ReadFault> {
        let mut all = Vec::new(alloc);
        for variable in &self.variables {
            let name = String::from_str(alloc, variable.0.as_str())?;
            let text = String::from_str(alloc, variable.1.as_str())?;
            all.push((name, text))?;
        }
        Ok(all)
    }
}

/// Files that are written in memory.
#[derive(Drop)]
pub struct MemoryTargets {
    /// The allocator of the program that writes them.
    pub alloc: Global,
    /// The files that were written, the first first.
    pub files: Vec<HeldFile>,
}

impl Targets for MemoryTargets {
    type New = Vec<u8>;

    ghost written = { λ targets. Some (written_files targets.files.items) };

    fn make_folders(&mut self, _: &str) -> io::Result<()> {
        Ok(())
    }

    fn open(&mut self, alloc: Global, _: &str, _: usize) -> Result<Vec<u8>, WriteFault> {
        Ok(Vec::new(alloc))
    }

    fn keep(&mut self, name: &str, new: Vec<u8>) -> io::Result<()> {
        let name = String::from_str(self.alloc, name)?;
        match self.files.push(HeldFile { name, bytes: new }) {
            Ok(()) => Ok(()),
            Err(_) => Err(AllocError.into()),
        }
    }

    fn discard(&mut self, new: Vec<u8>) {
        drop(new);
    }
}

// The bytes of the first file of a name.
fn bytes_under<'f>(files: &'f [HeldFile], name: &str) -> Option<&'f [u8]>
    ensures { option_map (λ bytes. bytes.now) result ≡ bytes_under name.now files.now }
{
    for file in files {
        if file.name.as_str() == name {
            return Some(file.bytes.as_slice());
        }
    }
    None
}
