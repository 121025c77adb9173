//! What it is to read files: the trait, and why a file was not read.

use std::alloc::Global;
use thiserror::Error;

/// Why a file was not read.
#[derive(Clone, Copy, Debug, PartialEq, Eq, Error)]
pub enum FileFault {
    /// No file has this name.
    #[error("no file has this name")]
    Missing,
    /// The file has more bytes than the reader allows.
    #[error("the file has more than {limit} bytes")]
    TooLarge { limit: u64 },
    /// The file may be there, and could not be read.
    #[error("the file could not be read")]
    Failed,
    /// Memory for the file's bytes was refused.
    #[error("out of memory")]
    NoMemory,
}

/// Files that are read whole, by name.
///
/// No call changes a file. Files that are not told, as those of a file system, may change between
/// two reads, and their bytes are then free.
pub trait Files {
    ghost use Rattle.std.specs.Prelude.{◌≡◌, ℕ, Option, IfSome};
    ghost use Rattle.cni_io.specs.Failures.{CountsFailure};
    ghost use Rattle.cni_io.specs.Files.{StoredFiles, ReadsTold, IsFailed, file_of, KeepsToLimit};

    // the files, where they are told
    ghost files: { Self → Option StoredFiles };

    // a count of failures, which each read that fails raises
    ghost failure_count: { Self → ℕ };

    /// Reads the file `name`, which is to have at most `limit` bytes.
    fn read(&mut self, alloc: Global, name: &str, limit: u64) -> Result<Vec<u8>, FileFault>
        ensures told { IfSome (files self.old)
            (λ stored. ReadsTold result (file_of stored limit name.now)) }
        ensures keeps { files self.new ≡ files self.old }
        ensures limited { KeepsToLimit limit result }
        ensures cause { CountsFailure (failure_count self.old) (failure_count self.new) (IsFailed result) };
}
