//! Files in memory: they tell what they hold, and some of their reads fail, as a test wants it.

ghost use Rattle.std.specs.Prelude.{◌≡◌, ◌≢◌, ℕ, ◌≤◌, List, [], Option, Some, IfSome, IfErr, OnOk, OnErr, option_map};
ghost use Rattle.std.specs.Prelude.{filter, not, vec_len};
ghost use Rattle.std.specs.Str.{bytes_eq};
ghost use Rattle.std.specs.Vec.{vec_capacity};
ghost use Rattle.cni_io.specs.Failures.{CountsFailure};
ghost use Rattle.cni_io.specs.Files.{ReadsTold, IsFailed, GivesOrNoMemory, KeepsToLimit, bytes_of, file_of};
ghost use Rattle.cni_io.specs.Files.{answer_within};
ghost use Rattle.cni_io.specs.FailingCalls.{with_next_call, failures};
ghost use Rattle.cni_io.specs.Memory.{FilesState, stored_with, HasEachNameOnce, next_read};

use crate::failing_calls::FailingCalls;
use crate::files::{FileFault, Files};
use cni_addr::Text;
use std::alloc::Global;
use std::marker::Model;

#[derive(Drop)]
struct StoredFile {
    name: Text,
    bytes: Vec<u8>,
}

impl Model for StoredFile {
    ghost use Rattle.std.specs.Prelude.{ℕ, List};

    ghost Value = { List ℕ × List ℕ };

    ghost view = { λ file. (file.name, file.bytes.items) };
}

impl StoredFile {
    fn new(name: Text, bytes: Vec<u8>) -> StoredFile
        ensures { result ≡ (name, bytes.items) }
    {
        StoredFile { name, bytes }
    }

    fn name(&self) -> &str
        ensures { result.now ≡ self.now.0 }
    {
        self.name.as_str()
    }

    fn bytes(&self) -> &[u8]
        ensures { result.now ≡ self.now.1 }
    {
        self.bytes.as_slice()
    }
}

/// Files in memory, which are told, and some of whose reads fail.
///
/// Reads are numbered from 1 up to `u64::MAX`. A read whose number is among the failing ones
/// answers `Failed`, whatever its file is, and later reads do not fail.
#[derive(Drop)]
pub struct MemFiles {
    files: Vec<StoredFile>,
    reads: FailingCalls,
    failed_reads: u64,
}

impl Model for MemFiles {
    ghost use Rattle.std.specs.Prelude.{◌≡◌};
    ghost use Rattle.cni_io.specs.FailingCalls.{failures};
    ghost use Rattle.cni_io.specs.Memory.{FilesState, HasEachNameOnce};

    ghost Value = { FilesState };

    ghost view = { λ s. record { stored = s.files.items; reads = s.reads } };

    // the count is the number of the reads that failed, and no name stands twice
    ghost invariant = { λ s. (s.failed_reads ≡ failures s.reads) × HasEachNameOnce s.files.items };
}

impl MemFiles {
    /// No file, and the numbers of the reads that are to fail, in any order. It takes no memory.
    pub fn new(alloc: Global, failing: Vec<u64>) -> MemFiles
        ensures { result ≡ record {
          stored = [];
          reads = record { failing = failing.items; calls = 0 };
        } }
    {
        MemFiles {
            files: Vec::new(alloc),
            reads: FailingCalls::new(failing),
            failed_reads: 0,
        }
    }

    /// Stores a file, in place of the one of that name if there is one.
    ///
    /// The one error is `NoMemory`, and nothing is stored then. It takes a time that grows with the
    /// number of files.
    pub fn add(&mut self, name: Text, bytes: Vec<u8>) -> Result<(), FileFault>
        ensures stores { OnOk result (self.new
            ≡ record self.old { stored = stored_with self.old.stored name bytes.items }) }
        ensures file { OnOk result (bytes_of self.new.stored name ≡ Some bytes.items) }
        ensures others { (other : List ℕ) → other ≢ name
            → bytes_of self.new.stored other ≡ bytes_of self.old.stored other }
        ensures once { HasEachNameOnce self.new.stored }
        ensures unchanged { OnErr result (self.new ≡ self.old) }
        ensures no_memory { IfErr result (λ fault. fault ≡ FileFault.NoMemory) }
    {
        if self.files.reserve(1).is_err() {
            return Err(FileFault::NoMemory);
        }
        remove_named(&mut self.files, name.as_str());
        match self.files.push(StoredFile::new(name, bytes)) {
            Ok(()) => Ok(()),
            Err(_) => unreachable!(),
        }
    }
}

impl Files for MemFiles {
    ghost use Rattle.std.specs.Prelude.{Some};
    ghost use Rattle.cni_io.specs.FailingCalls.{failures};

    ghost files = { λ s. Some s.stored };

    ghost failure_count = { λ s. failures s.reads };

    fn read(&mut self, alloc: Global, name: &str, limit: u64) -> Result<Vec<u8>, FileFault>
        ensures told { IfSome (Some self.old.stored)
            (λ stored. ReadsTold result (file_of stored limit name.now)) }
        ensures keeps { Some self.new.stored ≡ Some self.old.stored }
        ensures limited { KeepsToLimit limit result }
        ensures cause { CountsFailure (failures self.old.reads) (failures self.new.reads)
            (IsFailed result) }
        ensures exact { GivesOrNoMemory result (next_read self.old limit name.now) }
        ensures leaves { self.new ≡ record self.old { reads = with_next_call self.old.reads } }
    {
        let failed_reads = self.failed_reads;
        if self.reads.next_fails() {
            self.failed_reads = failed_reads + 1;
            return Err(FileFault::Failed);
        }
        copy_within(alloc, find_file(&self.files, name), limit)
    }
}

fn remove_named(files: &mut Vec<StoredFile>, name: &str)
    ensures others { files.new.items
        ≡ filter (λ file. not (bytes_eq file.0 name.now)) files.old.items }
    ensures fewer { vec_len files.new ≤ vec_len files.old }
    ensures capacity { vec_capacity files.new ≡ vec_capacity files.old }
{
    files.retain(|file| file.name() != name);
}

fn find_file<'f>(files: &'f [StoredFile], name: &str) -> Option<&'f [u8]>
    ensures { option_map (λ bytes. bytes.now) result ≡ bytes_of files.entry.now name.now }
{
    files
        .iter()
        .find(|file| file.name() == name)
        .map(|file| file.bytes())
}

fn copy_within(alloc: Global, found: Option<&[u8]>, limit: u64) -> Result<Vec<u8>, FileFault>
    ensures answers { GivesOrNoMemory result
        (answer_within limit (option_map (λ bytes. bytes.now) found.entry)) }
    ensures not_failed { ¬ IsFailed result }
{
    match found {
        None => Err(FileFault::Missing),
        Some(bytes) if bytes.len() as u64 > limit => Err(FileFault::TooLarge { limit }),
        Some(bytes) => match Vec::from_slice(alloc, bytes) {
            Ok(copy) => Ok(copy),
            Err(_) => Err(FileFault::NoMemory),
        },
    }
}
