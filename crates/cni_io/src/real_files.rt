//! The files of the file system, each read whole and up to a limit.

ghost use Rattle.std.specs.Prelude.{◌≡◌, is_ok, if◌then◌else◌};
ghost use Rattle.cni_io.specs.Failures.{CountsFailure, counted};
ghost use Rattle.cni_io.specs.Files.{IsFailed, KeepsToLimit};

use crate::files::{FileFault, Files};
use std::alloc::Global;
use std::fs::File;
use std::io::{ErrorKind, Read};
use std::marker::Model;
use std::rt;

/// The file system. A name is a path, and nothing is told of its file.
///
/// A contract sees the count of failures, which each error raises.
#[derive(Drop)]
pub struct RealFiles<R> {
    rt: R,
    failures: u64,
}

impl<R> Model for RealFiles<R> {
    ghost use Rattle.std.specs.Prelude.{ℕ};

    ghost Value = { ℕ };

    ghost view = { λ s. s.failures };
}

impl<R: rt::Files + Drop> RealFiles<R> {
    /// The files that this runtime reaches, with no failure so far.
    pub fn new(rt: R) -> RealFiles<R>
        ensures { result ≡ 0 }
    {
        RealFiles { rt, failures: 0 }
    }
}

impl<R: rt::Files> Files for RealFiles<R> {
    ghost use Rattle.std.specs.Prelude.{None};

    ghost files = { λ _. None };

    ghost failure_count = { λ count. count };

    /// Reads at most one byte more than the limit.
    ///
    /// `Missing` comes where the system says that there is no such file (POSIX `ENOENT`). Every
    /// other error of the system but out of memory is `Failed`, as for a directory, a path that
    /// leads through a file, a name that is too long and a file that may not be read.
    fn read(&mut self, alloc: Global, name: &str, limit: u64) -> Result<Vec<u8>, FileFault>
        ensures limited { KeepsToLimit limit result }
        ensures cause { CountsFailure self.old self.new (IsFailed result) }
        ensures counts { self.new ≡ (if is_ok result then self.old else counted self.old) }
    {
        let failures = self.failures;
        match read_within(&self.rt, alloc, name, limit) {
            Ok(bytes) => Ok(bytes),
            Err(fault) => {
                self.failures = failures.saturating_add(1);
                Err(fault)
            }
        }
    }
}

fn read_within<R: rt::Files>(
    rt: &R,
    alloc: Global,
    name: &str,
    limit: u64,
) -> Result<Vec<u8>, FileFault>
    ensures { KeepsToLimit limit result }
{
    let mut bytes = Vec::new(alloc);
    match read_up_to(rt, name, limit.saturating_add(1), &mut bytes) {
        Ok(()) if bytes.len() as u64 <= limit => Ok(bytes),
        Ok(()) => Err(FileFault::TooLarge { limit }),
        Err(ErrorKind::NotFound) => Err(FileFault::Missing),
        Err(ErrorKind::OutOfMemory) => Err(FileFault::NoMemory),
        Err(_) => Err(FileFault::Failed),
    }
}

fn read_up_to<R: rt::Files>(
    rt: &R,
    name: &str,
    most: u64,
    bytes: &mut Vec<u8>,
) -> Result<(), ErrorKind> {
    match File::open(rt, name) {
        Ok(file) => match file.take(most).read_to_end(bytes) {
            Ok(_) => Ok(()),
            Err(error) => Err(error.kind()),
        },
        Err(error) => Err(error.kind()),
    }
}
