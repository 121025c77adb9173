//! The name of the host's end of a veth pair.

ghost use Rattle.std.specs.Prelude.{◌≡◌, IfOk};
ghost use Rattle.link_names.specs.Names.{host_name_by};

use cni_addr::{NoMemory, Text};
use std::alloc::Global;

/// The name of the host's end of the veth pair of the attachment with this digest: twelve bytes, so within the
/// kernel's fifteen. Takes no memory.
pub fn host_name_by(digest: &[u8; 32]) -> [u8; 12]
    ensures { result ≡ host_name_by digest.now }
{
    let mut name = *b"veth00000000";
    let _ = hex::encode_to_slice(&digest[..4], &mut name[4..]);
    name
}

/// As [`host_name_by`], as a text.
pub fn host_name_text(alloc: Global, digest: &[u8; 32]) -> Result<Text, NoMemory>
    ensures { IfOk result (λ name. name ≡ host_name_by digest.now) }
{
    let name = host_name_by(digest);
    match str::from_utf8(&name) {
        Ok(text) => Text::of(alloc, text),
        Err(_) => unreachable!(),
    }
}
