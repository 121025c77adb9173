//! The attachments that stay, found without going through their list.

ghost use Rattle.std.specs.Prelude.{◌≡◌, IfOk};
ghost use Rattle.cni_verbs.specs.Sweep.{is_valid};
ghost use Rattle.gc_sweep.specs.Valid.{IsIndexOf, names_cmp, names_of};

use cni_addr::{NoMemory, Text, copies};
use kernel_types::Att;
use pod_file::ValidAtt;
use std::alloc::Global;
use std::cmp::Ordering;
use std::marker::Model;

/// A valid list in the order of its names, so that an attachment is found in it without going through all.
///
/// Whoever writes a list chooses its names, and could choose many of one hash, so they are looked up by their order.
#[derive(Drop)]
pub struct ValidIndex {
    in_order: Vec<ValidAtt>,
}

impl Model for ValidIndex {
    ghost use Rattle.std.specs.Prelude.{List};
    ghost use Rattle.pod_file.specs.declared.command.ValidAtt.{ValidAtt};
    ghost use Rattle.gc_sweep.specs.Valid.{AreInOrder};

    ghost Value = { List ValidAtt };

    ghost view = { λ index. index.in_order.items };

    ghost invariant = { λ index. AreInOrder index.in_order.items };
}

impl ValidIndex {
    /// The index of a list, whose texts it shares. For n attachments it takes n log n comparisons of names, and memory
    /// in proportion to n.
    pub fn of(alloc: Global, valid: &[ValidAtt]) -> Result<ValidIndex, NoMemory>
        ensures { IfOk result (IsIndexOf valid.now) }
    {
        let mut in_order = copies(alloc, valid)?.into_vec();
        in_order.sort_by(|v, w| compare(v, &w.container, &w.ifname))?;
        Ok(ValidIndex { in_order })
    }

    /// Whether the list names the attachment. For n attachments it takes log n comparisons of names, and no memory.
    pub fn has(&self, att: &Att) -> bool
        ensures { result ≡ is_valid self.now att.now }
    {
        self.in_order
            .binary_search_by(|v| compare(v, &att.container, &att.ifname))
            .is_ok()
    }
}

/// The order of an attachment and of these names: by the containers, and then by the interfaces.
fn compare(att: &ValidAtt, container: &Text, ifname: &Text) -> Ordering
    ensures { result ≡ names_cmp (names_of att.now) (container.now, ifname.now) }
{
    match att.container.as_str().cmp(container.as_str()) {
        Ordering::Equal => att.ifname.as_str().cmp(ifname.as_str()),
        other => other,
    }
}
