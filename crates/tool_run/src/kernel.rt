//! The kernel that plans are carried out on, and sessions run. To use another one, name it here.

ghost use Rattle.std.specs.Prelude.{◌≡◌, IfOk};
ghost use Rattle.kernel_types.specs.Sound.{IsSound};
ghost use Rattle.pod_workers.specs.Order.{IsInFileOrder};
ghost use Rattle.pod_workers.specs.Plans.{IsWellFormed};
ghost use Rattle.session_laws.specs.Views as views;
ghost use Rattle.pod_workers.specs.World.{begun};
ghost use Rattle.session_file.specs.WellFormed.{IsSessionConf};

use cni_addr::{Duplicate, NoMemory};
use host_tables::TableKey;
use kernel_model::{Host, Kernel};
use kernel_tables::TableKernel;
use plugin_session::Session;
use pod_workers::{Book, Plan};
use session_file::SessionConf;
use std::alloc::Global;

/// The kernel of a node.
pub type NodeKernel = TableKernel;

/// A kernel that can begin with any sound host.
pub trait FromHost: Kernel {
    /// A kernel with this host, which looks things up under this key. The only error is out of memory.
    fn from_host(alloc: Global, key: &TableKey, host: Host) -> Result<Self, NoMemory>
        requires { IsSound host }
        ensures { IfOk result (λ kernel. Self.Kernel.host kernel ≡ host) };
}

impl FromHost for TableKernel {
    fn from_host(alloc: Global, key: &TableKey, host: Host) -> Result<TableKernel, NoMemory> {
        TableKernel::keyed(alloc, key, host)
    }
}

/// A session before its first task, over a kernel that begins with a copy of the opening.
pub(crate) fn begin_session<K: FromHost + Drop>(
    alloc: Global,
    key: &TableKey,
    conf: SessionConf,
) -> Result<Session<K>, NoMemory>
    requires { IsSessionConf conf }
    ensures { IfOk result (λ session. session ≡ views.begun conf) }
{
    let kernel = K::from_host(alloc, key, conf.opening.copy()?)?;
    Session::begin(alloc, conf, kernel)
}

/// A book of the plan, with nothing done yet, over a kernel that begins with a copy of the opening.
pub(crate) fn begin<K: FromHost + Drop>(
    alloc: Global,
    key: &TableKey,
    plan: Plan,
) -> Result<Book<K>, NoMemory>
    requires { IsWellFormed plan }
    ensures begun { IfOk result (λ book. book ≡ begun plan) }
    ensures order { IfOk result IsInFileOrder }
{
    let kernel = K::from_host(alloc, key, plan.pods.opening.copy()?)?;
    let book = Book::begin(alloc, plan, kernel)?;
    Ok(book)
}
