//! The key of the hasher of a kernel's tables.

/// The key of the hasher of a kernel's tables. Where it is a digest of all names and addresses that the kernel will be
/// asked about, nobody can pick these so that they collide. No reply and no order depends on it.
#[derive(Clone, Copy)]
pub struct TableKey {
    pub digest: [u8; 32],
}

impl TableKey {
    /// The key of those who have no digest.
    pub const FIXED: TableKey = TableKey { digest: [0; 32] };
}
