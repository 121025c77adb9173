//! Hardware addresses.

/// The six bytes of an Ethernet address, in the order in which they are sent (IEEE 802).
#[derive(Clone, Copy, Debug, PartialEq, Eq)]
pub struct Mac {
    pub bytes: [u8; 6],
}
