//! Errors (CNI specification 1.1.0, section 5, "Error").

use crate::version::Version;
use cni_addr::{Duplicate, NoMemory, Text};

/// An error as a plugin or the runtime reports it. Codes below 100 are the specification's, those from 100 on this
/// project's own.
#[derive(PartialEq, Eq, Drop)]
pub struct CniError {
    pub version: Version,
    pub code: u32,
    pub msg: Text,
    pub details: Text,
}

impl Duplicate for CniError {
    fn copy(&self) -> Result<CniError, NoMemory> {
        Ok(CniError {
            version: self.version,
            code: self.code,
            msg: self.msg.copy()?,
            details: self.details.copy()?,
        })
    }
}
