//! Copies of commands. Texts are shared, so a copy costs what its lists cost.

use crate::command::{Command, RawMapping, ValidAtt};
use cni_addr::{Duplicate, NoMemory};

impl Duplicate for RawMapping {
    fn copy(&self) -> Result<RawMapping, NoMemory> {
        Ok(RawMapping {
            host_port: self.host_port,
            container_port: self.container_port,
            protocol: self.protocol.copy()?,
            host_ip: self.host_ip.copy()?,
        })
    }
}

impl Duplicate for ValidAtt {
    fn copy(&self) -> Result<ValidAtt, NoMemory> {
        Ok(ValidAtt {
            container: self.container.copy()?,
            ifname: self.ifname.copy()?,
        })
    }
}

impl Duplicate for Command {
    fn copy(&self) -> Result<Command, NoMemory> {
        Ok(Command {
            number: self.number,
            verb: self.verb,
            network: self.network.copy()?,
            container: self.container.copy()?,
            netns: self.netns.copy()?,
            ifname: self.ifname.copy()?,
            args: self.args.copy()?,
            mappings: self.mappings.copy()?,
            valid: self.valid.copy()?,
            table: self.table,
            stop: self.stop,
            faults: self.faults.copy()?,
        })
    }
}
