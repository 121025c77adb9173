//! The settings by which a host forwards, made once for every call that asks for one.

ghost use Rattle.std.specs.Prelude.{◌≡◌};
ghost use Rattle.kernel_types.specs.Apply.Calls.{new_forward};

use cni_addr::{Family, NoMemory};
use kernel_types::Setting;
use std::alloc::Global;
use std::marker::Model;

/// The shared setting of each family.
#[derive(Drop)]
pub(crate) struct Forwards {
    v4: Setting,
    v6: Setting,
}

impl Model for Forwards {
    ghost use Rattle.std.specs.Prelude.{◌≡◌};
    ghost use Rattle.cni_addr.specs.declared.address.Family.TheVariants.{V4, V6};
    ghost use Rattle.kernel_types.specs.Apply.Calls.{new_forward};
    ghost use Rattle.kernel_types.specs.declared.object.Setting.{Setting};

    ghost Value = { Setting × Setting };

    ghost view = { λ f. (f.v4, f.v6) };

    ghost invariant = { λ f. (f.v4 ≡ new_forward V4) × (f.v6 ≡ new_forward V6) };
}

impl Forwards {
    pub(crate) fn new(alloc: Global) -> Result<Forwards, NoMemory> {
        Ok(Forwards {
            v4: Setting::forwarding(alloc, Family::V4)?,
            v6: Setting::forwarding(alloc, Family::V6)?,
        })
    }

    pub(crate) fn of(&self, family: Family) -> &Setting
        ensures { result.now ≡ new_forward family }
    {
        match family {
            Family::V4 => &self.v4,
            Family::V6 => &self.v6,
        }
    }
}
