//! Deletions of single objects.

ghost use Rattle.std.specs.Prelude.{◌≡◌};
ghost use Rattle.kernel_types.specs.Sound.{IsSound};
ghost use Rattle.kernel_types.specs.Apply.Calls.{rule_del_of, setting_del_of, lease_del_of, cache_del_of};

use super::Tables;
use kernel_types::{Att, Reply};
use object_tables::leased::remove_leased;

impl Tables {
    /// Takes out the attachment's first rule, if it has one.
    #[inline(never)]
    pub fn rule_del(&mut self, att: &Att) -> Reply
        ensures { (self.new, result) ≡ rule_del_of self.old att.now }
    {
        Reply::Gone(self.rules.take_first_owned(att).is_some())
    }

    /// Takes out the attachment's first setting, if it has one.
    #[inline(never)]
    pub fn setting_del(&mut self, att: &Att) -> Reply
        ensures { (self.new, result) ≡ setting_del_of self.old att.now }
    {
        Reply::Gone(self.settings.take_first_owned(att).is_some())
    }

    /// Takes out the attachment's cached result, if it has one.
    #[inline(never)]
    pub fn cache_del(&mut self, att: &Att) -> Reply
        ensures { (self.new, result) ≡ cache_del_of self.old att.now }
    {
        Reply::Gone(self.cached.take_first_owned(att).is_some())
    }

    /// The address is no longer leased: in a sound host no other lease of its network has it.
    #[inline(never)]
    pub fn lease_del(&mut self, att: &Att) -> Reply
        requires { IsSound self.old }
        ensures { (self.new, result) ≡ lease_del_of self.old att.now }
    {
        let taken = self.leases.take_first_owned(att);
        if let Some(lease) = &taken {
            remove_leased(&mut self.leased, &lease.network, &lease.addr);
        }
        Reply::Gone(taken.is_some())
    }
}
