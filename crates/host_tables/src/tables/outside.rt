//! What is taken away from outside.

ghost use Rattle.std.specs.Prelude.{◌≡◌};
ghost use Rattle.kernel_types.specs.Apply.{apply};
ghost use Rattle.kernel_types.specs.Apply.Calls.{flush_of};
ghost use Rattle.kernel_types.specs.Sound.{IsSound};
ghost use Rattle.kernel_types.specs.declared.call.Call.TheVariants.{Outside};

use super::Tables;
use kernel_types::{Change, Reply, Table};

impl Tables {
    fn flush(&mut self, table: Table) -> Reply
        ensures { (self.new, result) ≡ flush_of self.old table }
    {
        self.rules.remove_at(&table);
        Reply::Done
    }

    /// What is taken away from outside: a link, or the rules of a table.
    #[inline(never)]
    pub fn outside(&mut self, change: &Change) -> Reply
        requires { IsSound self.old }
        ensures { (self.new, result) ≡ apply self.old (Outside change.now) }
    {
        match change {
            Change::DropLink(key) => self.drop_link(key),
            Change::Flush(table) => self.flush(*table),
        }
    }
}
