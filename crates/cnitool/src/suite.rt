//! What may be relied on of the plugins that the program registers.

use plugin_registry::Promise;

/// The suite of `guard`, `dummy` and `vlan`: each gives exactly its own calls and result, and no other name gives any.
pub(crate) struct Suite;

impl Promise for Suite {
    ghost use Rattle.cnitool.specs.Suite.{may_call, may_result};

    ghost may_call = { may_call };

    ghost may_result = { may_result };
}
