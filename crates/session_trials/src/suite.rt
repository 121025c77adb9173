//! What may be relied on of `guard`, registered alone.

use plugin_registry::Promise;

/// The suite of `guard` alone.
pub(crate) struct GuardAlone;

impl Promise for GuardAlone {
    ghost use Rattle.session_trials.specs.Suite.{may_call, may_result};

    ghost may_call = { may_call };

    ghost may_result = { may_result };
}
