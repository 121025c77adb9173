//! A pod file.

ghost use Rattle.std.specs.Prelude.{◌≡◌};
ghost use Rattle.pod_file.specs.WellFormed.{AreWellFormedRounds};

use crate::command::Command;
use cni_addr::Items;
use kernel_types::Host;
use std::marker::Model;

/// Rounds of commands. There are at most 65,536 rounds and 65,536 commands, which are numbered from 1 in file order. A
/// command names the table that its verb needs, and stands alone in its round where it must.
#[derive(PartialEq, Eq, Drop)]
pub struct Rounds {
    rounds: Items<Items<Command>>,
}

impl Model for Rounds {
    ghost use Rattle.std.specs.Prelude.{List};
    ghost use Rattle.pod_file.specs.declared.command.Command.{Command};

    ghost Value = { List (List Command) };

    ghost use Rattle.pod_file.specs.WellFormed.{AreWellFormedRounds};

    ghost view = { λ r. r.rounds };

    ghost invariant = { λ r. AreWellFormedRounds r.rounds };

    ghost inverse = { λ v. record { rounds = v } };
}

impl Rounds {
    /// The rounds of a list of them. Takes no memory.
    pub fn of_items(rounds: Items<Items<Command>>) -> Rounds
        requires { AreWellFormedRounds rounds }
        ensures { result ≡ rounds }
    {
        Rounds { rounds }
    }

    /// The rounds in order. Takes no memory.
    pub fn as_slice(&self) -> &[Items<Command>]
        ensures { result.now ≡ self.now }
    {
        self.rounds.as_slice()
    }

    /// What the rounds keep. The function does nothing: what it ensures is the law.
    pub fn laws(&self)
        ensures well_formed { AreWellFormedRounds self.now }
    {
        let _ = &self.rounds;
    }
}

/// The host as it is found, and the rounds of commands.
#[derive(PartialEq, Eq, Drop)]
pub struct Pods {
    pub opening: Host,
    pub rounds: Rounds,
}
