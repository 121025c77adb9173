//! The rules of a host, for many packets.

ghost use Rattle.std.specs.Prelude.{◌≡◌, [], ◌∷◌, ◌++◌, IfOk};
ghost use Rattle.std.specs.BTreeMap.{get};
ghost use Rattle.std.specs.List.{position_or_len};
ghost use Rattle.packet_probe.specs.Fate as defined;
ghost use Rattle.packet_probe.specs.Filed as filed;
ghost use Rattle.packet_probe.specs.Kinds as kinds;

use crate::chains::{Chains, fate_by};
use crate::kinds::{Key, Kind, admits, key_of, kind_of, values_at};
use crate::packet::{Fate, Packet};
use cni_addr::{Duplicate, Items, NoMemory, RefCounted};
use kernel_types::{Chain, Rule};
use std::alloc::Global;
use std::collections::{BTreeMap, BTreeSet};
use std::marker::Model;

/// The rules of a host, filed by what they ask of a packet, so that a packet's are looked up. Contracts see the rules.
///
/// The plugins make at most eleven kinds of rules, and two more for each family and length of a subnet's prefix.
#[derive(Drop)]
pub struct Ruleset {
    rules: Items<RefCounted<Rule>>,
    /// For each kind and each values of it the place of the first rule that asks for them.
    firsts: BTreeMap<Key, usize>,
    kinds: BTreeSet<Kind>,
}

impl Model for Ruleset {
    ghost use Rattle.std.specs.Prelude.{List};
    ghost use Rattle.std.specs.BTreeMap as map;
    ghost use Rattle.std.specs.BTreeSet as set;
    ghost use Rattle.kernel_types.specs.declared.rule.Rule.{Rule};
    ghost use Rattle.packet_probe.specs.Filed.{IsFiled};
    ghost use Rattle.packet_probe.specs.Kinds.{key_cmp, kind_cmp};

    ghost Value = { List Rule };

    ghost view = { λ r. r.rules };

    ghost invariant = { λ r. IsFiled (map.get key_cmp r.firsts) (set.contains kind_cmp r.kinds) r.rules };
}

impl Ruleset {
    /// The ruleset of these rules, which it shares. It takes n log n steps for n rules.
    pub fn of(alloc: Global, rules: &[RefCounted<Rule>]) -> Result<Ruleset, NoMemory>
        ensures { IfOk result (λ all. all ≡ rules.now) }
    {
        let mut all = Ruleset::new(alloc);
        for rule in rules {
            all = all.with(rule.copy()?)?;
        }
        Ok(all)
    }

    fn new(alloc: Global) -> Ruleset
        ensures { result ≡ [] }
    {
        Ruleset {
            rules: Items::new(alloc),
            firsts: BTreeMap::new(alloc),
            kinds: BTreeSet::new(alloc),
        }
    }

    /// These rules and one more. Memory that is refused lets all go.
    fn with(self, rule: RefCounted<Rule>) -> Result<Ruleset, NoMemory>
        ensures { IfOk result (λ all. all ≡ self ++ rule ∷ []) }
    {
        let Ruleset {
            mut rules,
            firsts,
            mut kinds,
        } = self;
        let firsts = with_first(firsts, key_of(rule.get()), rules.as_slice().len())?;
        kinds.insert(kind_of(rule.get()))?;
        rules.push(rule)?;
        Ok(Ruleset {
            rules,
            firsts,
            kinds,
        })
    }

    /// What becomes of the packet by these rules, as [`fate`](crate::fate) tells it. It takes no memory, and at most
    /// four look-ups for each kind of rules that there is.
    pub fn fate(&self, packet: &Packet) -> Fate
        ensures { result ≡ defined.fate_by self.now packet.now }
    {
        fate_by(self, packet)
    }

    /// The place of the first rule of the chain that matches the packet, or the number of rules where none does.
    fn first_place(&self, chain: Chain, packet: &Packet) -> usize
        ensures { result ≡ position_or_len (defined.matches_in chain packet.now) self.now }
    {
        let _family = packet.dst.family;
        let mut first = self.rules.as_slice().len();
        for kind in self.kinds.iter() {
            first = first.min(self.place_of_kind(kind, chain, packet));
        }
        first
    }

    /// The same among the rules of the kind.
    fn place_of_kind(&self, kind: &Kind, chain: Chain, packet: &Packet) -> usize
        ensures { result ≡ position_or_len (filed.is_found_at chain packet.now kind.now) self.now }
    {
        let none = self.rules.as_slice().len();
        if admits(chain, kind, packet) {
            let key = (values_at(kind, packet), *kind);
            self.firsts.get(&key).copied().unwrap_or(none)
        } else {
            none
        }
    }
}

impl Chains for Ruleset {
    ghost rules = { λ rules. rules };

    fn first_match(&self, chain: Chain, packet: &Packet) -> Option<&RefCounted<Rule>> {
        self.rules.as_slice().get(self.first_place(chain, packet))
    }
}

/// The first places with that of one more rule, if it is the first of its key.
fn with_first(
    firsts: BTreeMap<Key, usize>,
    key: Key,
    place: usize,
) -> Result<BTreeMap<Key, usize>, NoMemory>
    ensures { IfOk result (λ more. (q : kinds.Key) → get kinds.key_cmp more q
        ≡ filed.first_with (get kinds.key_cmp firsts) key place q) }
{
    let mut firsts = firsts;
    if !firsts.contains_key(&key) {
        firsts.insert(key, place)?;
    }
    Ok(firsts)
}
