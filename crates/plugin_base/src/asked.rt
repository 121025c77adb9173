//! Objects that calls ask for, told apart by their keys.

ghost use Rattle.std.specs.Prelude.{◌≡◌};
ghost use Rattle.std.specs.Option.{option_map_or};
ghost use Rattle.plugin_base.specs.EachKey as keys;

use cni_addr::{Cidr, Duplicate, NoMemory, RefCounted};
use kernel_types::terms::{is_same_addr, is_same_route, is_same_setting};
use kernel_types::{AddrKey, AddrObj, Call, RouteKey, RouteObj, Rule, Setting, SettingKey};
use std::alloc::Global;
use std::cmp::Ordering;

/// An object that a call asks for, with the test whether another has its key, and an order of keys.
///
/// Whoever chooses names and addresses could choose many of one hash, so keys are sought by their order. Many keys of
/// one attachment begin alike, so a number stands before them that tells most of them apart at one comparison.
pub trait Asked: Duplicate + Drop {
    ghost use Rattle.std.specs.Prelude.{◌≡◌, Bool, true, IfOk, ℕ};
    ghost use Rattle.std.specs.Ordering.{eq_by_cmp};
    ghost use Rattle.kernel_types.specs.declared.call.Call.{Call};

    /// What tells objects apart. None is made: two objects are put in order as they are.
    type Key: Ord;

    ghost key_of: { Self → Self.Key };

    ghost mark_of: { Self → ℕ };

    ghost same_key: { Self → Self → Bool };

    ghost call_for: { Self → Call };

    /// Whether the other has this one's key.
    fn has_key(&self, other: &Self) -> bool
        ensures { result ≡ same_key self.now other.now };

    /// A number that objects of one key share.
    fn mark(&self) -> u64
        ensures { result ≡ mark_of self.now };

    /// How its key stands to the other's.
    fn key_order(&self, other: &Self) -> Ordering
        ensures { result ≡ Self.Key.cmp (key_of self.now) (key_of other.now) };

    /// The call that asks for it.
    fn ask(self, alloc: Global) -> Result<Call, NoMemory>
        ensures { IfOk result (λ call. call ≡ call_for self) };

    ghost same_by_key: { (new x : Self) → same_key new x ≡ eq_by_cmp Self.Key.cmp (key_of x) (key_of new) };

    ghost same_mark: { (new x : Self) → same_key new x ≡ true → mark_of x ≡ mark_of new };
}

impl Asked for AddrObj {
    ghost use Rattle.kernel_types.specs.Keys.{addr_key, is_same_addr};
    ghost use Rattle.kernel_types.specs.declared.call.Call.TheVariants.{AddrAdd};
    ghost use Rattle.plugin_base.specs.EachKey.{halves};
    ghost use Rattle.plugin_base.specs.KeyLaws.{addr-by_key, addr-mark};

    type Key = AddrKey;

    ghost key_of = { addr_key };

    ghost mark_of = { λ obj. halves obj.cidr.addr.bits };

    ghost same_key = { is_same_addr };

    ghost same_by_key = { addr-by_key };

    ghost same_mark = { addr-mark };

    ghost call_for = { λ obj. AddrAdd obj };

    fn has_key(&self, other: &AddrObj) -> bool {
        is_same_addr(self, other)
    }

    fn mark(&self) -> u64 {
        halves(self.cidr.addr.bits)
    }

    fn key_order(&self, other: &AddrObj) -> Ordering {
        let link = self.link.cmp(&other.link);
        let addr = self.cidr.addr.cmp(&other.cidr.addr);
        self.ns.cmp(&other.ns).then(link.then(addr))
    }

    fn ask(self, alloc: Global) -> Result<Call, NoMemory> {
        Ok(Call::AddrAdd {
            obj: RefCounted::of(alloc, self)?,
        })
    }
}

impl Asked for RouteObj {
    ghost use Rattle.kernel_types.specs.Keys.{route_key, is_same_route};
    ghost use Rattle.kernel_types.specs.declared.call.Call.TheVariants.{RouteAdd};
    ghost use Rattle.plugin_base.specs.EachKey.{halves};
    ghost use Rattle.plugin_base.specs.KeyLaws.{route-by_key, route-mark};

    type Key = RouteKey;

    ghost key_of = { route_key };

    ghost mark_of = { λ obj. halves obj.dst.addr.bits };

    ghost same_key = { is_same_route };

    ghost same_by_key = { route-by_key };

    ghost same_mark = { route-mark };

    ghost call_for = { λ obj. RouteAdd obj };

    fn has_key(&self, other: &RouteObj) -> bool {
        is_same_route(self, other)
    }

    fn mark(&self) -> u64 {
        halves(self.dst.addr.bits)
    }

    fn key_order(&self, other: &RouteObj) -> Ordering {
        let dst = self.dst.cmp(&other.dst);
        let link = self.link.cmp(&other.link);
        self.ns.cmp(&other.ns).then(dst.then(link))
    }

    fn ask(self, alloc: Global) -> Result<Call, NoMemory> {
        Ok(Call::RouteAdd {
            obj: RefCounted::of(alloc, self)?,
        })
    }
}

/// Both halves of an address's number added up.
pub fn halves(bits: u128) -> u64
    ensures { result ≡ keys.halves bits }
{
    (bits.wrapping_add(bits >> 64) % (1 << 64)) as u64
}

/// The number of the network's address, 0 without a network.
fn bits_of(network: &Option<Cidr>) -> u128
    ensures { result ≡ option_map_or (λ cidr. cidr.addr.bits) network.now 0 }
{
    match network {
        Some(cidr) => cidr.addr.bits,
        None => 0,
    }
}

impl Asked for Rule {
    ghost use Rattle.kernel_types.specs.Equal.{rule_eq};
    ghost use Rattle.kernel_types.specs.declared.call.Call.TheVariants.{RuleAppend};
    ghost use Rattle.plugin_base.specs.EachKey.{rule_mark};
    ghost use Rattle.plugin_base.specs.KeyLaws.{rule-by_key, rule-mark};

    type Key = Rule;

    ghost key_of = { λ rule. rule };

    ghost mark_of = { rule_mark };

    ghost same_key = { rule_eq };

    ghost same_by_key = { rule-by_key };

    ghost same_mark = { rule-mark };

    ghost call_for = { λ obj. RuleAppend obj };

    fn has_key(&self, other: &Rule) -> bool {
        self == other
    }

    fn mark(&self) -> u64 {
        let networks = bits_of(&self.src).wrapping_add(bits_of(&self.dst));
        halves(networks).wrapping_add(u64::from(self.dport.unwrap_or(0)))
    }

    fn key_order(&self, other: &Rule) -> Ordering {
        self.cmp(other)
    }

    fn ask(self, alloc: Global) -> Result<Call, NoMemory> {
        Ok(Call::RuleAppend {
            rule: RefCounted::of(alloc, self)?,
        })
    }
}

impl Asked for Setting {
    ghost use Rattle.kernel_types.specs.Keys.{setting_key, is_same_setting};
    ghost use Rattle.kernel_types.specs.declared.call.Call.TheVariants.{SettingSet};
    ghost use Rattle.std.specs.Prelude.{refl};
    ghost use Rattle.plugin_base.specs.KeyLaws.{setting-by_key};

    type Key = SettingKey;

    ghost key_of = { setting_key };

    ghost mark_of = { λ obj. 0 };

    ghost same_key = { is_same_setting };

    ghost same_by_key = { setting-by_key };

    ghost same_mark = { λ new x same. refl };

    ghost call_for = { λ obj. SettingSet obj };

    fn has_key(&self, other: &Setting) -> bool {
        is_same_setting(self, other)
    }

    fn mark(&self) -> u64 {
        0
    }

    fn key_order(&self, other: &Setting) -> Ordering {
        self.ns.cmp(&other.ns).then(self.key.cmp(&other.key))
    }

    fn ask(self, alloc: Global) -> Result<Call, NoMemory> {
        Ok(Call::SettingSet {
            setting: RefCounted::of(alloc, self)?,
        })
    }
}
