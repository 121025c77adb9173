//! The configuration of name resolution, which results and network lists both have under `dns`.

ghost use Rattle.std.specs.Prelude.{◌≡◌, IfOk};
ghost use Rattle.serde_json.specs.View.{view};
ghost use Rattle.cni_json.specs.Outcome.{Gives};
ghost use Rattle.cni_json.specs.Readers.{IsRefusal};
ghost use Rattle.cni_result.specs.Dns as defined;

use crate::result::Dns;
use cni_addr::{Items, NoMemory, Text};
use cni_json::{Field, Refusal, Value, field_object, field_str, read_list_or};
use std::alloc::Global;

/// The configuration under `dns` of an object (CNI specification 1.1.0, sections 1 and 5). Where it is absent each list
/// is empty and the domain is the empty text. It is refused where `dns` is no object, `domain` no text, or one of the
/// lists no list of texts.
#[tactic(auto, using(cni_json::proofs::Steps::steps), unfolding(crate::specs::Dns::dns_of_object))]
pub fn read_dns<E: Refusal, W: Fn() -> E>(
    alloc: Global,
    object: &Value,
    refusal: W,
) -> Result<Dns, E>
    requires { W.IsAlwaysCallable refusal }
    ensures { (wrong : E) → IsRefusal E.is_out_of_memory W.FnOnce refusal wrong
        → Gives E.is_out_of_memory result (defined.dns_of_object wrong (view object.now)) }
{
    match field_object(object, "dns") {
        Field::Absent => Ok(no_dns(alloc)?),
        Field::WrongKind => Err(refusal()),
        Field::Here(members) => dns_members(alloc, members, &refusal),
    }
}

/// Nothing is configured: each list is empty and the domain is the empty text.
pub fn no_dns(alloc: Global) -> Result<Dns, NoMemory>
    ensures { IfOk result (λ dns. dns ≡ defined.no_dns) }
{
    Ok(Dns {
        nameservers: Items::new(alloc),
        domain: Text::of(alloc, "")?,
        search: Items::new(alloc),
        options: Items::new(alloc),
    })
}

#[tactic(auto, using(cni_json::proofs::Steps::steps), unfolding(crate::specs::Dns::dns_members_at))]
fn dns_members<E: Refusal, W: Fn() -> E>(
    alloc: Global,
    members: &Value,
    refusal: &W,
) -> Result<Dns, E>
    requires { W.IsAlwaysCallable refusal.now }
    ensures { (wrong : E) → IsRefusal E.is_out_of_memory W.FnOnce refusal.now wrong
        → Gives E.is_out_of_memory result (defined.dns_members_at wrong (view members.now)) }
{
    let nameservers = read_texts(alloc, members, "nameservers", refusal)?;
    let domain = domain(alloc, members, refusal)?;
    let search = read_texts(alloc, members, "search", refusal)?;
    let options = read_texts(alloc, members, "options", refusal)?;
    Ok(Dns {
        nameservers,
        domain,
        search,
        options,
    })
}

#[tactic(auto, using(cni_json::proofs::Steps::steps), unfolding(crate::specs::Dns::domain_at))]
fn domain<E: Refusal, W: Fn() -> E>(alloc: Global, members: &Value, refusal: &W) -> Result<Text, E>
    requires { W.IsAlwaysCallable refusal.now }
    ensures { (wrong : E) → IsRefusal E.is_out_of_memory W.FnOnce refusal.now wrong
        → Gives E.is_out_of_memory result (defined.domain_at wrong (view members.now)) }
{
    match field_str(members, "domain") {
        Field::Absent => Ok(Text::of(alloc, "")?),
        Field::WrongKind => Err(refusal()),
        Field::Here(text) => Ok(Text::of(alloc, text)?),
    }
}

/// The texts that are the list under the key of an object, none where it is absent. Another value of the key is
/// refused.
#[tactic(auto, using(cni_json::proofs::Steps::steps), unfolding(crate::specs::Dns::texts_at))]
pub fn read_texts<E: Refusal, W: Fn() -> E>(
    alloc: Global,
    object: &Value,
    key: &str,
    refusal: &W,
) -> Result<Items<Text>, E>
    requires { W.IsAlwaysCallable refusal.now }
    ensures { (wrong : E) → IsRefusal E.is_out_of_memory W.FnOnce refusal.now wrong
        → Gives E.is_out_of_memory result (defined.texts_at wrong key.now (view object.now)) }
{
    read_list_or(
        alloc,
        object,
        key,
        || refusal(),
        |entry| text_member(alloc, entry, refusal),
    )
}

#[tactic(auto, using(cni_json::proofs::Steps::steps))]
fn text_member<E: Refusal, W: Fn() -> E>(
    alloc: Global,
    entry: &Value,
    refusal: &W,
) -> Result<Text, E>
    requires { W.IsAlwaysCallable refusal.now }
    ensures { (wrong : E) → IsRefusal E.is_out_of_memory W.FnOnce refusal.now wrong
        → Gives E.is_out_of_memory result (defined.text_of wrong (view entry.now)) }
{
    match entry {
        Value::String(text) => Ok(Text::of(alloc, text.as_str())?),
        _ => Err(refusal()),
    }
}
