//! What a CHECK asks: the bridge, and each object that the list makes with what the cached result says.

ghost use Rattle.std.specs.Prelude.{◌≡◌, ◌++◌, map, IfOk, OnOk};
ghost use Rattle.std.specs.Option.{option_copied};
ghost use Rattle.kernel_types.specs.declared.call.Call.TheVariants as calls;
ghost use Rattle.cni_errors.specs.ObjectQuestions.{rule_questions};
ghost use Rattle.plugin_base.specs.Share.{no_objects};
ghost use Rattle.plugin_chain.specs.Wanted.{wanted};
ghost use Rattle.verb_questions.specs.Questions as asked;

use cni_addr::{Addr, Duplicate, Items, Mac, NoMemory, RefCounted, Text};
use cni_errors::fields::named_att_of;
use cni_errors::object_questions::{Checked, rule_question};
use cni_errors::{Cause, Missed, Question};
use cni_result::{AddResult, Cached, Interface};
use kernel_types::{Call, NamedAtt, Probe, Rule};
use net_conf::NetList;
use plugin_chain::plugins::{bridge_of, calls_before};
use plugin_chain::share::{Objects, no_objects};
use plugin_chain::wanted::plugin_calls;
use pod_file::Command;
use std::alloc::Global;

// ---- the objects of an attachment

fn ask_each<T: Checked>(questions: &mut Vec<Question>, objects: Vec<T>) -> Result<(), NoMemory>
    ensures { OnOk result (questions.new.items ≡ questions.old.items ++ map T.question objects.items) }
{
    let alloc = *questions.allocator();
    for object in objects {
        let question = object.ask(alloc)?;
        questions.push(question)?;
    }
    Ok(())
}

fn ask_rules(questions: &mut Vec<Question>, rules: &[RefCounted<Rule>]) -> Result<(), NoMemory>
    ensures { OnOk result (questions.new.items ≡ questions.old.items ++ rule_questions 1 rules.now) }
{
    let alloc = *questions.allocator();
    for (place, rule) in rules.iter().enumerate() {
        let question = rule_question(alloc, rule, place as u64 + 1)?;
        questions.push(question)?;
    }
    Ok(())
}

fn ask_share(questions: &mut Vec<Question>, share: Objects) -> Result<(), NoMemory>
    ensures { OnOk result (questions.new.items ≡ questions.old.items ++ asked.share_questions share) }
{
    ask_each(questions, share.links)?;
    ask_each(questions, share.addresses)?;
    ask_each(questions, share.routes)?;
    ask_rules(questions, share.rules.as_slice())?;
    ask_each(questions, share.settings)?;
    ask_each(questions, share.leases)?;
    Ok(())
}

// ---- the bridge

fn bridge_question(alloc: Global, name: &Text, mac: Mac) -> Result<Question, NoMemory>
    ensures { IfOk result (λ q. q ≡ record {
      call = calls.HasObj (Probe.BridgeAt name.now mac);
      lack = Cause.Missing (Missed.Bridge name.now);
    }) }
{
    let bridge = name.copy()?;
    let missed = name.copy()?;
    let probe = Probe::BridgeAt { name: bridge, mac };
    Ok(Question {
        call: RefCounted::of(alloc, Call::HasObj { probe })?,
        lack: Cause::Missing(Missed::Bridge(missed)),
    })
}

fn ask_bridge_by_mac(
    questions: &mut Vec<Question>,
    name: &Text,
    mac: Option<Mac>,
) -> Result<(), NoMemory>
    ensures { OnOk result (questions.new.items ≡ questions.old.items ++ asked.bridge_by_mac name.now mac) }
{
    match mac {
        Some(mac) => {
            let alloc = *questions.allocator();
            let question = bridge_question(alloc, name, mac)?;
            questions.push(question)?;
            Ok(())
        }
        None => Ok(()),
    }
}

fn ask_first_interface(
    questions: &mut Vec<Question>,
    interfaces: &[Interface],
) -> Result<(), NoMemory>
    ensures { OnOk result (questions.new.items ≡ questions.old.items ++ asked.first_interface interfaces.now) }
{
    match interfaces {
        [first, ..] => ask_bridge_by_mac(questions, &first.name, first.mac),
        [] => Ok(()),
    }
}

fn ask_bridge(
    questions: &mut Vec<Question>,
    bridge: Option<&Text>,
    interfaces: &[Interface],
) -> Result<(), NoMemory>
    ensures { OnOk result (questions.new.items
        ≡ questions.old.items ++ asked.bridge_questions (option_copied bridge.entry) interfaces.now) }
{
    match bridge {
        Some(_) => ask_first_interface(questions, interfaces),
        None => Ok(()),
    }
}

// ---- the whole

/// The addresses of a result, in order.
pub fn addresses_of_result(alloc: Global, added: &AddResult) -> Result<Vec<Addr>, NoMemory>
    ensures { IfOk result (λ addrs. addrs.items ≡ asked.addresses_of_result added.now) }
{
    Ok(
        added
            .ips
            .as_slice()
            .iter()
            .map(|ip| ip.address.addr)
            .collect(alloc)?,
    )
}

/// Gathers what the list's plugins want for an attachment with these addresses, but for its cached result, in a share
/// that has nothing yet.
fn gather(
    share: &mut Objects,
    alloc: Global,
    list: &NetList,
    att: &NamedAtt,
    cached: &Cached,
    addrs: &[Addr],
) -> Result<(), NoMemory>
    requires { share.old ≡ no_objects }
    ensures { OnOk result (asked.share_questions share.new
        ≡ asked.share_questions (wanted list.now att.now cached.now.netns cached.now.mappings addrs.now)) }
{
    share.take_calls(calls_before(alloc, &list.first, att, &cached.netns)?)?;
    share.take_leases(alloc, att.att(), addrs)?;
    let mappings = cached.mappings.as_slice();
    let made = plugin_calls(alloc, list, att, &cached.netns, mappings, addrs)?;
    share.take_calls(made.calls)?;
    Ok(())
}

/// What a check asks of what the cached result says that there is: all of it but the result itself, which was just
/// read.
fn cached_share(
    alloc: Global,
    list: &NetList,
    command: &Command,
    cached: &Cached,
) -> Result<Objects, NoMemory>
    ensures { IfOk result (λ share.
        asked.share_questions share
        ≡ asked.share_questions (asked.cached_share list.now command.now cached.now)) }
{
    let att = named_att_of(alloc, command)?;
    let addrs = addresses_of_result(alloc, &cached.result)?;
    let mut share = no_objects(alloc);
    gather(&mut share, alloc, list, &att, cached, addrs.as_slice())?;
    Ok(share)
}

/// The questions of a CHECK: the bridge that the cached result names, then each object that the attachment was to
/// have: links, addresses, routes, rules, settings, leases. Linear in the calls of the ADD, where few of them set a
/// link, and in what the cached result lists.
pub fn check_questions(
    alloc: Global,
    list: &NetList,
    command: &Command,
    cached: &Cached,
) -> Result<Items<Question>, NoMemory>
    ensures { IfOk result (λ questions. questions ≡ asked.check_questions list.now command.now cached.now) }
{
    let mut questions = Vec::new(alloc);
    ask_bridge(
        &mut questions,
        bridge_of(&list.first),
        cached.result.interfaces.as_slice(),
    )?;
    let share = cached_share(alloc, list, command, cached)?;
    ask_share(&mut questions, share)?;
    Ok(Items::of_vec(questions))
}
