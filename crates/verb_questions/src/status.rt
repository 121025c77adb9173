//! What a STATUS asks: a free address in each range set, and the link of the host that the plugin's is over.

ghost use Rattle.std.specs.Prelude.{◌≡◌, ◌+◌, ◌++◌, ◌≤◌, length, IfOk, OnOk};
ghost use Rattle.std.specs.Option.{option_copied};
ghost use Rattle.kernel_types.specs.declared.call.Call.TheVariants as calls;
ghost use Rattle.net_conf.specs.Sets.{most_sets};
ghost use Rattle.verb_questions.specs.Questions as asked;

use cni_addr::{Duplicate, Items, NoMemory, RangeSet, RefCounted, Text};
use cni_errors::{Cause, Question};
use kernel_types::{Call, Probe};
use net_conf::NetList;
use plugin_chain::plugins::master_of;
use plugin_chain::wanted::sets_of;
use pod_file::Command;
use std::alloc::Global;

fn pool_question(
    alloc: Global,
    network: &Text,
    number: u32,
    set: &RefCounted<RangeSet>,
) -> Result<Question, NoMemory>
    ensures { IfOk result (λ q. q ≡ asked.pool_question network.now number set.now) }
{
    let network = network.copy()?;
    let set = set.copy()?;
    Ok(Question {
        call: RefCounted::of(alloc, Call::PoolFree { network, set })?,
        lack: Cause::NoFreeAddress(number),
    })
}

fn ask_pools(
    questions: &mut Vec<Question>,
    network: &Text,
    sets: &[RefCounted<RangeSet>],
) -> Result<(), NoMemory>
    requires few { length sets.now ≤ most_sets }
    ensures { OnOk result (questions.new.items ≡ questions.old.items ++ asked.pool_questions network.now 0 sets.now) }
{
    let alloc = *questions.allocator();
    for (place, set) in sets.iter().enumerate() {
        let question = pool_question(alloc, network, place as u32, set)?;
        questions.push(question)?;
    }
    Ok(())
}

fn master_question(alloc: Global, name: &Text) -> Result<Question, NoMemory>
    ensures { IfOk result (λ q. q ≡ record {
      call = calls.HasObj (Probe.Master name.now);
      lack = Cause.MasterAbsent name.now;
    }) }
{
    let master = name.copy()?;
    let absent = name.copy()?;
    let probe = Probe::Master { name: master };
    Ok(Question {
        call: RefCounted::of(alloc, Call::HasObj { probe })?,
        lack: Cause::MasterAbsent(absent),
    })
}

fn ask_master(questions: &mut Vec<Question>, master: Option<&Text>) -> Result<(), NoMemory>
    ensures { OnOk result
        (questions.new.items ≡ questions.old.items ++ asked.master_questions (option_copied master.entry)) }
{
    match master {
        Some(master) => {
            let alloc = *questions.allocator();
            let question = master_question(alloc, master)?;
            questions.push(question)?;
            Ok(())
        }
        None => Ok(()),
    }
}

/// The questions of a STATUS: a free address in each range set, then the link of the host that the plugin's is over.
#[tactic(auto, unfolding(crate::specs::Questions::status_questions))]
pub fn status_questions(
    alloc: Global,
    list: &NetList,
    command: &Command,
) -> Result<Items<Question>, NoMemory>
    ensures { IfOk result (λ questions. questions ≡ asked.status_questions list.now command.now) }
{
    let mut questions = Vec::new(alloc);
    ask_pools(&mut questions, &command.network, sets_of(list))?;
    ask_master(&mut questions, master_of(&list.first))?;
    Ok(Items::of_vec(questions))
}
