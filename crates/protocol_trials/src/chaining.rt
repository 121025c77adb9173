//! An ADD to a list of two plugins, whose requests are read again: what the plugins do of them is what the ADD does.

ghost use Rattle.std.specs.Prelude.{◌≡◌, ◌∷◌, [], true, IfOk, IfSome};
ghost use Rattle.std.specs.List.{AllZip};
ghost use Rattle.exec_protocol.specs.Work.{AreGivenFor, HasItsPrev, IsAddFor, IsGivenBy};

use crate::samples::{env_of, list, text};
use cni_addr::{Addr, Family, Items, NoMemory, Text};
use cni_errors::fields::add_refusal;
use exec_protocol::{Chain, Env, Request, Work, chain, read_request, work};
use host_local::given;
use ip_pool::contains_candidate;
use kernel_types::{Call, Given};
use net_conf::{HostLocalConf, NetList, Plugin};
use plugin_chain::plugins::ipam_of;
use plugin_requests::RawList;
use pod_file::{Command, RawMapping, Verb};
use std::alloc::Global;
use std::process::Abort;

/// 10.88.0.2.
const LEASED: Addr = Addr {
    family: Family::V4,
    bits: 0x0a58_0002,
};

/// From port 8080 of the host to port 80.
fn one_mapping(rt: &impl Abort, alloc: Global) -> Items<RawMapping> {
    let mut mappings = Items::new(alloc);
    let pushed = mappings.push(RawMapping {
        host_port: 8080,
        container_port: 80,
        protocol: text(rt, alloc, "tcp"),
        host_ip: text(rt, alloc, ""),
    });
    pushed.expect(rt, "no memory");
    mappings
}

fn add(rt: &impl Abort, alloc: Global) -> Command {
    Command {
        number: 1,
        verb: Verb::Add,
        network: text(rt, alloc, "podman"),
        container: text(rt, alloc, "c1"),
        netns: text(rt, alloc, "/ns/a"),
        ifname: text(rt, alloc, "eth0"),
        args: text(rt, alloc, ""),
        mappings: one_mapping(rt, alloc),
        valid: Items::new(alloc),
        table: None,
        stop: None,
        faults: Items::new(alloc),
    }
}

/// Whether the list takes the ADD.
fn is_add_for(alloc: Global, list: &NetList, command: &Command) -> Result<bool, NoMemory>
    ensures { IfOk result (λ yes. yes ≡ true → IsAddFor list.now command.now) }
{
    let refusal = add_refusal(alloc, command)?;
    let good = refusal.is_none();
    drop(refusal);
    Ok(good && command.verb == Verb::Add && command.network == list.name)
}

/// What the address means by the configuration's only set, where it is a candidate of it.
#[tactic(auto, using(crate::proofs::Given::is_given))]
fn given_by_one(conf: &HostLocalConf, addr: &Addr) -> Option<Given>
    ensures { IfSome result (λ g. AllZip IsGivenBy conf.now.sets (g ∷ [])) }
{
    match conf.sets.as_slice() {
        [set] if contains_candidate(set.get(), addr) => Some(given(conf, 0, addr)),
        _ => None,
    }
}

/// The same of the list's only set.
fn given_for(list: &NetList, addr: &Addr) -> Option<Given>
    ensures { IfSome result (λ g. AreGivenFor list.now (g ∷ [])) }
{
    match ipam_of(&list.first) {
        Some(conf) => given_by_one(conf, addr),
        None => None,
    }
}

fn chain_to(rt: &impl Abort, alloc: Global, raw: &RawList, command: &Command) -> Chain {
    let list = raw.list().get();
    let Ok(taken) = is_add_for(alloc, list, command) else {
        panic!(rt; "no memory");
    };
    let Some(given) = given_for(list, &LEASED) else {
        panic!(rt; "the address is not of the list");
    };
    if taken {
        chain(alloc, raw, command, &[given]).expect(rt, "no memory")
    } else {
        panic!(rt; "the list does not take the ADD")
    }
}

fn has_its_prev(request: &Request) -> bool
    ensures { result ≡ true → HasItsPrev request.now.plugin request.now.prev }
{
    match (&request.plugin, &request.prev) {
        (Plugin::Chained(_), None) => false,
        _ => true,
    }
}

fn work_if(rt: &impl Abort, alloc: Global, request: &Request, given: &[Given]) -> Work {
    if request.env.command.as_str() == "ADD" && has_its_prev(request) {
        work(alloc, request, given).expect(rt, "no memory")
    } else {
        panic!(rt; "the request is not of an ADD")
    }
}

fn work_of_line(rt: &impl Abort, alloc: Global, env: &Env, line: &Text, given: &[Given]) -> Work {
    match read_request(alloc, env, line.as_str().as_bytes()) {
        Ok(request) => {
            let work = work_if(rt, alloc, &request, given);
            drop(request);
            work
        }
        Err(_) => panic!(rt; "the request is not read"),
    }
}

/// Whether the second request's work goes on from the first's as the chain does, and ends as it does.
fn are_works_of(chain: &Chain, first: &Work, second: &Work) -> bool {
    let calls = first.calls.as_slice();
    match chain.calls.as_slice() {
        [Call::Begin { .. }, plugins @ .., Call::CachePut { .. }] => {
            plugins.starts_with(calls)
                && plugins.get(calls.len()..) == Some(second.calls.as_slice())
                && second.result == chain.result
        }
        _ => false,
    }
}

fn is_read_again(rt: &impl Abort, alloc: Global, list: &NetList, chain: &Chain) -> bool {
    let Some(given) = given_for(list, &LEASED) else {
        panic!(rt; "the address is not of the list");
    };
    let [to_first, to_second] = chain.requests.as_slice() else {
        panic!(rt; "there are not two requests");
    };
    let env = env_of(rt, alloc, "ADD,c1,/ns/a,eth0,");
    let first = work_of_line(rt, alloc, &env, to_first, &[given]);
    let second = work_of_line(rt, alloc, &env, to_second, &[]);
    drop(env);
    let is_same = are_works_of(chain, &first, &second);
    drop(first);
    drop(second);
    is_same
}

#[test]
fn a_chain_is_the_work_of_its_requests(rt: HostRuntime) {
    let alloc = rt.alloc();
    let raw = list(&rt, alloc);
    let command = add(&rt, alloc);
    let chain = chain_to(&rt, alloc, &raw, &command);
    assert_eq!(rt; chain.calls.as_slice().len(), 9);
    assert!(rt; is_read_again(&rt, alloc, raw.list().get(), &chain));
    drop(chain);
    drop(command);
    drop(raw);
}
