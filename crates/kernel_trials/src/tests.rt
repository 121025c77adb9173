//! The rows, one after another on one host, and calls of them by chance, as the kernel over tables carries them out and
//! as the plain one does.

ghost use Rattle.std.specs.Prelude.{◌≡◌, true, IfOk};
ghost use Rattle.kernel_types.specs.Allowed.{IsAllowed};
ghost use Rattle.kernel_types.specs.Sound.{IsSound};

use crate::calls::call_of;
use crate::is_allowed;
use crate::objects::{device, one};
use crate::table::ROWS;
use cni_addr::{NoMemory, Text};
use kernel_model::{Kernel, ListKernel};
use kernel_tables::TableKernel;
use kernel_text::reply_text;
use kernel_types::{Call, Host, Reply, opening_with};
use rand_core::utils::NextWord;
use rand_pcg::Pcg32;
use std::alloc::Global;
use std::process::Abort;

// `drop` is called, since the proof of a drop at the end of the scope goes through all variants and takes many minutes.

/// A host with the device `ens1` alone.
fn opening(alloc: Global) -> Result<Host, NoMemory>
    ensures { IfOk result (λ host. IsSound host) }
{
    let device = device(alloc, "ens1")?;
    let links = one(alloc, device)?;
    opening_with(alloc, &[], links)
}

/// The call of a row and its reply; none for a heading.
fn parts_of(row: &str) -> Option<(&str, &str)> {
    if row.starts_with('#') {
        None
    } else {
        row.split_once(" => ")
    }
}

fn may_be_made<K: Kernel>(rt: &impl Abort, alloc: Global, kernel: &K, call: &Call) -> bool
    ensures { result ≡ true → IsAllowed (K.host kernel.now) call.now }
{
    let host = kernel.host(alloc).expect(rt, "memory");
    let may = is_allowed(&host, call);
    drop(host);
    may
}

fn reply_of<K: Kernel>(rt: &impl Abort, alloc: Global, kernel: &mut K, call: &Call) -> Reply {
    let may = may_be_made(rt, alloc, kernel, call);
    assert!(rt; may, "the call may not be made");
    kernel.call(alloc, call).expect(rt, "memory")
}

/// The reply as a text, and whether it is the plain kernel's too.
// by value, so that no caller lets go of a reply whose variant it knows
fn compared(rt: &impl Abort, alloc: Global, reply: Reply, plain: Reply) -> (Text, bool) {
    let text = reply_text(alloc, &reply).expect(rt, "memory");
    let is_plain = reply == plain;
    drop(reply);
    drop(plain);
    (text, is_plain)
}

fn mean_one_host(rt: &impl Abort, alloc: Global, kernel: &TableKernel, plain: &ListKernel) -> bool {
    let host = kernel.host(alloc).expect(rt, "memory");
    let plain_host = plain.host(alloc).expect(rt, "memory");
    let is_one = host == plain_host;
    drop(host);
    drop(plain_host);
    is_one
}

/// The reply to the tokens of a call, where both kernels give it and mean one host after it.
fn answer(
    rt: &impl Abort,
    alloc: Global,
    kernel: &mut TableKernel,
    plain: &mut ListKernel,
    tokens: &str,
) -> Text {
    let call = call_of(rt, alloc, tokens);
    let reply = reply_of(rt, alloc, kernel, &call);
    let plain_reply = reply_of(rt, alloc, plain, &call);
    drop(call);
    let (text, is_plain) = compared(rt, alloc, reply, plain_reply);
    assert!(rt; is_plain, "the kernels reply otherwise: {tokens}");
    let is_one = mean_one_host(rt, alloc, kernel, plain);
    assert!(rt; is_one, "the kernels have two hosts: {tokens}");
    text
}

#[test]
fn each_call_and_each_refusal(rt: HostRuntime) {
    let alloc = rt.alloc();
    let opened = opening(alloc).expect(&rt, "memory");
    let mut kernel = TableKernel::of_host(alloc, opened).expect(&rt, "memory");
    let mut plain = ListKernel::of_host(opening(alloc).expect(&rt, "memory"));
    for row in ROWS.lines() {
        if let Some((call, reply)) = parts_of(row) {
            let given = answer(&rt, alloc, &mut kernel, &mut plain, call);
            assert_eq!(rt; given.as_str(), reply, "{row}");
        } else {
            assert!(rt; row.starts_with('#'), "a row without an arrow: {row}");
        }
    }
    drop(kernel);
    drop(plain);
}

/// The call of a row by chance; none where a heading is met.
fn call_by_chance(rt: &impl Abort, random: &mut Pcg32) -> Option<&'static str> {
    let drawn = random.next_word() as usize;
    let place = drawn.checked_rem(ROWS.lines().count()).expect(rt, "rows");
    let row = ROWS.lines().nth(place).expect(rt, "a row");
    let (call, _) = parts_of(row)?;
    Some(call)
}

#[test]
fn calls_by_chance(rt: HostRuntime) {
    let alloc = rt.alloc();
    let opened = opening(alloc).expect(&rt, "memory");
    let mut kernel = TableKernel::of_host(alloc, opened).expect(&rt, "memory");
    let mut plain = ListKernel::of_host(opening(alloc).expect(&rt, "memory"));
    let mut random = Pcg32::new(2024, 54);
    for _ in 0..3000 {
        if let Some(call) = call_by_chance(&rt, &mut random) {
            drop(answer(&rt, alloc, &mut kernel, &mut plain, call));
        }
    }
    drop(kernel);
    drop(plain);
}

fn needs_no_memory(rt: &impl Abort, alloc: Global, tokens: &str) -> bool {
    let call = call_of(rt, alloc, tokens);
    let needs_none = call.needs_no_memory();
    drop(call);
    needs_none
}

#[test]
fn calls_that_need_no_memory(rt: HostRuntime) {
    for (tokens, needs_none) in [
        ("LinkSet c1 /ns/a eth0", true),
        ("LinkDel c1", true),
        ("RuleDel c1", true),
        ("SettingDel c1", true),
        ("LeaseDel c1", true),
        ("CacheDel c1", true),
        ("Master ens1", true),
        ("PoolFree wide", true),
        ("NsDel /ns/a", true),
        ("Flush nat", true),
        ("NsAdd /ns/a", false),
        ("RuleAppend c1 80", false),
        ("OwnersOf pods links", false),
    ] {
        assert_eq!(rt;
            needs_no_memory(&rt, rt.alloc(), tokens),
            needs_none,
            "{tokens}"
        );
    }
}
