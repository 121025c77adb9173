//! What becomes of a packet by the rules of a host, rule by rule. The program asks a ruleset in its place; the row
//! `packets_to_a_published_port` shows the same fates of the same packets by one.

use cni_addr::{Items, RefCounted, read_addr, read_cidr};
use cni_result::Proto;
use kernel_types::{Chain, Host, Rule, Table, Tag, Target};
use packet_probe::{Fate, fate, read_packets};
use std::alloc::Global;
use std::process::Abort;

/// A rule for what comes from one network and goes to another, of TCP where it names a port. A text that is empty
/// stands for any network.
fn rule(chain: Chain, src: &str, dst: &str, dport: Option<u16>, target: Target) -> Rule {
    let protocol = match dport {
        Some(_) => Some(Proto::Tcp),
        None => None,
    };
    Rule {
        table: Table::Nat,
        chain,
        src: read_cidr(src.as_bytes()),
        dst: read_cidr(dst.as_bytes()),
        not_dst: false,
        protocol,
        dport,
        established: false,
        target,
        tag: Tag::Outside,
    }
}

fn push(rt: &impl Abort, alloc: Global, rules: &mut Items<RefCounted<Rule>>, rule: Rule) {
    let rule = RefCounted::of(alloc, rule).expect(rt, "memory");
    rules.push(rule).expect(rt, "memory");
}

/// The rules of a container whose port 80 is published as 8080, in a network that masquerades and has a firewall.
fn rules(rt: &impl Abort, alloc: Global) -> Items<RefCounted<Rule>> {
    let own = "10.88.0.2/32";
    let network = "10.88.0.0/16";
    let to_own = Target::Dnat {
        addr: read_addr(b"10.88.0.2").expect(rt, "an address"),
        port: 80,
    };
    let mut all = Items::new(alloc);
    let published = rule(Chain::Dnat, "", "", Some(8080), to_own);
    push(rt, alloc, &mut all, published);
    let hairpin = rule(Chain::HostMasq, network, own, Some(80), Target::Masquerade);
    push(rt, alloc, &mut all, hairpin);
    let within = rule(Chain::Masq, own, network, None, Target::Accept);
    push(rt, alloc, &mut all, within);
    let out = Rule {
        not_dst: true,
        ..rule(Chain::Masq, own, "224.0.0.0/4", None, Target::Masquerade)
    };
    push(rt, alloc, &mut all, out);
    let replies = Rule {
        established: true,
        ..rule(Chain::Forward, "", own, None, Target::Accept)
    };
    push(rt, alloc, &mut all, replies);
    let forward = rule(Chain::Forward, own, "", None, Target::Accept);
    push(rt, alloc, &mut all, forward);
    all
}

/// A host with these rules alone.
fn host(rt: &impl Abort, alloc: Global) -> Host {
    Host {
        namespaces: Items::new(alloc),
        links: Items::new(alloc),
        addresses: Items::new(alloc),
        routes: Items::new(alloc),
        rules: rules(rt, alloc),
        settings: Items::new(alloc),
        leases: Items::new(alloc),
        cached: Items::new(alloc),
        lasts: Items::new(alloc),
    }
}

/// Packet files of one packet each, and what becomes of it: where it goes, and whether it is rewritten, accepted and
/// masqueraded.
fn wanted() -> [(&'static str, &'static str, u16, bool, bool, bool); 6] {
    [
        (
            r#"[{"protocol":"tcp","src":"192.0.2.7","dst":"198.51.100.1","dport":8080}]"#,
            "10.88.0.2",
            80,
            true,
            false,
            false,
        ),
        (
            r#"[{"protocol":"tcp","src":"10.88.0.2","dst":"198.51.100.9","dport":443}]"#,
            "198.51.100.9",
            443,
            false,
            true,
            true,
        ),
        (
            r#"[{"protocol":"tcp","src":"10.88.0.3","dst":"198.51.100.1","dport":8080}]"#,
            "10.88.0.2",
            80,
            true,
            false,
            true,
        ),
        (
            r#"[{"protocol":"tcp","src":"192.0.2.7","dst":"198.51.100.1","dport":8081,"established":null}]"#,
            "198.51.100.1",
            8081,
            false,
            false,
            false,
        ),
        (
            r#"[{"protocol":"udp","src":"10.88.0.2","dst":"224.0.0.251","dport":5353}]"#,
            "224.0.0.251",
            5353,
            false,
            true,
            false,
        ),
        (
            r#"[{"protocol":"tcp","src":"192.0.2.7","dst":"10.88.0.2","dport":80,"established":true}]"#,
            "10.88.0.2",
            80,
            false,
            true,
            false,
        ),
    ]
}

/// A published port, a way out, a way back to the host, a port that nobody published, many at once, and a reply.
#[test]
fn each_packet_fares_by_the_rules(rt: HostRuntime) {
    let alloc = rt.alloc();
    let host = host(&rt, alloc);
    for (text, dst, dport, rewritten, accepted, masqueraded) in wanted() {
        let packets = read_packets(alloc, text.as_bytes()).expect(&rt, "packets");
        assert_eq!(rt; packets.as_slice().len(), 1);
        let packet = packets.as_slice()[0];
        let wanted = Fate {
            dst: read_addr(dst.as_bytes()).expect(&rt, "an address"),
            dport,
            rewritten,
            accepted,
            masqueraded,
        };
        assert_eq!(rt; fate(&host, &packet), wanted, "of {text}");
    }
    drop(host);
}
