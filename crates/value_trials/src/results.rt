//! The calls of `cni_result` that no program makes: a result is read, and printed as one line.

use cni_result::{ResultError, read_result, result_line};
use std::alloc::Global;
use std::process::Abort;

fn told(refused: &ResultError) -> &str {
    match refused {
        ResultError::Decode => "no JSON",
        ResultError::Version { found } => found.as_str(),
        ResultError::Invalid { key } => key.as_str(),
        ResultError::NoMemory => "no memory",
    }
}

/// What comes of a text: the line of the result, or what the refusal tells.
fn outcome(rt: &impl Abort, alloc: Global, text: &str) -> Vec<u8> {
    match read_result(alloc, text.as_bytes()) {
        Ok(found) => {
            let line = result_line(alloc, &found).expect(rt, "memory");
            drop(found);
            line
        }
        Err(refused) => {
            let words = told(&refused).as_bytes().to_vec(alloc).expect(rt, "memory");
            drop(refused);
            words
        }
    }
}

/// A container without addresses, one on a bridge at versions 0.4.0 and 1.0.0, and one with every member.
#[test]
fn a_line_is_read_and_printed_again(rt: HostRuntime) {
    for text in [
        r#"{"cniVersion":"1.1.0","interfaces":[]}
"#,
        r#"{"cniVersion":"0.4.0","interfaces":[{"mac":"0a:9e:d3:ca:06:d6","name":"eth0","sandbox":"/ns/a"}],"ips":[{"address":"10.88.0.2/16","gateway":"10.88.0.1","interface":0,"version":"4"}]}
"#,
        r#"{"cniVersion":"1.0.0","interfaces":[{"mac":"0a:14:d5:c9:f9:b7","name":"cni0"},{"mac":"0a:2e:7d:c9:4b:d9","name":"vethfce92e33"},{"mac":"0a:9e:d3:ca:06:d6","name":"eth0","sandbox":"/ns/a"}],"ips":[{"address":"10.88.0.2/16","gateway":"10.88.0.1","interface":2}],"routes":[{"dst":"0.0.0.0/0"}]}
"#,
        r#"{"cniVersion":"1.1.0","dns":{"domain":"local","nameservers":["10.0.0.1"],"options":["rotate"],"search":["a.b","c"]},"interfaces":[{"mac":"0a:9e:d3:ca:06:d6","mtu":1500,"name":"eth0","sandbox":"/ns/a"}],"ips":[{"address":"10.88.0.2/16","gateway":"10.88.0.1","interface":0}],"routes":[{"dst":"0.0.0.0/0"},{"dst":"10.1.0.0/16","gw":"10.88.0.9"}]}
"#,
    ] {
        assert_eq!(rt; outcome(&rt, rt.alloc(), text).as_slice(), text.as_bytes());
    }
}

#[test]
fn the_first_wrong_member_is_told(rt: HostRuntime) {
    for (text, wrong) in [
        ("{", "no JSON"),
        (r#"{"cniVersion":1.5}"#, "number"),
        ("[]", "result"),
        ("{}", ""),
        (r#"{"cniVersion":7,"interfaces":7}"#, ""),
        (r#"{"cniVersion":"0.3.1"}"#, "0.3.1"),
        (
            r#"{"cniVersion":"1.1.0","interfaces":7,"ips":7}"#,
            "interfaces",
        ),
        (r#"{"cniVersion":"1.1.0","interfaces":[{}]}"#, "interfaces"),
        (
            r#"{"cniVersion":"1.1.0","interfaces":[{"name":"a","mtu":4294967296}]}"#,
            "interfaces",
        ),
        (
            r#"{"cniVersion":"1.1.0","ips":[{"address":"10.0.0.2"}],"routes":7}"#,
            "ips",
        ),
        (
            r#"{"cniVersion":"1.1.0","routes":[{"gw":"10.0.0.1"}],"dns":7}"#,
            "routes",
        ),
        (r#"{"cniVersion":"1.1.0","dns":{"search":[null]}}"#, "dns"),
        (
            r#"{"cniVersion":"1.0.0","ips":[{"address":"10.0.0.2/8","interface":0}]}"#,
            "interface",
        ),
        (
            r#"{"cniVersion":"0.4.0","ips":[{"address":"10.0.0.2/8","version":"6"}]}"#,
            "ips",
        ),
        (
            r#"{"cniVersion":"0.4.0","ips":[{"address":"10.0.0.2/8","version":4}]}"#,
            "ips",
        ),
        (
            r#"{"cniVersion":"0.4.0","ips":[{"address":"10.0.0.2/8"}]}"#,
            "{\"cniVersion\":\"0.4.0\",\"interfaces\":[],\"ips\":[{\"address\":\"10.0.0.2/8\",\"version\":\"4\"}]}\n",
        ),
        (
            r#"{"cniVersion":"1.0.0","ips":[{"address":"10.0.0.2/8","version":"6"}]}"#,
            "{\"cniVersion\":\"1.0.0\",\"interfaces\":[],\"ips\":[{\"address\":\"10.0.0.2/8\"}]}\n",
        ),
        (
            r#"{"cniVersion":"1.0.0","interfaces":[{"name":"a","mtu":"x"}]}"#,
            "{\"cniVersion\":\"1.0.0\",\"interfaces\":[{\"name\":\"a\"}]}\n",
        ),
    ] {
        assert_eq!(rt;
            outcome(&rt, rt.alloc(), text).as_slice(),
            wrong.as_bytes(),
            "at {text}"
        );
    }
}
