//! Requests that are read: what each wrong part is told as, and what a good one has.
//!
//! A row has the words that a plugin is called with, its request, and what comes of it.

use crate::samples::{env_of, text};
use cni_addr::Text;
use cni_result::ResultError;
use exec_protocol::{Request, RequestError, read_request};
use net_conf::ConfError;
use std::alloc::Global;
use std::process::Abort;

/// All is wrong at first, and then one part after the other is mended.
const WORDS_AND_HEADS: &str = r#"add,,,a/b,A=; { => CNI_COMMAND
VERSION,,,a/b,A=; { => CNI_COMMAND
ADD,,,a/b,A=; { => CNI_CONTAINERID, CNI_NETNS, CNI_IFNAME, CNI_ARGS
CHECK,,,a/b,A=; { => CNI_CONTAINERID, CNI_NETNS, CNI_IFNAME
DEL,,,a/b,A=; { => CNI_CONTAINERID, CNI_IFNAME
GC,,,a/b,A=; { => no JSON
ADD,c1,/ns/a,eth0,A= [7.5] => number
ADD,c1,/ns/a,eth0,A= [7] => list
ADD,c1,/ns/a,eth0,A= {"cniVersion":7,"name":"a b"} => cniVersion
ADD,c1,/ns/a,eth0,A= {"cniVersion":"9.9","name":"a b"} => 9.9
ADD,c1,/ns/a,eth0,A= {"cniVersion":"1.1.0","name":"a b","type":"x"} => name
ADD,c1,/ns/a,eth0,A= {"cniVersion":"1.1.0","name":"pods","type":"x"} => type"#;

const BEFORE_MEMBERS: &str = r#"ADD,c1,/ns/a,eth0, {"cniVersion":"1.1.0","name":"pods","type":"#;

/// The same of what follows the version, the name and the type in a request.
const MEMBERS: &str = r#""portmap","snat":7,"prevResult":7 => snat
"portmap","prevResult":7,"runtimeConfig":7 => result
"portmap","prevResult":{"cniVersion":"1.0.0","ips":7},"runtimeConfig":7 => ips
"portmap","prevResult":null,"runtimeConfig":7 => prevResult
"bridge","runtimeConfig":7,"cni.dev/valid-attachments":7 => runtimeConfig
"bridge","cni.dev/valid-attachments":{} => cni.dev/valid-attachments
"bridge","cni.dev/valid-attachments":[null] => cni.dev/valid-attachments
"bridge","cni.dev/valid-attachments":[{"containerID":"c1"}] => cni.dev/valid-attachments
"bridge","cni.dev/valid-attachments":[{"containerID":"x/y","ifname":""}] => read with a valid list
"bridge","cni.dev/valid-attachments":[] => read with a valid list
"bridge","runtimeConfig":7,"runtimeConfig":{"ips":7,"portMappings":null} => read
"portmap","prevResult":7.5,"prevResult":{"cniVersion":"1.0.0"} => read with a result
"bridge","prevResult":null,"runtimeConfig":null,"cni.dev/valid-attachments":null => read"#;

const BEFORE_MAPPINGS: &str =
    r#"ADD,c1,/ns/a,eth0, {"cniVersion":"1.1.0","name":"pods","type":"bridge","runtimeConfig":{"portMappings":"#;

/// The same of the port mappings in a request.
const MAPPINGS: &str = r#"{} => runtimeConfig
[null] => runtimeConfig
[{"hostPort":1,"containerPort":65536,"protocol":"tcp"}] => runtimeConfig
[{"hostPort":1,"containerPort":1}] => runtimeConfig
[{"hostPort":0,"containerPort":65535,"protocol":"tcp","hostIP":"::"}] => read with mappings"#;

/// What the runtime added to a request.
fn added(request: &Request) -> &'static str {
    let has_prev = request.prev.is_some();
    let has_mappings = !request.mappings.as_slice().is_empty();
    let has_valid = request.valid.is_some();
    match (has_prev, has_mappings, has_valid) {
        (false, false, false) => "read",
        (true, false, false) => "read with a result",
        (false, true, false) => "read with mappings",
        (false, false, true) => "read with a valid list",
        _ => "read with several",
    }
}

fn told(refused: &RequestError) -> &str {
    match refused {
        RequestError::Env { names } => names.as_str(),
        RequestError::Conf(ConfError::Version { found }) => found.as_str(),
        RequestError::Conf(ConfError::Unsupported { key, .. }) => key.as_str(),
        RequestError::Conf(ConfError::Decode) => "no JSON",
        RequestError::Conf(ConfError::Invalid { why }) => why.as_str(),
        RequestError::Prev(ResultError::Invalid { key }) => key.as_str(),
        RequestError::Prev(_) => "another result",
        RequestError::Conf(ConfError::NoMemory) | RequestError::NoMemory => "no memory",
    }
}

/// What comes of the words and the request.
fn outcome(rt: &impl Abort, alloc: Global, words: &str, request: &str) -> Text {
    let env = env_of(rt, alloc, words);
    let read = read_request(alloc, &env, request.as_bytes());
    drop(env);
    let outcome = match &read {
        Ok(request) => text(rt, alloc, added(request)),
        Err(refused) => text(rt, alloc, told(refused)),
    };
    drop(read);
    outcome
}

fn try_request(rt: &impl Abort, alloc: Global, words: &str, request: &str, wanted: &str) {
    let outcome = outcome(rt, alloc, words, request);
    assert_eq!(rt; outcome.as_str(), wanted, "at {request}");
}

fn try_row(rt: &impl Abort, alloc: Global, before: &str, row: &str, after: &str) {
    let (part, wanted) = row.split_once(" => ").expect(rt, "a row without an arrow");
    let line = [before, part, after].concat(alloc).expect(rt, "no memory");
    let (words, request) = line.split_once(' ').expect(rt, "a row without words");
    try_request(rt, alloc, words, request, wanted);
}

/// Tries each row between these texts.
fn try_rows(rt: &impl Abort, alloc: Global, before: &str, rows: &str, after: &str) {
    for row in rows.lines() {
        try_row(rt, alloc, before, row, after);
    }
}

#[test]
fn the_first_wrong_part_is_told(rt: HostRuntime) {
    let alloc = rt.alloc();
    try_rows(&rt, alloc, "", WORDS_AND_HEADS, "");
    try_rows(&rt, alloc, BEFORE_MEMBERS, MEMBERS, "}");
    try_rows(&rt, alloc, BEFORE_MAPPINGS, MAPPINGS, "}}");
}

/// A request in which so many lists nest, below the object itself.
fn nested(rt: &impl Abort, alloc: Global, lists: usize) -> String {
    let before = r#"{"cniVersion":"1.1.0","name":"pods","type":"bridge","x":"#;
    let open = "[".repeat(alloc, lists).expect(rt, "no memory");
    let close = "]".repeat(alloc, lists).expect(rt, "no memory");
    let parts = [before, open.as_str(), close.as_str(), "}"];
    parts.concat(alloc).expect(rt, "no memory")
}

#[test]
fn a_request_nests_as_deep_as_any_text(rt: HostRuntime) {
    let alloc = rt.alloc();
    try_request(
        &rt,
        alloc,
        "STATUS,,,,",
        nested(&rt, alloc, 126).as_str(),
        "read",
    );
    try_request(
        &rt,
        alloc,
        "STATUS,,,,",
        nested(&rt, alloc, 127).as_str(),
        "no JSON",
    );
}
