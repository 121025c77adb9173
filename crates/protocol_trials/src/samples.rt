//! What the trials are made of: texts, the words of a request, and a network list.

use cni_addr::Text;
use exec_protocol::Env;
use plugin_requests::RawList;
use std::alloc::Global;
use std::process::Abort;

/// The bridge has addresses. The request to `portmap` replaces the result in its object.
const LIST: &str = r#"{"cniVersion":"1.0.0","name":"podman","plugins":[
{"type":"bridge","ipam":{"type":"host-local","subnet":"10.88.0.0/16"}},
{"type":"portmap","prevResult":7,"capabilities":{"portMappings":true}}]}"#;

pub(crate) fn list(rt: &impl Abort, alloc: Global) -> RawList {
    match RawList::read(alloc, LIST.as_bytes()) {
        Ok(raw) => raw,
        Err(_) => panic!(rt; "the list is not read"),
    }
}

pub(crate) fn text(rt: &impl Abort, alloc: Global, text: &str) -> Text {
    Text::of(alloc, text).expect(rt, "no memory")
}

/// The words that a plugin is called with: the command, the container, its namespace, the interface and the arguments,
/// between commas.
pub(crate) fn env_of(rt: &impl Abort, alloc: Global, words: &str) -> Env {
    let words: Vec<&str> = words.split(',').collect(alloc).expect(rt, "no memory");
    match words.as_slice() {
        [command, container, netns, ifname, args] => Env {
            command: text(rt, alloc, command),
            container: text(rt, alloc, container),
            netns: text(rt, alloc, netns),
            ifname: text(rt, alloc, ifname),
            args: text(rt, alloc, args),
        },
        _ => panic!(rt; "there are not five words"),
    }
}
