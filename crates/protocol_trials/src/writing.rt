//! The line that is written to a plugin.

use crate::samples::{list, text};
use cni_addr::Text;
use cni_result::{AddResult, PortMapping, Proto, read_result};
use exec_protocol::request;
use pod_file::ValidAtt;
use std::alloc::Global;
use std::process::Abort;

const RESULT: &str = r#"{"cniVersion":"1.0.0","interfaces":[{"name":"eth0","sandbox":"/ns/a"}]}"#;

fn result(rt: &impl Abort, alloc: Global) -> AddResult {
    match read_result(alloc, RESULT.as_bytes()) {
        Ok(result) => result,
        Err(_) => panic!(rt; "the result is not read"),
    }
}

/// The request to the second plugin, with a result, a mapping and an attachment to keep.
fn full_request(rt: &impl Abort, alloc: Global) -> Text {
    let raw = list(rt, alloc);
    if raw.objects().len() != 2 {
        panic!(rt; "the list has not two plugins");
    }
    let prev = result(rt, alloc);
    let mapping = PortMapping {
        host_port: 8080,
        container_port: 80,
        protocol: Proto::Tcp,
        host_ip: None,
    };
    let valid = [ValidAtt {
        container: text(rt, alloc, "c1"),
        ifname: text(rt, alloc, "eth0"),
    }];
    let line = request(alloc, &raw, 1, Some(&prev), &[mapping], Some(&valid));
    drop(raw);
    drop(prev);
    line.expect(rt, "no memory")
}

#[test]
fn a_request_has_the_parts_that_are_given(rt: HostRuntime) {
    assert_eq!(rt;
        full_request(&rt, rt.alloc()).as_str(),
        "{\"capabilities\":{\"portMappings\":true},\
\"cni.dev/valid-attachments\":[{\"containerID\":\"c1\",\"ifname\":\"eth0\"}],\
\"cniVersion\":\"1.0.0\",\"name\":\"podman\",\
\"prevResult\":{\"cniVersion\":\"1.0.0\",\"interfaces\":[{\"name\":\"eth0\",\"sandbox\":\"/ns/a\"}]},\
\"runtimeConfig\":{\"portMappings\":[{\"containerPort\":80,\"hostPort\":8080,\"protocol\":\"tcp\"}]},\
\"type\":\"portmap\"}\n"
    );
}
