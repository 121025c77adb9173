//! A line of `cni_json` as a text, which no program makes. What is read, which members are kept and how they are
//! written is shown by the row `request_keeps_its_plugins_own_keys` and by those of `tests/readers`.

use cni_json::{line_text, read};

#[test]
fn a_line_has_its_keys_in_order(rt: HostRuntime) {
    for (text, written) in [
        ("{\"b\":1,\"a\":[]}", "{\"a\":[],\"b\":1}\n"),
        (
            "{\"b\":-1, \"ab\":null, \"B\":true, \"b\":2}",
            "{\"B\":true,\"ab\":null,\"b\":2}\n",
        ),
        ("\"a\\u0041\\/\\n\"", "\"aA/\\n\"\n"),
    ] {
        let value = read(rt.alloc(), text.as_bytes()).expect(&rt, "a value");
        let line = line_text(rt.alloc(), &value).expect(&rt, "memory");
        drop(value);
        assert_eq!(rt; line.as_str(), written, "at {text}");
    }
}
