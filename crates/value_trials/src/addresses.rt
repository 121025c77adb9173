//! Addresses and networks of `cni_addr` by the numbers that they stand for, and its texts and lists once.

ghost use Rattle.std.specs.Prelude.{◌≡◌};

use cni_addr::{
    Addr, Cidr, Duplicate, Family, Items, Mac, Text, contains, last_of, network_of, next_addr,
    read_addr, read_cidr, read_mac, whole, write_cidr,
};

fn v4(bits: u32) -> Addr {
    Addr {
        family: Family::V4,
        bits: u128::from(bits),
    }
}

fn v6(bits: u128) -> Addr
    ensures { result.family ≡ Family.V6 }
{
    Addr {
        family: Family::V6,
        bits,
    }
}

fn slash_16(bits: u32) -> Cidr {
    Cidr {
        addr: v4(bits),
        prefix: 16,
    }
}

#[test]
fn reads_addresses(rt: HostRuntime) {
    for (text, bits) in [
        ("10.88.0.2", 173_539_330),
        ("0.0.0.0", 0),
        ("255.255.255.255", 0xffff_ffff),
    ] {
        assert_eq!(rt; read_addr(text.as_bytes()), Some(v4(bits)), "{text}");
    }
    for (text, bits) in [
        ("::", 0),
        ("::1", 1),
        ("::10.0.0.1", 0x0a00_0001),
        ("fd00:88::2", 0xfd00_0088_0000_0000_0000_0000_0000_0002),
        (
            "FD00:0088:0:0:0:0:0:2",
            0xfd00_0088_0000_0000_0000_0000_0000_0002,
        ),
        (
            "1:2:3:4:5:6:10.0.0.1",
            0x0001_0002_0003_0004_0005_0006_0a00_0001,
        ),
        ("1:2:3:4:5:6:7::", 0x0001_0002_0003_0004_0005_0006_0007_0000),
    ] {
        assert_eq!(rt; read_addr(text.as_bytes()), Some(v6(bits)), "{text}");
    }
}

#[test]
fn reads_networks_and_hardware_addresses(rt: HostRuntime) {
    assert_eq!(rt; read_cidr(b"10.88.0.2/16"), Some(slash_16(0x0a58_0002)));
    assert_eq!(rt; read_cidr(b"10.0.0.0/\xff"), None);
    for text in ["10.88.0.2/16", "10.0.0.1/9", "fd00:88::2/64"] {
        let cidr = read_cidr(text.as_bytes()).expect(&rt, "a network");
        let written = write_cidr(rt.alloc(), &cidr).expect(&rt, "memory");
        assert_eq!(rt; written.as_str(), text, "its host bits are kept");
    }
    let mac = Mac {
        bytes: [0x0a, 0xba, 0x78, 0x16, 0xbf, 0x8f],
    };
    assert_eq!(rt; read_mac(b"0A:BA:78:16:BF:8F"), Some(mac));
    assert_eq!(rt; read_mac(b"0a:bA:78:16:bf:8f"), Some(mac));
    assert_eq!(rt; read_mac(b""), None);
}

#[test]
fn finds_the_ends_of_networks(rt: HostRuntime) {
    let cidr = slash_16(0x0a58_0002);
    assert_eq!(rt; network_of(&cidr), slash_16(0x0a58_0000));
    assert_eq!(rt; last_of(&cidr), v4(0x0a58_ffff));
    assert!(rt; contains(&cidr, &v4(0x0a58_ffff)));
    assert!(rt; !contains(&cidr, &v4(0x0a59_0000)));
    let all = Cidr {
        addr: v4(0x0a58_0002),
        prefix: 0,
    };
    assert_eq!(rt; network_of(&all).addr, v4(0));
    assert_eq!(rt; last_of(&all), v4(0xffff_ffff));
    let one = whole(&v4(0x0a58_0002));
    assert_eq!(rt; one.prefix, 32);
    assert_eq!(rt; network_of(&one), one);
    assert_eq!(rt; last_of(&one), v4(0x0a58_0002));
}

#[test]
fn finds_the_ends_of_ipv6_networks(rt: HostRuntime) {
    let cidr = Cidr {
        addr: v6(0xfd00_0088_0000_0000_0000_0000_0000_0002),
        prefix: 64,
    };
    let first = v6(0xfd00_0088_0000_0000_0000_0000_0000_0000);
    let last = v6(0xfd00_0088_0000_0000_ffff_ffff_ffff_ffff);
    assert_eq!(rt; network_of(&cidr).addr, first);
    assert_eq!(rt; last_of(&cidr), last);
    assert!(rt; contains(&cidr, &last));
    assert!(rt; !contains(&cidr, &v6(0xfd00_0088_0000_0001_0000_0000_0000_0000)));
    assert!(rt; !contains(&cidr, &v4(0x0a58_0002)));
    let all = Cidr {
        addr: cidr.addr,
        prefix: 0,
    };
    assert_eq!(rt; network_of(&all).addr, v6(0));
    assert_eq!(rt; last_of(&all), v6(u128::MAX));
    assert!(rt; contains(&all, &v6(0)));
    assert!(rt; contains(&all, &v6(u128::MAX)));
    let end = whole(&v6(u128::MAX));
    assert_eq!(rt; end.prefix, 128);
    assert_eq!(rt; network_of(&end), end);
    assert_eq!(rt; last_of(&end), v6(u128::MAX));
}

#[test]
fn steps_to_the_next_address(rt: HostRuntime) {
    assert_eq!(rt; next_addr(&v4(0x0a00_00ff)), Some(v4(0x0a00_0100)));
    assert_eq!(rt; next_addr(&v4(0xffff_ffff)), None);
    assert_eq!(rt; next_addr(&v6(0xffff_ffff)), Some(v6(0x1_0000_0000)));
    assert_eq!(rt; next_addr(&v6(u128::MAX)), None);
}

#[test]
fn keeps_texts_and_lists(rt: HostRuntime) {
    let text = Text::of(rt.alloc(), "a").expect(&rt, "memory");
    assert_eq!(rt; text.as_str(), "a");
    assert!(rt; text.copy().expect(&rt, "memory") == text);
    let mut numbers = Items::new(rt.alloc());
    numbers.push(1u8).expect(&rt, "memory");
    assert_eq!(rt; numbers.as_slice(), [1].as_slice());
    let mut items = Items::new(rt.alloc());
    items.push(text).expect(&rt, "memory");
    let twin = Items::of_vec(items.copy().expect(&rt, "memory").into_vec());
    assert!(rt; twin == items);
}
