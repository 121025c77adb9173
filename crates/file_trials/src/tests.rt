//! Files of both sorts, and a sink in memory.

use cni_addr::Text;
use cni_io::{FileFault, Files, MemFiles, MemSink, RealFiles, RealSink, WriteEnd, write_whole};
use std::fs;
use std::fs::File;
use std::test::Fail;

#[test]
fn the_second_read_fails(rt: HostRuntime) -> Result<(), Fail> {
    let mut files = MemFiles::new(rt.alloc(), vec![in rt.alloc(); 2]?);
    for text in ["first", "bytes"] {
        files.add(
            Text::of(rt.alloc(), "a")?,
            text.as_bytes().to_vec(rt.alloc())?,
        )?;
    }
    let read = files.read(rt.alloc(), "a", 5)?;
    assert_eq!(rt; read.as_slice(), b"bytes".as_slice());
    for (name, limit, fault) in [
        ("a", 5, FileFault::Failed),
        ("b", 5, FileFault::Missing),
        ("a", 4, FileFault::TooLarge { limit: 4 }),
    ] {
        let answer = files.read(rt.alloc(), name, limit);
        assert_eq!(rt; answer.err(), Some(fault), "{name} of {limit}");
    }
    Ok(())
}

#[test]
fn writes_until_a_write_ends_it(rt: HostRuntime) -> Result<(), Fail> {
    for (failing, most, room, end, written) in [
        (9, 5, 5, Ok(()), "c1 c2"),
        (3, 3, 8, Ok(()), "c1 c2"),
        (2, 3, 5, Err(WriteEnd::Failed { written: 3 }), "c1 "),
        (1, 3, 5, Err(WriteEnd::Failed { written: 0 }), ""),
        (9, 5, 4, Err(WriteEnd::TookNothing { written: 4 }), "c1 c"),
        (9, 0, 5, Err(WriteEnd::TookNothing { written: 0 }), ""),
    ] {
        let failing = vec![in rt.alloc(); failing]?;
        let mut sink = MemSink::new(rt.alloc(), failing, most, room).expect(&rt, "room");
        assert_eq!(rt; write_whole(&mut sink, b"c1 c2"), end);
        assert_eq!(rt; sink.written(), written.as_bytes());
    }
    Ok(())
}

#[test]
fn reads_back_what_was_written(rt: HostRuntime) -> Result<(), Fail> {
    let name = "reads_back_what_was_written.txt";
    let mut sink = RealSink::new(File::create(&rt, name)?);
    write_whole(&mut sink, b"c1 c2")?;
    drop(sink);

    let mut files = RealFiles::new(&rt);
    let read = files.read(rt.alloc(), name, 5);
    let too_large = files.read(rt.alloc(), name, 4).err();
    let through_a_file = files
        .read(rt.alloc(), "reads_back_what_was_written.txt/a", 5)
        .err();
    fs::remove_file(&rt, name)?;
    assert_eq!(rt; read?.as_slice(), b"c1 c2".as_slice());
    assert_eq!(rt; too_large, Some(FileFault::TooLarge { limit: 4 }));
    assert_eq!(rt; through_a_file, Some(FileFault::Failed));

    for (name, fault) in [
        (name, FileFault::Missing),
        ("", FileFault::Missing),
        (".", FileFault::Failed),
        ("a\0b", FileFault::Failed),
    ] {
        let answer = files.read(rt.alloc(), name, 5);
        assert_eq!(rt; answer.err(), Some(fault), "{name}");
    }
    Ok(())
}
