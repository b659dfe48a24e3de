use cx_outside::{
    DiskFiles, Files, GetFault, Items, Limit, MemFiles, MemSink, MemSource, Next, PutFault, Sink,
    SinkFault, Source, StdSink, StdSource, Text,
};
use std::fs;
use std::io::{self, ErrorKind, Read, Write};
use std::test::Fail;

#[test]
fn lists_grow_at_their_end(rt: HostRuntime) -> Result<(), Fail> {
    let mut text = Text::copy_of(rt.alloc(), b"ab")?;
    text.push(b'c')?;
    text.append(b"de")?;
    assert_eq!(rt; text.bytes(), b"abcde".as_slice());
    assert_eq!(rt; Text::new(rt.alloc()).bytes().len(), 0);
    let mut items = Items::new(rt.alloc());
    items.push(Limit::Units)?;
    items.push(Limit::File)?;
    assert_eq!(rt; items.items(), [Limit::Units, Limit::File].as_slice());
    Ok(())
}

#[test]
fn files_in_memory_are_held_by_name(rt: HostRuntime) -> Result<(), Fail> {
    let mut files = MemFiles::new(rt.alloc(), &[7, 3])?;
    files.hold(b"a", b"one")?;
    files.hold(b"b", b"two")?;
    assert_eq!(rt; files.put(b"a", b"three"), Ok(()));
    let text = files.get(rt.alloc(), b"a", 5)?;
    assert_eq!(rt; text.bytes(), b"three".as_slice());
    assert_eq!(rt; files.put(b"b", b"four"), Err(PutFault::Failed));
    assert_eq!(rt; files.held(b"b"), Some(b"two".as_slice()));
    assert_eq!(rt; files.held(b""), None);
    for (name, limit, want) in [
        (b"a", 4, Err(GetFault::Long)),
        (b"b", 3, Ok(3)),
        (b"c", 3, Err(GetFault::Missing)),
        (b"b", 3, Err(GetFault::Failed)),
        (b"b", 3, Ok(3)),
    ] {
        let length = files
            .get(rt.alloc(), name, limit)
            .map(|text| text.bytes().len());
        assert_eq!(rt; length, want);
    }
    Ok(())
}

#[test]
fn a_source_in_memory_gives_its_bytes(rt: HostRuntime) -> Result<(), Fail> {
    let mut source = MemSource::new(rt.alloc(), b"xy", &[2])?;
    for (want, left) in [
        (Next::Byte(b'x'), 1),
        (Next::Failed, 1),
        (Next::Byte(b'y'), 0),
        (Next::End, 0),
    ] {
        assert_eq!(rt; source.next(), want);
        assert_eq!(rt; source.left().len(), left);
    }
    Ok(())
}

#[test]
fn a_sink_in_memory_takes_pieces(rt: HostRuntime) -> Result<(), Fail> {
    let mut sink = MemSink::new(rt.alloc(), &[2])?;
    assert_eq!(rt; sink.write(b"ab"), Ok(()));
    assert_eq!(rt; sink.write(b"cd"), Err(SinkFault::Failed));
    assert_eq!(rt; sink.write(b"ef"), Ok(()));
    assert_eq!(rt; sink.taken(), b"abef".as_slice());
    Ok(())
}

#[test]
fn files_of_the_folder_are_read_back(rt: HostRuntime) -> Result<(), Fail> {
    let name = b"cx_outside_files_of_the_folder";
    let mut long = Vec::new(rt.alloc());
    for number in 0..40_000u32 {
        long.push((number % 251) as u8)?;
    }
    let mut files = DiskFiles::new(&rt);
    for bytes in [long.as_slice(), b"short".as_slice(), b"".as_slice()] {
        assert_eq!(rt; files.put(name, bytes), Ok(()));
        let text = files.get(rt.alloc(), name, bytes.len())?;
        assert!(rt; text.bytes() == bytes);
    }
    assert_eq!(rt; files.put(name, &long), Ok(()));
    for (asked, limit, want) in [
        (name.as_slice(), 40_000, Ok(40_000)),
        (name.as_slice(), 39_999, Err(GetFault::Long)),
        (name.as_slice(), 0, Err(GetFault::Long)),
        (
            b"cx_outside_no_such_file".as_slice(),
            9,
            Err(GetFault::Missing),
        ),
        (b"\xff".as_slice(), 9, Err(GetFault::Failed)),
    ] {
        let length = files
            .get(rt.alloc(), asked, limit)
            .map(|text| text.bytes().len());
        assert_eq!(rt; length, want);
    }
    assert_eq!(rt; files.put(b"\xff", b""), Err(PutFault::Failed));
    assert_eq!(rt;
        files.put(b"cx_outside_no_such_folder/a", b""),
        Err(PutFault::Failed)
    );
    fs::remove_file(&rt, "cx_outside_files_of_the_folder")?;
    Ok(())
}

/// A reader and a writer that only fail.
#[derive(Drop)]
struct Broken;

impl Read for Broken {
    fn read(&mut self, _: &mut [u8]) -> io::Result<usize> {
        Err(io::Error::from(ErrorKind::BrokenPipe))
    }
}

impl Write for Broken {
    fn write(&mut self, _: &[u8]) -> io::Result<usize> {
        Err(io::Error::from(ErrorKind::BrokenPipe))
    }

    fn flush(&mut self) -> io::Result<()> {
        Ok(())
    }
}

#[test]
fn a_source_gives_the_bytes_of_its_reader(rt: HostRuntime) {
    let mut source = StdSource::new(b"xy".as_slice());
    for want in [Next::Byte(b'x'), Next::Byte(b'y'), Next::End, Next::End] {
        assert_eq!(rt; source.next(), want);
    }
    assert_eq!(rt; StdSource::new(Broken).next(), Next::Failed);
}

#[test]
fn a_sink_hands_its_pieces_to_its_writer(rt: HostRuntime) -> Result<(), Fail> {
    let mut taken = Vec::new(rt.alloc());
    let mut sink = StdSink::new(&mut taken);
    assert_eq!(rt; sink.write(b"ab"), Ok(()));
    assert_eq!(rt; sink.write(b""), Ok(()));
    assert_eq!(rt; sink.write(b"c"), Ok(()));
    assert_eq!(rt; taken.as_slice(), b"abc".as_slice());
    // A writer with room for three bytes, which then takes nothing.
    let mut room = [0u8; 3];
    let mut sink = StdSink::new(room.as_mut_slice());
    assert_eq!(rt; sink.write(b"ab"), Ok(()));
    assert_eq!(rt; sink.write(b"cd"), Err(SinkFault::Failed));
    assert_eq!(rt; room, *b"abc");
    assert_eq!(rt; StdSink::new(Broken).write(b"a"), Err(SinkFault::Failed));
    Ok(())
}
