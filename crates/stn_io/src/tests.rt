//! Sources and sinks at their calls, and the calls that move all bytes, over each of them.
ghost use Rattle.std.specs.Prelude.{◌<◌};

use crate::{
    Failed, MemSink, MemSource, ReadRefusal, Sink, Source, StdSink, StdSource, WriteFault,
    read_all, write_all,
};
use std::alloc::{AllocError, Global};
use std::io::{Error, ErrorKind, Read, Write};
use std::test::Fail;

const TEXT: &[u8] = b"consistent\ntimes 7\ndone\n";

fn source(alloc: Global, piece: usize, failing: &[u32]) -> Result<MemSource, AllocError>
    requires { 0 < piece }
{
    let bytes = Vec::from_slice(alloc, TEXT)?;
    let failing = Vec::from_slice(alloc, failing)?;
    Ok(MemSource::new(bytes, piece, failing))
}

fn sink(alloc: Global, room: usize, piece: usize, failing: &[u32]) -> Result<MemSink, AllocError>
    requires { 0 < piece }
{
    let room = vec![in alloc; b'?'; room]?;
    let failing = Vec::from_slice(alloc, failing)?;
    Ok(MemSink::new(room, piece, failing))
}

/// A reader and writer that fails at the call of one number, and gives and takes one byte at each other.
#[derive(Drop)]
struct Stumbles {
    at: u32,
    calls: u32,
}

impl Stumbles {
    /// Counts a call. Whether it is the one that fails.
    fn falls(&mut self) -> bool {
        self.calls = self.calls.saturating_add(1);
        self.calls == self.at
    }
}

impl Read for Stumbles {
    fn read(&mut self, buf: &mut [u8]) -> std::io::Result<usize> {
        if self.falls() || buf.is_empty() {
            return Err(Error::from(ErrorKind::Other));
        }
        buf[0] = b'!';
        Ok(1)
    }
}

impl Write for Stumbles {
    fn write(&mut self, buf: &[u8]) -> std::io::Result<usize> {
        if self.falls() || buf.is_empty() {
            return Err(Error::from(ErrorKind::Other));
        }
        Ok(1)
    }

    fn flush(&mut self) -> std::io::Result<()> {
        Ok(())
    }
}

#[test]
fn a_source_in_memory_fails_at_its_call_alone(rt: HostRuntime) -> Result<(), Fail> {
    let mut source = source(rt.alloc(), 8, &[2])?;
    let mut out = [b'.'; 10];
    assert_eq!(rt; source.read(&mut out), Ok(8));
    assert_eq!(rt; out.as_slice(), b"consiste..".as_slice());
    assert_eq!(rt; source.read(&mut out), Err(Failed));
    assert_eq!(rt; out.as_slice(), b"consiste..".as_slice());
    assert_eq!(rt; source.read(&mut out[..4]), Ok(4));
    assert_eq!(rt; out.as_slice(), b"nt\ntiste..".as_slice());
    for count in [8, 4, 0, 0] {
        assert_eq!(rt; source.read(&mut out), Ok(count));
    }
    Ok(())
}

#[test]
fn a_sink_in_memory_fails_at_its_calls_and_where_it_is_full(rt: HostRuntime) -> Result<(), Fail> {
    // Room, piece, failing calls, the answer, and what was taken.
    let cases: [(usize, usize, &[u32], Result<(), WriteFault>, &[u8]); 5] = [
        (64, 6, &[2], Err(WriteFault), b"consis"),
        (64, 6, &[1], Err(WriteFault), b""),
        (64, 6, &[5], Ok(()), TEXT),
        (24, 100, &[], Ok(()), TEXT),
        (23, 100, &[], Err(WriteFault), b"consistent\ntimes 7\ndone"),
    ];
    for (room, piece, failing, answer, taken) in cases {
        let mut sink = sink(rt.alloc(), room, piece, failing)?;
        assert_eq!(rt;
            write_all(&mut sink, TEXT),
            answer,
            "room {room}, piece {piece}"
        );
        assert_eq!(rt; sink.bytes(), taken, "room {room}, piece {piece}");
    }
    Ok(())
}

#[test]
fn all_bytes_are_read_up_to_the_limit(rt: HostRuntime) -> Result<(), Fail> {
    // Piece, failing calls, limit, and the answer: None for all bytes.
    let cases: [(usize, &[u32], u32, Option<ReadRefusal>); 7] = [
        (8, &[], 100, None),
        (1, &[], 24, None),
        (100, &[], 24, None),
        (5, &[], 23, Some(ReadRefusal::TooLong)),
        (100, &[], 0, Some(ReadRefusal::TooLong)),
        (8, &[2], 100, Some(ReadRefusal::ReadFault)),
        (8, &[5], 100, None),
    ];
    for (piece, failing, limit, refusal) in cases {
        let mut source = source(rt.alloc(), piece, failing)?;
        match read_all(rt.alloc(), &mut source, limit) {
            Ok(all) => {
                assert_eq!(rt; refusal, None, "piece {piece}, limit {limit}");
                assert_eq!(rt; all.as_slice(), TEXT, "piece {piece}, limit {limit}");
            }
            Err(e) => assert_eq!(rt; Some(e), refusal, "piece {piece}, limit {limit}"),
        }
    }
    Ok(())
}

#[test]
fn one_byte_more_than_the_limit_is_gone_after_too_long(rt: HostRuntime) -> Result<(), Fail> {
    let mut source = source(rt.alloc(), 100, &[])?;
    let answer = read_all(rt.alloc(), &mut source, 10);
    assert!(rt; matches!(answer, Err(ReadRefusal::TooLong)));
    let rest = read_all(rt.alloc(), &mut source, 100).expect(&rt, "the rest is short");
    assert_eq!(rt; rest.as_slice(), b"times 7\ndone\n".as_slice());
    Ok(())
}

#[test]
fn the_readers_and_writers_of_std_are_passed_on(rt: HostRuntime) -> Result<(), Fail> {
    let mut source = StdSource::new(TEXT);
    let all = read_all(rt.alloc(), &mut source, 24).expect(&rt, "24 bytes");
    assert_eq!(rt; all.as_slice(), TEXT);
    let mut sink = StdSink::new(Vec::new(rt.alloc()));
    assert_eq!(rt; write_all(&mut sink, TEXT), Ok(()));

    // Two bytes of room: the third is refused by a count of 0.
    let mut room = [0; 2];
    let mut full = StdSink::new(room.as_mut_slice());
    assert_eq!(rt; full.write(b"ab"), Ok(2));
    assert_eq!(rt; full.write(b"c"), Err(Failed));
    assert_eq!(rt; full.write(b""), Ok(0));
    Ok(())
}

#[test]
fn a_failed_call_of_std_is_not_tried_again(rt: HostRuntime) -> Result<(), Fail> {
    for at in 1..4u32 {
        let mut source = StdSource::new(Stumbles { at, calls: 0 });
        let mut sink = StdSink::new(Stumbles { at, calls: 0 });
        for call in 1..5u32 {
            let wanted = if call == at { Err(Failed) } else { Ok(1) };
            let mut out = [b'.'; 4];
            assert_eq!(rt; source.read(&mut out), wanted, "call {call}, fails at {at}");
            assert_eq!(rt;
                out[0] == b'!',
                wanted.is_ok(),
                "call {call}, fails at {at}"
            );
            assert_eq!(rt; sink.write(b"ab"), wanted, "call {call}, fails at {at}");
        }
    }
    Ok(())
}

#[test]
fn no_call_follows_a_fault(rt: HostRuntime) -> Result<(), Fail> {
    // The second call fails, and of those that follow the next is the third: the fourth fails too.
    let mut source = source(rt.alloc(), 6, &[2, 4])?;
    let mut sink = sink(rt.alloc(), 64, 6, &[2, 4])?;
    let read = read_all(rt.alloc(), &mut source, 100);
    assert!(rt; matches!(read, Err(ReadRefusal::ReadFault)));
    assert_eq!(rt; write_all(&mut sink, TEXT), Err(WriteFault));
    for wanted in [Ok(1), Err(Failed), Ok(1)] {
        let mut out = [b'.'; 1];
        assert_eq!(rt; source.read(&mut out), wanted);
        assert_eq!(rt; sink.write(b"x"), wanted);
    }
    Ok(())
}
