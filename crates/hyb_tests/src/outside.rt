//! The implementations in memory where they fail, and the edge over the system.
ghost use Rattle.std.specs.Prelude.{IsTrue};

use hyb_outside::disk_files::DiskFiles;
use hyb_outside::failed::Failed;
use hyb_outside::files::Files;
use hyb_outside::mem_files::MemFiles;
use hyb_outside::mem_sink::MemSink;
use hyb_outside::never_fails_files::NeverFailsFiles;
use hyb_outside::never_fails_sink::NeverFailsSink;
use hyb_outside::pieces::{Piece, SinkName, emit, offer, put};
use hyb_outside::sink::Sink;
use hyb_outside::std_sink::StdSink;
use std::io::Write;
use std::process::Abort;
use std::test::Fail;
use std::{fs, io};

/// A read of a named file, into a buffer of `room` bytes.
#[derive(Clone, Copy)]
struct Asked<'a> {
    name: &'a [u8],
    from: u64,
    room: usize,
    want: Result<&'a [u8], Failed>,
}

/// Reads once, and compares the answer and what stands in the buffer.
fn check_read<F: Files>(rt: &impl Abort, files: &mut F, row: Asked<'_>, at: usize)
    requires { IsTrue ((F.seen files.old).may_read row.name.now) }
{
    let mut buffer = [b'-'; 8];
    if row.room > buffer.len() {
        return;
    }
    let got = files.read_at(row.name, row.from, &mut buffer[..row.room]);
    match (got, row.want) {
        (Ok(given), Ok(want)) => {
            assert_eq!(rt; given, want.len(), "read {at}");
            if given <= buffer.len() {
                assert!(rt; &buffer[..given] == want, "the bytes of read {at}");
                assert!(rt;
                    buffer[given..].iter().all(|b| *b == b'-'),
                    "the rest of read {at}"
                );
            }
        }
        (got, want) => assert!(rt; got.is_err() && want.is_err(), "read {at}"),
    }
}

const fn asks<'a>(
    name: &'a [u8],
    from: u64,
    room: usize,
    want: Result<&'a [u8], Failed>,
) -> Asked<'a> {
    Asked {
        name,
        from,
        room,
        want,
    }
}

#[test]
fn files_in_memory(rt: HostRuntime) -> Result<(), Fail> {
    let mut files = MemFiles::new(rt.alloc());
    files.add(b"A", b"OLD")?;
    files.add(b"B", b"")?;
    files.add(b"A", b"HELLO")?;
    files.fail_at(3)?;
    files.fail_at(7)?;
    let rows = [
        asks(b"A", 0, 3, Ok(b"HEL")),
        asks(b"A", 3, 3, Ok(b"LO")),
        asks(b"A", 0, 3, Err(Failed)),
        asks(b"A", 0, 8, Ok(b"HELLO")),
        asks(b"A", 5, 8, Ok(b"")),
        asks(b"A", u64::MAX, 8, Ok(b"")),
        asks(b"C", 0, 8, Err(Failed)),
        asks(b"C", 0, 8, Err(Failed)),
        asks(b"B", 0, 8, Ok(b"")),
        asks(b"A", 2, 0, Ok(b"")),
    ];
    for (at, row) in rows.iter().enumerate() {
        check_read(&rt, &mut files, *row, at);
    }
    Ok(())
}

#[test]
fn files_that_never_fail(rt: HostRuntime) -> Result<(), Fail> {
    let mut files = NeverFailsFiles::new(rt.alloc());
    files.add(b"A", b"OLD")?;
    files.add(b"A", b"NEW!")?;
    let rows = [
        asks(b"A", 0, 3, Ok(b"NEW")),
        asks(b"A", 3, 3, Ok(b"!")),
        asks(b"A", 4, 3, Ok(b"")),
        asks(b"C", 0, 3, Ok(b"")),
    ];
    for (at, row) in rows.iter().enumerate() {
        check_read(&rt, &mut files, *row, at);
    }
    Ok(())
}

#[test]
fn sinks_in_memory(rt: HostRuntime) -> Result<(), Fail> {
    let mut sink = MemSink::new(rt.alloc(), 5)?;
    sink.fail_at(2)?;
    let rows: [(&[u8], Result<usize, Failed>); 7] = [
        (b"AB", Ok(2)),
        (b"CD", Err(Failed)),
        (b"", Ok(0)),
        (b"CDEF", Err(Failed)),
        (b"CDE", Ok(3)),
        (b"F", Err(Failed)),
        (b"", Ok(0)),
    ];
    for (at, (piece, want)) in rows.iter().enumerate() {
        assert_eq!(rt; sink.write(piece), *want, "write {at}");
    }
    assert!(rt; sink.taken() == b"ABCDE".as_slice());
    assert_eq!(rt; NeverFailsSink::new().write(b"XYZ"), Ok(3));
    Ok(())
}

#[test]
fn pieces_in_order(rt: HostRuntime) -> Result<(), Fail> {
    let mut out = MemSink::new(rt.alloc(), 4)?;
    let mut notes = MemSink::new(rt.alloc(), 9)?;
    let mut order = MemSink::new(rt.alloc(), 9)?;
    assert_eq!(rt;
        put(SinkName::Out, b"1\n", &mut out, &mut notes, &mut order),
        Ok(())
    );
    let pieces = [
        Piece {
            to: SinkName::Order,
            bytes: b"2\n",
        },
        Piece {
            to: SinkName::Notes,
            bytes: b"3\n",
        },
        Piece {
            to: SinkName::Out,
            bytes: b"45\n",
        },
        Piece {
            to: SinkName::Notes,
            bytes: b"6\n",
        },
    ];
    assert_eq!(rt;
        emit(&pieces, &mut out, &mut notes, &mut order),
        Err(Failed)
    );
    assert!(rt; out.taken() == b"1\n".as_slice());
    assert!(rt; notes.taken() == b"3\n".as_slice());
    assert!(rt; order.taken() == b"2\n".as_slice());
    Ok(())
}

/// A writer that takes at most `most` bytes in a call, and fails from a call on, counted from 0.
#[derive(Drop)]
struct Slow {
    most: usize,
    fails_from: usize,
    calls: usize,
    bytes: [u8; 8],
    len: usize,
}

impl Slow {
    fn new(most: usize, fails_from: usize) -> Slow {
        Slow {
            most,
            fails_from,
            calls: 0,
            bytes: [0; 8],
            len: 0,
        }
    }

    fn holds(&self, want: &[u8]) -> bool {
        self.len <= 8 && &self.bytes[..self.len] == want
    }
}

impl Write for Slow {
    fn write(&mut self, buf: &[u8]) -> io::Result<usize> {
        let call = self.calls;
        self.calls = self.calls.saturating_add(1);
        if call >= self.fails_from {
            return Err(io::Error::from(io::ErrorKind::BrokenPipe));
        }
        let given = buf.len().min(self.most);
        for byte in &buf[..given] {
            if self.len < 8 {
                self.bytes[self.len] = *byte;
                self.len += 1;
            }
        }
        Ok(given)
    }

    fn flush(&mut self) -> io::Result<()> {
        Ok(())
    }
}

#[test]
fn sinks_over_a_writer(rt: HostRuntime) {
    let rows: [(usize, usize, Result<(), Failed>, &[u8]); 5] = [
        (9, 9, Ok(()), b"ABC"),
        (1, 9, Ok(()), b"ABC"),
        (2, 1, Err(Failed), b"AB"),
        (0, 9, Err(Failed), b""),
        (9, 0, Err(Failed), b""),
    ];
    for (most, fails_from, want, bytes) in rows {
        let mut writer = Slow::new(most, fails_from);
        let mut sink = StdSink::new(&mut writer);
        assert_eq!(rt;
            offer(&mut sink, b"ABC"),
            want,
            "at most {most}, failing from {fails_from}"
        );
        drop(sink);
        assert!(rt;
            writer.holds(bytes),
            "at most {most}, failing from {fails_from}"
        );
    }
}

#[test]
fn files_on_disk(rt: HostRuntime) -> Result<(), Fail> {
    let (one, two) = ("hyb_outside_one.tmp", "hyb_outside_two.tmp");
    fs::write(&rt, one, "HELLO")?;
    fs::write(&rt, two, "WORLDS")?;
    let mut files = DiskFiles::new(&rt);
    let rows = [
        asks(one.as_bytes(), 0, 3, Ok(b"HEL")),
        asks(one.as_bytes(), 3, 3, Ok(b"LO")),
        asks(one.as_bytes(), 5, 3, Ok(b"")),
        asks(one.as_bytes(), 1, 2, Ok(b"EL")),
        asks(two.as_bytes(), 3, 8, Ok(b"LDS")),
        asks(b"hyb_outside_missing.tmp", 0, 3, Err(Failed)),
        asks(two.as_bytes(), 0, 3, Ok(b"WOR")),
        asks(one.as_bytes(), 9, 3, Ok(b"")),
        asks(b".", 0, 3, Err(Failed)),
        asks(b"", 0, 3, Err(Failed)),
        asks(b"\xff", 0, 3, Err(Failed)),
        asks(one.as_bytes(), 0, 3, Ok(b"HEL")),
    ];
    for (at, row) in rows.iter().enumerate() {
        check_read(&rt, &mut files, *row, at);
    }
    fs::remove_file(&rt, one)?;
    fs::remove_file(&rt, two)?;
    Ok(())
}
