//! Lines, numbers of an input, and a copy of a process: no accepted program reaches these calls yet.

use f77_ast::fault::Fault;
use f77_front::front::front;
use f77_io::input::Input;
use f77_io::line::Line;
use f77_machine::process::Process;
use hyb_base::bytes::Bytes;
use std::alloc::Global;
use std::test::Fail;

/// A line of this length.
fn a_line(alloc: Global, length: usize) -> Result<Line, Fail> {
    let mut text = Bytes::new(alloc);
    for _ in 1..length {
        text.push(b'X')?;
    }
    let mut line = Line::new(alloc)?;
    match line.push_bytes(text.as_slice()) {
        Ok(()) => Ok(line),
        Err(_) => Err(Fail::from("the line is too long")),
    }
}

#[test]
fn lines_end_at_their_limit(rt: HostRuntime) -> Result<(), Fail> {
    // The line's length, what pushing two characters answers, and the length after it.
    let rows = [
        (1, Ok(()), 4),
        (9_997, Ok(()), 10_000),
        (9_998, Err(Fault::LineLimit), 9_998),
        (10_000, Err(Fault::LineLimit), 10_000),
    ];
    for (length, want, after) in rows {
        let mut line = a_line(rt.alloc(), length)?;
        assert_eq!(rt; line.push_bytes(b"AB"), want, "{length}");
        assert_eq!(rt; line.text().len(), after, "{length}");
    }
    Ok(())
}

#[test]
fn items_follow_blanks(rt: HostRuntime) -> Result<(), Fail> {
    let mut line = Line::new(rt.alloc())?;
    assert_eq!(rt; line.push_int(i64::MIN), Ok(()));
    assert_eq!(rt; line.push_logical(true), Ok(()));
    assert_eq!(rt; line.push_logical(false), Ok(()));
    assert_eq!(rt; line.text(), b" -9223372036854775808 T F".as_slice());
    Ok(())
}

#[test]
fn numbers_are_read(rt: HostRuntime) -> Result<(), Fail> {
    let rows: [(&[u8], Result<i64, Fault>); 11] = [
        (b"1 2", Ok(1)),
        (b" ,,\r\n+5,-6\n", Ok(5)),
        (b"", Err(Fault::InputEnd)),
        (b" ,\r\n", Err(Fault::InputEnd)),
        (b"9223372036854775807", Ok(i64::MAX)),
        (b"9223372036854775808", Err(Fault::InputForm)),
        (b"-9223372036854775808,", Ok(i64::MIN)),
        (b"000000000000000000000000000007", Ok(7)),
        (b"4X 5", Err(Fault::InputForm)),
        (b"- 1", Err(Fault::InputForm)),
        (b"\t1", Err(Fault::InputForm)),
    ];
    for (bytes, want) in rows {
        let mut input = Input::new(Bytes::from_slice(rt.alloc(), bytes)?);
        assert_eq!(rt; input.next_number(), want, "{bytes:?}");
    }
    Ok(())
}

#[test]
fn a_copy_is_at_the_statement_of_its_process(rt: HostRuntime) -> Result<(), Fail> {
    let program = front(rt.alloc(), b"\n      PRINT *, 7\n      END\n")?;
    let process = Process::new(rt.alloc(), &program)?;
    let copy = process.copy(rt.alloc())?;
    assert_eq!(rt; copy.line(), 2);
    Ok(())
}
