//! The line that tells a status.
ghost use Rattle.std.specs.Prelude.{◌≡◌, ◌+◌, ◌≤◌, [], ◌++◌, length};
ghost use Rattle.hybrid_top.specs.StatusText.{number, status_text};

use crate::status::Status;
use arrayvec::ArrayVec;
use hyb_base::decimal::Decimal;
use std::marker::Model;

/// The most bytes of a status line.
const ROOM: usize = 64;

/// The line that tells a status, with its LF. It takes no memory.
#[derive(Drop)]
pub struct StatusLine {
    text: ArrayVec<u8, ROOM>,
}

impl Model for StatusLine {
    ghost use Rattle.std.specs.Prelude.{List, ℕ};

    ghost Value = { List ℕ };

    ghost view = { λ l. l.text.items };
}

impl StatusLine {
    /// The line of a status: empty for `Done` and for `WriteFault`.
    pub fn new(status: Status) -> StatusLine
        ensures { result ≡ status_text status }
    {
        let mut line = StatusLine {
            text: ArrayVec::new(),
        };
        match status {
            Status::Done => {}
            Status::Usage => line.push(b"USAGE\n"),
            Status::Refused(refusal) => {
                line.push(b"REFUSED ");
                line.push_number(refusal.line);
                line.push(b" ");
                line.push_number(u32::from(refusal.code));
                line.push(b"\n");
            }
            Status::BadSchedule(at) => {
                line.push(b"BAD SCHEDULE ");
                line.push_number(at);
                line.push(b"\n");
            }
            Status::Faulted(fault, at) => {
                line.push(b"FAULT ");
                line.push_number(u32::from(fault.code()));
                line.push(b" LINE ");
                line.push_number(at);
                line.push(b"\n");
            }
            Status::StepsSpent => line.push(b"STEPS SPENT\n"),
            Status::ReadFault => line.push(b"READ FAULT\n"),
            Status::WriteFault => {}
            Status::NoMemory => line.push(b"NO MEMORY\n"),
            Status::FileLimit(file) => {
                line.push(b"FILE LIMIT ");
                line.push_number(u32::from(file));
                line.push(b"\n");
            }
        }
        line
    }

    /// Its bytes.
    pub fn as_slice(&self) -> &[u8]
        ensures { result.now ≡ self.now }
    {
        self.text.as_slice()
    }

    /// Adds some bytes.
    fn push(&mut self, more: &[u8])
        requires { length self.old + length more.now ≤ 64 }
        ensures { self.new ≡ self.old ++ more.now }
    {
        self.text.try_extend_from_slice(more).unwrap();
    }

    /// Adds a number's text.
    fn push_number(&mut self, n: u32)
        requires { length self.old + 20 ≤ 64 }
        ensures text { self.new ≡ self.old ++ number n }
        ensures within { length self.new ≤ length self.old + 20 }
    {
        self.push(Decimal::new(i64::from(n)).as_slice());
    }
}
