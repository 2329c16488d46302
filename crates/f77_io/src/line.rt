//! The line that PRINT builds (ANSI X3.9-1978, section 12.8; list-directed output, section 13.6, is this project's own).
ghost use Rattle.std.specs.Prelude.{◌<◌, vec_capacity};
ghost use Rattle.f77_ast.specs.Limits.{most_line_bytes};

use f77_ast::fault::Fault;
use f77_ast::limits::MOST_LINE_BYTES;
use hyb_base::decimal::Decimal;
use hyb_base::no_memory::NoMemory;
use std::alloc::Global;

/// A line of 10,000 bytes at most, and its LF. Its room is reserved when it is made, so no call of it takes memory.
#[derive(Drop)]
pub struct Line {
    bytes: Vec<u8>,
    ghost reserved: { most_line_bytes < vec_capacity bytes },
}

impl Line {
    ghost use Rattle.std.specs.Prelude.{◌≡◌, ◌≤◌, ◌↔◌, [], ◌∷◌, ◌++◌, length, take, IfOk, IfErr, OnOk, OnErr, IsErr};
    ghost use Rattle.hyb_base.specs.Decimal.{decimal_of};
    ghost use Rattle.f77_ast.specs.Limits.{most_line_bytes};
    ghost use Rattle.f77_ast.specs.declared.fault.Fault.TheVariants.{LineLimit};
    ghost use Rattle.f77_io.specs.Line.{text_of, IsPastLimit, logical_text};

    /// An empty line.
    pub fn new(alloc: Global) -> Result<Line, NoMemory>
        ensures { IfOk result (λ line. text_of line ≡ []) }
    {
        Ok(Line {
            bytes: Vec::with_capacity(alloc, MOST_LINE_BYTES + 1)?,
        })
    }

    /// Adds a blank and a number in decimal. `LineLimit`, and a line as before, exactly where the line would pass
    /// 10,000 bytes.
    pub fn push_int(&mut self, v: i64) -> Result<(), Fault>
        ensures ok { OnOk result (text_of self.new ≡ text_of self.old ++ (32 ∷ decimal_of v)) }
        ensures err { OnErr result (text_of self.new ≡ text_of self.old) }
        ensures limit { IsErr result ↔ IsPastLimit (text_of self.old) (decimal_of v) }
        ensures fault { IfErr result (λ fault. fault ≡ LineLimit) }
    {
        self.push_bytes(Decimal::new(v).as_slice())
    }

    /// Adds a blank and `T` for true or `F` for false. `LineLimit`, and a line as before, exactly where the line
    /// would pass 10,000 bytes.
    pub fn push_logical(&mut self, v: bool) -> Result<(), Fault>
        ensures ok { OnOk result (text_of self.new ≡ text_of self.old ++ (32 ∷ logical_text v)) }
        ensures err { OnErr result (text_of self.new ≡ text_of self.old) }
        ensures limit { IsErr result ↔ IsPastLimit (text_of self.old) (logical_text v) }
        ensures fault { IfErr result (λ fault. fault ≡ LineLimit) }
    {
        if v {
            self.push_bytes(b"T")
        } else {
            self.push_bytes(b"F")
        }
    }

    /// Adds a blank and characters as they are. `LineLimit`, and a line as before, exactly where the line would
    /// pass 10,000 bytes.
    pub fn push_bytes(&mut self, v: &[u8]) -> Result<(), Fault>
        ensures ok { OnOk result (text_of self.new ≡ text_of self.old ++ (32 ∷ v.now)) }
        ensures err { OnErr result (text_of self.new ≡ text_of self.old) }
        ensures limit { IsErr result ↔ IsPastLimit (text_of self.old) v.now }
        ensures fault { IfErr result (λ fault. fault ≡ LineLimit) }
    {
        if self.bytes.len() + 1 + v.len() > MOST_LINE_BYTES {
            return Err(Fault::LineLimit);
        }
        self.bytes.push_reserved(b' ');
        self.bytes.extend_from_slice(v).unwrap();
        Ok(())
    }

    /// Makes it the line of a PRINT without items: one blank.
    pub fn set_blank(&mut self)
        ensures { text_of self.new ≡ 32 ∷ [] }
    {
        self.bytes.clear();
        self.bytes.push_reserved(b' ');
    }

    /// Ends the line: adds its LF, for which there is room.
    pub fn finish(&mut self)
        requires { length (text_of self.old) ≤ most_line_bytes }
        ensures { text_of self.new ≡ text_of self.old ++ 10 ∷ [] }
    {
        self.bytes.push_reserved(b'\n');
    }

    /// The bytes of the line, without an end of line unless it is finished.
    pub fn text(&self) -> &[u8]
        ensures { result.now ≡ text_of self.now }
    {
        self.bytes.as_slice()
    }

    /// The number of its bytes.
    pub fn len(&self) -> usize
        ensures { result ≡ length (text_of self.now) }
    {
        self.bytes.len()
    }

    /// Cuts it back to its first `count` bytes.
    pub fn truncate(&mut self, count: usize)
        requires { count ≤ length (text_of self.old) }
        ensures { text_of self.new ≡ take count (text_of self.old) }
    {
        self.bytes.truncate(count);
    }

    /// Makes it an empty line.
    pub fn clear(&mut self)
        ensures { text_of self.new ≡ [] }
    {
        self.bytes.clear();
    }
}
