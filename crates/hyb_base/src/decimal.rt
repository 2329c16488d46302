//! Numbers as decimal text, in ASCII.
ghost use Rattle.std.specs.Prelude.{◌≡◌, ◌++◌, ◌^◌, ◌<◌, ◌≤◌, length, SomeIff, OnOk, OnErr};
ghost use Rattle.std.specs.Char.{is_ascii_digit};
ghost use Rattle.std.specs.List.{list_all};
ghost use Rattle.hyb_base.specs.Decimal.{IsDigits, value_of, decimal_of, DecimalReadsBack};

use crate::bytes::Bytes;
use crate::no_memory::NoMemory;
use arrayvec::ArrayVec;
use itoa::Buffer;
use std::marker::Model;

/// The most bytes in the text of a number: a sign and 19 digits, or 20 digits without a sign.
const LONGEST: usize = 20;

/// The decimal text of a number of 64 bits: `-` where it is negative, then its digits without zeros
/// in front. It takes no memory.
#[derive(Drop)]
pub struct Decimal {
    text: ArrayVec<u8, LONGEST>,
}

impl Model for Decimal {
    ghost use Rattle.std.specs.Prelude.{List, ℕ};

    ghost Value = { List ℕ };

    ghost view = { λ d. d.text.items };
}

impl Decimal {
    /// The text of a number.
    pub fn new(v: i64) -> Decimal
        ensures text { result ≡ decimal_of v }
        ensures short { length result ≤ 20 }
    {
        let mut buffer = Buffer::new();
        let mut text = ArrayVec::new();
        text.try_extend_from_slice(buffer.format(v).as_bytes())
            .unwrap();
        Decimal { text }
    }

    /// Its bytes: 20 at most.
    pub fn as_slice(&self) -> &[u8]
        ensures text { result.now ≡ self.now }
        ensures within { length result.now ≤ 20 }
    {
        self.text.as_slice()
    }
}

/// Adds the decimal text of a number last. After an error the list is as before.
pub fn print_i64(v: i64, into: &mut Bytes) -> Result<(), NoMemory>
    ensures ok { OnOk result (into.new ≡ into.old ++ decimal_of v) }
    ensures err { OnErr result (into.new ≡ into.old) }
{
    into.push_slice(Decimal::new(v).as_slice())
}

/// The number of a text of digits, where there are 1 to 20 digits, zeros in front
/// among them. None exactly where the text is anything else, or the number is 2^64 or more.
pub fn read_u64(text: &[u8]) -> Option<u64>
    ensures { SomeIff result (IsDigits text.now × (length text.now ≤ 20) × (value_of text.now < 2 ^ 64)) (value_of text.now) }
{
    if text.len() > LONGEST || !are_digits(text) {
        return None;
    }
    match str::from_utf8(text) {
        Ok(digits) => digits.parse().ok(),
        Err(_) => None,
    }
}

/// Whether each byte of a text is a digit.
fn are_digits(text: &[u8]) -> bool
    ensures { result ≡ list_all is_ascii_digit text.now }
{
    text.iter().all(|byte| byte.is_ascii_digit())
}

/// The text of a number of 64 bits reads back as that number: a law, with nothing to do.
pub fn law_of_decimal()
    ensures { DecimalReadsBack }
{}
