//! Numbers of a schedule.
ghost use Rattle.std.specs.Prelude.{◌≡◌};
ghost use Rattle.sched_text.specs.Form.{number_of};

use hyb_base::decimal::read_u64;

/// The most digits of a number of 64 bits without zeros in front.
const MOST_DIGITS: usize = 20;

/// The number of a text: one or more digits, with any zeros in front, that stand for less than 2^64. None exactly where
/// the text is anything else.
pub fn read_number(text: &[u8]) -> Option<u64>
    ensures { result ≡ number_of text.now }
{
    let mut left = text;
    while left.len() > MOST_DIGITS {
        let Some((first, rest)) = left.split_first() else {
            return None;
        };
        if *first != b'0' {
            return None;
        }
        left = rest;
    }
    read_u64(left)
}
