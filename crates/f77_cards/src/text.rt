//! The text of a statement (ANSI X3.9-1978, sections 3.1.6 and 4.8).
ghost use Rattle.std.specs.Prelude.{◌≡◌, ◌++◌, OnOk, IfOk};
ghost use Rattle.f77_cards.specs.Text.{switched, kept, text_from, ends_inside};

use hyb_base::bytes::Bytes;
use hyb_base::no_memory::NoMemory;

/// Whether what follows a byte is inside a character constant: an apostrophe switches between outside and inside.
pub fn switched(inside: bool, byte: u8) -> bool
    ensures { result ≡ switched inside byte }
{
    if byte == b'\'' { !inside } else { inside }
}

/// Whether what follows bytes is inside a character constant.
pub fn ends_inside(starts_inside: bool, bytes: &[u8]) -> bool
    ensures { result ≡ ends_inside starts_inside bytes.now }
{
    let mut inside = starts_inside;
    for byte in bytes {
        inside = switched(inside, *byte);
    }
    inside
}

/// Adds to a text what a byte leaves there: inside a character constant itself; outside nothing for a blank, and
/// upper case for lower case.
fn push_kept(text: &mut Bytes, inside: bool, byte: u8) -> Result<(), NoMemory>
    ensures { OnOk result (text.new ≡ text.old ++ kept inside byte) }
{
    if inside {
        text.push(byte)
    } else if byte == b' ' {
        Ok(())
    } else {
        text.push(byte.to_ascii_uppercase())
    }
}

/// Adds to a text what bytes leave there, the first of them inside a character constant or outside.
pub fn push_text(text: &mut Bytes, starts_inside: bool, bytes: &[u8]) -> Result<(), NoMemory>
    ensures { OnOk result (text.new ≡ text.old ++ text_from starts_inside bytes.now) }
{
    let mut inside = starts_inside;
    for byte in bytes {
        push_kept(text, inside, *byte)?;
        inside = switched(inside, *byte);
    }
    Ok(())
}
