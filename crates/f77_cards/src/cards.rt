//! The cards of a source file.
ghost use Rattle.std.specs.Prelude.{◌≡◌, ◌^◌, ◌<◌, length, Ok, Err, IfOk, IsErrOf};
ghost use Rattle.f77_ast.specs.declared.refusal.Refusal.{Refusal};
ghost use Rattle.f77_cards.specs.Cards.{cards_of};

use crate::line::{Line, filled};
use crate::lines::next_line;
use crate::reader::Reader;
use f77_ast::program::Card;
use f77_ast::refusal::FrontError;
use hyb_base::list::List;
use std::alloc::Global;

/// The cards of a file, in order.
pub type Cards = List<Card>;

/// The cards of a file: one for each statement, in order (ANSI X3.9-1978, sections 3.2 and 3.3).
///
/// Lines end at LF, and a CR directly before LF is dropped; bytes after the last LF are a line where there are any. A
/// line counts as filled with blanks to column 72, and bytes past column 72 are ignored. Comment lines may be
/// anywhere, also between the lines of a statement. An initial line has a blank or `0` in column 6, any other line is a
/// continuation line. A text is columns 7 to 72 of a statement's lines, joined: outside character constants blanks are
/// dropped and lower case becomes upper case, inside bytes stay, and both of two apostrophes side by side. An empty file
/// has no cards.
///
/// Refused with the first of these, by line and then by code. The line is the line itself, for code 5 the statement's
/// initial line.
/// 1. A tab in columns 1 to 72 of a line that is no comment.
/// 2. In columns 7 to 72, outside character constants, a byte that is no letter, digit, blank or one of
///    `=+-*/(),.$':`; inside, a byte below 32 or equal to 127.
/// 3. Columns 1 to 5 of an initial line hold something but digits and blanks, or digits that are zeros alone; or
///    those of a continuation line aren't blank.
/// 4. The 20th continuation line of a statement.
/// 5. A statement's text ends inside a character constant.
/// 6. A continuation line before any initial line.
///
/// `NoMemory` where no memory was to be had. The bytes are read once, from the first to the last.
pub fn cards(alloc: Global, bytes: &[u8]) -> Result<Cards, FrontError>
    requires { length bytes.now < 2 ^ 32 }
    ensures accepted { IfOk result (λ cards. cards_of bytes.now ≡ Ok cards) }
    ensures refused { (refusal : Refusal) → IsErrOf result (FrontError.Refused refusal) → cards_of bytes.now ≡ Err refusal }
{
    let mut reader = Reader::new(alloc);
    let mut left = bytes;
    let mut number: usize = 1;
    while let Some((line, rest)) = next_line(left) {
        let line = Line {
            number: number as u32,
            columns: filled(line),
        };
        reader.read_line(alloc, &line)?;
        left = rest;
        number += 1;
    }
    reader.finish()
}
