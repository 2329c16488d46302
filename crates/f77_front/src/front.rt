//! The front end: from the bytes of a file to a program.
ghost use Rattle.std.specs.Prelude.{◌≡◌, ◌<◌, ◌^◌, length, Ok, Err, IfOk, IsErrOf};
ghost use Rattle.f77_ast.specs.declared.refusal.Refusal.{Refusal};
ghost use Rattle.f77_front.specs.Front.{front_of};
ghost use Rattle.f77_meaning.specs.Sound.{IsSound};

use crate::program::program_of;
use crate::statements::listing;
use f77_ast::program::Program;
use f77_ast::refusal::FrontError;
use f77_cards::cards::cards;
use f77_shape::shape::shape;
use std::alloc::Global;

/// The program that the bytes of a file make.
///
/// # Errors
///
/// `Refused` exactly where the bytes aren't accepted, by the first of these groups that refuses; in it by the least line,
/// and on that line by the least code.
/// 1. Codes 1 to 6: the lines and cards of the file.
/// 2. Codes 11, 12, 13, 20 and 21: a card's text spells no statement.
/// 3. Codes 50 to 57: units, labels, DO ranges, IF blocks, jumps, order of statements, and the limits on statements, units
///    and names.
/// 4. Codes 30, 31, 33, 34, 35 and 37: the rules on names, kinds and constants.
/// 5. Code 56: the limit on operands.
/// 6. Code 21: a statement isn't built by now, or breaks a rule on calls or storage.
///
/// `NoMemory` where no memory was to be had.
pub fn front(alloc: Global, bytes: &[u8]) -> Result<Program, FrontError>
    requires { length bytes.now < 2 ^ 32 }
    ensures accepted { IfOk result (λ program. front_of bytes.now ≡ Ok program) }
    ensures refused { (refusal : Refusal) → IsErrOf result (FrontError.Refused refusal) → front_of bytes.now ≡ Err refusal }
    ensures sound { IfOk result IsSound }
{
    let cards = cards(alloc, bytes)?;
    let statements = listing(alloc, cards)?;
    let units = shape(alloc, statements)?;
    program_of(alloc, units)
}
