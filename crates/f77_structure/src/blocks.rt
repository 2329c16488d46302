//! IF blocks, as stretches of a unit (ANSI X3.9-1978, sections 11.6 to 11.9).
ghost use Rattle.std.specs.Prelude.{◌≡◌, ◌++◌, reverse, IfOk, OnOk};
ghost use Rattle.f77_structure.specs.Blocks.{if_part, ends_block, parts_behind, block_before, blocks_of};

use crate::stretches::{Stretch, add};
use f77_ast::program::Listed;
use f77_ast::stmt::Stmt;
use hyb_base::no_memory::NoMemory;
use std::alloc::Global;

/// A statement of a block IF.
#[derive(Clone, Copy, Debug, PartialEq, Eq)]
pub enum IfPart {
    /// IF with THEN.
    If,
    /// ELSE IF.
    ElseIf,
    /// ELSE.
    Else,
    /// END IF.
    EndIf,
}

/// Which statement of a block IF a statement is; none of any other.
pub fn if_part(stmt: &Stmt) -> Option<IfPart>
    ensures { result ≡ if_part stmt.now }
{
    match stmt {
        Stmt::Assign { .. } => None,
        Stmt::Do { .. } => None,
        Stmt::Continue => None,
        Stmt::Return => None,
        Stmt::Else => Some(IfPart::Else),
        Stmt::EndIf => Some(IfPart::EndIf),
        Stmt::End => None,
        Stmt::Stop(_) => None,
        Stmt::Goto(_) => None,
        Stmt::ComputedGoto { .. } => None,
        Stmt::ArithmeticIf { .. } => None,
        Stmt::LogicalIf { .. } => None,
        Stmt::BlockIf(_) => Some(IfPart::If),
        Stmt::ElseIf(_) => Some(IfPart::ElseIf),
        Stmt::Call { .. } => None,
        Stmt::Print(_) => None,
        Stmt::Read(_) => None,
        Stmt::Program(_) => None,
        Stmt::Subroutine { .. } => None,
        Stmt::Function { .. } => None,
        Stmt::Declare { .. } => None,
        Stmt::Dimension(_) => None,
        Stmt::Common(_) => None,
        Stmt::Equivalence(_) => None,
        Stmt::Parameter(_) => None,
        Stmt::Implicit(_) => None,
        Stmt::Save(_) => None,
        Stmt::Init(_) => None,
    }
}

/// Whether a statement ends the IF block before it: ELSE IF, ELSE or END IF.
fn ends_block(stmt: &Stmt) -> bool
    ensures { result ≡ ends_block stmt.now }
{
    match if_part(stmt) {
        None => false,
        Some(IfPart::If) => false,
        Some(IfPart::ElseIf) => true,
        Some(IfPart::Else) => true,
        Some(IfPart::EndIf) => true,
    }
}

/// The block that ends before a statement, where these are the places of the last parts of the open IFs, the innermost
/// one's last.
fn block_before(stmt: &Stmt, place: usize, parts: &Vec<usize>) -> Option<Stretch>
    ensures { result ≡ block_before stmt.now place (reverse parts.now.items) }
{
    match parts.last() {
        None => None,
        Some(part) => {
            if ends_block(stmt) {
                Some(Stretch {
                    opens: *part,
                    last: place.saturating_sub(1),
                })
            } else {
                None
            }
        }
    }
}

/// Goes on after a statement, where these are the places of the last parts of the open IFs, the innermost one's last.
fn go_on(parts: &mut Vec<usize>, place: usize, stmt: &Stmt) -> Result<(), NoMemory>
    ensures { OnOk result (reverse parts.new.items ≡ parts_behind stmt.now place (reverse parts.old.items)) }
{
    match if_part(stmt) {
        None => Ok(()),
        Some(IfPart::If) => {
            parts.push(place)?;
            Ok(())
        }
        Some(IfPart::ElseIf) => match parts.pop() {
            None => Ok(()),
            Some(_before) => {
                parts.push(place)?;
                Ok(())
            }
        },
        Some(IfPart::Else) => match parts.pop() {
            None => Ok(()),
            Some(_before) => {
                parts.push(place)?;
                Ok(())
            }
        },
        Some(IfPart::EndIf) => {
            let _closed = parts.pop();
            Ok(())
        }
    }
}

/// The IF blocks of a unit, in the order in which they end.
pub fn blocks_of(alloc: Global, unit: &[Listed]) -> Result<Vec<Stretch>, NoMemory>
    ensures { IfOk result (λ blocks. blocks.items ≡ blocks_of unit.now) }
{
    let mut blocks = Vec::new(alloc);
    let mut parts: Vec<usize> = Vec::new(alloc);
    for (place, listed) in unit.iter().enumerate() {
        add(&mut blocks, block_before(&listed.stmt, place, &parts))?;
        go_on(&mut parts, place, &listed.stmt)?;
    }
    Ok(blocks)
}
