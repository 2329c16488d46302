//! The order of statements in a unit (ANSI X3.9-1978, section 3.5).
ghost use Rattle.std.specs.Prelude.{◌≡◌, ◌&&◌, ◌||◌, nat_lt};
ghost use Rattle.f77_ast.specs.Refusal.{first_of};
ghost use Rattle.f77_shape.specs.Breaks.{broken_by};
ghost use Rattle.f77_shape.specs.Order.{part_of, follows_part, has_return, is_out_of_order};

use crate::breaks::refused_if;
use f77_ast::program::Listed;
use f77_ast::refusal::{Refusal, sooner};
use f77_ast::rule::Rule;
use f77_ast::stmt::Stmt;
use f77_structure::statements::inner_of;
use f77_structure::units::is_main;

/// The part of a unit in which a statement is: 1 for PROGRAM, SUBROUTINE and FUNCTION, 2 for IMPLICIT and PARAMETER,
/// 3 for the other declarations, 4 for DATA and executable statements.
fn part_of(stmt: &Stmt) -> u8
    ensures { result ≡ part_of stmt.now }
{
    match stmt {
        Stmt::Program(_) => 1,
        Stmt::Subroutine { .. } => 1,
        Stmt::Function { .. } => 1,
        Stmt::Implicit(_) => 2,
        Stmt::Parameter(_) => 2,
        Stmt::Declare { .. } => 3,
        Stmt::Dimension(_) => 3,
        Stmt::Common(_) => 3,
        Stmt::Equivalence(_) => 3,
        Stmt::Save(_) => 3,
        Stmt::Assign { .. } => 4,
        Stmt::Do { .. } => 4,
        Stmt::Continue => 4,
        Stmt::Return => 4,
        Stmt::Else => 4,
        Stmt::EndIf => 4,
        Stmt::End => 4,
        Stmt::Stop(_) => 4,
        Stmt::Goto(_) => 4,
        Stmt::ComputedGoto { .. } => 4,
        Stmt::ArithmeticIf { .. } => 4,
        Stmt::LogicalIf { .. } => 4,
        Stmt::BlockIf(_) => 4,
        Stmt::ElseIf(_) => 4,
        Stmt::Call { .. } => 4,
        Stmt::Print(_) => 4,
        Stmt::Read(_) => 4,
        Stmt::Init(_) => 4,
    }
}

/// The last part of which statements may be before a statement. PROGRAM, SUBROUTINE and FUNCTION are only first.
/// IMPLICIT is before all declarations but PARAMETER. Declarations are before DATA and executable statements; DATA
/// may be anywhere after the declarations.
fn follows_part(stmt: &Stmt) -> u8
    ensures { result ≡ follows_part stmt.now }
{
    match stmt {
        Stmt::Program(_) => 0,
        Stmt::Subroutine { .. } => 0,
        Stmt::Function { .. } => 0,
        Stmt::Implicit(_) => 2,
        Stmt::Parameter(_) => 3,
        Stmt::Declare { .. } => 3,
        Stmt::Dimension(_) => 3,
        Stmt::Common(_) => 3,
        Stmt::Equivalence(_) => 3,
        Stmt::Save(_) => 3,
        Stmt::Assign { .. } => 4,
        Stmt::Do { .. } => 4,
        Stmt::Continue => 4,
        Stmt::Return => 4,
        Stmt::Else => 4,
        Stmt::EndIf => 4,
        Stmt::End => 4,
        Stmt::Stop(_) => 4,
        Stmt::Goto(_) => 4,
        Stmt::ComputedGoto { .. } => 4,
        Stmt::ArithmeticIf { .. } => 4,
        Stmt::LogicalIf { .. } => 4,
        Stmt::BlockIf(_) => 4,
        Stmt::ElseIf(_) => 4,
        Stmt::Call { .. } => 4,
        Stmt::Print(_) => 4,
        Stmt::Read(_) => 4,
        Stmt::Init(_) => 4,
    }
}

/// Whether a statement is RETURN, or a logical IF that holds one.
fn has_return(stmt: &Stmt) -> bool
    ensures { result ≡ has_return stmt.now }
{
    match inner_of(stmt) {
        Stmt::Return => true,
        Stmt::Assign { .. } => false,
        Stmt::Do { .. } => false,
        Stmt::Continue => false,
        Stmt::Else => false,
        Stmt::EndIf => false,
        Stmt::End => false,
        Stmt::Stop(_) => false,
        Stmt::Goto(_) => false,
        Stmt::ComputedGoto { .. } => false,
        Stmt::ArithmeticIf { .. } => false,
        Stmt::LogicalIf { .. } => false,
        Stmt::BlockIf(_) => false,
        Stmt::ElseIf(_) => false,
        Stmt::Call { .. } => false,
        Stmt::Print(_) => false,
        Stmt::Read(_) => false,
        Stmt::Program(_) => false,
        Stmt::Subroutine { .. } => false,
        Stmt::Function { .. } => false,
        Stmt::Declare { .. } => false,
        Stmt::Dimension(_) => false,
        Stmt::Common(_) => false,
        Stmt::Equivalence(_) => false,
        Stmt::Parameter(_) => false,
        Stmt::Implicit(_) => false,
        Stmt::Save(_) => false,
        Stmt::Init(_) => false,
    }
}

/// Whether a statement breaks the order in a main unit or another, after statements the last part of which is this.
fn is_out_of_order(main: bool, latest: u8, stmt: &Stmt) -> bool
    ensures { result ≡ (nat_lt (follows_part stmt.now) latest || (main && has_return stmt.now)) }
{
    follows_part(stmt) < latest || (main && has_return(stmt))
}

/// StatementOrder: the first statement of a unit that is after one before which it should be, or that is a RETURN in a
/// main unit.
pub fn wrong_order(unit: &[Listed]) -> Option<Refusal>
    ensures { result ≡ first_of (broken_by Rule.StatementOrder (is_out_of_order unit.now) 0 unit.now) }
{
    let main = is_main(unit);
    let mut first = None;
    let mut latest = 0;
    for listed in unit {
        let breaks = is_out_of_order(main, latest, &listed.stmt);
        first = sooner(first, refused_if(breaks, listed, Rule::StatementOrder));
        latest = u8::max(latest, part_of(&listed.stmt));
    }
    first
}
