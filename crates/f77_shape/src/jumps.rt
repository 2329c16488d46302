//! Jumps into DO ranges and IF blocks (ANSI X3.9-1978, sections 11.6 to 11.8 and 11.10.8).
ghost use Rattle.std.specs.Prelude.{◌≡◌};
ghost use Rattle.std.specs.List.{list_any};
ghost use Rattle.f77_ast.specs.Refusal.{first_of};
ghost use Rattle.f77_shape.specs.Breaks.{broken_by};
ghost use Rattle.f77_shape.specs.Jumps.{enters, jumps_in};
ghost use Rattle.f77_structure.specs.Labels.{gone_to, jumps_of, target_in};
ghost use Rattle.f77_shape.specs.UnitTables.{AreUnitTables};
ghost use Rattle.f77_ast.specs.declared.program.Listed.{Listed};
ghost use Rattle.std.specs.Prelude.{List};

use crate::breaks::refused_if;
use crate::unit_tables::UnitTables;
use f77_ast::program::Listed;
use f77_ast::refusal::{Refusal, sooner};
use f77_ast::rule::Rule;
use f77_ast::stmt::{Label, Stmt};
use f77_structure::statements::inner_of;

/// Whether a jump from a place to a label enters a DO range or an IF block.
fn enters(places: &UnitTables, from: usize, label: Label) -> bool
    ensures { (unit : List Listed) → AreUnitTables unit places.now → result ≡ enters unit from (target_in label unit) }
{
    match places.targets.find(label) {
        None => false,
        Some(to) => places.ranges.is_entered(from, to) || places.blocks.is_entered(from, to),
    }
}

/// Whether one of some labels is in a range or block that doesn't hold the jump.
fn enters_by_one(places: &UnitTables, from: usize, labels: &[Label]) -> bool
    ensures { (unit : List Listed) → AreUnitTables unit places.now → result ≡ list_any (λ label. enters unit from (target_in label unit)) labels.now }
{
    for label in labels {
        if enters(places, from, *label) {
            return true;
        }
    }
    false
}

/// Whether GO TO, a computed GO TO or an arithmetic IF at a place enters a DO range or an IF block.
fn goes_in(places: &UnitTables, from: usize, stmt: &Stmt) -> bool
    ensures { (unit : List Listed) → AreUnitTables unit places.now → result ≡ list_any (λ label. enters unit from (target_in label unit)) (gone_to stmt.now) }
{
    match stmt {
        Stmt::Goto(label) => enters(places, from, *label),
        Stmt::ComputedGoto { labels, .. } => enters_by_one(places, from, labels.as_slice()),
        Stmt::ArithmeticIf {
            negative,
            zero,
            positive,
            ..
        } => {
            enters(places, from, *negative)
                || enters(places, from, *zero)
                || enters(places, from, *positive)
        }
        Stmt::Assign { .. } => false,
        Stmt::Do { .. } => false,
        Stmt::Continue => false,
        Stmt::Return => false,
        Stmt::Else => false,
        Stmt::EndIf => false,
        Stmt::End => false,
        Stmt::Stop(_) => false,
        Stmt::LogicalIf { .. } => false,
        Stmt::BlockIf(_) => false,
        Stmt::ElseIf(_) => false,
        Stmt::Call { .. } => false,
        Stmt::Print(_) => false,
        Stmt::Read(_) => false,
        Stmt::Program(_) => false,
        Stmt::Subroutine { .. } => false,
        Stmt::Function { .. } => false,
        Stmt::Declare { .. } => false,
        Stmt::Dimension(_) => false,
        Stmt::Common(_) => false,
        Stmt::Equivalence(_) => false,
        Stmt::Parameter(_) => false,
        Stmt::Implicit(_) => false,
        Stmt::Save(_) => false,
        Stmt::Init(_) => false,
    }
}

/// JumpIntoRange: the first GO TO or arithmetic IF of a unit with a label in a DO range or IF block that doesn't hold it.
pub fn jump_in(unit: &[Listed], places: &UnitTables) -> Option<Refusal>
    requires { AreUnitTables unit.now places.now }
    ensures { result ≡ first_of (broken_by Rule.JumpIntoRange (jumps_in unit.now) 0 unit.now) }
{
    let mut first = None;
    for (place, listed) in unit.iter().enumerate() {
        let breaks = goes_in(places, place, inner_of(&listed.stmt));
        first = sooner(first, refused_if(breaks, listed, Rule::JumpIntoRange));
    }
    first
}
