//! Labels that no executable statement has, and labels that two statements have.
ghost use Rattle.std.specs.Prelude.{◌≡◌, ℕ, IfOk, OnOk, ◌||◌, nat_eq};
ghost use Rattle.std.specs.HashSet.{contains};
ghost use Rattle.std.specs.List.{list_any};
ghost use Rattle.std.specs.Option.{option_to_list};
ghost use Rattle.f77_ast.specs.Refusal.{first_of};
ghost use Rattle.f77_structure.specs.Labels.{is_label, gone_to, labels_of};
ghost use Rattle.f77_structure.specs.Statements.{terminal_label};
ghost use Rattle.f77_shape.specs.Breaks.{broken_by};
ghost use Rattle.f77_shape.specs.Labels.{misses_label, doubles_label};
ghost use Rattle.f77_structure.specs.Targets.{AreTargets};
ghost use Rattle.f77_shape.specs.Tables.{lacks, is_seen};

use crate::breaks::refused_if;
use f77_ast::program::Listed;
use f77_ast::refusal::{Refusal, sooner};
use f77_ast::rule::Rule;
use f77_ast::stmt::{Label, Stmt};
use f77_structure::statements::{inner_of, terminal_label};
use f77_structure::targets::Targets;
use hyb_base::no_memory::NoMemory;
use std::alloc::Global;
use std::collections::HashSet;

/// Whether no executable statement has a label.
fn lacks(targets: &Targets<usize>, label: Label) -> bool
    ensures { result ≡ lacks targets.now label }
{
    targets.find(label).is_none()
}

/// Whether no executable statement has one of some labels.
fn misses_one(targets: &Targets<usize>, labels: &[Label]) -> bool
    ensures { result ≡ list_any (lacks targets.now) labels.now }
{
    labels.iter().any(|label| lacks(targets, *label))
}

/// Whether a label to which GO TO, a computed GO TO or an arithmetic IF goes on is missing.
fn misses_jump(targets: &Targets<usize>, stmt: &Stmt) -> bool
    ensures { result ≡ list_any (lacks targets.now) (gone_to stmt.now) }
{
    match stmt {
        Stmt::Goto(label) => lacks(targets, *label),
        Stmt::ComputedGoto { labels, .. } => misses_one(targets, labels.as_slice()),
        Stmt::ArithmeticIf {
            negative,
            zero,
            positive,
            ..
        } => lacks(targets, *negative) || lacks(targets, *zero) || lacks(targets, *positive),
        Stmt::Assign { .. } => false,
        Stmt::Do { .. } => false,
        Stmt::Continue => false,
        Stmt::Return => false,
        Stmt::Else => false,
        Stmt::EndIf => false,
        Stmt::End => false,
        Stmt::Stop(_) => false,
        Stmt::LogicalIf { .. } => false,
        Stmt::BlockIf(_) => false,
        Stmt::ElseIf(_) => false,
        Stmt::Call { .. } => false,
        Stmt::Print(_) => false,
        Stmt::Read(_) => false,
        Stmt::Program(_) => false,
        Stmt::Subroutine { .. } => false,
        Stmt::Function { .. } => false,
        Stmt::Declare { .. } => false,
        Stmt::Dimension(_) => false,
        Stmt::Common(_) => false,
        Stmt::Equivalence(_) => false,
        Stmt::Parameter(_) => false,
        Stmt::Implicit(_) => false,
        Stmt::Save(_) => false,
        Stmt::Init(_) => false,
    }
}

/// Whether the label of a DO statement's terminal statement is missing.
fn misses_terminal(targets: &Targets<usize>, stmt: &Stmt) -> bool
    ensures { result ≡ list_any (lacks targets.now) (option_to_list (terminal_label stmt.now)) }
{
    match terminal_label(stmt) {
        None => false,
        Some(label) => lacks(targets, label),
    }
}

/// Whether a label that a statement names is missing.
fn misses_label(targets: &Targets<usize>, stmt: &Stmt) -> bool
    ensures { result ≡ list_any (lacks targets.now) (labels_of stmt.now) }
{
    misses_terminal(targets, stmt) || misses_jump(targets, inner_of(stmt))
}

/// LabelMissing: the first statement of a unit with a label that no executable statement of the unit has.
pub fn missing_label(unit: &[Listed], targets: &Targets<usize>) -> Option<Refusal>
    requires { AreTargets unit.now targets.now }
    ensures { result ≡ first_of (broken_by Rule.LabelMissing (misses_label unit.now) 0 unit.now) }
{
    let mut first = None;
    for listed in unit {
        let breaks = misses_label(targets, &listed.stmt);
        first = sooner(first, refused_if(breaks, listed, Rule::LabelMissing));
    }
    first
}

/// Notes a label, and tells whether it was noted before.
fn note_again(seen: &mut HashSet<Label>, label: Option<Label>) -> Result<bool, NoMemory>
    ensures again { IfOk result (λ again. again ≡ is_seen (contains nat_eq seen.old) label) }
    ensures noted { OnOk result ((q : ℕ) → contains nat_eq seen.new q ≡ (contains nat_eq seen.old q || is_label q label)) }
{
    match label {
        None => Ok(false),
        Some(label) => Ok(!seen.insert(label)?),
    }
}

/// DoubleLabel: the first statement of a unit with a label that an earlier statement of the unit has.
pub fn double_label(alloc: Global, unit: &[Listed]) -> Result<Option<Refusal>, NoMemory>
    ensures { IfOk result (λ first. first ≡ first_of (broken_by Rule.DoubleLabel (doubles_label unit.now) 0 unit.now)) }
{
    let mut first = None;
    let mut seen = HashSet::new(alloc);
    for listed in unit {
        let breaks = note_again(&mut seen, listed.card.label)?;
        first = sooner(first, refused_if(breaks, listed, Rule::DoubleLabel));
    }
    Ok(first)
}
