//! The variables of DO-loops in their ranges (ANSI X3.9-1978, section 11.10.5).
ghost use Rattle.std.specs.Prelude.{◌≡◌, ◌&&◌, ◌||◌, ℕ, List, false, nat_le, IfOk, OnOk};
ghost use Rattle.std.specs.List.{list_any};
ghost use Rattle.std.specs.Option.{option_map, option_and_then};
ghost use Rattle.f77_ast.specs.Refusal.{first_of};
ghost use Rattle.f77_leaves.specs.Declarations.{same_name};
ghost use Rattle.f77_structure.specs.Statements.{terminal_label};
ghost use Rattle.f77_structure.specs.Stretches.{range_to};
ghost use Rattle.f77_structure.specs.Targets.{place_of, AreTargets};
ghost use Rattle.f77_uses.specs.Ends.{is_end_past, is_reached, assigns_reached};
ghost use Rattle.f77_uses.specs.Refused.{broken_by};
ghost use Rattle.f77_uses.specs.Running as spec;
ghost use Rattle.f77_uses.specs.Uses.{on_name};

use crate::breaks::refused_if;
use f77_ast::name::Name;
use f77_ast::program::Listed;
use f77_ast::refusal::{Refusal, sooner};
use f77_ast::rule::Rule;
use f77_ast::stmt::Stmt;
use f77_leaves::leaves::{Leaf, Mention, Role, leaves_of};
use f77_structure::statements::terminal_label;
use f77_structure::targets::{Targets, targets_of};
use hyb_base::no_memory::NoMemory;
use indexmap::IndexMap;
use std::alloc::Global;

/// The DO variables by now, each with the greatest end of the ranges of its loops.
///
/// How far a name reaches is found in constant time, however many loops are nested.
#[derive(Drop)]
pub struct Running {
    ends: IndexMap<Name, usize>,
}

/// Whether a statement gives a name of this role a value.
fn is_assigned(role: Role) -> bool
    ensures { result ≡ spec.is_assigned role }
{
    match role {
        Role::Heading => false,
        Role::Function => false,
        Role::Dummy => false,
        Role::Typed => false,
        Role::Shaped => false,
        Role::Common => false,
        Role::Block => false,
        Role::Member => false,
        Role::Filled => false,
        Role::Constant => false,
        Role::Repeat => false,
        Role::Datum => false,
        Role::Saved => false,
        Role::Called => false,
        Role::Target => true,
        Role::Input => true,
        Role::Control => true,
        Role::Operand => false,
    }
}

/// The end of a range from a place to a target after it.
fn last_by(place: usize, target: Option<usize>) -> Option<usize>
    ensures { result ≡ option_map (λ range. range.last) (range_to place target) }
{
    match target {
        None => None,
        Some(target) => { if place < target { Some(target) } else { None } }
    }
}

/// The place of the terminal statement that a DO statement names.
fn terminal_place(targets: &Targets<usize>, stmt: &Stmt) -> Option<usize>
    ensures { result ≡ option_and_then (place_of targets.now) (terminal_label stmt.now) }
{
    match terminal_label(stmt) {
        None => None,
        Some(label) => targets.find(label),
    }
}

impl Running {
    /// No DO variable. It takes no memory.
    fn new(alloc: Global) -> Running
        ensures { (name : List ℕ) (place : ℕ) → is_reached result name place ≡ false }
    {
        Running {
            ends: IndexMap::new(alloc),
        }
    }

    /// Whether a range of a variable's loops reaches a place.
    fn reaches(&self, name: &Name, place: usize) -> bool
        ensures { result ≡ is_reached self.now name.now place }
    {
        match self.ends.get(name) {
            None => false,
            Some(last) => place <= *last,
        }
    }

    /// Whether a name in a statement is given a value while a range of its loops reaches the place.
    fn is_broken(&self, place: usize, leaf: &Leaf) -> bool
        ensures { result ≡ on_name (assigns_reached self.now place) leaf.now }
    {
        match leaf {
            Leaf::Literal => false,
            Leaf::Text(_) => false,
            Leaf::Named(mention) => is_assigned(mention.role) && self.reaches(&mention.name, place),
        }
    }

    /// Whether one of the names in a statement is.
    fn breaks(&self, place: usize, leaves: &[Leaf]) -> bool
        ensures { result ≡ list_any (on_name (assigns_reached self.now place)) leaves.now }
    {
        leaves.iter().any(|leaf| self.is_broken(place, leaf))
    }

    /// The greater of an end and that of a variable's loops by now.
    fn greatest(&self, name: &Name, last: usize) -> usize
        ensures { (place : ℕ) → nat_le place result ≡ (nat_le place last || is_reached self.now name.now place) }
    {
        match self.ends.get(name) {
            None => last,
            Some(before) => last.max(*before),
        }
    }

    /// Takes a loop of a variable, whose range ends at a place.
    fn begin(&mut self, name: &Name, last: usize) -> Result<(), NoMemory>
        ensures { OnOk result ((other : List ℕ) (place : ℕ) → is_reached self.new other place ≡ ((same_name other name.now && nat_le place last) || is_reached self.old other place)) }
    {
        let greatest = self.greatest(name, last);
        self.ends.insert(name.copy(), greatest)?;
        Ok(())
    }

    /// Takes a loop of a variable whose range may have an end.
    fn begin_if(&mut self, name: &Name, last: Option<usize>) -> Result<(), NoMemory>
        ensures { OnOk result ((other : List ℕ) (place : ℕ) → is_reached self.new other place ≡ ((same_name other name.now && is_end_past place last) || is_reached self.old other place)) }
    {
        match last {
            None => Ok(()),
            Some(last) => self.begin(name, last),
        }
    }

    /// Takes a statement at a place, with the end of its range if it is a DO statement.
    fn take(&mut self, last: Option<usize>, stmt: &Stmt) -> Result<(), NoMemory>
        ensures { OnOk result ((other : List ℕ) (place : ℕ) → is_reached self.new other place ≡ ((spec.is_variable other (spec.do_variable stmt.now) && is_end_past place last) || is_reached self.old other place)) }
    {
        match stmt {
            Stmt::Assign { .. } => Ok(()),
            Stmt::Do { control, .. } => self.begin_if(&control.variable, last),
            Stmt::Continue => Ok(()),
            Stmt::Return => Ok(()),
            Stmt::Else => Ok(()),
            Stmt::EndIf => Ok(()),
            Stmt::End => Ok(()),
            Stmt::Stop(_) => Ok(()),
            Stmt::Goto(_) => Ok(()),
            Stmt::ComputedGoto { .. } => Ok(()),
            Stmt::ArithmeticIf { .. } => Ok(()),
            Stmt::LogicalIf { .. } => Ok(()),
            Stmt::BlockIf(_) => Ok(()),
            Stmt::ElseIf(_) => Ok(()),
            Stmt::Call { .. } => Ok(()),
            Stmt::Print(_) => Ok(()),
            Stmt::Read(_) => Ok(()),
            Stmt::Program(_) => Ok(()),
            Stmt::Subroutine { .. } => Ok(()),
            Stmt::Function { .. } => Ok(()),
            Stmt::Declare { .. } => Ok(()),
            Stmt::Dimension(_) => Ok(()),
            Stmt::Common(_) => Ok(()),
            Stmt::Equivalence(_) => Ok(()),
            Stmt::Parameter(_) => Ok(()),
            Stmt::Implicit(_) => Ok(()),
            Stmt::Save(_) => Ok(()),
            Stmt::Init(_) => Ok(()),
        }
    }
}

/// DoVariableAssigned: the first statement of a unit that gives the variable of a DO a value in its range.
pub fn assigned_running(alloc: Global, unit: &[Listed]) -> Result<Option<Refusal>, NoMemory>
    ensures { IfOk result (λ first. first ≡ first_of (broken_by Rule.DoVariableAssigned (spec.assigns_a_running unit.now) 0 unit.now)) }
{
    let targets = targets_of(alloc, unit)?;
    let mut first = None;
    let mut running = Running::new(alloc);
    for (place, listed) in unit.iter().enumerate() {
        let leaves = leaves_of(alloc, &listed.stmt)?;
        let breaks = running.breaks(place, leaves.as_slice());
        first = sooner(first, refused_if(breaks, listed, Rule::DoVariableAssigned));
        let last = last_by(place, terminal_place(&targets, &listed.stmt));
        running.take(last, &listed.stmt)?;
    }
    Ok(first)
}
