//! DO ranges, as stretches of a unit (ANSI X3.9-1978, section 11.10).
ghost use Rattle.std.specs.Prelude.{◌≡◌, ◌++◌, List, [], ◌∷◌, reverse, IfOk, OnOk, None, if◌then◌else◌};
ghost use Rattle.std.specs.Option.{option_to_list, option_and_then};
ghost use Rattle.f77_structure.specs.Statements.{terminal_label};
ghost use Rattle.f77_structure.specs.Stretches.{holds, range_to, ranges_of};
ghost use Rattle.f77_structure.specs.Targets.{place_of, AreTargets};

use crate::statements::terminal_label;
use crate::targets::Targets;
use f77_ast::program::Listed;
use f77_ast::stmt::Stmt;
use hyb_base::no_memory::NoMemory;
use std::alloc::Global;

/// A DO range or an IF block: the statements after the one that opens it, to the last one. Places are counted in the
/// unit from 0.
#[derive(Clone, Copy)]
pub struct Stretch {
    /// The place of the statement that opens it.
    pub opens: usize,
    /// The place of its last statement.
    pub last: usize,
}

/// Whether a stretch holds the statement at a place.
pub fn holds(stretch: &Stretch, place: usize) -> bool
    ensures { result ≡ holds stretch.now place }
{
    stretch.opens < place && place <= stretch.last
}

/// Adds a stretch, if any.
pub fn add(stretches: &mut Vec<Stretch>, stretch: Option<Stretch>) -> Result<(), NoMemory>
    ensures { OnOk result (stretches.new.items ≡ stretches.old.items ++ option_to_list stretch) }
{
    if let Some(stretch) = stretch {
        stretches.push(stretch)?;
    }
    Ok(())
}

/// The range from a place to a target after it.
fn range_to(place: usize, target: Option<usize>) -> Option<Stretch>
    ensures { result ≡ range_to place target }
{
    match target {
        None => None,
        Some(target) => {
            if place < target {
                Some(Stretch {
                    opens: place,
                    last: target,
                })
            } else {
                None
            }
        }
    }
}

/// The place of the terminal statement that a DO statement names.
fn terminal_place(targets: &Targets<usize>, stmt: &Stmt) -> Option<usize>
    ensures { result ≡ option_and_then (place_of targets.now) (terminal_label stmt.now) }
{
    match terminal_label(stmt) {
        None => None,
        Some(label) => targets.find(label),
    }
}

/// The DO ranges of a unit.
pub fn ranges_of(
    alloc: Global,
    unit: &[Listed],
    targets: &Targets<usize>,
) -> Result<Vec<Stretch>, NoMemory>
    requires { AreTargets unit.now targets.now }
    ensures { IfOk result (λ ranges. ranges.items ≡ ranges_of unit.now) }
{
    let mut ranges = Vec::new(alloc);
    for (place, listed) in unit.iter().enumerate() {
        let range = range_to(place, terminal_place(targets, &listed.stmt));
        add(&mut ranges, range)?;
    }
    Ok(ranges)
}
