//! The labels of statements, and the statements that they mean (ANSI X3.9-1978, section 3.4).
ghost use Rattle.std.specs.Prelude.{◌≡◌, ℕ, Some, None, IfOk, OnOk, if◌then◌else◌};
ghost use Rattle.std.specs.Option.{option_copied};
ghost use Rattle.f77_structure.specs.Labels.{has_label};
ghost use Rattle.f77_structure.specs.Targets.{place_of, AreTargets};

use crate::statements::is_executable;
use f77_ast::program::Listed;
use f77_ast::stmt::Label;
use hyb_base::no_memory::NoMemory;
use std::alloc::Global;
use std::collections::HashMap;

/// For each label the place of the executable statement that was noted last with it: its place in its unit, or its
/// number in the file.
#[derive(Drop)]
pub struct Targets<P> {
    /// The places, by label.
    pub places: HashMap<Label, P>,
}

impl<P: Copy + Drop> Targets<P> {
    /// No label. It takes no memory.
    pub fn new(alloc: Global) -> Targets<P>
        ensures { (label : ℕ) → place_of result label ≡ None }
    {
        Targets {
            places: HashMap::new(alloc),
        }
    }

    /// Notes a statement's place, where it is executable and has a label.
    pub fn note(&mut self, place: P, listed: &Listed) -> Result<(), NoMemory>
        ensures { OnOk result ((label : ℕ) → place_of self.new label ≡ (if has_label label listed.now then Some place else place_of self.old label)) }
    {
        match listed.card.label {
            Some(label) if is_executable(&listed.stmt) => {
                self.places.insert(label, place)?;
                Ok(())
            }
            _ => Ok(()),
        }
    }

    /// The place that was noted last with a label.
    pub fn find(&self, label: Label) -> Option<P>
        ensures { result ≡ place_of self.now label }
    {
        self.places.get(&label).copied()
    }
}

/// For each label of a unit the place of the first executable statement that has it, counted from 0.
pub fn targets_of(alloc: Global, unit: &[Listed]) -> Result<Targets<usize>, NoMemory>
    ensures { IfOk result (λ targets. AreTargets unit.now targets) }
{
    let mut targets = Targets::new(alloc);
    let mut place = unit.len();
    while place > 0 {
        place -= 1;
        targets.note(place, &unit[place])?;
    }
    Ok(targets)
}
