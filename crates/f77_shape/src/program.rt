//! The main unit, and the END of each unit (ANSI X3.9-1978, section 2.4).
ghost use Rattle.std.specs.Prelude.{◌≡◌, ◌&&◌, ◌||◌, not, [], if◌then◌else◌};
ghost use Rattle.f77_ast.specs.Refusal.{first_of, when};
ghost use Rattle.f77_shape.specs.Program.{no_program, first_refused, main_breaks, end_breaks};
ghost use Rattle.f77_structure.specs.Units.{is_main};

use crate::breaks::refused_if;
use f77_ast::program::{Listed, Unit};
use f77_ast::refusal::{Refusal, sooner};
use f77_ast::rule::Rule;
use f77_structure::statements::is_end;
use f77_structure::units::is_main;

/// The refusal of line 1.
fn no_program() -> Refusal
    ensures { result ≡ no_program }
{
    Refusal::new(1, Rule::NoProgram)
}

/// The refusal of a unit's first statement by a rule.
pub fn first_refused(listing: &[Listed], rule: Rule) -> Option<Refusal>
    ensures { result ≡ first_of (first_refused rule listing.now) }
{
    match listing.first() {
        None => None,
        Some(first) => refused_if(true, first, rule),
    }
}

/// The refusal of the first statement of a unit after a main unit or not, where it is a main unit too.
fn second_main(behind: bool, main: bool, listing: &[Listed]) -> Option<Refusal>
    ensures { result ≡ first_of (if behind && main then first_refused Rule.NoProgram listing.now else []) }
{
    if behind && main {
        first_refused(listing, Rule::NoProgram)
    } else {
        None
    }
}

/// Whether one of two is true.
fn either(one: bool, other: bool) -> bool
    ensures { result ≡ (one || other) }
{
    one || other
}

/// The refusal of a file without main unit.
fn no_main(found: bool) -> Option<Refusal>
    ensures { result ≡ first_of (when (not found) no_program) }
{
    if found { None } else { Some(no_program()) }
}

/// NoProgram: no main unit, at line 1; the first statement of a second main unit, and of each further one.
pub fn bad_main(units: &[Unit]) -> Option<Refusal>
    ensures { result ≡ first_of (main_breaks units.now) }
{
    let mut behind = false;
    let mut first = None;
    for unit in units {
        let listing = unit.listing.as_slice();
        let main = is_main(listing);
        first = sooner(first, second_main(behind, main, listing));
        behind = either(behind, main);
    }
    sooner(no_main(behind), first)
}

/// NoProgram: the last statement of a file, where it isn't END; line 1 where it is the only one.
pub fn bad_end(statements: &[Listed]) -> Option<Refusal>
    ensures { result ≡ first_of (end_breaks statements.now) }
{
    match statements.last() {
        None => None,
        Some(last) => {
            if is_end(&last.stmt) {
                None
            } else if statements.len() == 1 {
                Some(no_program())
            } else {
                refused_if(true, last, Rule::NoProgram)
            }
        }
    }
}
