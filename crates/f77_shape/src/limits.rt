//! The limits on statements, units and names; they are this project's own.
ghost use Rattle.f77_ast.specs.Limits.{most_names};
ghost use Rattle.std.specs.Prelude.{◌≡◌, ◌+◌, ◌≤◌, ℕ, min, IfOk};
ghost use Rattle.f77_ast.specs.Refusal.{first_of};
ghost use Rattle.f77_shape.specs.Counts.{IsCounted};
ghost use Rattle.f77_shape.specs.Limits.{statement_breaks, unit_breaks, name_breaks, passes};

use crate::breaks::refused_if;
use crate::names::Names;
use crate::program::first_refused;
use f77_ast::limits::{MOST_NAMES, MOST_STATEMENTS, MOST_UNITS};
use f77_ast::program::{Listed, Unit};
use f77_ast::refusal::{Refusal, sooner};
use f77_ast::rule::Rule;
use hyb_base::no_memory::NoMemory;
use std::alloc::Global;

/// SizeLimit: the first statement of a file that is one too many.
pub fn too_many_statements(statements: &[Listed]) -> Option<Refusal>
    ensures { result ≡ first_of (statement_breaks statements.now) }
{
    match statements.get(MOST_STATEMENTS) {
        None => None,
        Some(listed) => refused_if(true, listed, Rule::SizeLimit),
    }
}

/// SizeLimit: the first statement of the first unit that is one too many.
pub fn too_many_units(units: &[Unit]) -> Option<Refusal>
    ensures { result ≡ first_of (unit_breaks units.now) }
{
    match units.get(MOST_UNITS) {
        None => None,
        Some(unit) => first_refused(unit.listing.as_slice(), Rule::SizeLimit),
    }
}

/// `others + count`, cut at MOST_NAMES + 1: more would give the same answer.
fn capped(others: usize, count: usize) -> usize
    ensures { result ≡ min (others + count) (most_names + 1) }
{
    others.saturating_add(count).min(MOST_NAMES + 1)
}

/// Whether the limit on names is passed between two numbers of names.
fn passes(before: usize, after: usize) -> bool
    ensures { result ≡ passes before after }
{
    before <= MOST_NAMES && after > MOST_NAMES
}

/// The number of names of a unit, and the statement that passes the limit.
#[derive(Drop)]
struct Counted {
    /// The refusal of the statement at which the limit is passed.
    over: Option<Refusal>,
    /// The number of names with those of the units before, or one more than may be where they are more than that.
    count: usize,
}

/// Counts the names of a unit, with those of the units before.
fn count_names(alloc: Global, others: usize, unit: &[Listed]) -> Result<Counted, NoMemory>
    requires { others ≤ (most_names + 1) }
    ensures { IfOk result (λ counted. (all : ℕ) → others ≡ min all (most_names + 1) → IsCounted all unit.now counted.over counted.count) }
{
    let mut names = Names::new(alloc);
    let mut over = None;
    let mut count = others;
    for listed in unit {
        names.add_statement(alloc, &listed.stmt)?;
        let after = capped(others, names.len());
        over = sooner(
            over,
            refused_if(passes(count, after), listed, Rule::SizeLimit),
        );
        count = after;
    }
    Ok(Counted { over, count })
}

/// SizeLimit: the statement at which the number of names passes the limit.
pub fn too_many_names(alloc: Global, units: &[Unit]) -> Result<Option<Refusal>, NoMemory>
    ensures { IfOk result (λ first. first ≡ first_of (name_breaks 0 units.now)) }
{
    let mut first = None;
    let mut others = 0;
    for unit in units {
        let counted = count_names(alloc, others, unit.listing.as_slice())?;
        first = sooner(first, counted.over);
        others = counted.count;
    }
    Ok(first)
}
