//! The tables of a unit: what it declares, and what it uses its names as.
ghost use Rattle.std.specs.Prelude.{◌≡◌, IfOk, OnOk, ℕ};
ghost use Rattle.std.specs.Option.{option_or};
ghost use Rattle.f77_leaves.specs.Declarations.{declarations_of, implied_by, rules_in};
ghost use Rattle.f77_uses.specs.Letters.{given};
ghost use Rattle.f77_uses.specs.Tables.{told_by};
ghost use Rattle.f77_uses.specs.UnitTables.{IsDeclared};
ghost use Rattle.f77_uses.specs.UseTables.{uses_in};
ghost use Rattle.f77_uses.specs.Uses.{uses_of};

use crate::breaks::refused_if;
use crate::facts::facts_in;
use crate::known_names::KnownNames;
use crate::letters::Letters;
use crate::tables::Tables;
use crate::use_table::UseTable;
use f77_ast::program::Listed;
use f77_ast::refusal::{Refusal, sooner};
use f77_ast::rule::Rule;
use f77_ast::stmt::Stmt;
use f77_leaves::leaves::leaves_of;
use hyb_base::no_memory::NoMemory;
use std::alloc::Global;

/// The declarations of a unit.
#[derive(Drop)]
pub struct Declaring {
    /// Their tables.
    pub tables: Tables,
    /// DoubleName: the first statement with a second declaration of its sort of a name.
    pub twice: Option<Refusal>,
}

/// Takes the rules of IMPLICIT in a statement.
fn note_rules(alloc: Global, letters: &mut Letters, stmt: &Stmt) -> Result<(), NoMemory>
    ensures { OnOk result ((other : ℕ) → given letters.new other ≡ option_or (given letters.old other) (implied_by (rules_in stmt.now) other)) }
{
    match stmt {
        Stmt::Assign { .. } => Ok(()),
        Stmt::Do { .. } => Ok(()),
        Stmt::Continue => Ok(()),
        Stmt::Return => Ok(()),
        Stmt::Else => Ok(()),
        Stmt::EndIf => Ok(()),
        Stmt::End => Ok(()),
        Stmt::Stop(_) => Ok(()),
        Stmt::Goto(_) => Ok(()),
        Stmt::ComputedGoto { .. } => Ok(()),
        Stmt::ArithmeticIf { .. } => Ok(()),
        Stmt::LogicalIf { .. } => Ok(()),
        Stmt::BlockIf(_) => Ok(()),
        Stmt::ElseIf(_) => Ok(()),
        Stmt::Call { .. } => Ok(()),
        Stmt::Print(_) => Ok(()),
        Stmt::Read(_) => Ok(()),
        Stmt::Program(_) => Ok(()),
        Stmt::Subroutine { .. } => Ok(()),
        Stmt::Function { .. } => Ok(()),
        Stmt::Declare { .. } => Ok(()),
        Stmt::Dimension(_) => Ok(()),
        Stmt::Common(_) => Ok(()),
        Stmt::Equivalence(_) => Ok(()),
        Stmt::Parameter(_) => Ok(()),
        Stmt::Implicit(rules) => letters.note_all(alloc, rules.as_slice()),
        Stmt::Save(_) => Ok(()),
        Stmt::Init(_) => Ok(()),
    }
}

/// The declarations of a unit, whatever order they are in.
pub fn declarations(alloc: Global, unit: &[Listed]) -> Result<Declaring, NoMemory>
    ensures { IfOk result (λ declared. IsDeclared unit.now declared) }
{
    let mut names = KnownNames::new(alloc);
    let mut letters = Letters::new(alloc);
    let mut twice = None;
    for listed in unit {
        let facts = facts_in(alloc, &listed.stmt)?;
        let again = names.note_all(facts)?;
        twice = sooner(twice, refused_if(again, listed, Rule::DoubleName));
        note_rules(alloc, &mut letters, &listed.stmt)?;
    }
    Ok(Declaring {
        tables: Tables { names, letters },
        twice,
    })
}

/// What a unit uses its names as.
pub fn use_table(alloc: Global, unit: &[Listed], tables: &Tables) -> Result<UseTable, NoMemory>
    requires { told_by tables.now ≡ declarations_of unit.now }
    ensures { IfOk result (λ uses. uses_in uses ≡ uses_of unit.now) }
{
    let mut uses = UseTable::new(alloc);
    for listed in unit {
        let leaves = leaves_of(alloc, &listed.stmt)?;
        uses.note_all(tables, leaves.as_slice())?;
    }
    Ok(uses)
}
