//! The names of the constants of a unit (ANSI X3.9-1978, section 8.6).
ghost use Rattle.std.specs.Prelude.{◌≡◌, ◌++◌, IfOk, OnOk};
ghost use Rattle.std.specs.List.{flat_map};
ghost use Rattle.f77_leaves.specs.Declarations.{constant_facts, facts_in};
ghost use Rattle.f77_constants.specs.Constants.{constant_names, valued_names};

use crate::order::Names;
use f77_ast::program::Listed;
use f77_ast::specification::NamedConstant;
use f77_ast::stmt::Stmt;
use hyb_base::no_memory::NoMemory;
use std::alloc::Global;

/// Adds the names of PARAMETER.
fn add_constants(constants: &[NamedConstant], names: &mut Names) -> Result<(), NoMemory>
    ensures { OnOk result (names.new ≡ names.old ++ valued_names (flat_map constant_facts constants.now)) }
{
    for constant in constants {
        names.push(constant.name.copy())?;
    }
    Ok(())
}

/// Adds the names of the constants of a statement.
fn add_names(stmt: &Stmt, names: &mut Names) -> Result<(), NoMemory>
    ensures { OnOk result (names.new ≡ names.old ++ valued_names (facts_in stmt.now)) }
{
    match stmt {
        Stmt::Assign { .. } => Ok(()),
        Stmt::Do { .. } => Ok(()),
        Stmt::Continue => Ok(()),
        Stmt::Return => Ok(()),
        Stmt::Else => Ok(()),
        Stmt::EndIf => Ok(()),
        Stmt::End => Ok(()),
        Stmt::Stop(_) => Ok(()),
        Stmt::Goto(_) => Ok(()),
        Stmt::ComputedGoto { .. } => Ok(()),
        Stmt::ArithmeticIf { .. } => Ok(()),
        Stmt::LogicalIf { .. } => Ok(()),
        Stmt::BlockIf(_) => Ok(()),
        Stmt::ElseIf(_) => Ok(()),
        Stmt::Call { .. } => Ok(()),
        Stmt::Print(_) => Ok(()),
        Stmt::Read(_) => Ok(()),
        Stmt::Program(_) => Ok(()),
        Stmt::Subroutine { .. } => Ok(()),
        Stmt::Function { .. } => Ok(()),
        Stmt::Declare { .. } => Ok(()),
        Stmt::Dimension(_) => Ok(()),
        Stmt::Common(_) => Ok(()),
        Stmt::Equivalence(_) => Ok(()),
        Stmt::Parameter(constants) => add_constants(constants.as_slice(), names),
        Stmt::Implicit(_) => Ok(()),
        Stmt::Save(_) => Ok(()),
        Stmt::Init(_) => Ok(()),
    }
}

/// The names of the constants of a unit, in order.
pub fn constant_names(alloc: Global, unit: &[Listed]) -> Result<Names, NoMemory>
    ensures { IfOk result (λ names. names ≡ constant_names unit.now) }
{
    let mut names = Names::new(alloc);
    for listed in unit {
        add_names(&listed.stmt, &mut names)?;
    }
    Ok(names)
}
