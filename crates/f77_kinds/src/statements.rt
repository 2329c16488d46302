//! What is broken in a statement.
ghost use Rattle.std.specs.Prelude.{◌≡◌};
ghost use Rattle.f77_kinds.specs.Statements as spec;
ghost use Rattle.f77_uses.specs.Tables.{told_by};

use crate::breach::{Breach, clash_if, either, no_breach};
use crate::forms::is_assignable;
use crate::found::{Found, expr_found, ref_found};
use crate::items::{Transfer, control_breach, items_breach};
use crate::parts::{Judged, actuals_breach, breach_in, condition_breach, value_breach};
use f77_ast::stmt::Stmt;
use f77_uses::tables::Tables;

/// What is broken in an assignment (section 10).
fn assignment_breach(target: Found, value: Found) -> Breach
    ensures { result ≡ spec.assignment_breach target value }
{
    let taken = clash_if(!is_assignable(target.form));
    either(
        target.breach,
        either(taken, value_breach(target.kind, value)),
    )
}

/// What is broken in a statement of a unit with these tables. Each of its trees is walked once.
pub fn stmt_breach(tables: &Tables, stmt: &Stmt) -> Breach
    ensures { result ≡ spec.stmt_breach (told_by tables.now) stmt.now }
{
    match stmt {
        Stmt::Assign { target, value } => {
            assignment_breach(ref_found(tables, target), expr_found(tables, value))
        }
        Stmt::Do { control, .. } => control_breach(tables, control),
        Stmt::Continue => no_breach(),
        Stmt::Return => no_breach(),
        Stmt::Else => no_breach(),
        Stmt::EndIf => no_breach(),
        Stmt::End => no_breach(),
        Stmt::Stop(_) => no_breach(),
        Stmt::Goto(_) => no_breach(),
        Stmt::ComputedGoto { index, .. } => index.breach(tables),
        Stmt::ArithmeticIf { value, .. } => value.breach(tables),
        Stmt::LogicalIf { condition, inner } => either(
            condition_breach(tables, condition),
            stmt_breach(tables, inner.get()),
        ),
        Stmt::BlockIf(condition) => condition_breach(tables, condition),
        Stmt::ElseIf(condition) => condition_breach(tables, condition),
        Stmt::Call { args, .. } => actuals_breach(tables, args.as_slice()),
        Stmt::Print(items) => items_breach(tables, Transfer::Output, items.as_slice()),
        Stmt::Read(items) => items_breach(tables, Transfer::Input, items.as_slice()),
        Stmt::Program(_) => no_breach(),
        Stmt::Subroutine { .. } => no_breach(),
        Stmt::Function { typ, .. } => typ.breach(tables),
        Stmt::Declare { typ, entities } => either(
            typ.breach(tables),
            breach_in(tables, entities.as_slice()),
        ),
        Stmt::Dimension(arrays) => breach_in(tables, arrays.as_slice()),
        Stmt::Common(groups) => breach_in(tables, groups.as_slice()),
        Stmt::Equivalence(groups) => breach_in(tables, groups.as_slice()),
        Stmt::Parameter(constants) => breach_in(tables, constants.as_slice()),
        Stmt::Implicit(rules) => breach_in(tables, rules.as_slice()),
        Stmt::Save(_) => no_breach(),
        Stmt::Init(groups) => breach_in(tables, groups.as_slice()),
    }
}
