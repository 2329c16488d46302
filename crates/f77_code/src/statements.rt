//! The code of statements (ANSI X3.9-1978, sections 10 to 12).
ghost use Rattle.std.specs.Prelude.{◌≡◌, ◌≤◌, ◌+◌, ◌<◌, ◌^◌, ◌++◌, length, OnOk};
ghost use Rattle.std.specs.Option.{option_copied};
ghost use Rattle.f77_ast.specs.Entity.{number_in};
ghost use Rattle.f77_structure.specs.Loops.{loop_with_range_from};
ghost use Rattle.f77_code.specs.Statements.{assign_code, do_code, ends_at, increment_code, own_code, parameters_code, statement_code, turn_if, turns_code};

use crate::chain::add_accumulation;
use crate::exprs::{add_expr, add_ref};
use crate::items::add_items;
use f77_ast::code::{Instr, Instrs};
use f77_ast::expr::{Expr, Ref};
use f77_ast::program::{Layout, Loop};
use f77_ast::stmt::{LoopControl, Stmt};
use f77_structure::statements::is_executable;
use hyb_base::no_memory::NoMemory;

/// Adds the code of an assignment: what is assigned to comes first.
fn add_assign(
    layout: &Layout,
    unit: u32,
    target: &Ref,
    value: &Expr,
    code: &mut Instrs,
) -> Result<(), NoMemory>
    requires { length layout.now.entities ≤ 2 ^ 32 }
    ensures { OnOk result (code.new ≡ code.old ++ assign_code layout.now unit target.now value.now) }
{
    add_ref(layout, unit, target, code)?;
    if !add_accumulation(layout, unit, target, value, code)? {
        add_expr(layout, unit, value, code)?;
        code.push(Instr::Store)?;
    }
    Ok(())
}

/// Adds the code of the increment of a DO: 1 where it is left out.
fn add_increment(
    layout: &Layout,
    unit: u32,
    increment: &Option<Expr>,
    code: &mut Instrs,
) -> Result<(), NoMemory>
    requires { length layout.now.entities ≤ 2 ^ 32 }
    ensures { OnOk result (code.new ≡ code.old ++ increment_code layout.now unit increment.now) }
{
    match increment {
        None => code.push(Instr::Lit(1)),
        Some(increment) => add_expr(layout, unit, increment, code),
    }
}

/// Adds the code of the parameters of a DO.
fn add_parameters(
    layout: &Layout,
    unit: u32,
    control: &LoopControl,
    code: &mut Instrs,
) -> Result<(), NoMemory>
    requires { length layout.now.entities ≤ 2 ^ 32 }
    ensures { OnOk result (code.new ≡ code.old ++ parameters_code layout.now unit control.now) }
{
    add_expr(layout, unit, &control.first, code)?;
    add_expr(layout, unit, &control.last, code)?;
    add_increment(layout, unit, &control.increment, code)
}

/// Adds the code of a DO, which has this loop.
fn add_do(
    layout: &Layout,
    unit: u32,
    control: &LoopControl,
    its: Option<&Loop>,
    code: &mut Instrs,
) -> Result<(), NoMemory>
    requires { length layout.now.entities ≤ 2 ^ 32 }
    ensures { OnOk result (code.new ≡ code.old ++ do_code layout.now unit control.now (number_in layout.now.entities unit control.now.variable) (option_copied its.entry)) }
{
    let Some(number) = layout.entities.number_of(unit, &control.variable) else {
        return code.push(Instr::Stop);
    };
    let Some(its) = its else {
        return code.push(Instr::Stop);
    };
    code.push(Instr::Entity(number as u32))?;
    add_parameters(layout, unit, control, code)?;
    code.push(Instr::Count(its.ordinal))
}

/// The loop whose range begins with this statement of the file.
fn loop_with_range_from(loops: &[Loop], number: u32) -> Option<&Loop>
    ensures { option_copied result ≡ loop_with_range_from loops.now number }
{
    loops.iter().find(|candidate| candidate.from == number)
}

/// Whether a loop ends at a statement of the file.
fn ends_at(number: u32, its: &Loop) -> bool
    ensures { result ≡ ends_at number its.now }
{
    u64::from(its.from) + u64::from(its.last.saturating_sub(its.from)) == u64::from(number)
}

/// Adds the end of an iteration of a loop, where that ends at a statement of the file.
fn add_turn(number: u32, its: &Loop, code: &mut Instrs) -> Result<(), NoMemory>
    ensures { OnOk result (code.new ≡ code.old ++ turn_if (ends_at number its.now) its.now) }
{
    if ends_at(number, its) {
        code.push(Instr::Next(its.ordinal))?;
    }
    Ok(())
}

/// Adds the ends of the iterations of the loops that end at a statement of the file, the innermost one first.
#[tactic(auto, using(crate::proofs::Turns::turns_code_last))]
fn add_turns(loops: &[Loop], number: u32, code: &mut Instrs) -> Result<(), NoMemory>
    ensures { OnOk result (code.new ≡ code.old ++ turns_code loops.now number) }
{
    let mut rest = loops;
    while let Some((last, before)) = rest.split_last() {
        add_turn(number, last, code)?;
        rest = before;
    }
    Ok(())
}

/// Adds the code of a statement, but for the ends of iterations. A statement that has no meaning yet ends the run, as its tree does.
fn add_own(
    loops: &[Loop],
    layout: &Layout,
    unit: u32,
    number: u32,
    stmt: &Stmt,
    code: &mut Instrs,
) -> Result<(), NoMemory>
    requires entities { length layout.now.entities ≤ 2 ^ 32 }
    requires number { number + 1 < 2 ^ 32 }
    ensures { OnOk result (code.new ≡ code.old ++ own_code loops.now layout.now unit number stmt.now) }
{
    match stmt {
        Stmt::Assign { target, value } => add_assign(layout, unit, target, value, code),
        Stmt::Do { control, .. } => {
            let its = loop_with_range_from(loops, number + 1);
            add_do(layout, unit, control, its, code)
        }
        Stmt::Continue => code.push(Instr::Move),
        Stmt::Return => code.push(Instr::Stop),
        Stmt::Else => code.push(Instr::Stop),
        Stmt::EndIf => code.push(Instr::Stop),
        Stmt::End => code.push(Instr::Stop),
        Stmt::Stop(_) => code.push(Instr::Stop),
        Stmt::Goto(_) => code.push(Instr::Stop),
        Stmt::ComputedGoto { .. } => code.push(Instr::Stop),
        Stmt::ArithmeticIf { .. } => code.push(Instr::Stop),
        Stmt::LogicalIf { .. } => code.push(Instr::Stop),
        Stmt::BlockIf(_) => code.push(Instr::Stop),
        Stmt::ElseIf(_) => code.push(Instr::Stop),
        Stmt::Call { .. } => code.push(Instr::Stop),
        Stmt::Print(items) => {
            add_items(layout, unit, items.as_slice(), code)?;
            code.push(Instr::Print)
        }
        Stmt::Read(_) => code.push(Instr::Stop),
        Stmt::Program(_) => Ok(()),
        Stmt::Subroutine { .. } => Ok(()),
        Stmt::Function { .. } => Ok(()),
        Stmt::Declare { .. } => Ok(()),
        Stmt::Dimension(_) => Ok(()),
        Stmt::Common(_) => Ok(()),
        Stmt::Equivalence(_) => Ok(()),
        Stmt::Parameter(_) => Ok(()),
        Stmt::Implicit(_) => Ok(()),
        Stmt::Save(_) => Ok(()),
        Stmt::Init(_) => Ok(()),
    }
}

/// Adds the code of statement `number` of the file.
pub fn add_statement(
    loops: &[Loop],
    layout: &Layout,
    unit: u32,
    number: u32,
    stmt: &Stmt,
    code: &mut Instrs,
) -> Result<(), NoMemory>
    requires entities { length layout.now.entities ≤ 2 ^ 32 }
    requires number { number + 1 < 2 ^ 32 }
    ensures { OnOk result (code.new ≡ code.old ++ statement_code loops.now layout.now unit number stmt.now) }
{
    if !is_executable(stmt) {
        return Ok(());
    }
    add_own(loops, layout, unit, number, stmt, code)?;
    add_turns(loops, number, code)
}
