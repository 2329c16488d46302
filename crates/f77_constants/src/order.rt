//! An order in which constants are worked out fast: each after those that its expression names.

use f77_ast::expr::{Expr, Ref};
use f77_ast::name::Name;
use f77_uses::firsts::Firsts;
use f77_uses::tables::Tables;
use hyb_base::list::List;
use hyb_base::no_memory::NoMemory;
use std::alloc::Global;

/// Names.
pub type Names = List<Name>;

/// What is still to be done.
#[derive(Drop)]
enum Task {
    /// To look at a name, and at those in its expression.
    Visit(Name),
    /// To put a name last, after those in its expression.
    Put(Name),
}

/// Adds the names of an expression that nothing follows.
fn add_names(expr: &Expr, tasks: &mut Vec<Task>) -> Result<(), NoMemory> {
    match expr {
        Expr::Int(_) => Ok(()),
        Expr::Truth(_) => Ok(()),
        Expr::Chars(_) => Ok(()),
        Expr::Ref(reference) => add_name(reference, tasks),
        Expr::Unary(_, operand) => add_names(operand.get(), tasks),
        Expr::Binary(_, left, right) => {
            add_names(left.get(), tasks)?;
            add_names(right.get(), tasks)
        }
        Expr::Paren(inner) => add_names(inner.get(), tasks),
    }
}

/// Adds the name of a reference.
fn add_name(reference: &Ref, tasks: &mut Vec<Task>) -> Result<(), NoMemory> {
    tasks.push(Task::Visit(reference.name.copy()))?;
    Ok(())
}

/// Puts a name and those in its expression on the list of what is to be done, unless it was looked at.
fn visit(
    tables: &Tables,
    name: Name,
    seen: &mut Firsts<()>,
    tasks: &mut Vec<Task>,
) -> Result<(), NoMemory> {
    if seen.note(name.copy(), ())? {
        return Ok(());
    }
    match tables.names.find(&name) {
        None => Ok(()),
        Some(known) => match &known.value {
            None => Ok(()),
            Some(expr) => {
                tasks.push(Task::Put(name))?;
                add_names(expr, tasks)
            }
        },
    }
}

/// Names, and those that their expressions name: each after those that its own expression names, but where they go in a
/// circle. Each name is looked at once.
///
/// What constants are worth doesn't rest on this order: it makes one pass over them enough.
pub fn depth_first(alloc: Global, tables: &Tables, names: &[Name]) -> Result<Names, NoMemory> {
    let mut order = Names::new(alloc);
    let mut seen = Firsts::new(alloc);
    let mut tasks = Vec::new(alloc);
    for name in names {
        tasks.push(Task::Visit(name.copy()))?;
        for _ in 0..u64::MAX {
            match tasks.pop() {
                None => break,
                Some(Task::Visit(name)) => visit(tables, name, &mut seen, &mut tasks)?,
                Some(Task::Put(name)) => order.push(name)?,
            }
        }
    }
    Ok(order)
}
