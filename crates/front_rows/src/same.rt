//! Which of some expressions are the same tree.

use crate::stages::Unmade;
use f77_ast::expr::Expr;
use f77_exprs::expr::expr;
use f77_shown::lists::show_field;
use f77_trees::same::same_expr;
use hyb_base::bytes::Bytes;
use hyb_base::list::List;
use hyb_base::no_memory::NoMemory;
use std::alloc::Global;

/// The expressions that the lines of a source spell.
fn exprs_of(alloc: Global, source: &[u8]) -> Result<List<Expr>, Unmade> {
    let mut all = List::new(alloc);
    let texts = source.strip_suffix(b"\n").unwrap_or(source);
    for text in texts.split(|byte| *byte == b'\n') {
        let spelled = expr(alloc, text)?;
        all.push(spelled)?;
    }
    Ok(all)
}

/// Shows that a tree is the same as one before it, by their lines.
fn show_pair(earlier: u32, later: u32, into: &mut Bytes) -> Result<(), NoMemory> {
    into.push_slice(b"same".as_slice())?;
    show_field(earlier, into)?;
    show_field(later, into)?;
    into.push(b'\n')
}

/// Shows which trees are the same as one of a line, `number`, among those before it.
fn show_earlier(
    trees: &[Expr],
    tree: &Expr,
    number: u32,
    into: &mut Bytes,
) -> Result<(), NoMemory> {
    let mut earlier: u32 = 1;
    for other in trees {
        if same_expr(other, tree) {
            show_pair(earlier, number, into)?;
        }
        earlier = earlier.saturating_add(1);
    }
    Ok(())
}

/// Shows the pairs of lines of a source whose expressions are the same tree.
pub fn show_same(alloc: Global, source: &[u8], into: &mut Bytes) -> Result<(), Unmade> {
    let all = exprs_of(alloc, source)?;
    let trees = all.as_slice();
    let mut number: u32 = 1;
    for (place, tree) in trees.iter().enumerate() {
        let (before, _) = trees.split_at(place.min(trees.len()));
        show_earlier(before, tree, number, into)?;
        number = number.saturating_add(1);
    }
    Ok(())
}
