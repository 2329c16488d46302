//! Which trees are the same: those of the same shape, with the same operators, constants and names at the same places.
//! That is equality, as each function here ensures besides.
ghost use Rattle.std.specs.Prelude.{◌≡◌, ◌↔◌, map, IsTrue};
ghost use Rattle.std.specs.Option.{option_map};
ghost use Rattle.f77_trees.specs.Same as spec;

use f77_ast::expr::{Expr, Op, Part, Ref};
use hyb_base::ops::Rel;
use sqlite_items::{Boxed, Items};

/// The place of a relational operator in the list of them.
fn rel_place(rel: Rel) -> u8
    ensures { result ≡ spec.rel_place rel }
{
    match rel {
        Rel::Eq => 0,
        Rel::Ne => 1,
        Rel::Lt => 2,
        Rel::Le => 3,
        Rel::Gt => 4,
        Rel::Ge => 5,
    }
}

/// The place of an operator in the list of them.
fn op_place(op: Op) -> u8
    ensures { result ≡ spec.op_place op }
{
    match op {
        Op::Plus => 0,
        Op::Neg => 1,
        Op::Not => 2,
        Op::Add => 3,
        Op::Sub => 4,
        Op::Mul => 5,
        Op::Div => 6,
        Op::Pow => 7,
        Op::Cat => 8,
        Op::And => 9,
        Op::Or => 10,
        Op::Eqv => 11,
        Op::Neqv => 12,
        Op::Rel(rel) => 13 + rel_place(rel),
    }
}

/// Whether two operators are the same.
#[tactic(auto, using(crate::proofs::OpLemmas::same_place))]
fn same_op(a: Op, b: Op) -> bool
    ensures value { result ≡ spec.same_op a b }
    ensures same { IsTrue result ↔ (a ≡ b) }
{
    op_place(a) == op_place(b)
}

/// Whether two expressions are the same.
#[cycle(same)]
pub fn same_expr(a: &Expr, b: &Expr) -> bool
    ensures value { result ≡ spec.same_expr a.now b.now }
    ensures same { IsTrue result ↔ (a.now ≡ b.now) }
{
    match (a, b) {
        (Expr::Int(x), Expr::Int(y)) => *x == *y,
        (Expr::Truth(x), Expr::Truth(y)) => *x == *y,
        (Expr::Chars(x), Expr::Chars(y)) => x.as_slice() == y.as_slice(),
        (Expr::Ref(x), Expr::Ref(y)) => same_ref(x, y),
        (Expr::Unary(o, x), Expr::Unary(p, y)) => same_op(*o, *p) && same_expr(x.get(), y.get()),
        (Expr::Binary(o, x, y), Expr::Binary(p, z, w)) => {
            same_op(*o, *p) && same_expr(x.get(), z.get()) && same_expr(y.get(), w.get())
        }
        (Expr::Paren(x), Expr::Paren(y)) => same_expr(x.get(), y.get()),
        _ => false,
    }
}

/// Whether two references are the same: their names, what they have in parentheses, and their parts.
#[cycle(same)]
pub fn same_ref(a: &Ref, b: &Ref) -> bool
    ensures value { result ≡ spec.same_ref a.now b.now }
    ensures same { IsTrue result ↔ (a.now ≡ b.now) }
{
    a.name == b.name && same_args(&a.args, &b.args) && same_part(&a.part, &b.part)
}

/// Whether what two references have in parentheses is the same.
#[cycle(same)]
#[tactic(auto, using(crate::proofs::SameLemmas::unequal_lengths))]
fn same_args(a: &Option<Items<Expr>>, b: &Option<Items<Expr>>) -> bool
    ensures value { result ≡ spec.same_args (option_map (map spec.same_expr) a.now) b.now }
    ensures same { IsTrue result ↔ (a.now ≡ b.now) }
{
    match (a, b) {
        (None, None) => true,
        (Some(x), Some(y)) => {
            let (these, those) = (x.as_slice(), y.as_slice());
            if these.len() != those.len() {
                return false;
            }
            for place in 0..these.len() {
                if !same_expr(&these[place], &those[place]) {
                    return false;
                }
            }
            true
        }
        _ => false,
    }
}

/// Whether the parts of two references are the same.
#[cycle(same)]
fn same_part(a: &Option<Boxed<Part>>, b: &Option<Boxed<Part>>) -> bool
    ensures value { result ≡ spec.same_option (option_map spec.same_part a.now) b.now }
    ensures same { IsTrue result ↔ (a.now ≡ b.now) }
{
    match (a, b) {
        (None, None) => true,
        (Some(x), Some(y)) => same_bound(&x.get().low, &y.get().low)
            && same_bound(&x.get().high, &y.get().high),
        _ => false,
    }
}

/// Whether two bounds of parts are the same.
#[cycle(same)]
fn same_bound(a: &Option<Expr>, b: &Option<Expr>) -> bool
    ensures value { result ≡ spec.same_option (option_map spec.same_expr a.now) b.now }
    ensures same { IsTrue result ↔ (a.now ≡ b.now) }
{
    match (a, b) {
        (None, None) => true,
        (Some(x), Some(y)) => same_expr(x, y),
        _ => false,
    }
}
