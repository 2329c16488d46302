//! What is found in an expression of a unit: what it is, its kind, and what is broken in it.
ghost use Rattle.std.specs.Prelude.{◌≡◌, map, Some};
ghost use Rattle.std.specs.Option.{option_map};
ghost use Rattle.f77_kinds.specs.Found as spec;
ghost use Rattle.f77_uses.specs.Tables.{told_by, known_in};

use crate::breach::{Breach, clash_if, either, miscount_if, no_breach};
use crate::forms::{Form, has_substrings, is_whole, listed_form, name_form, part_form};
use crate::kinds::{fits, is_taken, kinds_differ, result_kind};
use f77_ast::expr::{Expr, Kind, Op, Part, Ref};
use f77_ast::name::Name;
use f77_leaves::intrinsics::Intrinsic;
use f77_leaves::meant::Meant;
use f77_uses::tables::Tables;
use sqlite_items::{Boxed, Items};

/// What is found in an expression.
#[derive(Clone, Copy, Debug, PartialEq, Eq)]
pub struct Found {
    /// Its kind: none of a name that would be REAL, and of something called.
    pub kind: Option<Kind>,
    /// What it is.
    pub form: Form,
    /// What is broken in it.
    pub breach: Breach,
}

/// What is found in a name without a list.
pub fn name_found(tables: &Tables, name: &Name) -> Found
    ensures { result ≡ spec.name_found (told_by tables.now) name.now }
{
    Found {
        kind: tables.kind_of(name),
        form: name_form(tables, name),
        breach: no_breach(),
    }
}

/// Whether something is no operand of a kind: the name of an array, or of another kind.
fn is_no_operand(wanted: Kind, found: Found) -> bool
    ensures { result ≡ spec.is_no_operand wanted found }
{
    is_whole(found.form) || !fits(wanted, found.kind)
}

/// What is broken in an operand of a kind that is wanted.
pub fn operand_breach(wanted: Kind, found: Found) -> Breach
    ensures { result ≡ spec.operand_breach wanted found }
{
    either(found.breach, clash_if(is_no_operand(wanted, found)))
}

/// Whether an intrinsic function takes an argument at a place, counted from 0.
fn takes_at(intrinsic: Intrinsic, place: usize) -> bool
    ensures { result ≡ spec.takes_at intrinsic place }
{
    match intrinsic {
        Intrinsic::Abs => place < 1,
        Intrinsic::Iabs => place < 1,
        Intrinsic::Mod => place < 2,
        Intrinsic::Sign => place < 2,
        Intrinsic::Isign => place < 2,
        Intrinsic::Dim => place < 2,
        Intrinsic::Idim => place < 2,
        Intrinsic::Max => true,
        Intrinsic::Max0 => true,
        Intrinsic::Min => true,
        Intrinsic::Min0 => true,
        Intrinsic::Ichar => place < 1,
        Intrinsic::Char => place < 1,
        Intrinsic::Len => place < 1,
        Intrinsic::Index => place < 2,
        Intrinsic::Lge => place < 2,
        Intrinsic::Lgt => place < 2,
        Intrinsic::Lle => place < 2,
        Intrinsic::Llt => place < 2,
    }
}

/// Whether something is no argument of an intrinsic function at a place: the name of an array, or of a kind that isn't taken
/// there.
fn is_no_argument(intrinsic: Intrinsic, place: usize, found: Found) -> bool
    ensures { result ≡ spec.is_no_argument intrinsic place found }
{
    is_whole(found.form) || (takes_at(intrinsic, place) && !fits(intrinsic.takes(), found.kind))
}

/// What is broken in an argument of an intrinsic function.
fn intrinsic_breach(intrinsic: Intrinsic, place: usize, found: Found) -> Breach
    ensures { result ≡ spec.intrinsic_breach intrinsic place found }
{
    either(
        found.breach,
        clash_if(is_no_argument(intrinsic, place, found)),
    )
}

/// What is broken in a subscript or argument.
fn argument_breach(meaning: Meant, place: usize, found: Found) -> Breach
    ensures { result ≡ spec.argument_breach meaning place found }
{
    match meaning {
        Meant::Element => operand_breach(Kind::Integer, found),
        Meant::Function(intrinsic) => intrinsic_breach(intrinsic, place, found),
        Meant::Call => found.breach,
    }
}

/// How many dimensions a name has: 0 where it is no array.
fn dimensions_of(tables: &Tables, name: &Name) -> usize
    ensures { result ≡ spec.dimensions_of (known_in tables.now.names name.now).bounds }
{
    match tables.names.bounds(name) {
        None => 0,
        Some(bounds) => bounds.len(),
    }
}

/// Whether there are more or fewer subscripts than bounds, or another number of arguments than an intrinsic function takes.
fn is_miscounted(tables: &Tables, name: &Name, meaning: Meant, count: usize) -> bool
    ensures { result ≡ spec.is_miscounted (known_in tables.now.names name.now) meaning count }
{
    match meaning {
        Meant::Element => count != dimensions_of(tables, name),
        Meant::Function(intrinsic) => !intrinsic.takes_count(count),
        Meant::Call => false,
    }
}

/// The kind of a name with a list.
fn listed_kind(tables: &Tables, name: &Name, meaning: Meant) -> Option<Kind>
    ensures { result ≡ spec.listed_kind (told_by tables.now) name.now meaning }
{
    match meaning {
        Meant::Element => tables.kind_of(name),
        Meant::Function(intrinsic) => Some(intrinsic.gives()),
        Meant::Call => None,
    }
}

/// What is found in a name with a list of this number of subscripts or arguments, in which this is broken.
fn listed_found(tables: &Tables, name: &Name, meaning: Meant, count: usize, breach: Breach) -> Found
    ensures { result ≡ spec.listed_found (told_by tables.now) name.now meaning count breach }
{
    Found {
        kind: listed_kind(tables, name, meaning),
        form: listed_form(meaning),
        breach: either(
            breach,
            miscount_if(is_miscounted(tables, name, meaning, count)),
        ),
    }
}

/// What is found in a substring, whose bounds break this.
fn part_found(base: Found, bounds: Breach) -> Found
    ensures { result ≡ spec.part_found base bounds }
{
    let taken = clash_if(!has_substrings(base.form, base.kind));
    Found {
        kind: base.kind,
        form: part_form(base.form),
        breach: either(base.breach, either(bounds, taken)),
    }
}

/// The same, where there are such bounds.
fn with_part(base: Found, bounds: Option<Breach>) -> Found
    ensures { result ≡ spec.with_part base bounds }
{
    match bounds {
        None => base,
        Some(bounds) => part_found(base, bounds),
    }
}

/// What is found in a value of a kind, in which nothing is broken.
fn value_found(given: Kind) -> Found
    ensures { result ≡ spec.value_found given }
{
    Found {
        kind: Some(given),
        form: Form::Value,
        breach: no_breach(),
    }
}

/// Whether something is no operand of an operator: the name of an array, or of a kind that it doesn't take.
fn is_not_taken(operator: Op, found: Found) -> bool
    ensures { result ≡ spec.is_not_taken operator found }
{
    is_whole(found.form) || !is_taken(operator, found.kind)
}

/// What is broken in an operand of an operator.
fn taken_breach(operator: Op, found: Found) -> Breach
    ensures { result ≡ spec.taken_breach operator found }
{
    either(found.breach, clash_if(is_not_taken(operator, found)))
}

/// What is found in an operation on one operand.
fn unary_found(operator: Op, operand: Found) -> Found
    ensures { result ≡ spec.unary_found operator operand }
{
    Found {
        kind: Some(result_kind(operator)),
        form: Form::Value,
        breach: taken_breach(operator, operand),
    }
}

/// What is found in an operation on two operands.
fn binary_found(operator: Op, left: Found, right: Found) -> Found
    ensures { result ≡ spec.binary_found operator left right }
{
    let kinds = clash_if(kinds_differ(left.kind, right.kind));
    Found {
        kind: Some(result_kind(operator)),
        form: Form::Value,
        breach: either(
            taken_breach(operator, left),
            either(taken_breach(operator, right), kinds),
        ),
    }
}

/// What is found in an expression in parentheses.
fn paren_found(inner: Found) -> Found
    ensures { result ≡ spec.paren_found inner }
{
    Found {
        kind: inner.kind,
        form: Form::Value,
        breach: either(inner.breach, clash_if(is_whole(inner.form))),
    }
}

/// What is found in an expression (section 6).
#[cycle(found)]
pub fn expr_found(tables: &Tables, expr: &Expr) -> Found
    ensures { result ≡ spec.expr_found (told_by tables.now) expr.now }
{
    match expr {
        Expr::Int(_) => value_found(Kind::Integer),
        Expr::Truth(_) => value_found(Kind::Logical),
        Expr::Chars(_) => value_found(Kind::Character),
        Expr::Ref(reference) => ref_found(tables, reference),
        Expr::Unary(operator, operand) => {
            unary_found(*operator, expr_found(tables, operand.get()))
        }
        Expr::Binary(operator, left, right) => {
            let left = expr_found(tables, left.get());
            let right = expr_found(tables, right.get());
            binary_found(*operator, left, right)
        }
        Expr::Paren(inner) => paren_found(expr_found(tables, inner.get())),
    }
}

/// What is found in a reference of an expression (sections 5.3, 5.7.1 and 15.10).
#[cycle(found)]
pub fn ref_found(tables: &Tables, reference: &Ref) -> Found
    ensures { result ≡ spec.ref_found (told_by tables.now) reference.now }
{
    let meaning = tables.names.meant(&reference.name);
    let base = base_found(tables, &reference.name, meaning, &reference.args);
    with_part(base, bounds_breach(tables, &reference.part))
}

/// What is found in a reference without its substring's bounds, where this is what its name with a list is.
#[cycle(found)]
fn base_found(tables: &Tables, name: &Name, meaning: Meant, args: &Option<Items<Expr>>) -> Found
    ensures { result ≡ spec.base_found (told_by tables.now) name.now meaning (option_map (map (spec.expr_found (told_by tables.now))) args.now) }
{
    match args {
        None => name_found(tables, name),
        Some(args) => {
            let mut breach = no_breach();
            for (place, arg) in args.as_slice().iter().enumerate() {
                let found = expr_found(tables, arg);
                breach = either(breach, argument_breach(meaning, place, found));
            }
            listed_found(tables, name, meaning, args.len(), breach)
        }
    }
}

/// What is broken in a substring's bounds, if there are some.
#[cycle(found)]
fn bounds_breach(tables: &Tables, part: &Option<Boxed<Part>>) -> Option<Breach>
    ensures { result ≡ option_map (spec.part_breach (told_by tables.now)) part.now }
{
    match part {
        None => None,
        Some(part) => Some(part_breach(tables, part.get())),
    }
}

/// What is broken in the two bounds of a substring.
#[cycle(found)]
fn part_breach(tables: &Tables, part: &Part) -> Breach
    ensures { result ≡ spec.part_breach (told_by tables.now) part.now }
{
    either(
        bound_breach(tables, &part.low),
        bound_breach(tables, &part.high),
    )
}

/// What is broken in one bound of a substring, which is to be an INTEGER.
#[cycle(found)]
fn bound_breach(tables: &Tables, bound: &Option<Expr>) -> Breach
    ensures { result ≡ spec.bound_breach (option_map (spec.expr_found (told_by tables.now)) bound.now) }
{
    match bound {
        None => no_breach(),
        Some(bound) => operand_breach(Kind::Integer, expr_found(tables, bound)),
    }
}

/// The kind of an expression: none of a name that would be REAL, and of something called.
pub fn kind_of(tables: &Tables, expr: &Expr) -> Option<Kind>
    ensures { result ≡ spec.kind_of (told_by tables.now) expr.now }
{
    expr_found(tables, expr).kind
}

/// What the name of a member of EQUIVALENCE or DATA is with a list: an element where it is an array, and else something called.
fn member_meant(tables: &Tables, name: &Name) -> Meant
    ensures { result ≡ spec.member_meant (known_in tables.now.names name.now) }
{
    if tables.names.has_bounds(name) {
        Meant::Element
    } else {
        Meant::Call
    }
}

/// What is found in a member of EQUIVALENCE or DATA (sections 8.2 and 9.1).
pub fn member_found(tables: &Tables, reference: &Ref) -> Found
    ensures { result ≡ spec.member_found (told_by tables.now) reference.now }
{
    let meaning = member_meant(tables, &reference.name);
    let base = base_found(tables, &reference.name, meaning, &reference.args);
    with_part(base, bounds_breach(tables, &reference.part))
}
