//! An array's name without subscripts (ANSI X3.9-1978, section 5.6).
ghost use Rattle.std.specs.Prelude.{◌≡◌, ◌+◌, ◌≤◌, ◌^◌, ◌||◌, IfSome, IsTrue, Some, length};
ghost use Rattle.std.specs.Option.{option_copied};
ghost use Rattle.f77_structure.specs.Arrays.{array_named, array_of_ref, if_array};
ghost use Rattle.f77_structure.specs.HasMeaning.{expr_has_meaning, ref_has_meaning, is_integer_vector};
ghost use Rattle.f77_structure.specs.Storage.{IsStorage, LiesIn, storage_units_of, is_vector};

use crate::place::entity;
use f77_ast::expr::{Expr, Ref};
use f77_ast::program::{Entity, Layout};
use f77_structure::storage::{span_of, vector_span};

/// The array of a unit that an expression names as a whole: its name is alone.
pub fn array_named<'l>(layout: &'l Layout, unit: u32, expr: &Expr) -> Option<&'l Entity>
    requires storage { IsStorage layout.now }
    ensures named { option_copied result ≡ array_named layout.now unit expr.now }
    ensures lies { IfSome result (λ e. LiesIn (length layout.now.first) layout.now.regions e.now) }
{
    match expr {
        Expr::Int(_) => None,
        Expr::Truth(_) => None,
        Expr::Chars(_) => None,
        Expr::Ref(reference) => array_of_ref(layout, unit, reference),
        Expr::Unary(_, _) => None,
        Expr::Binary(_, _, _) => None,
        Expr::Paren(_) => None,
    }
}

/// The array that a reference names as a whole: neither subscripts nor a substring follow the name.
fn array_of_ref<'l>(layout: &'l Layout, unit: u32, reference: &Ref) -> Option<&'l Entity>
    requires storage { IsStorage layout.now }
    ensures named { option_copied result ≡ array_of_ref layout.now unit reference.now }
    ensures lies { IfSome result (λ e. LiesIn (length layout.now.first) layout.now.regions e.now) }
{
    if reference.args.is_some() || reference.part.is_some() {
        return None;
    }
    let found = entity(layout, unit, &reference.name)?;
    if_array(found)
}

/// An entity that is an array of one dimension.
fn if_array(found: &Entity) -> Option<&Entity>
    ensures array { option_copied result ≡ if_array (Some found.now) }
    ensures same { IfSome result (λ e. e.now ≡ found.now) }
{
    match vector_span(found.bounds.as_slice()) {
        Some(_) => Some(found),
        None => None,
    }
}

/// The number of addresses of an entity: one of a variable, and one for each element of an array.
pub fn storage_units(entity: &Entity) -> u64
    requires { storage_units_of entity.now ≤ 2 ^ 32 }
    ensures { result ≡ storage_units_of entity.now }
{
    match entity.bounds.as_slice() {
        [] => 1,
        [bound] => match span_of(bound) {
            Some(span) => span.extent() as u64,
            None => 0,
        },
        [_, _, ..] => 0,
    }
}
