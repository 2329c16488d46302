//! Assignment (ANSI X3.9-1978, section 10.1): which address takes which number.
ghost use Rattle.std.specs.Prelude.{◌≡◌, ◌+◌, ◌<◌, ℤ, IsTrue, Some, length, pos};
ghost use Rattle.std.specs.Option.{option_map};
ghost use Rattle.f77_structure.specs.HasMeaning.{expr_has_meaning, target_has_meaning};
ghost use Rattle.f77_structure.specs.Storage.{IsStorage};
ghost use Rattle.f77_meaning.specs.Assign.{Accumulation, accumulated, plainly, written_of, accumulation_of};
ghost use Rattle.f77_meaning.specs.Demand.{demand_of};
ghost use Rattle.f77_machine.specs.Assign.{written_demand, GivesWriteBelow};
ghost use Rattle.f77_machine.specs.Chain.{accumulation_at, as_valued};
ghost use Rattle.f77_machine.specs.Evaluated.{as_located, Asks};
ghost use Rattle.f77_machine.specs.Reads.{reads_in, subscript_reads};
ghost use Rattle.f77_machine.specs.Setting.{setting_in};

use crate::chain::{Valued, held};
use crate::demand::{demand, location};
use crate::evaluated::Evaluated;
use crate::place::Located;
use f77_ast::expr::{Expr, Ref};
use f77_ast::program::Program;
use hyb_base::ops::RedOp;

/// A write of an assignment.
#[derive(Clone, Copy, Debug)]
pub struct Written {
    /// The address that is written.
    pub address: u32,
    /// The number that it takes.
    pub value: i64,
    /// The operator, where the assignment is an accumulation.
    pub by: Option<RedOp>,
}

/// What an assignment writes: the left side's subscript is evaluated first. An accumulation reads its left side last.
pub fn assigned<'a>(
    program: &Program,
    unit: u32,
    target: &Ref,
    value: &Expr,
    answers: &'a [i64],
) -> Evaluated<'a, Written>
    requires storage { IsStorage program.now.layout }
    requires target { IsTrue (target_has_meaning program.now.units program.now.layout unit target.now) }
    requires meaning { IsTrue (expr_has_meaning program.now.units program.now.layout unit value.now) }
    ensures value { written_demand result ≡ written_of (setting_in program.now unit) target.now value.now answers.now }
    ensures asks { Asks (length program.now.layout.first) (subscript_reads target.now + reads_in value.now) (length answers.now) result }
    ensures lies { GivesWriteBelow (length program.now.layout.first) result }
{
    match location(program, unit, target, answers) {
        Evaluated::Gives(place, rest) => match held(program, unit, target, value, 0, rest) {
            Some(first) => accumulated(program, unit, target, value, place, first, rest),
            None => plain(program, unit, value, place, rest),
        },
        Evaluated::Wants(address, by) => Evaluated::Wants(address, by),
        Evaluated::Fails(fault) => Evaluated::Fails(fault),
    }
}

/// What an assignment that is no accumulation writes.
fn plain<'a>(
    program: &Program,
    unit: u32,
    value: &Expr,
    place: Located,
    rest: &'a [i64],
) -> Evaluated<'a, Written>
    requires storage { IsStorage program.now.layout }
    requires meaning { IsTrue (expr_has_meaning program.now.units program.now.layout unit value.now) }
    requires lies { place.address < length program.now.layout.first }
    ensures value { written_demand result ≡ plainly (setting_in program.now unit) (as_located program.now.layout place) (demand_of (setting_in program.now unit) value.now) rest.now }
    ensures asks { Asks (length program.now.layout.first) (reads_in value.now) (length rest.now) result }
    ensures lies { GivesWriteBelow (length program.now.layout.first) result }
{
    match demand(program, unit, value, rest) {
        Evaluated::Gives(number, more) => {
            let written = Written {
                address: place.address,
                value: number,
                by: None,
            };
            Evaluated::Gives(written, more)
        }
        Evaluated::Wants(address, by) => Evaluated::Wants(address, by),
        Evaluated::Fails(fault) => Evaluated::Fails(fault),
    }
}

/// What an accumulation writes. `first` is what the right side gives with 0 for the value of its left side, which tells
/// whether all else was read; then the left side itself is read, and takes the value of the right side.
fn accumulated<'a>(
    program: &Program,
    unit: u32,
    target: &Ref,
    value: &Expr,
    place: Located,
    first: Valued<'a>,
    rest: &'a [i64],
) -> Evaluated<'a, Written>
    requires storage { IsStorage program.now.layout }
    requires meaning { IsTrue (expr_has_meaning program.now.units program.now.layout unit value.now) }
    requires lies { place.address < length program.now.layout.first }
    requires first { Some (as_valued first) ≡ option_map (accumulation_at (pos 0) rest.now) (accumulation_of (setting_in program.now unit) target.now value.now) }
    requires asked { Asks (length program.now.layout.first) (reads_in value.now) (1 + length rest.now) first.value }
    ensures value { (a : Accumulation) → accumulation_of (setting_in program.now unit) target.now value.now ≡ Some a → written_demand result ≡ accumulated (setting_in program.now unit) (as_located program.now.layout place) a rest.now }
    ensures asks { Asks (length program.now.layout.first) (reads_in value.now) (length rest.now) result }
    ensures lies { GivesWriteBelow (length program.now.layout.first) result }
{
    match first.value {
        Evaluated::Gives(_unread, more) => match more.split_first() {
            Some((x, left)) => match held(program, unit, target, value, *x, rest) {
                Some(now) => match now.value {
                    Evaluated::Gives(number, _unused) => {
                        let written = Written {
                            address: place.address,
                            value: number,
                            by: Some(now.op),
                        };
                        Evaluated::Gives(written, left)
                    }
                    Evaluated::Wants(wanted, by) => Evaluated::Wants(wanted, by),
                    Evaluated::Fails(fault) => Evaluated::Fails(fault),
                },
                None => Evaluated::Wants(place.address, Some(first.op)),
            },
            None => Evaluated::Wants(place.address, Some(first.op)),
        },
        Evaluated::Wants(wanted, by) => Evaluated::Wants(wanted, by),
        Evaluated::Fails(fault) => Evaluated::Fails(fault),
    }
}
