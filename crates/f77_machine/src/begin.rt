//! The DO statement: the values of its parameters (ANSI X3.9-1978, section 11.10.3).
ghost use Rattle.std.specs.Prelude.{◌≡◌, ◌+◌, ℕ, IsTrue, length};
ghost use Rattle.f77_ast.specs.Entity.{entity_in};
ghost use Rattle.f77_structure.specs.HasMeaning.{control_has_meaning, expr_has_meaning, increment_has_meaning, is_integer_variable};
ghost use Rattle.f77_structure.specs.Storage.{IsStorage, region_at};
ghost use Rattle.f77_meaning.specs.Demand.{Setting, and_then, located, number_demand};
ghost use Rattle.f77_meaning.specs.Do.{begun_of, begun_with, increment_of};
ghost use Rattle.f77_meaning.specs.Process.{placed};
ghost use Rattle.f77_machine.specs.Begun.{begun_demand, as_parameters, GivesVariableBelow};
ghost use Rattle.f77_machine.specs.Evaluated.{as_demand, Asks};
ghost use Rattle.f77_machine.specs.Reads.{reads_in, increment_reads, control_reads};
ghost use Rattle.f77_machine.specs.Setting.{setting_in};

use crate::count::{Parameters, iteration_count};
use crate::demand::demand;
use crate::evaluated::Evaluated;
use crate::place::{entity, variable};
use f77_ast::expr::Expr;
use f77_ast::fault::Fault;
use f77_ast::name::Name;
use f77_ast::program::Program;
use f77_ast::stmt::LoopControl;

/// A DO statement that begins.
#[derive(Clone, Copy, Debug, PartialEq, Eq)]
pub struct Begun {
    /// The address of its variable.
    pub variable: u32,
    /// The first value of its variable.
    pub first: i64,
    /// Its increment.
    pub increment: i64,
    /// Its iteration count.
    pub count: u64,
}

/// What a DO statement evaluates to: its parameters are read from the left, and then its variable is the one to
/// write. An incrementation parameter of 0 is a fault, and so is a count, or a value at the end of the loop, that
/// isn't from -2^63 to 2^63 - 1.
pub fn begin<'a>(
    program: &Program,
    unit: u32,
    control: &LoopControl,
    answers: &'a [i64],
) -> Evaluated<'a, Begun>
    requires storage { IsStorage program.now.layout }
    requires meaning { IsTrue (control_has_meaning program.now.units program.now.layout unit control.now) }
    ensures value { begun_demand result ≡ begun_of (setting_in program.now unit) control.now answers.now }
    ensures asks { Asks (length program.now.layout.first) (control_reads control.now) (length answers.now) result }
    ensures lies { GivesVariableBelow (length program.now.layout.first) result }
{
    match demand(program, unit, &control.first, answers) {
        Evaluated::Gives(first, rest) => match demand(program, unit, &control.last, rest) {
            Evaluated::Gives(last, more) => match increment(
                program,
                unit,
                &control.increment,
                more,
            ) {
                Evaluated::Gives(increment, left) => {
                    let parameters = Parameters {
                        first,
                        last,
                        increment,
                    };
                    begin_by(program, unit, &control.variable, parameters, left)
                }
                Evaluated::Wants(address, by) => Evaluated::Wants(address, by),
                Evaluated::Fails(fault) => Evaluated::Fails(fault),
            },
            Evaluated::Wants(address, by) => Evaluated::Wants(address, by),
            Evaluated::Fails(fault) => Evaluated::Fails(fault),
        },
        Evaluated::Wants(address, by) => Evaluated::Wants(address, by),
        Evaluated::Fails(fault) => Evaluated::Fails(fault),
    }
}

/// The incrementation parameter: 1 where it is left out.
fn increment<'a>(
    program: &Program,
    unit: u32,
    increment: &Option<Expr>,
    answers: &'a [i64],
) -> Evaluated<'a, i64>
    requires storage { IsStorage program.now.layout }
    requires meaning { IsTrue (increment_has_meaning program.now.units program.now.layout unit increment.now) }
    ensures value { as_demand result ≡ increment_of (setting_in program.now unit) increment.now answers.now }
    ensures asks { Asks (length program.now.layout.first) (increment_reads increment.now) (length answers.now) result }
{
    match increment {
        None => Evaluated::Gives(1, answers),
        Some(increment) => demand(program, unit, increment, answers),
    }
}

/// What a DO statement of this variable evaluates to, where its parameters are known.
fn begin_by<'a>(
    program: &Program,
    unit: u32,
    name: &Name,
    parameters: Parameters,
    rest: &'a [i64],
) -> Evaluated<'a, Begun>
    requires storage { IsStorage program.now.layout }
    requires meaning { IsTrue (is_integer_variable (entity_in program.now.layout.entities unit name.now)) }
    ensures value { begun_demand result
        ≡ and_then (located (setting_in program.now unit) (entity_in program.now.layout.entities unit name.now) None rest.now) (λ variable more. begun_with (setting_in program.now unit) variable.bound (as_parameters parameters) more) }
    ensures asks { Asks (length program.now.layout.first) 0 (length rest.now) result }
    ensures lies { GivesVariableBelow (length program.now.layout.first) result }
{
    match entity(&program.layout, unit, name) {
        None => Evaluated::Fails(Fault::Subscript),
        Some(entity) => match variable(entity, rest) {
            Evaluated::Gives(place, more) => begin_at(place.address, parameters, more),
            Evaluated::Wants(address, by) => Evaluated::Wants(address, by),
            Evaluated::Fails(fault) => Evaluated::Fails(fault),
        },
    }
}

/// What a DO statement evaluates to, where its parameters and its variable's address are known.
#[tactic(auto, using(crate::proofs::Cells::begins_inside))]
fn begin_at<'a>(variable: u32, parameters: Parameters, rest: &'a [i64]) -> Evaluated<'a, Begun>
    ensures value { (s : Setting) (len : ℕ) → begun_demand result ≡ begun_with s (placed variable (region_at s.program.layout.regions variable) len) (as_parameters parameters) rest.now }
    ensures asks { Asks 0 0 (length rest.now) result }
    ensures lies { GivesVariableBelow (variable + 1) result }
{
    if parameters.increment == 0 {
        return Evaluated::Fails(Fault::ZeroIncrement);
    }
    match iteration_count(parameters) {
        Some(count) => {
            let begun = Begun {
                variable,
                first: parameters.first,
                increment: parameters.increment,
                count,
            };
            Evaluated::Gives(begun, rest)
        }
        None => Evaluated::Fails(Fault::DoRange),
    }
}
