//! DO-loops that are active (ANSI X3.9-1978, section 11.10.2).
ghost use Rattle.std.specs.Prelude.{◌≡◌, ◌+◌, ◌<◌, ◌≤◌, ◌^◌, ◌==◌, IsTrue};
ghost use Rattle.std.specs.List.{list_any};
ghost use Rattle.f77_meaning.specs.Do.{active_from, has_64_bits, next_value, turned, value_after};
ghost use Rattle.f77_machine.specs.Active.{active_of};
ghost use Rattle.f77_machine.specs.Begun.{as_begun};

use crate::begin::Begun;
use crate::listing::next_in;
use f77_ast::program::{Listed, Loop};
use hyb_base::wrap::{wrap_add, wrap_mul};

/// An active DO-loop: what the execution of its DO statement has fixed, and how many iterations have ended.
#[derive(Clone, Copy, Debug, PartialEq, Eq)]
pub struct ActiveLoop {
    /// The number of its DO statement among those of the file, from 1.
    pub ordinal: u32,
    /// The place of the first statement of its range in its unit, from 0.
    pub from: usize,
    /// The place of its terminal statement, counted likewise.
    pub last: usize,
    /// The address of its variable.
    pub variable: u32,
    /// The first value of its variable.
    pub first: i64,
    /// Its increment.
    pub increment: i64,
    /// Its iteration count.
    pub count: u64,
    /// The number of iterations that have ended.
    pub done: u64,
}

impl ActiveLoop {
    /// The loop of a DO statement at a place of the statements of a unit, which begins: its range is run from where control
    /// goes on after the DO statement.
    pub fn new(listing: &[Listed], at: usize, found: Loop, begun: Begun) -> ActiveLoop
        requires { at < 2 ^ 32 }
        ensures value { active_of result ≡ active_from listing.now at found (as_begun begun) }
        ensures after { result.last + 1 < 2 ^ 64 }
    {
        ActiveLoop {
            ordinal: found.ordinal,
            from: next_in(listing, at),
            last: at + 1 + found.last.saturating_sub(found.from) as usize,
            variable: begun.variable,
            first: begun.first,
            increment: begun.increment,
            count: begun.count,
            done: 0,
        }
    }

    /// The value that the incrementation processing gives the variable (ANSI X3.9-1978, section 11.10.7).
    pub fn next_value(&self) -> i64
        requires left { self.now.done < self.now.count }
        requires count { self.now.count < 2 ^ 63 }
        requires end { IsTrue (has_64_bits (value_after self.now.first self.now.increment self.now.count)) }
        ensures { result ≡ next_value (active_of self.now) }
    {
        let iterations = (self.done + 1) as i64;
        wrap_add(self.first, wrap_mul(iterations, self.increment))
    }

    /// The loop once one more iteration has ended.
    pub fn after_iteration(self) -> ActiveLoop
        requires { self.done < self.count }
        ensures { active_of result ≡ turned (active_of self) }
    {
        ActiveLoop {
            done: self.done + 1,
            ..self
        }
    }
}

/// Whether an address is that of the variable of one of some loops.
pub fn is_variable_of_any(loops: &[ActiveLoop], address: u32) -> bool
    ensures { result ≡ list_any (λ loop. loop.variable == address) loops.now }
{
    loops.iter().any(|running| running.variable == address)
}
