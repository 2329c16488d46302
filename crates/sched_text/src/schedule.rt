//! A schedule and its picks.
ghost use Rattle.std.specs.Prelude.{◌≡◌, ◌<◌, length};
ghost use Rattle.sched_text.specs.Picks.{HasPick, listed_pick, pick_of};

use crate::mix::mixed;
use hyb_base::no_memory::NoMemory;
use hyb_base::nums::Nums;
use thiserror::Error;

/// The greatest window.
pub const MAX_WINDOW: u64 = 4096;

/// Where the picks of a schedule come from.
#[derive(Drop)]
pub enum Picks {
    /// The picks of a list, over and over. Each is kept by its 64 bits: one of 2^63 or more is less by 2^64.
    List(Nums),
    /// Numbers that are mixed from a seed.
    Mix(u64),
}

/// Which live iteration takes the next step.
#[derive(Drop)]
pub struct Schedule {
    /// How many iterations may be live at a time.
    pub window: u32,
    /// Its picks.
    pub picks: Picks,
}

/// Why a text gives no schedule.
#[derive(Clone, Copy, Debug, PartialEq, Eq, Error)]
pub enum ScheduleError {
    /// The line, counted from 1, at which the text leaves the form of a schedule; the line after the last where a line is
    /// missing.
    #[error("line {0}: no schedule")]
    Bad(u32),
    /// Out of memory.
    #[error("out of memory")]
    NoMemory,
}

impl From<NoMemory> for ScheduleError {
    ghost use Rattle.sched_text.specs.declared.schedule.ScheduleError.TheVariants.{NoMemory as no_memory};

    ghost from_gives = { λ _ error. error ≡ no_memory };

    fn from(_error: NoMemory) -> ScheduleError {
        ScheduleError::NoMemory
    }
}

impl Schedule {
    /// The pick of step `k`, counted from 0 over a whole run: of a list the element at `k` modulo their number, else the
    /// number that SplitMix64 gives after `k` others for the seed. Takes constant time and no memory.
    pub fn pick(&self, k: u64) -> u64
        requires { HasPick self.now.picks }
        ensures { result ≡ pick_of self.now.picks k }
    {
        match &self.picks {
            Picks::List(picks) => listed(picks, k),
            Picks::Mix(seed) => mixed(*seed, k),
        }
    }
}

/// The pick of step `k` in a list.
fn listed(picks: &Nums, k: u64) -> u64
    requires { 0 < length picks.now }
    ensures { result ≡ listed_pick picks.now k }
{
    let picks = picks.as_slice();
    let place = k % picks.len() as u64;
    picks[place as usize].cast_unsigned()
}
