//! What the iterations did with one region.
ghost use Rattle.std.specs.Prelude.{◌≡◌};
ghost use Rattle.loop_trace.specs.Marks.{IsWith, IsAfterRead, IsAfterWrite, or_found, judged_of, unused};

use dependence::modes::{Judged, Mode, Pair};
use hyb_base::ops::RedOp;

/// The operators of the accesses to a region.
#[derive(Clone, Copy, Debug)]
pub(crate) enum Uses {
    /// There is no access.
    Unused,
    /// Each access is an accumulation by the one operator.
    Only(RedOp),
    /// There is a plain access, or there are two operators.
    Mixed,
}

impl Uses {
    /// With one access more.
    fn with(self, by: Option<RedOp>) -> Uses
        ensures { IsWith self by result }
    {
        match self {
            Uses::Unused => match by {
                None => Uses::Mixed,
                Some(op) => Uses::Only(op),
            },
            Uses::Only(one) => match by {
                None => Uses::Mixed,
                Some(op) => {
                    if one == op {
                        Uses::Only(one)
                    } else {
                        Uses::Mixed
                    }
                }
            },
            Uses::Mixed => Uses::Mixed,
        }
    }
}

/// A pair that is known, else one that was found now.
fn known_or(known: Option<Pair>, found: Option<Pair>) -> Option<Pair>
    ensures { result ≡ or_found known found }
{
    match known {
        Some(pair) => Some(pair),
        None => found,
    }
}

/// What is known of a region.
#[derive(Clone, Copy, Debug)]
pub(crate) struct Marks {
    /// The operators of the accesses.
    pub(crate) uses: Uses,
    /// Whether an iteration writes an address of it.
    pub(crate) written: bool,
    /// A conflict at an address of it.
    pub(crate) conflict: Option<Pair>,
    /// A flow pair at an address of it.
    pub(crate) flow: Option<Pair>,
}

impl Marks {
    /// A region without accesses.
    pub(crate) fn unused() -> Marks
        ensures { result ≡ unused }
    {
        Marks {
            uses: Uses::Unused,
            written: false,
            conflict: None,
            flow: None,
        }
    }

    /// With a read more, which made a flow pair perhaps.
    pub(crate) fn after_read(self, by: Option<RedOp>, found: Option<Pair>) -> Marks
        ensures { IsAfterRead self by found result }
    {
        Marks {
            uses: self.uses.with(by),
            written: self.written,
            conflict: known_or(self.conflict, found),
            flow: known_or(self.flow, found),
        }
    }

    /// With a write more, which made a conflict perhaps.
    pub(crate) fn after_write(self, by: Option<RedOp>, found: Option<Pair>) -> Marks
        ensures { IsAfterWrite self by found result }
    {
        Marks {
            uses: self.uses.with(by),
            written: true,
            conflict: known_or(self.conflict, found),
            flow: self.flow,
        }
    }

    /// The mode with its pair, or a flow pair where the region has no mode.
    pub(crate) fn judged(self) -> Result<Judged, Pair>
        ensures { result ≡ judged_of self }
    {
        let reduced = match self.uses {
            Uses::Unused => {
                return Ok(Judged {
                    mode: Mode::Untouched,
                    pair: None,
                });
            }
            Uses::Only(op) => Some(op),
            Uses::Mixed => None,
        };
        if !self.written {
            return Ok(Judged {
                mode: Mode::ReadOnly,
                pair: None,
            });
        }
        let Some(conflict) = self.conflict else {
            return Ok(Judged {
                mode: Mode::Shared,
                pair: None,
            });
        };
        let Some(flow) = self.flow else {
            return Ok(Judged {
                mode: Mode::Private,
                pair: Some(conflict),
            });
        };
        match reduced {
            Some(op) => Ok(Judged {
                mode: Mode::Reduce(op),
                pair: Some(flow),
            }),
            None => Err(flow),
        }
    }
}
