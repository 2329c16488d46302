//! What is shown of a region, as text.

use crate::memory::Memory;
use crate::reading::sign;
use crate::walker::Stuck;
use region_run::asks::Asked;
use region_run::running::Advanced;
use std::alloc::AllocError;

/// Shows the cells that aren't 0, and ends the line.
pub fn show_cells(text: &mut String, cells: &Memory) -> Result<(), AllocError> {
    text.push_str(" |")?;
    for (address, value) in (0u32..).zip(cells.as_slice()) {
        if *value != 0 {
            write!(text, " {address}={value}")?;
        }
    }
    text.push_str("\n")
}

/// Shows what an iteration did.
fn show_asked(text: &mut String, asked: Asked<Stuck>) -> Result<(), AllocError> {
    match asked {
        Asked::Reads { address, by: None } => write!(text, "reads {address}"),
        Asked::Reads {
            address,
            by: Some(op),
        } => write!(text, "reads {address} {}", sign(op)),
        Asked::Writes {
            address,
            value,
            by: None,
        } => write!(text, "writes {address} {value}"),
        Asked::Writes {
            address,
            value,
            by: Some(op),
        } => write!(text, "writes {address} {value} {}", sign(op)),
        Asked::Moves => text.push_str("moves"),
        Asked::Ends => text.push_str("ends"),
        Asked::Faults(Stuck) => text.push_str("faults"),
    }
}

/// Shows the answer to a pick.
pub fn show_answer(text: &mut String, answer: Advanced<Stuck>) -> Result<(), AllocError> {
    match answer {
        Advanced::Ran { iteration, asked } => {
            write!(text, "{iteration} ")?;
            show_asked(text, asked)
        }
        Advanced::Over => text.push_str("over"),
        Advanced::Faulted {
            iteration,
            fault: Stuck,
            line,
        } => write!(text, "{iteration} faulted at {line}"),
    }
}
