//! Cases of the front end, read from files and judged: what each source makes is shown, and compared with what is wanted.
//!
//! A file's name says what is shown of its cases: `cards.rows`, `exprs.rows`, `trees.rows`, `statements.rows`,
//! `shape.rows`, `operands.rows`, `loops.rows`, `layout.rows`, `constants.rows`, `entities.rows`, `names.rows`, `uses.rows` and
//! `kinds.rows`. A line for each file is printed, and each case that differs. The exit status is 1 where one differs or can't be
//! read.
#![tactic(auto)]

mod case;
mod judge;
mod reading;
mod same;
mod stages;
mod table;
mod texts;

use anyhow::{Result, ensure};
use std::{env, fs};

fn main(rt: HostRuntime) -> Result<()> {
    let mut differ: u64 = 0;
    for name in env::args(&rt)?.skip(1) {
        let bytes = fs::read(&rt, name.as_str())?;
        let more = judge::judge_file(&rt, name.as_str(), &bytes)?;
        differ = differ.saturating_add(more);
    }
    ensure!(differ == 0, "{differ} differ");
    Ok(())
}
