//! Cases of postfix code, read from files and judged: the code of each source is shown, and compared with what is wanted.
//!
//! A line for each file is printed, and each case that differs. The exit status is 1 where one differs or can't be read.
#![tactic(auto)]

mod case;
mod compiled;
mod instrs;
mod judge;
mod reading;

use anyhow::{Result, ensure};
use std::{env, fs};

fn main(rt: HostRuntime) -> Result<()> {
    let mut differ: u64 = 0;
    for name in env::args(&rt)?.skip(1) {
        let bytes = fs::read(&rt, name.as_str())?;
        let more = judge::judge_file(&rt, name.as_str(), &bytes)?;
        differ = differ.saturating_add(more);
    }
    ensure!(differ == 0, "{differ} differ");
    Ok(())
}
