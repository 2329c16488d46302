//! The outside of a run: files that are read, sinks that take bytes, and the pieces that are offered to them.
//!
//! Everything above this crate is generic over `Files` and `Sink`. Here are the two traits, the
//! implementations in memory that tests use, those that never fail, and the edge over real files and streams.
#![tactic(auto)]

mod calls;
pub mod disk_files;
mod ends;
pub mod failed;
pub mod files;
pub mod mem_files;
pub mod mem_sink;
pub mod never_fails_files;
pub mod never_fails_sink;
pub mod pieces;
pub mod sink;
pub mod std_sink;
mod table;
