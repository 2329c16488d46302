//! The commands of `hybrid`, from bytes to bytes.
#![tactic(auto)]

pub mod command;
pub mod machine;
pub mod prepare;
pub mod read_file;
pub mod run;
pub mod status;
pub mod status_line;
pub mod top;

pub use top::{conclude, hybrid};
