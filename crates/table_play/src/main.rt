//! Plays a script: from its bytes to its report.
//!
//! Above: nothing. Below: `world_core`, `script_text`, `report_text`, `line_io`.
//! Promise: the journal is the play journal of the script and a run, each key's story is a register story of it, and
//! the bytes written are the report of both.
#![tactic(auto)]

use crate::command::play_command;
use crate::words::gather;
use line_io::{StdSink, StdSource};
use node_core::Journal;
use std::io;
use std::process::ExitCode;

pub mod command;
pub mod events;
pub mod laws;
pub mod play;
pub mod saying;
#[cfg(test)]
mod tests;
pub mod words;

fn main(rt: HostRuntime) -> ExitCode {
    let words = gather(&rt, rt.alloc());
    let mut source = StdSource::new(rt.reader());
    let mut sink = StdSink::new(io::writer(&rt));
    let mut journal = Journal::empty(rt.alloc());
    let status = play_command(rt.alloc(), &words, &mut source, &mut sink, &mut journal);
    ExitCode::from(status.number())
}
