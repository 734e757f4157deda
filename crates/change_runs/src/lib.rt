//! Where each change of a log comes from, in a run.
//!
//! Above: the laws of runs that rest on it, `durability_laws`. Below: `log_runs`.
//! Promise: each change that a log holds was asked for at an earlier moment of the run; contracts stay those of the setup.
//! Words: docs/PROOF.md.
#![tactic(auto)]

pub use laws::contracts_of_runs;

pub mod laws;
