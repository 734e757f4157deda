//! The node that leads a key, in a run: what it asks for, starts and holds.
//!
//! Above: the laws of runs that rest on it, `durability_laws`. Below: `key_runs`, `change_runs`.
//! Promise: No law of its own: the laws of ids, paths, rows and answers rest on it.
//! Words: docs/PROOF.md.
#![tactic(auto)]
