//! Callers whose clauses follow only as long as the clauses of their callees say what they do.
//!
//! Above: nothing. Below: `raft_laws`, `raft_node`, `raft_vote`, `contract_types`.
//! Promise: each function is one call, and its clause is one case of what that call promises; where the callee's
//! clause is dropped or says less, the caller is refused.
#![tactic(auto)]

pub mod configs;
pub mod logs;
pub mod runs;
