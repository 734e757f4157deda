//! Tests of the table: its configurations, its changes and what becomes of them, its log, and the plans for it.
//!
//! Above: nothing. Below: `coordinator`, `contract_plan`, `table_log`, `table_apply`, `contract_types`.
//! Promise: none; each test is a table of cases in plain numbers, and what is answered to each.
#![tactic(auto)]

#[cfg(test)]
mod branch_changes;
#[cfg(test)]
mod configs;
#[cfg(test)]
mod contract_changes;
#[cfg(test)]
mod copies;
#[cfg(test)]
mod logs;
#[cfg(test)]
mod parts;
#[cfg(test)]
mod plans;
#[cfg(test)]
mod proposals;
