//! The worked cases of the crates of data: what no clause says, and that each call can succeed.
//!
//! Above: nothing. Below: the crates of data.
//! Promise: none. Each case is a table or a sequence of calls that a test compares.
#![tactic(auto)]

#[cfg(test)]
mod counts;
#[cfg(test)]
mod histories;
#[cfg(test)]
mod lines;
#[cfg(test)]
mod maps;
#[cfg(test)]
mod reads;
#[cfg(test)]
mod registers;
#[cfg(test)]
mod stores;
