//! Lemmas on lists that proofs of several crates rest on. It has no code.
//!
//! Above: every crate whose proofs walk over lists. Below: nothing.
//! What the standard library says of lists is not said again here; it speaks of `All`, and these of `AllByRecursion`.
#![tactic(auto)]
