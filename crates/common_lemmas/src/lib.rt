//! Lemmas that several crates cite: how often a list has a number, finite maps of numbers, options, orders, and
//! multiples of powers of two. There is nothing to call here.
#![tactic(auto)]
