//! Laws of rows and of operations on them, for proofs to cite. There is nothing to call here.
//!
//! # Promises
//!
//! Laws of the definitions, which no call's clause says. Each is a lemma of `proofs/Laws.antt` under its name; one of several
//! parts has a lemma for each.
//!
//! - A part of an operation keeps the keys of rows distinct, and so do the rows of other keys (`parts_keep_keys_distinct`,
//!   `other_rows_are_distinct`).
//! - What holds of the keys and values of rows and of a put holds of the rows and the reply behind its part
//!   (`parts_hold_what_was_put`).
//! - Keys in order are the one sorted list of them; the keys of a scan are among those that it was taken from
//!   (`sorted_keys_are_in_order`, `rising_keys_are_in_order`, `scanned_keys_are_in_order`).
//! - A body spells one list of keys (`a_body_spells_one_list`).
//! - What a part replies on a cache fits its operation (`replies_fit_their_operations`).
//! - How many rows evictions in turn leave (`evictions_are_counted`).
#![tactic(auto)]
