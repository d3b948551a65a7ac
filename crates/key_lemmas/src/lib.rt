//! Laws of rows in the order of their keys, for proofs to cite. There is nothing to call here.
//!
//! Whoever keeps the keys, nothing but these matters: an index stays one, and a place in it stays, where keys are moved. After
//! a row is put in or taken out the others are there as before; one key is of one row; and the rows of an index are any list
//! of them whose keys rise.
#![tactic(auto)]
