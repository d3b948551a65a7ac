//! What a text is that waits for a sink or was given to it, and lemmas on texts that are added one behind another, for those
//! that write with a writer of `text_out`. There is nothing to call here.
#![tactic(auto)]
