//! Lemmas that the stores in segments and those who run them cite. There is nothing to call here.
//!
//! Of places: options of them, places that are one or apart, and where the number as which a place is written leads. Of
//! segments: their pieces as one comes and as one goes, and a region whose segments are the front of a range.
//!
//! # Choices
//! - What the stores in segments prove alike of places and pieces, and what their modes prove alike of a region that holds the
//!   front of a range, which `Ranged` cites, stand here together: a mode lends the store out of its `Ranged`, and has to say
//!   itself that the front is held still. That a text is on its way to a sink stands with the writer.
#![tactic(auto)]
