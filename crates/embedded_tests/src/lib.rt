//! Tests of `embedded_cache`, which use it as its users do. They stand in a crate of their own, since a crate's tests are proved
//! together with all of its own functions.
#![tactic(auto)]

#[cfg(test)]
mod drawn;
#[cfg(test)]
mod guards;
#[cfg(test)]
mod list;
#[cfg(test)]
mod mailboxes;
#[cfg(test)]
mod puts;
#[cfg(test)]
mod scans;
#[cfg(test)]
mod steps;
#[cfg(test)]
mod threads;
#[cfg(test)]
mod trial;
#[cfg(test)]
mod used;
#[cfg(test)]
mod values;
