//! The tests of what no contract and no row says: of the edge to the host, of the loop that writes whole texts, and of
//! the pieces in which a text goes out.
#![tactic(auto)]

#[cfg(test)]
mod host;
#[cfg(test)]
mod pieces;
#[cfg(test)]
mod reads;
#[cfg(test)]
mod sinks;
