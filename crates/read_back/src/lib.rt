// A log that was written is read back, by the walk and by feeds, and held to its entries; and the
// lines that tell of it.
#![tactic(auto)]

pub mod feeds;
pub mod lines;
pub mod walks;
