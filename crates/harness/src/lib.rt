// What the test programs share: standard input, their lines, and the two forms of a feed.
#![tactic(auto)]

pub mod forms;
pub mod input;
pub mod print;
pub mod replies;
