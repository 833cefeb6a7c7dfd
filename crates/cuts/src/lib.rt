// How a log is cut into pieces, and what each call is held to: the whole walk.
#![tactic(auto)]

pub mod course;
pub mod cut;
pub mod whole;
