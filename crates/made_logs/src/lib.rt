// Logs that are written: from entries, and again from the slots of a walk.
#![tactic(auto)]

pub mod again;
pub mod made;
