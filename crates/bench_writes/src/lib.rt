// The bench's commands that make up a walker or a writer's state, and the one that writes an entry.
#![tactic(auto)]

pub mod entries;
pub mod state;
pub mod states;
pub mod walkers;
