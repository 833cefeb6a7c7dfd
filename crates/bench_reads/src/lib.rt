// The bench's commands that need no walker: the whole walk over slots, a node of a path, an entry of a
// GPT, the two checks of text.
#![tactic(auto)]

mod items;
pub mod readers;
pub mod walks;
