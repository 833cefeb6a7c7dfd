// Text in event data: UTF-8 and wide text. Unicode's tables are in specs/Unicode.antt, the
// answers in specs/Text.antt.
#![tactic(auto)]

mod classes;
pub mod utf8;
pub mod wide;

use refusal::Why;
