// What the programs that write share: the pattern of a buffer, entries one after the other, the
// digests of an entry and those of a record, whether a record is an entry's.
#![tactic(auto)]

pub mod bytes;
pub mod digests;
pub mod entries;
pub mod records;
