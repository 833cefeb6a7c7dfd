// A log that was written is read back by the walk, and held to its entries.
use harness::print;
use made_logs::made::Made;
use record::{Slot, Turn};
use refusal::Ending;
use standing::{REGISTERS, TALLIES};
use walk::Turned;
use writes::{entries, records};

// A log that was written, with its tail, and what it was written from.
#[derive(Clone, Copy)]
pub struct Written<'a> {
    pub block: &'a [u8],
    pub log: &'a [u8],
    // Where the entries start that were written.
    pub starts: &'a [usize],
    pub made: Made,
}

impl<'a> Written<'a> {
    // Whether a record is that of the i-th entry that was written. Its bytes may have others behind
    // them.
    pub fn is_record(self, i: usize, slot: Slot, record: &[u8]) -> bool {
        let Some(start) = self.starts.get(i) else {
            return false;
        };
        entries::at(self.block, *start).is_some_and(|e| records::is_entry(record, slot, e))
    }

    // Whether the log ends behind its records, with its tail.
    pub fn is_end(self, ending: Ending) -> bool {
        let at = self.made.end;
        let tail = self.log.len().wrapping_sub(at);
        ending == Ending::End { at, tail }
    }

    // Whether the walk gives the i-th record, and the writer's state behind it: from the first record
    // on that does not change.
    fn is_given(self, i: usize, turned: Turned) -> bool {
        match turned.turn {
            Turn::Record(slot) => {
                let rest = self.log.get(slot.start..).unwrap_or(&[]);
                self.is_record(i, slot, rest) && turned.next.shape == self.made.state
            }
            Turn::Stop(_) => false,
        }
    }

    // Whether the walk gives the records, and then the end. It stops at the first difference.
    pub fn is_walked(self) -> bool {
        let mut counts = [0u32; REGISTERS];
        let mut tallies = [0u32; TALLIES];
        let mut cursor = walk::opening();
        for i in 0..self.made.records {
            let turned = walk::next_record(self.log, cursor, &mut counts, &mut tallies);
            if !self.is_given(i, turned) {
                print::line(format_args!("record {i} of the walk differs"));
                return false;
            }
            cursor = turned.next;
        }
        let last = walk::next_record(self.log, cursor, &mut counts, &mut tallies);
        let is_last = matches!(last.turn, Turn::Stop(ending) if self.is_end(ending));
        if !is_last {
            print::line("the end of the walk differs");
        }
        is_last
    }
}
