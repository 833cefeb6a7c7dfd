// The command L: the whole walk over slots that were filled with a pattern.
use by_value::{TABLE, Table};
use harness::print::{EndingWords, SlotWords};
use harness::{input, print};

// A number that no record of a log within the limit has as a place or length.
const PATTERN: u32 = 0xA5A5_A5A5;

// The slots that the walk filled, and how many of those lent behind them hold the pattern still.
fn walk_lines(t: Table, lent: usize) {
    let filled = t.walked.filled;
    print::line(format_args!("walk {filled} {}", EndingWords(t.walked.ending)));
    for slot in t.slots.iter().take(filled) {
        print::line(SlotWords(*slot));
    }
    let pattern = fields::fields_of(fields::made_of(PATTERN));
    let behind = t.slots.iter().take(lent).skip(filled);
    let kept = behind
        .filter(|slot| fields::same(fields::fields_of(**slot), pattern))
        .count();
    print::line(format_args!("kept {kept}"));
}

// How many bytes the command had behind its fields, or nothing where it is bad. Its slots are large: in
// the frame of the caller they would cost every command.
#[inline(never)]
pub fn whole(data: &mut [u8]) -> Option<usize> {
    let lent = input::next_field()? as usize;
    if TABLE < lent {
        return None;
    }
    let log = input::counted(data)?;
    let slots = [fields::made_of(PATTERN); TABLE];
    walk_lines(by_value::fill_table(log, slots, lent), lent);
    Some(log.len())
}
