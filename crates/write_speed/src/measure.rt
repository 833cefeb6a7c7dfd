// Writes a log from its entries, as often as is asked for.
use writes::entries;

// A log that was written.
#[derive(Clone, Copy)]
pub struct Tally {
    // Where it ends.
    pub end: usize,
    // The records of all times together.
    pub records: usize,
}

// The log once more, up to the last entry, or the first that is refused or is none.
fn once(block: &[u8], log: &mut [u8], records: usize) -> Tally {
    let mut tally = Tally { end: 0, records };
    let mut state = record::opening_shape();
    for entry in entries::of(block) {
        let Ok(entry) = entry else {
            return tally;
        };
        let wrote = entry.write(state, log, tally.end);
        match wrote.answer {
            Ok(n) => {
                tally.end = tally.end.wrapping_add(n);
                tally.records = tally.records.wrapping_add(1);
                state = wrote.state;
            }
            Err(_) => return tally,
        }
    }
    tally
}

pub fn repeat(block: &[u8], log: &mut [u8], times: u32) -> Tally {
    let mut tally = Tally { end: 0, records: 0 };
    for _ in 0..times {
        tally = once(block, log, tally.records);
    }
    tally
}
