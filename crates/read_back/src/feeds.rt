// A log that was written is read back by feeds, in pieces of several sizes, and held to its entries.
use crate::walks::Written;
use harness::print;
use numbers::Span;
use walker::{Answer, Walker};

// The sizes of the pieces.
const SIZES: [usize; 5] = [1, 7, 100, 4096, 65536];

// No log takes so many calls: it has 65,536 bytes and 4,096 records.
const CALLS_MOST: usize = 70000;

// How far a log is fed.
#[derive(Clone, Copy)]
struct Feeding {
    walker: Walker,
    taken: usize,
    records: usize,
    calls: usize,
}

// The feeds of a log in all sizes.
#[derive(Clone, Copy, Default)]
pub struct Feeds {
    pub calls: usize,
    pub differ: usize,
}

impl Feeding {
    fn new() -> Self {
        Feeding {
            walker: walker::fresh(),
            taken: 0,
            records: 0,
            calls: 0,
        }
    }

    // What is left of the piece at hand.
    fn piece<'a>(&self, log: &'a [u8], size: usize) -> &'a [u8] {
        let into = self.taken.checked_rem(size).unwrap_or(0);
        let rest = Span {
            at: self.taken,
            len: size.wrapping_sub(into),
        };
        numbers::part(log, rest)
    }

    // Whether the answer to a feed is the next record, or none was whole and all was taken.
    fn feed(&mut self, written: Written, hold: &mut [u8], size: usize) -> bool {
        let piece = self.piece(written.log, size);
        let whole = self.taken.wrapping_add(piece.len());
        let fed = walker::feed(self.walker, hold, piece);
        self.walker = fed.walker;
        self.taken = self.taken.wrapping_add(fed.reply.count);
        self.calls = self.calls.wrapping_add(1);
        let is_answer = match fed.reply.answer {
            Answer::More => self.taken == whole,
            Answer::Record(slot) => {
                let i = self.records;
                self.records = i.wrapping_add(1);
                slot.data.at.wrapping_add(slot.data.len) == self.taken
                    && written.is_record(i, slot, hold)
            }
            Answer::Stop(_) => false,
        };
        is_answer && (self.records == 0 || self.walker.shape == written.made.state)
    }

    // Whether the answer to a close is the log's end.
    fn close(&mut self, written: Written, hold: &[u8]) -> bool {
        self.calls = self.calls.wrapping_add(1);
        let answer = walker::close(self.walker, hold).reply.answer;
        matches!(answer, Answer::Stop(ending) if written.is_end(ending))
            && self.records == written.made.records
    }

    // Whether all feeds in pieces of a size, and the close behind them, answer as they should.
    fn is_read(&mut self, written: Written, hold: &mut [u8], size: usize) -> bool {
        for _ in 0..CALLS_MOST {
            if written.log.len() <= self.taken {
                return self.close(written, hold);
            }
            if !self.feed(written, hold, size) {
                return false;
            }
        }
        false
    }
}

pub fn all(written: Written, hold: &mut [u8]) -> Feeds {
    let mut all = Feeds::default();
    for size in SIZES {
        let mut feeding = Feeding::new();
        if !feeding.is_read(written, hold, size) {
            print::line(format_args!("record {} in pieces of {size} differs", feeding.records));
            all.differ = all.differ.wrapping_add(1);
        }
        all.calls = all.calls.wrapping_add(feeding.calls);
    }
    all
}
