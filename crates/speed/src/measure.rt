// Reads a log whole or by pieces, as often as is asked for, and adds up what its records say.
use record::{Slot, Turn};
use standing::{REGISTERS, TALLIES};
use std::num::NonZeroUsize;
use walker::{Answer, Walker};

// The calls and the records so far, and the sum of the records' numbers.
#[derive(Clone, Copy, Default)]
pub struct Tally {
    pub calls: u64,
    pub records: u64,
    pub sum: u64,
}

// All the numbers of a slot count, so that a compiler can leave out no part of the reading.
fn sum_of(slot: Slot) -> u64 {
    let numbers = fields::fields_of(slot).numbers;
    numbers.iter().fold(0u64, |sum, n| sum.wrapping_add(*n))
}

impl Tally {
    fn call(&mut self) {
        self.calls = self.calls.wrapping_add(1);
    }

    fn record(&mut self, slot: Slot) {
        self.records = self.records.wrapping_add(1);
        self.sum = self.sum.wrapping_add(sum_of(slot));
    }

    fn answer(&mut self, a: Answer) {
        self.call();
        if let Answer::Record(slot) = a {
            self.record(slot);
        }
    }
}

// The whole log, record by record, until it ends or is refused. Each record has a byte at least.
fn walk(log: &[u8], t: &mut Tally) {
    let mut counts = [0u32; REGISTERS];
    let mut tallies = [0u32; TALLIES];
    let mut cursor = walk::opening();
    for _ in 0..=log.len() {
        let turned = walk::next_record(log, cursor, &mut counts, &mut tallies);
        t.call();
        match turned.turn {
            Turn::Record(slot) => t.record(slot),
            Turn::Stop(_) => return,
        }
        cursor = turned.next;
    }
}

// One piece until all of it is taken: by each call a byte at least.
fn feed_piece(w: &mut Walker, hold: &mut [u8], piece: &[u8], t: &mut Tally) {
    let mut rest = piece;
    for _ in 0..piece.len() {
        if rest.is_empty() || w.kept.is_some() {
            return;
        }
        let fed = walker::feed(*w, hold, rest);
        *w = fed.walker;
        t.answer(fed.reply.answer);
        rest = rest.get(fed.reply.count..).unwrap_or(&[]);
    }
}

// The log by pieces, and a close.
fn feed(log: &[u8], hold: &mut [u8], size: NonZeroUsize, t: &mut Tally) {
    let mut w = walker::fresh();
    for piece in log.chunks(size.get()) {
        if w.kept.is_some() {
            return;
        }
        feed_piece(&mut w, hold, piece, t);
    }
    if w.kept.is_none() {
        let fed = walker::close(w, hold);
        t.answer(fed.reply.answer);
    }
}

// Reads the log so many times by pieces of a size, or whole where there is none.
pub fn repeat(log: &[u8], hold: &mut [u8], size: Option<NonZeroUsize>, times: u32) -> Tally {
    let mut t = Tally::default();
    for _ in 0..times {
        match size {
            Some(size) => feed(log, hold, size, &mut t),
            None => walk(log, &mut t),
        }
    }
    t
}
