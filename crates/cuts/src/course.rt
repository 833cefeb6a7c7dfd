// What each call of a way is held to.
use crate::cut::{Cutter, Cutting};
use crate::whole;
use record::{Slot, Turn};
use refusal::{Ending, Refusal, Why};
use standing::{REGISTERS, TALLIES};
use walk::Cursor;
use walker::{Answer, Fed, Walker};

// A call that does not agree with the whole walk.
#[derive(Clone, Copy)]
pub struct Differs;

fn held_to(agrees: bool) -> Result<(), Differs> {
    if agrees { Ok(()) } else { Err(Differs) }
}

// Whether a turn gives just this slot, by the numbers of crate `fields`.
fn is_same(turn: Turn, slot: Slot) -> bool {
    match turn {
        Turn::Record(given) => fields::same(fields::fields_of(given), fields::fields_of(slot)),
        Turn::Stop(_) => false,
    }
}

// What comes after a feed.
#[derive(Clone, Copy, PartialEq, Eq)]
pub enum Next {
    Feed,
    // The last piece was taken.
    Close,
    // The log is refused.
    Over,
}

// Where a way stands.
#[derive(Clone, Copy)]
pub struct Course<'a> {
    pub log: &'a [u8],
    pub walker: Walker,
    // Where the whole walk stands, and how many bytes it needs there for a record: more than there
    // are where it stops.
    cursor: Cursor,
    needed: usize,
    // What it has counted so far.
    counts: [u32; REGISTERS],
    tallies: [u32; TALLIES],
    // The bytes taken and the records given so far.
    taken: usize,
    pub records: usize,
    pub cutter: Cutter,
}

impl<'a> Course<'a> {
    // A log before the first call.
    pub fn new(log: &'a [u8], cutting: Cutting, random: u64) -> Course<'a> {
        let cursor = walk::opening();
        Course {
            log,
            walker: walker::fresh(),
            cursor,
            needed: whole::needed_at(log, cursor),
            counts: [0; REGISTERS],
            tallies: [0; TALLIES],
            taken: 0,
            records: 0,
            cutter: Cutter::new(cutting, log.len(), random),
        }
    }

    // What is left of the piece at hand.
    pub fn rest(&self) -> &'a [u8] {
        self.log.get(self.taken..self.cutter.end).unwrap_or(&[])
    }

    // What the whole walk says next.
    fn turn(&self) -> Turn {
        whole::turn_at(self.log, self.cursor)
    }

    // Whether the walker's numbers are those of a walker that holds the bytes from the cursor on, and
    // it has counted what the whole walk has.
    fn is_holding(&self) -> bool {
        self.walker.total == self.taken
            && self.walker.held == self.taken.wrapping_sub(self.cursor.at as usize)
            && self.walker.counts == self.counts
            && self.walker.tallies == self.tallies
    }

    // To the next piece where all of this one is taken, or to closing where there is none.
    fn onward(&mut self) -> Next {
        if self.taken != self.cutter.end {
            return Next::Feed;
        }
        if self.cutter.is_last() {
            return Next::Close;
        }
        self.cutter.cut();
        Next::Feed
    }

    // The whole piece was taken, and no record or refusal is complete.
    fn after_more(&mut self) -> Result<Next, Differs> {
        held_to(self.taken == self.cutter.end && self.taken < self.needed && self.is_holding())?;
        Ok(self.onward())
    }

    // Whether a record is the one that the whole walk gives, ends where the bytes taken do, and stands
    // at the hold's front.
    fn is_given(&self, hold: &[u8], turn: Turn, slot: Slot) -> bool {
        is_same(turn, slot)
            && self.taken == whole::end_of(slot)
            && self
                .log
                .get(slot.start..self.taken)
                .is_some_and(|record| hold.starts_with(record))
    }

    // The whole walk stands behind the record. What is left of the piece is fed again.
    fn after_record(&mut self, hold: &[u8], slot: Slot) -> Result<Next, Differs> {
        let turned = walk::next_record(self.log, self.cursor, &mut self.counts, &mut self.tallies);
        held_to(self.is_given(hold, turned.turn, slot))?;
        self.cursor = turned.next;
        self.needed = whole::needed_at(self.log, self.cursor);
        self.records = self.records.wrapping_add(1);
        held_to(self.is_holding())?;
        Ok(self.onward())
    }

    // Whether a refusal rests on the last byte taken: the log's beginning up to there is refused so,
    // and one byte less is not refused yet.
    fn rests_on(&self, r: Refusal) -> bool {
        let Some(with) = self.log.get(..self.taken) else {
            return false;
        };
        let Some((_, without)) = with.split_last() else {
            return false;
        };
        whole::turn_at(with, self.cursor) == Turn::Stop(Ending::Refused(r))
            && whole::is_short(whole::turn_at(without, self.cursor))
    }

    // The whole walk is refused so, by the last byte taken.
    fn after_refusal(&self, r: Refusal) -> Result<Next, Differs> {
        held_to(
            self.turn() == Turn::Stop(Ending::Refused(r))
                && r.why != Why::FieldCut
                && self.is_holding()
                && self.rests_on(r),
        )?;
        Ok(Next::Over)
    }

    pub fn after_feed(&mut self, hold: &[u8], f: Fed) -> Result<Next, Differs> {
        self.walker = f.walker;
        self.taken = self.taken.wrapping_add(f.reply.count);
        held_to(self.walker.total == self.taken && self.taken <= self.cutter.end)?;
        match f.reply.answer {
            Answer::More => self.after_more(),
            Answer::Record(slot) => self.after_record(hold, slot),
            Answer::Stop(Ending::Refused(r)) => self.after_refusal(r),
            // A feed gives no end.
            Answer::Stop(Ending::End { .. }) => Err(Differs),
        }
    }

    // The log's end, or refusal 2.
    pub fn after_close(&mut self, f: Fed) -> Result<(), Differs> {
        self.after_again(f)?;
        held_to(whole::is_short(self.turn()))
    }

    // A call after the end or a refusal: it took nothing, and says again how the whole walk stops.
    pub fn after_again(&mut self, f: Fed) -> Result<(), Differs> {
        self.walker = f.walker;
        held_to(
            f.reply.count == 0
                && self.is_holding()
                && whole::is_answered(self.turn(), f.reply.answer),
        )
    }
}
