// What the whole walk says at a cursor, and whether a stop agrees with it.
ghost use Rattle.std.specs.Prelude.{◌≡◌};
ghost use Rattle.standing.specs.Standing.{none_yet};
ghost use Rattle.walk.specs.Turn.{turn_of};

use record::{Slot, Turn};
use refusal::{Ending, Why};
use standing::{REGISTERS, TALLIES};
use walk::Cursor;
use walker::Answer;

// What the whole walk says at a cursor, where nothing was counted.
pub fn turn_at(log: &[u8], cursor: Cursor) -> Turn
    ensures { result ≡ (turn_of log.now cursor none_yet).turned.turn }
{
    let mut counts = [0u32; REGISTERS];
    let mut tallies = [0u32; TALLIES];
    walk::next_record(log, cursor, &mut counts, &mut tallies).turn
}

pub fn end_of(slot: Slot) -> usize {
    slot.data.at.saturating_add(slot.data.len)
}

// How many bytes a record needs there: more than there are where the walk stops.
pub fn needed_at(log: &[u8], cursor: Cursor) -> usize {
    match turn_at(log, cursor) {
        Turn::Record(slot) => end_of(slot),
        Turn::Stop(_) => usize::MAX,
    }
}

// Whether an answer says how the walk stops.
pub fn is_answered(turn: Turn, a: Answer) -> bool {
    matches!(a, Answer::Stop(e) if turn == Turn::Stop(e))
}

// Whether a walk of a log's beginning stops because the log does.
pub fn is_short(turn: Turn) -> bool {
    match turn {
        Turn::Record(_) => false,
        Turn::Stop(Ending::End { .. }) => true,
        Turn::Stop(Ending::Refused(r)) => r.why == Why::FieldCut,
    }
}
