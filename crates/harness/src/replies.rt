// The lines of a feed or a close: the reply with the walker then, the hold, the pairs of a marker, and
// where the registers stand.
use crate::print;
use crate::print::{EndingWords, SlotWords};
use contents::Contents;
use record::Kind;
use refusal::PAIRS_MOST;
use spec_id::Pair;
use walker::{Answer, Fed};

// The most that a hold has.
pub const HOLD_MOST: usize = 65536;

// No list of counts and tallies has more numbers.
const PLACES_MOST: usize = 128;

// The number by which a line tells a kind.
pub fn kind_number(k: Kind) -> u64 {
    match k {
        Kind::First => 0,
        Kind::Sha1 => 1,
        Kind::Agile => 2,
    }
}

fn answer_line(a: Answer) {
    match a {
        Answer::More => print::line("more"),
        Answer::Record(slot) => print::line(SlotWords(slot)),
        Answer::Stop(ending) => print::line(EndingWords(ending)),
    }
}

fn reply_line(fed: Fed) {
    let walker = fed.walker;
    print::say(format_args!(
        "fed {} held {} total {} kind {} count {} ",
        fed.reply.count,
        walker.held,
        walker.total,
        kind_number(walker.shape.kind),
        walker.shape.pairs.count
    ));
    answer_line(fed.reply.answer);
}

// A byte times its place and one: a place in a hold is below its most.
fn weighed(b: u8, place: usize) -> u32 {
    let n = 1 + place % HOLD_MOST;
    u32::from(b) * (n as u32)
}

pub fn sum_of(hold: &[u8]) -> u32 {
    let mut sum: u32 = 0;
    for (i, b) in hold.iter().enumerate() {
        sum = sum.wrapping_add(weighed(*b, i));
    }
    sum
}

pub fn pairs_line(table: [Pair; PAIRS_MOST]) {
    print::say("pairs");
    for p in table {
        print::say(format_args!(" {}:{}", p.id, p.size));
    }
    print::say("\n");
}

fn is_marker(a: Answer) -> bool {
    match a {
        Answer::Record(slot) => matches!(slot.contents, Contents::Marker(_)),
        _ => false,
    }
}

// A number times its place and one.
fn placed(n: u32, place: usize) -> u64 {
    let times = 1 + place % PLACES_MOST;
    u64::from(n) * (times as u64)
}

fn stands_line(fed: Fed) {
    let mut sum: u64 = 0;
    for (i, n) in fed
        .walker
        .counts
        .iter()
        .chain(fed.walker.tallies.iter())
        .enumerate()
    {
        sum = sum.wrapping_add(placed(*n, i));
    }
    print::line(format_args!("stands {}", sum % 4294967296));
}

pub fn lines(fed: Fed, hold: &[u8]) {
    reply_line(fed);
    print::line(format_args!("hold {}", sum_of(hold)));
    if is_marker(fed.reply.answer) {
        pairs_line(fed.walker.shape.pairs.table);
    }
    stands_line(fed);
}
