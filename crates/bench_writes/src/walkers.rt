// The command W: a walker made up of numbers.
use crate::states;
use numbers::Span;
use refusal::{Ending, Why};
use std::array;
use walker::Walker;

// Where the fields stand, and how many bytes they have in all.
const TOTAL: usize = 8;

const SHAPE: usize = 16;

const COUNTS: usize = 89;

const TALLIED: usize = 185;

const KEPT: usize = 569;

const NUMBER: usize = 570;

const FIRST: usize = 571;

const SECOND: usize = 579;

pub const FIELDS: usize = 587;

fn why_of(n: u8) -> Option<Why> {
    match n {
        1 => Some(Why::LogTooLong),
        2 => Some(Why::FieldCut),
        3 => Some(Why::FieldTooFar),
        4 => Some(Why::AlgorithmUnknown),
        5 => Some(Why::TooShort),
        6 => Some(Why::BadSignature),
        7 => Some(Why::BadVersion),
        8 => Some(Why::Unaligned),
        9 => Some(Why::BadValue),
        10 => Some(Why::BadText),
        11 => Some(Why::TooManyPairs),
        12 => Some(Why::NoSlot),
        13 => Some(Why::TotalTooLong),
        14 => Some(Why::OutOfRange),
        15 => Some(Why::WrongSum),
        16 => Some(Why::WrongDigest),
        17 => Some(Why::BufferTooShort),
        18 => Some(Why::WrongForm),
        _ => None,
    }
}

// What comes next, and the pairs.
fn shape_part(b: &[u8]) -> &[u8] {
    numbers::part(
        b,
        Span {
            at: SHAPE,
            len: states::FIELDS,
        },
    )
}

// Whether kind, kept and number are such as a walker has. The number is looked at only where a
// refusal is kept.
pub fn is_sound(b: &[u8]) -> bool {
    let kept_is = match numbers::byte(b, KEPT) {
        0 | 1 => true,
        2 => why_of(numbers::byte(b, NUMBER)).is_some(),
        _ => false,
    };
    states::is_sound(shape_part(b)) && kept_is
}

// The answer that is kept, if there is one. A number that no refusal has stands for the last.
fn kept_of(b: &[u8]) -> Option<Ending> {
    let at = numbers::le64(b, FIRST) as usize;
    let tail = numbers::le64(b, SECOND) as usize;
    let why = why_of(numbers::byte(b, NUMBER)).unwrap_or(Why::WrongForm);
    match numbers::byte(b, KEPT) {
        0 => None,
        1 => Some(Ending::End { at, tail }),
        _ => Some(refusal::refused_with(why, at)),
    }
}

// Fields that are not sound stand for the last that are.
pub fn walker_of(b: &[u8]) -> Walker {
    Walker {
        held: numbers::le64(b, 0) as usize,
        total: numbers::le64(b, TOTAL) as usize,
        shape: states::state_of(shape_part(b)),
        kept: kept_of(b),
        counts: array::from_fn(|i| numbers::le32(b, COUNTS + 4 * i)),
        tallies: array::from_fn(|i| numbers::le32(b, TALLIED + 4 * i)),
    }
}

// None where the fields are not sound.
pub fn sound_walker_of(b: &[u8]) -> Option<Walker> {
    is_sound(b).then(|| walker_of(b))
}
