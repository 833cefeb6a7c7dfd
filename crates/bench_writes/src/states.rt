// A state made up of numbers: all fields of the command M, and those of W that say what comes next.
use record::{Kind, Shape};
use refusal::PAIRS_MOST;
use spec_id::{Pair, Pairs};
use std::array;

// Where the fields stand, and how many bytes they have in all.
const COUNT: usize = 1;

const PAIRS: usize = 9;

pub const FIELDS: usize = 73;

fn kind_of(n: u8) -> Option<Kind> {
    match n {
        0 => Some(Kind::First),
        1 => Some(Kind::Sha1),
        2 => Some(Kind::Agile),
        _ => None,
    }
}

fn pairs_of(b: &[u8]) -> [Pair; PAIRS_MOST] {
    array::from_fn(|i| Pair {
        id: numbers::le16(b, PAIRS + 4 * i),
        size: numbers::le16(b, PAIRS + 2 + 4 * i),
    })
}

// Whether the kind is one of three.
pub fn is_sound(b: &[u8]) -> bool {
    kind_of(numbers::byte(b, 0)).is_some()
}

// A kind that is none of the three stands for the last.
pub fn state_of(b: &[u8]) -> Shape {
    Shape {
        kind: kind_of(numbers::byte(b, 0)).unwrap_or(Kind::Agile),
        pairs: Pairs {
            table: pairs_of(b),
            count: numbers::le64(b, COUNT) as usize,
        },
    }
}

// None where the fields are not sound.
pub fn sound_state_of(b: &[u8]) -> Option<Shape> {
    is_sound(b).then(|| state_of(b))
}
