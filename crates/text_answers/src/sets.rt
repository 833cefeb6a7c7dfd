// The sets of elements that sequences are made of.
ghost use Rattle.std.specs.Prelude.{◌<◌, ◌≤◌, length, IfSome};

use std::fmt;

#[derive(Clone, Copy)]
pub enum Set {
    // Every byte.
    Bytes,
    // The bytes at and around the borders of Unicode's table 3-7.
    BorderBytes,
    // The units around the surrogates.
    BorderUnits,
    // Zero, and what it may stand before, after and between.
    ZeroBytes,
    ZeroUnits,
}

const BORDER_BYTES: [u16; 37] = [
    // ASCII, and its ends
    0x00, 0x01, 0x7E, 0x7F,
    // the ends of 80 to 8F, of 90 to 9F and of A0 to BF, which follow a lead
    0x80, 0x81, 0x8E, 0x8F, 0x90, 0x91, 0x9E, 0x9F, 0xA0, 0xA1, 0xBE, 0xBF,
    // C0 and C1 start nothing; the ends of C2 to DF
    0xC0, 0xC1, 0xC2, 0xC3, 0xDE, 0xDF,
    // the leads of three bytes, E0 and ED among them
    0xE0, 0xE1, 0xEB, 0xEC, 0xED, 0xEE, 0xEF,
    // the leads of four bytes, and above them what starts nothing
    0xF0, 0xF1, 0xF2, 0xF3, 0xF4, 0xF5, 0xFE, 0xFF,
];

const BORDER_UNITS: [u16; 15] = [
    // plain units
    0x0000, 0x0001, 0x0041, 0xD7FF,
    // the ends of the high surrogates
    0xD800, 0xD801, 0xDBFE, 0xDBFF,
    // the ends of the low surrogates
    0xDC00, 0xDC01, 0xDFFE, 0xDFFF,
    // plain units
    0xE000, 0xFFFE, 0xFFFF,
];

// 'A', and the two bytes of U+00E9.
const ZERO_BYTES: [u16; 4] = [0x00, 0x41, 0xC3, 0xA9];

// 'A', a unit whose first byte is zero, and a pair of surrogates.
const ZERO_UNITS: [u16; 5] = [0x0000, 0x0041, 0x4100, 0xD83D, 0xDE00];

impl Set {
    // The elements, where they are not every byte.
    fn list(self) -> Option<&'static [u16]>
        ensures { IfSome result (λ list. (0 < length list.now) × (length list.now ≤ 256)) }
    {
        match self {
            Set::Bytes => None,
            Set::BorderBytes => Some(&BORDER_BYTES),
            Set::BorderUnits => Some(&BORDER_UNITS),
            Set::ZeroBytes => Some(&ZERO_BYTES),
            Set::ZeroUnits => Some(&ZERO_UNITS),
        }
    }

    // How many elements it has.
    pub fn size(self) -> u32
        ensures { (0 < result) × (result ≤ 256) }
    {
        match self.list() {
            None => 256,
            Some(list) => list.len() as u32,
        }
    }

    // Whether an element is a unit of two bytes.
    pub fn is_wide(self) -> bool {
        matches!(self, Set::BorderUnits | Set::ZeroUnits)
    }

    // The element that a number's last digit stands for, in the base that is the set's size.
    pub fn element(self, number: u64) -> u16 {
        match self.list() {
            None => (number % 256) as u16,
            Some(list) => list[(number % list.len() as u64) as usize],
        }
    }
}

impl fmt::Display for Set {
    fn fmt<W: fmt::Write>(&self, f: &mut fmt::Formatter<W>) -> fmt::Result {
        f.write_str(match *self {
            Set::Bytes => "utf8, any bytes",
            Set::BorderBytes => "utf8, border bytes",
            Set::BorderUnits => "wide, border units",
            Set::ZeroBytes => "utf8, bytes and zeros",
            Set::ZeroUnits => "wide, units and zeros",
        })
    }
}
