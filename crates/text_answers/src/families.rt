// A family: the sequences of one length over a set, by their numbers.
ghost use Rattle.std.specs.Prelude.{◌≤◌, ◌<◌};

use crate::sets::Set;
use harness::{input, print};
use refusal::Why;
use std::fmt;

#[derive(Clone, Copy)]
pub struct Family {
    pub set: Set,
    pub len: usize,
    ghost short: { len ≤ 6 },
}

// How many blocks have another sum than the one that came, and the number of the first.
#[derive(Clone, Copy)]
struct Tally {
    differ: u32,
    first: Option<u32>,
}

impl fmt::Display for Family {
    fn fmt<W: fmt::Write>(&self, f: &mut fmt::Formatter<W>) -> fmt::Result {
        write!(f, "{}, length {}", self.set, self.len)
    }
}

impl Family {
    // The bytes of a sequence: an element for each of the number's last digits, a unit's low byte
    // first.
    fn bytes_of(self, number: u64) -> [u8; 12] {
        let mut bytes = [0u8; 12];
        let mut rest = number;
        for at in (0..self.len).rev() {
            let [low, high] = self.set.element(rest).to_le_bytes();
            if self.set.is_wide() {
                bytes[2 * at] = low;
                bytes[2 * at + 1] = high;
            } else {
                bytes[at] = low;
            }
            rest /= u64::from(self.set.size());
        }
        bytes
    }

    // What the library says of a sequence.
    fn judged(self, number: u64) -> Result<usize, Why> {
        let bytes = self.bytes_of(number);
        if self.set.is_wide() {
            text::wide::check(&bytes[..2 * self.len])
        } else {
            text::utf8::check(&bytes[..self.len])
        }
    }

    // The answer to a sequence: 0 where it is refused, else 1 more than its length.
    fn answer(self, number: u64) -> u64 {
        match self.judged(number) {
            Ok(n) => (n as u64).wrapping_add(1),
            Err(_) => 0,
        }
    }

    // The sum of the answers to a block: `each` sequences, modulo 2^32.
    fn block_sum(self, block: u32, each: u32) -> u64 {
        let start = u64::from(block) * u64::from(each);
        let sum = (start..start + u64::from(each)).fold(0u64, |sum, number| {
            sum.wrapping_mul(31).wrapping_add(self.answer(number))
        });
        sum % 4294967296
    }

    // How many sequences of so many elements there are. No count here reaches 2^32.
    fn count(self, n: usize) -> u32
        requires { n ≤ 6 }
    {
        self.set.size().wrapping_pow(n as u32)
    }

    // How many of a sequence's last elements vary within a block.
    fn varied(self) -> usize
        ensures { result ≤ self.len }
    {
        match self.set {
            Set::Bytes => self.len.min(1),
            _ => self.len.min(2),
        }
    }

    // Holds each block to the sum that comes next; none where standard input ends before the last.
    fn compared(self, blocks: u32, each: u32) -> Option<Tally> {
        let mut differ = 0;
        let mut first = None;
        for block in 0..blocks {
            let sum = input::next_field()?;
            if self.block_sum(block, each) != u64::from(sum) {
                differ += 1;
                first = first.or(Some(block));
            }
        }
        Some(Tally { differ, first })
    }

    // Compares the family, and tells what came of it; none where it has too few sums.
    pub fn told(self) -> Option<()> {
        let varied = self.varied();
        let blocks = self.count(self.len - varied);
        let tally = self.compared(blocks, self.count(varied))?;
        print::line(format_args!(
            "{self}: {} sequences, {blocks} blocks, {} differ",
            self.count(self.len),
            tally.differ
        ));
        if let Some(block) = tally.first {
            print::line(format_args!("{self}: block {block} is the first to differ"));
        }
        Some(())
    }
}
