// How a log is cut into pieces, and a hold overwritten between them.

#[derive(Clone, Copy, PartialEq, Eq)]
pub enum Cutting {
    Whole,
    // One byte to a piece.
    Bytes,
    // The same, with an empty piece before, between and after.
    Spaced,
    // Three pieces: to the first cut, to the second, to the end. Of two equal cuts the piece between
    // is empty.
    Twice(usize, usize),
    Random,
}

// A log of so many bytes that is being cut.
#[derive(Clone, Copy)]
pub struct Cutter {
    pub cutting: Cutting,
    len: usize,
    // The number of pieces so far, and where the last of them ends.
    pieces: usize,
    pub end: usize,
    // The state of the generator.
    pub random: u64,
}

// Marsaglia's xorshift.
fn shifted(x: u64) -> u64 {
    let y = x ^ (x << 13);
    let z = y ^ (y >> 7);
    z ^ (z << 17)
}

// Lengths of all orders, 0 among them.
fn length_of(random: u64) -> usize {
    let r = random / 8;
    let n = match random % 8 {
        0 => 0,
        1 => 1,
        2 => r % 4,
        3 => r % 16,
        4 => r % 64,
        5 => r % 512,
        6 => r % 4096,
        _ => r % 32768,
    };
    n as usize
}

impl Cutter {
    // With the first piece cut off.
    pub fn new(cutting: Cutting, len: usize, random: u64) -> Cutter {
        let mut cutter = Cutter {
            cutting,
            len,
            pieces: 0,
            end: 0,
            random,
        };
        cutter.cut();
        cutter
    }

    // Cuts the next piece off.
    pub fn cut(&mut self) {
        self.random = shifted(self.random);
        self.end = self.next_end();
        self.pieces = self.pieces.wrapping_add(1);
    }

    // Where the next piece ends.
    fn next_end(&self) -> usize {
        match self.cutting {
            Cutting::Whole => self.len,
            Cutting::Bytes => self.past(1),
            Cutting::Spaced => self.past(self.pieces % 2),
            Cutting::Twice(first, second) => match self.pieces {
                0 => first,
                1 => second,
                _ => self.len,
            },
            Cutting::Random => self.past(length_of(self.random)),
        }
    }

    // So many bytes on, as far as the log goes.
    fn past(&self, n: usize) -> usize {
        self.end.saturating_add(n).min(self.len)
    }

    // Whether the last piece is cut off.
    pub fn is_last(&self) -> bool {
        let all = self.end == self.len;
        match self.cutting {
            Cutting::Whole => true,
            Cutting::Bytes => all,
            Cutting::Spaced => all && self.pieces % 2 == 1,
            Cutting::Twice(..) => self.pieces == 3,
            Cutting::Random => all,
        }
    }
}

// Overwrites n bytes of the hold from `from` on, as far as it goes.
pub fn scribble(hold: &mut [u8], from: usize, n: usize, mark: u8) {
    let end = from.saturating_add(n).min(hold.len());
    if let Some(part) = hold.get_mut(from..end) {
        part.fill(mark);
    }
}
