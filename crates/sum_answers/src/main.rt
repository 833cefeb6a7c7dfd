// Holds the sums of crate `sum`, part by part, to zlib's, which come on standard input. README.md
// has the layout of the input.
#![tactic(auto)]

use harness::{input, print};
use refusal::LOG_MOST;

// No input has so many parts.
const PARTS_MOST: u64 = 4294967295;

// The parts so far.
#[derive(Clone, Copy)]
struct Totals {
    // After the last of them.
    register: u32,
    sums: u64,
    bytes: u64,
    differ: u64,
}

impl Totals {
    fn new() -> Totals {
        Totals {
            register: sum::start(),
            sums: 0,
            bytes: 0,
            differ: 0,
        }
    }

    // A part and what zlib says of the sum up to its end. The first number of its head tells whether
    // a sum starts with it, the second is zlib's.
    fn take(&mut self, table: &[u32; 256], head: &[u8; 12], part: &[u8]) {
        if numbers::le32(head, 0) != 0 {
            self.register = sum::start();
            self.sums = self.sums.wrapping_add(1);
        }
        self.register = sum::part(table, self.register, part);
        self.bytes = self.bytes.wrapping_add(part.len() as u64);
        if sum::end(self.register) != numbers::le32(head, 4) {
            self.differ = self.differ.wrapping_add(1);
        }
    }
}

fn last_line(parts: u64, t: Totals) {
    print::line(format_args!(
        "parts {parts} sums {} bytes {} differ {}",
        t.sums, t.bytes, t.differ
    ));
}

// Each part, told where it is the first that differs.
fn parts(table: &[u32; 256], buf: &mut [u8]) {
    let mut t = Totals::new();
    for index in 0..PARTS_MOST {
        let mut head = [0u8; 12];
        match input::next_task(&mut head, buf) {
            Ok(Some(part)) => {
                let before = t.differ;
                t.take(table, &head, part);
                if before == 0 && 0 < t.differ {
                    print::line(format_args!("the first to differ: part {index}"));
                }
            }
            Ok(None) => return last_line(index, t),
            Err(why) => return print::broken(why, "part", index),
        }
    }
}

fn main() {
    let table = sum::table();
    let mut buf = [0u8; LOG_MOST];
    parts(&table, &mut buf);
}
