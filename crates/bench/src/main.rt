// Drives every entry point by commands on standard input, and writes a line for each answer.
// README.md has the commands and the exact text of every line.
#![tactic(auto)]

mod feeds;
mod writing;

use bench_reads::{readers, walks};
use bench_writes::entries;
use bench_writes::state::State;
use harness::forms::{Place, Value};
use harness::replies::HOLD_MOST;
use harness::{input, print};

// The most bytes that a command gives behind a length.
const DATA_MOST: usize = 131072;

// The rest of a command by its letter: how many bytes it has with letter and fields; none where it is bad.
fn command(letter: u8, s: &mut State, data: &mut [u8], hold: &mut [u8]) -> Option<usize> {
    Some(match letter {
        b'L' => walks::whole(data)?.saturating_add(9),
        b'P' => readers::node(data)?.saturating_add(9),
        b'G' => readers::entry(data)?.saturating_add(9),
        b'U' => readers::utf8_text(data)?.saturating_add(5),
        b'X' => readers::wide_text(data)?.saturating_add(5),
        b'N' => feeds::fresh(s, hold),
        b'W' => feeds::made(s)?,
        b'H' => feeds::sized(s, hold)?,
        b'F' => feeds::feed::<Value>(s, data, hold)?,
        b'f' => feeds::feed::<Place>(s, data, hold)?,
        b'C' => feeds::close::<Value>(s, hold),
        b'c' => feeds::close::<Place>(s, hold),
        b'S' => writing::fresh(s),
        b'M' => writing::made(s)?,
        b'E' => entries::entry(&mut s.written, data)?,
        _ => return None,
    })
}

// Nothing says that the input ends, so the commands are counted, up to a number that no run reaches.
fn commands(data: &mut [u8], hold: &mut [u8]) {
    let mut s = State::start();
    for _ in 0..u64::MAX {
        let Some(letter) = input::next_letter() else {
            return;
        };
        let Some(n) = command(letter, &mut s, data, hold) else {
            return print::line(format_args!("bad command at {}", s.at));
        };
        s = s.past(n);
    }
}

fn main() {
    let mut data = [0u8; DATA_MOST];
    let mut hold = [0u8; HOLD_MOST];
    commands(&mut data, &mut hold);
}
