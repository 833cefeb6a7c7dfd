// Writes logs from entries and reads them back, and writes logs again that were read. README.md has
// the layout of the input and the lines.
#![tactic(auto)]

mod hex;

use harness::{input, print};
use hex::Hex;
use made_logs::{again, made};
use read_back::feeds;
use read_back::lines::Totals;
use read_back::walks::Written;
use refusal::{LOG_MOST, TAIL_MOST};

// No input has so many commands.
const COMMANDS_MOST: u64 = 4294967295;

// The most bytes that the entries of a log have.
const BLOCK_MOST: usize = 131072;

// The most records that a log has: the shortest have 16 bytes.
const RECORDS_MOST: usize = 4096;

// How many bytes behind a log that is written again are lent, and must be kept.
const BEHIND: usize = 64;

// What the commands are given: the entries of a log, or a log to write again; the log that is
// written; where the entries start that were; and a hold, or a list of digests.
#[derive(Drop)]
struct Buffers {
    block: [u8; BLOCK_MOST],
    log: [u8; LOG_MOST],
    starts: [usize; RECORDS_MOST],
    hold: [u8; LOG_MOST],
}

impl Buffers {
    // The rest of a command W or H: a tail, and entries. Nothing where these are cut short, too long
    // or bad.
    fn made(&mut self, is_told: bool, totals: &mut Totals) -> Option<()> {
        let mut room = [0u8; TAIL_MOST];
        let tail = input::counted(&mut room)?;
        let block = input::counted(&mut self.block)?;
        let made = made::of(block, &mut self.log, &mut self.starts).ok()?;
        let end = buffer::put(&mut self.log, made.end, tail);
        let written = Written {
            block,
            log: self.log.get(..end).unwrap_or(&[]),
            starts: &self.starts,
            made,
        };
        let is_walked = written.is_walked();
        let fed = feeds::all(written, &mut self.hold);
        if is_told {
            print::line(format_args!("bytes {}", Hex(written.log)));
        }
        totals.made(written, is_walked, fed);
        Some(())
    }

    // The rest of a command A: a log. It is written again with room for a little more.
    fn again(&mut self, totals: &mut Totals) -> Option<()> {
        let log = input::counted(&mut self.block)?;
        if LOG_MOST < log.len() {
            return None;
        }
        let room = (log.len() + BEHIND).min(LOG_MOST);
        let out = &mut self.log[..];
        totals.again(again::of(log, &mut self.hold, &mut out[..room]));
        Some(())
    }

    // The rest of a command. Nothing where it is bad.
    fn command(&mut self, letter: u8, totals: &mut Totals) -> Option<()> {
        match letter {
            b'W' => self.made(false, totals),
            b'H' => self.made(true, totals),
            b'A' => self.again(totals),
            _ => None,
        }
    }

    fn commands(&mut self) {
        let mut totals = Totals::default();
        for _ in 0..COMMANDS_MOST {
            let Some(letter) = input::next_letter() else {
                totals.line();
                return;
            };
            if self.command(letter, &mut totals).is_none() {
                totals.bad_line();
                return;
            }
        }
    }
}

fn main() {
    let mut buffers = Buffers {
        block: [0; BLOCK_MOST],
        log: [0; LOG_MOST],
        starts: [0; RECORDS_MOST],
        hold: [0; LOG_MOST],
    };
    buffers.commands();
}
