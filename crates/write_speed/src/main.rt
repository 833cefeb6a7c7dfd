// Writes the entries on standard input as often as it says, and compares nothing: for measuring the
// time that it takes. README.md has the layout of the input and the lines.
#![tactic(auto)]

mod measure;

use harness::{input, print, replies};
use refusal::LOG_MOST;

// No input has so many tasks.
const TASKS_MOST: u64 = 4294967295;

// The most bytes that the entries of a log have.
const BLOCK_MOST: usize = 131072;

// Writes the entries of a task as often as it says.
fn task(times: u32, block: &[u8], log: &mut [u8]) {
    let tally = measure::repeat(block, log, times);
    let log = log.get(..tally.end).unwrap_or(&[]);
    print::line(format_args!(
        "wrote times {times} records {} bytes {} sum {}",
        tally.records,
        log.len(),
        replies::sum_of(log)
    ));
}

fn main() {
    let mut block = [0u8; BLOCK_MOST];
    let mut log = [0u8; LOG_MOST];
    for _ in 0..TASKS_MOST {
        let Some(times) = input::next_field() else {
            return;
        };
        let Some(entries) = input::counted(&mut block) else {
            print::line("standard input ends inside a task, or it is too long");
            return;
        };
        task(times, entries, &mut log);
    }
}
