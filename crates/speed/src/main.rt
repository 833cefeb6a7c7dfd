// Reads the logs on standard input as often as it says, whole or by pieces, and compares nothing: for
// measuring the time that it takes. README.md has the layout of the input and the lines.
#![tactic(auto)]

mod measure;

use harness::{input, print};
use refusal::{HOLD_FULL, LOG_MOST};
use std::num::NonZeroUsize;

// No input has so many tasks.
const TASKS_MOST: u64 = 4294967295;

// Reads the log as its head says, and tells what came of it.
fn read(head: &[u8; 12], log: &[u8], hold: &mut [u8]) {
    let size = NonZeroUsize::new(numbers::le32(head, 0) as usize);
    let times = numbers::le32(head, 4);
    let t = measure::repeat(log, hold, size, times);
    match size {
        Some(size) => print::say(format_args!("pieces of {size}")),
        None => print::say("walk"),
    }
    print::line(format_args!(
        " bytes {} times {times} calls {} records {} sum {}",
        log.len(),
        t.calls,
        t.records,
        t.sum
    ));
}

fn tasks(buf: &mut [u8], hold: &mut [u8]) {
    for index in 0..TASKS_MOST {
        let mut head = [0u8; 12];
        match input::next_task(&mut head, buf) {
            Ok(Some(log)) => read(&head, log, hold),
            Ok(None) => return,
            Err(why) => return print::broken(why, "task", index),
        }
    }
}

fn main() {
    let mut buf = [0u8; LOG_MOST];
    let mut hold = [0u8; HOLD_FULL];
    tasks(&mut buf, &mut hold);
}
