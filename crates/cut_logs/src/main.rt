// Feeds the logs on standard input to a walker, cut in many ways, and holds each answer to the walk
// of the whole log. README.md has the ways and the layout of the input.
#![tactic(auto)]

mod run;
mod ways;

use harness::{input, print};
use refusal::{HOLD_FULL, LOG_MOST};
use ways::{Difference, Ways};

// No input has so many logs.
const LOGS_MOST: u64 = 4294967295;

const SEED: u64 = 88172645463325252;

// The logs so far.
#[derive(Clone, Copy, Default)]
struct Totals {
    bytes: usize,
    records: usize,
    ways: usize,
    calls: usize,
    differ: usize,
    random: u64,
}

fn line(index: u64, bytes: usize, of: &Ways, outcome: Result<(), Difference>) {
    print::say(format_args!(
        "log {index} bytes {bytes} records {} ways {} calls {} ",
        of.records, of.ways, of.calls
    ));
    match outcome {
        Ok(()) => print::line("agree"),
        Err(d) => print::line(format_args!("differ at way {} call {}", d.way, d.call)),
    }
}

fn last_line(logs: u64, t: Totals) {
    print::line(format_args!(
        "logs {logs} bytes {} records {} ways {} calls {} differ {}",
        t.bytes, t.records, t.ways, t.calls, t.differ
    ));
}

impl Totals {
    // One log, in all the ways.
    fn compare(&mut self, index: u64, log: &[u8], hold: &mut [u8]) {
        let mut of = Ways::new(log, hold, self.random);
        let outcome = of.all();
        line(index, log.len(), &of, outcome);
        self.bytes = self.bytes.wrapping_add(log.len());
        self.records = self.records.wrapping_add(of.records);
        self.ways = self.ways.wrapping_add(of.ways);
        self.calls = self.calls.wrapping_add(of.calls);
        self.random = of.random;
        if outcome.is_err() {
            self.differ = self.differ.wrapping_add(1);
        }
    }
}

fn logs(buf: &mut [u8], hold: &mut [u8]) {
    let mut t = Totals {
        random: SEED,
        ..Totals::default()
    };
    for index in 0..LOGS_MOST {
        match input::next_log(buf) {
            Ok(Some(log)) => t.compare(index, log, hold),
            Ok(None) => return last_line(index, t),
            Err(why) => return print::broken(why, "log", index),
        }
    }
}

fn main() {
    let mut buf = [0u8; LOG_MOST];
    let mut hold = [0u8; HOLD_FULL];
    logs(&mut buf, &mut hold);
}
