// The lines that the program writes, and its totals.
use crate::feeds::Feeds;
use crate::walks::Written;
use harness::print::EndingWords;
use harness::{print, replies};
use made_logs::again::Again;

#[derive(Clone, Copy, Default)]
pub struct Totals {
    commands: usize,
    entries: usize,
    records: usize,
    again: usize,
    calls: usize,
    differ: usize,
}

impl Totals {
    pub fn bad_line(&self) {
        print::line(format_args!("bad command {}", self.commands));
    }

    pub fn line(&self) {
        print::line(format_args!(
            "commands {} entries {} written {} calls {} again {} differ {}",
            self.commands, self.entries, self.records, self.calls, self.again, self.differ
        ));
    }

    fn made_line(&self, written: Written, feeds: Feeds) {
        let made = written.made;
        print::line(format_args!(
            "made {} entries {} written {} bytes {} sum {} tail {} calls {}",
            self.commands,
            made.entries,
            made.records,
            written.log.len(),
            replies::sum_of(written.log),
            written.log.len().wrapping_sub(made.end),
            feeds.calls
        ));
    }

    // A log that was written, and read back by the walk and by feeds.
    pub fn made(&mut self, written: Written, is_walked: bool, feeds: Feeds) {
        self.made_line(written, feeds);
        let made = written.made;
        let differ = made
            .differ
            .wrapping_add(feeds.differ)
            .wrapping_add(usize::from(!is_walked));
        self.commands = self.commands.wrapping_add(1);
        self.entries = self.entries.wrapping_add(made.entries);
        self.records = self.records.wrapping_add(made.records);
        self.calls = self.calls.wrapping_add(feeds.calls);
        self.differ = self.differ.wrapping_add(differ);
    }

    fn again_line(&self, again: Again) {
        print::line(format_args!(
            "again {} records {} bytes {} sum {} {}",
            self.commands,
            again.records,
            again.written.len(),
            replies::sum_of(again.written),
            EndingWords(again.ending)
        ));
    }

    // A log that was written again.
    pub fn again(&mut self, again: Again) {
        if !again.agrees {
            print::line(format_args!("log {} written again differs", self.commands));
        }
        self.again_line(again);
        self.commands = self.commands.wrapping_add(1);
        self.again = self.again.wrapping_add(again.records);
        self.differ = self.differ.wrapping_add(usize::from(!again.agrees));
    }
}
