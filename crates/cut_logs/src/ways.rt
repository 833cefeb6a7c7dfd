// All the ways in which a log is fed, by its length.
use crate::run::Run;
use cuts::course::Course;
use cuts::cut::Cutting;
use harness::forms::{Form, Place, Value};

// The longest log that is cut at every pair of places, and the longest that is cut at every place.
const PAIRS_MOST: usize = 60;

const CUTS_MOST: usize = 300;

// How often a longer log is cut at random.
const RANDOM_WAYS: usize = 20;

// More than the hold has.
const ALL: usize = 65536;

const SOME: usize = 64;

// The first call that differs from the whole walk.
#[derive(Clone, Copy)]
pub struct Difference {
    pub way: usize,
    pub call: usize,
}

// A log and the ways so far: the records of the last one, and the calls of all.
#[derive(Drop)]
pub struct Ways<'a, 'h> {
    log: &'a [u8],
    hold: &'h mut [u8],
    pub records: usize,
    pub ways: usize,
    pub calls: usize,
    pub random: u64,
}

impl<'a, 'h> Ways<'a, 'h> {
    pub fn new(log: &'a [u8], hold: &'h mut [u8], random: u64) -> Ways<'a, 'h> {
        Ways {
            log,
            hold,
            records: 0,
            ways: 0,
            calls: 0,
            random,
        }
    }

    fn one<F: Form>(&mut self, cutting: Cutting, scribbled: usize) -> Result<(), Difference> {
        let course = Course::new(self.log, cutting, self.random);
        let mut run = Run::new(course, scribbled);
        let outcome = run.run::<F>(self.hold);
        let call = run.calls;
        self.records = run.course.records;
        self.random = run.course.cutter.random;
        self.ways = self.ways.wrapping_add(1);
        self.calls = self.calls.wrapping_add(call);
        let way = self.ways;
        outcome.map_err(|_| Difference { way, call })
    }

    // By value, then through the forms in place, with the same cuts.
    fn both(&mut self, cutting: Cutting, scribbled: usize) -> Result<(), Difference> {
        let random = self.random;
        let by_value = self.one::<Value>(cutting, 0);
        self.random = random;
        by_value?;
        self.one::<Place>(cutting, scribbled)
    }

    // Every second cut from the first on.
    fn second_cuts(&mut self, first: usize) -> Result<(), Difference> {
        for second in first..=self.log.len() {
            self.both(Cutting::Twice(first, second), SOME)?;
        }
        Ok(())
    }

    // Every pair of cuts, also of equal ones.
    fn pairs(&mut self) -> Result<(), Difference> {
        for first in 0..=self.log.len() {
            self.second_cuts(first)?;
        }
        Ok(())
    }

    // Every cut, with an empty piece between.
    fn cuts(&mut self) -> Result<(), Difference> {
        for at in 0..=self.log.len() {
            self.both(Cutting::Twice(at, at), SOME)?;
        }
        Ok(())
    }

    fn randoms(&mut self) -> Result<(), Difference> {
        for _ in 0..RANDOM_WAYS {
            self.both(Cutting::Random, ALL)?;
        }
        Ok(())
    }

    pub fn all(&mut self) -> Result<(), Difference> {
        self.both(Cutting::Whole, ALL)?;
        self.both(Cutting::Bytes, SOME)?;
        self.both(Cutting::Spaced, SOME)?;
        if self.log.len() <= PAIRS_MOST {
            self.pairs()
        } else if self.log.len() <= CUTS_MOST {
            self.cuts()
        } else {
            self.randoms()
        }
    }
}
