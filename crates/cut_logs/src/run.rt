// Feeds a log to a fresh walker in one way, and holds each call to the whole walk.
use cuts::course::{Course, Differs, Next};
use cuts::cut;
use cuts::cut::Cutting;
use harness::forms::Form;
use refusal::LOG_MOST;
use walker::Fed;

// No way takes so many calls.
const CALLS_MOST: usize = 1000000;

// A way and its calls so far.
#[derive(Clone, Copy)]
pub struct Run<'a> {
    pub course: Course<'a>,
    // How many bytes of the hold past those held are overwritten before each call.
    scribbled: usize,
    pub calls: usize,
}

// A byte that changes from call to call.
fn mark(calls: usize) -> u8 {
    (calls % 251 + 3) as u8
}

impl<'a> Run<'a> {
    pub fn new(course: Course<'a>, scribbled: usize) -> Run<'a> {
        Run {
            course,
            scribbled,
            calls: 0,
        }
    }

    fn scribble(&mut self, hold: &mut [u8]) {
        let held = self.course.walker.held;
        cut::scribble(hold, held, self.scribbled, mark(self.calls));
        self.calls = self.calls.wrapping_add(1);
    }

    fn feed<F: Form>(&mut self, hold: &mut [u8], piece: &[u8]) -> Fed {
        self.scribble(hold);
        F::feed(self.course.walker, hold, piece)
    }

    fn close<F: Form>(&mut self, hold: &mut [u8]) -> Fed {
        self.scribble(hold);
        F::close(self.course.walker, hold)
    }

    // Feeds all pieces, or up to a refusal.
    fn feed_all<F: Form>(&mut self, hold: &mut [u8]) -> Result<Next, Differs> {
        for _ in 0..CALLS_MOST {
            let piece = self.course.rest();
            let fed = self.feed::<F>(hold, piece);
            let next = self.course.after_feed(hold, fed)?;
            if next != Next::Feed {
                return Ok(next);
            }
        }
        Err(Differs)
    }

    // A feed after the end or a refusal: the log once more, or, where it was one piece, a piece that
    // no open walker would take once it has had a byte.
    fn feed_again<F: Form>(&mut self, hold: &mut [u8]) -> Fed {
        if self.course.cutter.cutting == Cutting::Whole {
            return self.feed::<F>(hold, &[0; LOG_MOST]);
        }
        let log = self.course.log;
        self.feed::<F>(hold, log)
    }

    // Feeds and closes, and once more.
    pub fn run<F: Form>(&mut self, hold: &mut [u8]) -> Result<(), Differs> {
        if self.feed_all::<F>(hold)? == Next::Close {
            let fed = self.close::<F>(hold);
            self.course.after_close(fed)?;
        }
        let fed = self.feed_again::<F>(hold);
        self.course.after_again(fed)?;
        let fed = self.close::<F>(hold);
        self.course.after_again(fed)
    }
}
