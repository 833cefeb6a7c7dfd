// The commands that make, feed and close a walker: N, W, H, F, f, C and c. Each gives how many bytes it
// has, or nothing where it is bad.
use bench_writes::state::State;
use bench_writes::walkers;
use harness::forms::Form;
use harness::replies::HOLD_MOST;
use harness::{input, replies};
use refusal::HOLD_FULL;

pub fn fresh(s: &mut State, hold: &mut [u8]) -> usize {
    hold.fill(0);
    s.walker = walker::fresh();
    s.size = HOLD_FULL;
    1
}

pub fn made(s: &mut State) -> Option<usize> {
    let mut b = [0u8; walkers::FIELDS];
    input::fill(&mut b, walkers::FIELDS)?;
    s.walker = walkers::sound_walker_of(&b)?;
    Some(1 + walkers::FIELDS)
}

pub fn sized(s: &mut State, hold: &mut [u8]) -> Option<usize> {
    let size = input::next_field()? as usize;
    let n = input::next_field()? as usize;
    if HOLD_MOST < size || size < n {
        return None;
    }
    hold.fill(0);
    input::fill(hold, n)?;
    s.size = size;
    Some(n.saturating_add(9))
}

pub fn feed<F: Form>(s: &mut State, data: &mut [u8], hold: &mut [u8]) -> Option<usize> {
    let piece = input::counted(data)?;
    let size = s.size.min(hold.len());
    let hold = &mut hold[..size];
    let fed = F::feed(s.walker, hold, piece);
    replies::lines(fed, hold);
    s.walker = fed.walker;
    Some(piece.len().saturating_add(5))
}

pub fn close<F: Form>(s: &mut State, hold: &[u8]) -> usize {
    let hold = &hold[..s.size.min(hold.len())];
    let fed = F::close(s.walker, hold);
    replies::lines(fed, hold);
    s.walker = fed.walker;
    1
}
