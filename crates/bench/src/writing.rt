// The commands that make a writer's state: S and M. Each gives how many bytes it has, or nothing where it
// is bad.
use bench_writes::state::State;
use bench_writes::states;
use harness::input;

pub fn fresh(s: &mut State) -> usize {
    s.written = record::opening_shape();
    1
}

pub fn made(s: &mut State) -> Option<usize> {
    let mut b = [0u8; states::FIELDS];
    input::fill(&mut b, states::FIELDS)?;
    s.written = states::sound_state_of(&b)?;
    Some(1 + states::FIELDS)
}
