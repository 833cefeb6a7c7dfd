// What a run carries from command to command.
use record::Shape;
use refusal::HOLD_FULL;
use walker::Walker;

#[derive(Clone, Copy)]
pub struct State {
    // Where the next command starts.
    pub at: u64,
    pub walker: Walker,
    // The writer's.
    pub written: Shape,
    // The hold is so many bytes of the lent buffer, from its front.
    pub size: usize,
}

impl State {
    pub fn start() -> State {
        State {
            at: 0,
            walker: walker::fresh(),
            written: record::opening_shape(),
            size: HOLD_FULL,
        }
    }

    // The next command starts so many bytes further.
    pub fn past(self, n: usize) -> State {
        State {
            at: self.at.wrapping_add(n as u64),
            ..self
        }
    }
}
