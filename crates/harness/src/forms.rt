// The two forms of a feed and a close, which keep the same promise.
ghost use Rattle.walker.specs.Walker.{FeedSays, CloseSays};

use walker::{Fed, Walker};

pub trait Form {
    fn feed(w: Walker, hold: &mut [u8], piece: &[u8]) -> Fed
        ensures { FeedSays w hold.old piece.now result.reply result.walker hold.new };

    fn close(w: Walker, hold: &[u8]) -> Fed
        ensures { CloseSays w hold.now result.reply result.walker };
}

// By value.
#[derive(Clone, Copy)]
pub struct Value;

impl Form for Value {
    fn feed(w: Walker, hold: &mut [u8], piece: &[u8]) -> Fed {
        walker::feed(w, hold, piece)
    }

    fn close(w: Walker, hold: &[u8]) -> Fed {
        walker::close(w, hold)
    }
}

// Where the walker lies.
#[derive(Clone, Copy)]
pub struct Place;

impl Form for Place {
    fn feed(w: Walker, hold: &mut [u8], piece: &[u8]) -> Fed {
        by_value::feed_through(w, hold, piece)
    }

    fn close(w: Walker, hold: &[u8]) -> Fed {
        by_value::close_through(w, hold)
    }
}
