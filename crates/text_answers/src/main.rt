// Holds the answers of text::utf8 and text::wide to sums made with another program's answers,
// which come on standard input. README.md says what is enumerated and in which order.
#![tactic(auto)]

mod families;
mod sets;

ghost use Rattle.std.specs.Prelude.{◌≤◌};

use families::Family;
use harness::{input, print};
use sets::Set;

// The families of a set, by length, up to the first that has too few sums.
fn lengths(set: Set, from: usize, past: usize) -> Option<()>
    requires { past ≤ 7 }
{
    for len in from..past {
        Family { set, len }.told()?;
    }
    Some(())
}

fn all() -> Option<()> {
    lengths(Set::Bytes, 1, 3)?;
    lengths(Set::BorderBytes, 3, 5)?;
    lengths(Set::BorderUnits, 1, 5)?;
    lengths(Set::ZeroBytes, 0, 7)?;
    lengths(Set::ZeroUnits, 0, 7)
}

fn main() {
    if all().is_none() {
        return print::line("standard input is short");
    }
    if input::next_letter().is_some() {
        print::line("left over");
    }
}
