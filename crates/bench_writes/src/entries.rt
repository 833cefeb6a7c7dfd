// The command E: an entry is written to the front of a buffer that held a pattern.
use harness::print::RefusalWords;
use harness::{input, print, replies};
use record::{Kind, Shape};
use refusal::Refusal;
use write::Wrote;
use writes::{bytes, entries};

// The most that a list of digests has, and the most that a buffer has.
const DIGESTS_MOST: usize = 131072;

const ROOM_MOST: usize = 65536;

// Where form, register, type and room stand, and how many bytes they have in all.
const REGISTER: usize = 1;

const EVENT: usize = 5;

const ROOM: usize = 9;

const FIELDS: usize = 13;

// The letter, those fields, and the lengths of digests and data.
const HEAD: usize = 22;

fn answer_words(answer: Result<usize, Refusal>) {
    match answer {
        Ok(n) => print::say(format_args!("wrote {n}")),
        Err(r) => print::say(RefusalWords(r)),
    }
}

fn lines(before: Shape, wrote: Wrote, buffer: &[u8]) {
    let after = wrote.state;
    answer_words(wrote.answer);
    print::line(format_args!(
        " kind {} count {}",
        replies::kind_number(after.kind),
        after.pairs.count
    ));
    print::line(format_args!("buffer {}", replies::sum_of(buffer)));
    // It was the marker that was written: an agile record comes next, and none did before.
    if before.kind != Kind::Agile && after.kind == Kind::Agile {
        replies::pairs_line(after.pairs.table);
    }
}

// Writes into so much of a buffer as the fields give room, from the writer's state, and gives how many
// bytes the command has, or nothing where it is bad. Its buffers are large: in the frame of the caller
// they would cost every command.
#[inline(never)]
pub fn entry(state: &mut Shape, data: &mut [u8]) -> Option<usize> {
    let mut fields = [0u8; FIELDS];
    let mut digests = [0u8; DIGESTS_MOST];
    let mut buffer = [0u8; ROOM_MOST];
    let b = input::fill(&mut fields, FIELDS)?;
    let form = entries::form_of(numbers::byte(b, 0))?;
    let register = numbers::le32(b, REGISTER);
    let event = numbers::le32(b, EVENT);
    let buffer = buffer.get_mut(..numbers::le32(b, ROOM) as usize)?;
    let digests = input::counted(&mut digests)?;
    let data = input::counted(data)?;
    bytes::fill(buffer);
    let wrote = write::write(*state, form, register, event, digests, data, buffer);
    lines(*state, wrote, buffer);
    *state = wrote.state;
    Some(
        digests
            .len()
            .saturating_add(data.len())
            .saturating_add(HEAD),
    )
}
