// Lines on standard output. A program that tells a slot, an ending or a refusal tells it in these
// words.
use crate::input::Broken;
use contents::{Contents, Separated};
use numbers::Span;
use record::Slot;
use refusal::{Ending, LOG_MOST, Refusal};
use std::fmt;

// So many bytes are gathered before they are written.
const GATHERED: usize = 256;

// Standard output by its number: std's own printing would assume C's error texts too. Words are gathered,
// so that most lines take one write and not one a word.
#[derive(Drop)]
struct Out {
    gathered: [u8; GATHERED],
    len: usize,
}

impl Out {
    // What cannot be written is left out, and what comes after it is tried.
    fn flush(&mut self) {
        io::write_all(1, self.gathered.get(..self.len).unwrap_or(&[]));
        self.len = 0;
    }
}

impl fmt::Write for Out {
    fn write_str(&mut self, words: &str) -> fmt::Result {
        let words = words.as_bytes();
        if GATHERED - self.len.min(GATHERED) < words.len() {
            self.flush();
        }
        match self
            .gathered
            .get_mut(self.len..)
            .and_then(|rest| rest.get_mut(..words.len()))
        {
            Some(room) => {
                room.copy_from_slice(words);
                self.len = self.len.wrapping_add(words.len());
            }
            None => {
                io::write_all(1, words);
            }
        }
        Ok(())
    }
}

pub fn say<D: fmt::Display + Drop>(words: D) {
    let mut out = Out {
        gathered: [0; GATHERED],
        len: 0,
    };
    let _ = fmt::Write::write_fmt(&mut out, format_args!("{words}"));
    out.flush();
}

pub fn line<D: fmt::Display + Drop>(words: D) {
    say(format_args!("{words}\n"));
}

// There is no log, task or part with an index, for what is wrong with the input.
pub fn broken(why: Broken, what: &str, index: u64) {
    match why {
        Broken::Short => line(format_args!("standard input ends inside {what} {index}")),
        Broken::Long => line(format_args!("over {LOG_MOST} bytes: {what} {index}")),
    }
}

// A range as it is told: its start and its length.
#[derive(Clone, Copy)]
pub struct SpanWords(pub Span);

impl fmt::Display for SpanWords {
    fn fmt<W: fmt::Write>(&self, f: &mut fmt::Formatter<W>) -> fmt::Result {
        write!(f, "{}+{}", self.0.at, self.0.len)
    }
}

// A refusal in a program's words.
#[derive(Clone, Copy)]
pub struct RefusalWords(pub Refusal);

impl fmt::Display for RefusalWords {
    fn fmt<W: fmt::Write>(&self, f: &mut fmt::Formatter<W>) -> fmt::Result {
        write!(f, "refused {} at {}", u8::from(self.0.why), self.0.at)
    }
}

// How a log ends.
#[derive(Clone, Copy)]
pub struct EndingWords(pub Ending);

impl fmt::Display for EndingWords {
    fn fmt<W: fmt::Write>(&self, f: &mut fmt::Formatter<W>) -> fmt::Result {
        match self.0 {
            Ending::End { at, tail } => write!(f, "end at {at} tail {tail}"),
            Ending::Refused(r) => write!(f, "{}", RefusalWords(r)),
        }
    }
}

// The words before each of a slot's own numbers, in the order of crate `fields`.
const SLOT_WORDS: [&str; 8] = [
    "at ",
    " pcr ",
    " type ",
    " place ",
    " digests ",
    " data ",
    "+",
    " nth ",
];

// The words before each number of the contents, in the same order.
fn inside(c: Contents) -> &'static [&'static str] {
    match c {
        Contents::Empty | Contents::Separator(_) => &[],
        Contents::Text(_) => &[" text ", "+"],
        Contents::Variable(_) => &[" variable guid ", "+", " name ", "+", " data ", "+"],
        Contents::Image(_) => &[
            " image location ",
            " length ",
            " link ",
            " path ",
            "+",
            " nodes ",
            " extra ",
            "+",
        ],
        Contents::Gpt(_) => &[
            " gpt revision ",
            " size ",
            " spare ",
            " my ",
            " other ",
            " first ",
            " last ",
            " disk ",
            "+",
            " lba ",
            " reserved ",
            "+",
            " h ",
            " e ",
            " entries ",
        ],
        Contents::Blob(_) => &[" blob base ", " length "],
        Contents::Marker(_) => &[
            " marker class ",
            " minor ",
            " major ",
            " errata ",
            " uintn ",
            " pairs ",
            " vendor ",
            "+",
        ],
    }
}

// The words behind the numbers, where contents have no number to tell.
fn behind(c: Contents) -> &'static str {
    match c {
        Contents::Empty => " none",
        Contents::Separator(Separated::Uefi) => " separator uefi",
        Contents::Separator(Separated::Bios) => " separator bios",
        _ => "",
    }
}

// A slot with its contents, by its numbers.
#[derive(Clone, Copy)]
pub struct SlotWords(pub Slot);

impl fmt::Display for SlotWords {
    fn fmt<W: fmt::Write>(&self, f: &mut fmt::Formatter<W>) -> fmt::Result {
        let contents = self.0.contents;
        let numbers = fields::fields_of(self.0).numbers;
        for (word, n) in SLOT_WORDS
            .iter()
            .chain(inside(contents))
            .zip(numbers.iter())
        {
            write!(f, "{word}{n}")?;
        }
        f.write_str(behind(contents))
    }
}
