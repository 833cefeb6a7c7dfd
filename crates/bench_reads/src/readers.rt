// The commands P, G, U and X: a node of a path, an entry of a GPT, the two checks of text. Each gives
// how many bytes it had behind its fields, or nothing where it is bad.
use crate::items;
use harness::print::RefusalWords;
use harness::{input, print};
use refusal::{Refusal, Why};

fn indexed<L: Fn(&[u8], usize)>(data: &mut [u8], line: L) -> Option<usize>
    requires { L.IsAlwaysCallable line }
{
    let index = input::next_field()?;
    let s = input::counted(data)?;
    line(s, index as usize);
    Some(s.len())
}

pub fn node(data: &mut [u8]) -> Option<usize> {
    indexed(data, |s, index| items::node_line(path::read(s, index)))
}

pub fn entry(data: &mut [u8]) -> Option<usize> {
    indexed(data, |s, index| items::entry_line(gpt::read(s, index)))
}

// A text starts where its bytes do.
fn text_line(t: Result<usize, Why>) {
    match t {
        Ok(n) => print::line(format_args!("text 0+{n}")),
        Err(why) => print::line(RefusalWords(Refusal { why, at: 0 })),
    }
}

fn checked_text<C: Fn(&[u8]) -> Result<usize, Why>>(data: &mut [u8], check: C) -> Option<usize>
    requires { C.IsAlwaysCallable check }
{
    let s = input::counted(data)?;
    text_line(check(s));
    Some(s.len())
}

pub fn utf8_text(data: &mut [u8]) -> Option<usize> {
    checked_text(data, text::utf8::check)
}

pub fn wide_text(data: &mut [u8]) -> Option<usize> {
    checked_text(data, text::wide::check)
}
