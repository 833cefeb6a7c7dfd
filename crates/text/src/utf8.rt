// UTF-8, checked by the classes of its bytes. Runs of plain bytes, those below 0x80, are passed
// without them.
ghost use Rattle.std.specs.Prelude.{◌≡◌, true, false, cond, ◌∷◌, ℕ, ◌+◌, ◌-◌, ◌<◌, ◌≤◌, Some, None, length, drop, get_or, replicate, MatchOption, EachIndex};
ghost use Rattle.std.specs.List.{list_all};
ghost use Rattle.text.specs.Rows.{◌··◌, opens, inside, step_of, formed};
ghost use Rattle.text.specs.Unicode.{utf8_rows};
ghost use Rattle.text.specs.Classes.{class_of, classes_from};
ghost use Rattle.text.specs.Text.{trimmed_of, utf8_of};

use crate::classes::class_of;
use refusal::Why;

// So many plain bytes are passed at once at the start of a text.
const BLOCK: usize = 64;

// So many are passed at once in any run.
const WORD: usize = 8;

// The highest bit of each byte of a word.
const HIGH_BITS: u64 = 0x8080808080808080;

// Whether the class of a byte is from low to high.
fn is_in(b: u8, low: u8, high: u8) -> bool
    ensures { result ≡ inside (low ·· high) (class_of b) }
{
    (low..=high).contains(&class_of(b))
}

// Whether each byte is one that may follow a lead.
fn follow(s: &[u8]) -> bool
    ensures { result ≡ list_all (λ b. inside (1 ·· 3) (class_of b)) s.now }
{
    s.iter().all(|b| is_in(*b, 1, 3))
}

// So many bytes more, where these begin with them: the first with a class from low to high.
fn led(after: &[u8], low: u8, high: u8, more: usize) -> Option<usize>
    requires { 0 < more }
    ensures { result ≡ cond (opens (low ·· high ∷ replicate (more - 1) (1 ·· 3)) (classes_from after.now 0)) (Some more) None }
{
    let (first, others) = after.get(..more)?.split_first()?;
    (is_in(*first, low, high) && follow(others)).then_some(more)
}

// How many bytes more the sequence of a lead has: Unicode's rows, by the class of the lead.
fn more(lead: u8, after: &[u8]) -> Option<usize>
    ensures { MatchOption result (step_of utf8_rows (lead ∷ after.now) ≡ 0) (λ n. step_of utf8_rows (lead ∷ after.now) ≡ n + 1) }
{
    match class_of(lead) {
        0 => Some(0),
        4 => led(after, 1, 3, 1),
        5 => led(after, 3, 3, 2),
        6 => led(after, 1, 3, 2),
        7 => led(after, 1, 2, 2),
        8 => led(after, 1, 3, 2),
        9 => led(after, 2, 3, 3),
        10 => led(after, 1, 3, 3),
        11 => led(after, 1, 1, 3),
        _ => None,
    }
}

// The highest byte of a block, 0 where there is none.
fn highest(block: &[u8]) -> u8
    ensures { EachIndex block.now (λ i. get_or block.now i 0 ≤ result) }
{
    block.iter().copied().max().unwrap_or(0)
}

// Whether each byte of a block is below 0x80. A word is tested as one number.
fn is_plain(block: &[u8]) -> bool
    ensures { result ≡ true → (i : ℕ) → i < length block.now → get_or block.now i 0 < 0x80 }
{
    if block.len() == WORD {
        return numbers::le64(block, 0) & HIGH_BITS == 0;
    }
    highest(block) < 0x80
}

// What is left past the blocks of a size, one after the other, that are plain.
fn past_blocks(s: &[u8], size: usize) -> &[u8]
    requires { 0 < size }
    ensures { (length result.now ≤ length s.now) × (formed utf8_rows 0 result.now ≡ formed utf8_rows 0 s.now) × (result.now ≡ drop (length s.now - length result.now) s.now) }
{
    let mut rest = s;
    while let Some((block, after)) = rest.split_at_checked(size)
        && is_plain(block)
    {
        rest = after;
    }
    rest
}

// What is left past a run of plain bytes, by words and then one by one.
fn past_run(s: &[u8]) -> &[u8]
    ensures { (length result.now ≤ length s.now) × (formed utf8_rows 0 result.now ≡ formed utf8_rows 0 s.now) × (result.now ≡ drop (length s.now - length result.now) s.now) }
{
    past_blocks(past_blocks(s, WORD), 1)
}

// After a plain byte the rest of its run is passed.
fn well_formed(s: &[u8]) -> bool
    ensures { result ≡ formed utf8_rows 0 s.now }
{
    let mut rest = past_run(past_blocks(s, BLOCK));
    while let Some((lead, after)) = rest.split_first() {
        let Some(n) = more(*lead, after) else {
            return false;
        };
        rest = &after[n..];
        if n == 0 {
            rest = past_run(rest);
        }
    }
    true
}

// The length without trailing zero bytes.
fn trimmed(s: &[u8]) -> usize
    ensures { result ≡ trimmed_of s.now }
{
    let mut kept = s;
    while let Some((last, front)) = kept.split_last() {
        if *last != 0 {
            return kept.len();
        }
        kept = front;
    }
    0
}

// The length without trailing zero bytes, or refusal 10.
#[tactic(auto, unfolding(crate::specs::Text::utf8_of))]
pub fn check(s: &[u8]) -> Result<usize, Why>
    ensures { result ≡ utf8_of s.now }
{
    if well_formed(s) {
        Ok(trimmed(s))
    } else {
        Err(Why::BadText)
    }
}
