// Wide text: units of two bytes.
ghost use Rattle.std.specs.Prelude.{◌≡◌, ◌∷◌, ◌+◌, ◌*◌, ◌%◌, length, MatchOption};
ghost use Rattle.text.specs.Rows.{step_of, formed};
ghost use Rattle.text.specs.Unicode.{wide_rows};
ghost use Rattle.text.specs.Text.{trimmed_of, units_of, wide_of};

use refusal::Why;

// How many bytes more the sequence of a unit has: none where a surrogate is unpaired. Past the end
// the number is 0, which is no surrogate.
fn more(unit: u16, after: &[u8]) -> Option<usize>
    ensures { MatchOption result (step_of wide_rows (unit ∷ units_of after.now) ≡ 0) (λ n. 2 * step_of wide_rows (unit ∷ units_of after.now) ≡ n + 2) }
{
    match unit {
        0xD800..=0xDBFF => match numbers::le16(after, 0) {
            0xDC00..=0xDFFF => Some(2),
            _ => None,
        },
        0xDC00..=0xDFFF => None,
        _ => Some(0),
    }
}

fn well_formed(s: &[u8]) -> bool
    ensures { result ≡ formed wide_rows 0 (units_of s.now) }
{
    let mut rest = s;
    while let Some((unit, after)) = rest.split_first_chunk::<2>() {
        let Some(n) = more(u16::from_le_bytes(*unit), after) else {
            return false;
        };
        rest = &after[n..];
    }
    true
}

// The length in bytes without trailing zero units. It is the text's of `utf8` over another unit: one
// form for both would be longer than the two.
fn trimmed(s: &[u8]) -> usize
    requires { length s.now % 2 ≡ 0 }
    ensures { result ≡ 2 * trimmed_of (units_of s.now) }
{
    let mut kept = s;
    while let Some((front, unit)) = kept.split_last_chunk::<2>() {
        if u16::from_le_bytes(*unit) != 0 {
            return kept.len();
        }
        kept = front;
    }
    0
}

// The length in bytes without trailing zero units, or refusal 8, or 10.
#[tactic(auto, unfolding(crate::specs::Text::wide_of))]
pub fn check(s: &[u8]) -> Result<usize, Why>
    ensures { result ≡ wide_of s.now }
{
    if s.len() % 2 != 0 {
        return Err(Why::Unaligned);
    }
    if well_formed(s) {
        Ok(trimmed(s))
    } else {
        Err(Why::BadText)
    }
}
