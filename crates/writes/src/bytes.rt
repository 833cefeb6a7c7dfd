// The pattern that a buffer has before it is written to.
use numbers::Span;

fn pattern(place: usize) -> u8 {
    ((7 * (place % 251) + 3) % 251) as u8
}

pub fn fill(buffer: &mut [u8]) {
    for (place, b) in buffer.iter_mut().enumerate() {
        *b = pattern(place);
    }
}

// Whether n bytes of a buffer still have the pattern, as far as it goes.
pub fn is_kept(buffer: &[u8], from: usize, n: usize) -> bool {
    numbers::part(buffer, Span { at: from, len: n })
        .iter()
        .enumerate()
        .all(|(i, b)| *b == pattern(from.wrapping_add(i)))
}
