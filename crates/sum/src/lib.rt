// CRC-32 as UEFI has it, by the usual table of 256 remainders. The meaning is in specs/Sum.antt.
// A sum is a register that starts, takes one part more as often as there are parts, and ends:
//
//     let table = sum::table();
//     let first = sum::part(&table, sum::start(), a);
//     let second = sum::part(&table, first, b);
//     sum::end(second)
//
// The table is made once and lent: a constant that is indexed is written out anew each time.
#![tactic(auto)]

mod remainders;

ghost use Rattle.std.specs.Prelude.{◌≡◌};
ghost use Rattle.sum.specs.Sum.{complement, remainders, table_from};

use remainders::REMAINDERS;

pub fn table() -> [u32; 256]
    ensures { result ≡ remainders }
{
    REMAINDERS
}

// The register before the first byte.
pub fn start() -> u32
    ensures { result ≡ complement 0 }
{
    0xffff_ffff
}

// The register after the bytes of one part more.
#[tactic(auto, unfolding(crate::specs::Sum::table_from))]
pub fn part(table: &[u32; 256], register: u32, s: &[u8]) -> u32
    ensures { result ≡ table_from table.now register s.now }
{
    let mut r = register;
    for b in s {
        let x = u32::from(*b) ^ r;
        r = (x / 256) ^ table[(x % 256) as usize];
    }
    r
}

// The sum that a register stands for after the last byte.
pub fn end(register: u32) -> u32
    ensures { result ≡ complement register }
{
    register ^ 0xffff_ffff
}
