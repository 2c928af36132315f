// Two characters of track 2 at a look: the table of ten bits (request E9), and the reading by it. For the crates above: all of it is inner.
#![tactic(auto)]

mod entries;

ghost use Rattle.std.specs.Prelude.{◌≡◌, false, ◌+◌, ◌-◌, ◌*◌, ◌/◌, ◌%◌, ◌≤◌, ◌<◌, length, take, drop};
ghost use Rattle.std.specs.Int.Bits.{bit_xor};
ghost use Rattle.stream.specs.Stream.{number};
ghost use Rattle.stream.specs.Bits.{all_bits};
ghost use Rattle.chars.specs.Shape.{body_of, rest_of};
ghost use Rattle.pairs.specs.Pairs.{pair_of, pair_table, GoOn, with_two};

use chars::{Begun, Shape};
use stream::Stream;

// The table by value, for a reading to take once: a constant is put together anew wherever it is named, and this is the only place.
fn table() -> [u16; 1024]
    ensures { result ≡ pair_table }
{
    entries::PAIRS
}

// What the table says of the two characters at a place, of four data bits each.
fn pair_at(table: &[u16; 1024], s: &Stream, at: usize) -> u16
    requires { (table.now ≡ pair_table) × (at + 32 ≤ s.now.count) }
    ensures { result ≡ pair_of (number (take 10 (drop at (all_bits s.now)))) }
{
    table[s.ten_at(at)]
}

// Whether the looks stop here: one of the two characters is the end sentinel, or has even parity.
fn stops(pair: u16, last: u8) -> bool
    ensures { result ≡ false → GoOn last pair }
{
    pair % 16 == last as u16 || pair / 16 == last as u16 || 255 < pair
}

// Both characters of a look, into `out` from `len` on; the exclusive or with their numbers.
fn take_two(pair: u16, base: u8, lrc: u8, len: usize, out: &mut [u8]) -> u8
    requires { (pair < 256) × (base ≤ 128) × (len + 2 ≤ length out.old) }
    ensures { (result ≡ bit_xor (bit_xor lrc (pair % 16)) (pair / 16)) × (out.new ≡ with_two out.old len base pair) }
{
    let n = (pair % 16) as u8;
    let m = (pair / 16) as u8;
    out[len] = base + n;
    out[len + 1] = base + m;
    lrc ^ n ^ m
}

// How many looks there may be with so many bits left and so many characters that may come: the first wants 32 bits, each further one ten
// more. Counted beforehand, they leave the loop one test.
fn looks(left: usize, more: usize) -> usize
    ensures { (2 * result ≤ more) × (10 * result ≤ left - 22) }
{
    if left < 32 {
        return 0;
    }
    ((left - 32) / 10 + 1).min(more / 2)
}

// The characters from `from` on, two at a look, into `out`, up to where the looks stop or 32 bits aren't left; none where the shape isn't read so.
pub fn by_pairs(s: &Stream, from: usize, h: Shape, out: &mut [u8]) -> Begun
    requires { (from ≤ s.now.count) × (h.limit ≤ length out.old + 1) }
    ensures { (body_of h (drop from (all_bits s.now))
        ≡ rest_of h result.len result.lrc (take result.len out.new) (drop result.at (all_bits s.now)))
        × (result.at ≤ s.now.count) × (result.len + 1 ≤ h.limit) }
{
    let mut b = Begun {
        at: from,
        len: 0,
        lrc: h.first,
    };
    if !h.pairs {
        return b;
    }
    let table = table();
    for _look in 0..looks(s.count - from, h.limit - 1) {
        let pair = pair_at(&table, s, b.at);
        if stops(pair, h.last) {
            return b;
        }
        b.lrc = take_two(pair, h.base, b.lrc, b.len, out);
        b.at += 10;
        b.len += 2;
    }
    b
}
