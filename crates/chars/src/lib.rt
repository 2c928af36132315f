// The characters of a track, one by one, over their width: where they begin, what each is, and how they end. For the crates above: all of it is inner.
#![tactic(auto)]

mod shape;

ghost use Rattle.std.specs.Prelude.{◌≡◌, List, ℕ, ◌+◌, ◌*◌, ◌≤◌, ◌<◌, length, take, drop};
ghost use Rattle.stream.specs.Stream.{odd_ones};
ghost use Rattle.stream.specs.Bits.{all_bits};
ghost use Rattle.reasons.specs.Reasons.{gives, and_then, said};
ghost use Rattle.chars.specs.Reading.{next, skip, all_zero, finish};
ghost use Rattle.chars.specs.Shape.{rest_of, found, found_count};

use reasons::Reason;
pub use shape::Shape;
use stream::Stream;

// Parity: whether the ones among a character's bits are odd in number.
fn is_odd(w: u8) -> bool
    ensures { result ≡ odd_ones w }
{
    w.count_ones() % 2 == 1
}

// The number of the character at a place, or why there is none.
fn next_char(s: &Stream, at: usize, size: usize) -> Result<u8, Reason>
    requires { (at ≤ s.now.count) × (size ≤ 7) }
    ensures { said result ≡ next size (drop at (all_bits s.now)) }
{
    if s.count - at <= size {
        return Err(Reason::CutShort);
    }
    let w = s.number_at(at, size + 1);
    if is_odd(w) {
        let n = w % (1 << size);
        return Ok(n);
    }
    Err(Reason::WrongParity)
}

// The place of the first one bit from `from` on, or the count where there is none. Zeros are skipped eight at a time.
pub fn first_one(s: &Stream, from: usize) -> usize
    requires { from ≤ s.now.count }
    ensures { (skip (drop from (all_bits s.now)) ≡ drop result (all_bits s.now)) × (result ≤ s.now.count) }
{
    let mut at = from;
    while at < s.count {
        let width = (s.count - at).min(8);
        let w = s.number_at(at, width);
        if w != 0 {
            return at + w.trailing_zeros() as usize;
        }
        at += width;
    }
    at
}

// Whether all bits from `from` on are zero.
fn all_zero(s: &Stream, from: usize) -> bool
    requires { from ≤ s.now.count }
    ensures { result ≡ all_zero (drop from (all_bits s.now)) }
{
    first_one(s, from) == s.count
}

// After the end sentinel: the LRC character, which is to have the number x, and zeros behind it.
fn close(s: &Stream, at: usize, size: usize, x: u8) -> Result<(), Reason>
    requires { (at ≤ s.now.count) × (size ≤ 7) }
    ensures { (out : List ℕ) → and_then (said result) (λ _. gives out) ≡ finish size x out (drop at (all_bits s.now)) }
{
    let n = next_char(s, at, size)?;
    if n != x {
        return Err(Reason::WrongLrc);
    }
    if all_zero(s, at + size + 1) {
        return Ok(());
    }
    Err(Reason::MarksAfter)
}

// How far a reading has come: the place, the characters so far, and the exclusive or of their numbers and the start sentinel's.
#[derive(Clone, Copy)]
pub struct Begun {
    pub at: usize,
    pub len: usize,
    pub lrc: u8,
}

// The characters from where a reading has come, one by one, into `out` behind those that it has, to the end of the stream: their count
// with those, or why the track is refused.
pub fn read_rest(s: &Stream, b: Begun, h: Shape, out: &mut [u8]) -> Result<usize, Reason>
    requires { (b.at ≤ s.now.count) × (b.len + 1 ≤ h.limit) × (h.limit ≤ length out.old + 1) }
    ensures { (found result out.new ≡ rest_of h b.len b.lrc (take b.len out.old) (drop b.at (all_bits s.now)))
        × (found_count result + 2 ≤ h.limit) }
{
    let size = h.size;
    let mut lrc = b.lrc;
    let mut at = b.at;
    for len in b.len..h.limit - 1 {
        let n = next_char(s, at, size)?;
        at = at + size + 1;
        lrc ^= n;
        if n == h.last {
            close(s, at, size, lrc)?;
            return Ok(len);
        }
        out[len] = h.base + n;
    }
    Err(Reason::LongTrack)
}
