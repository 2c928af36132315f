// Reading a track from the stream of bits, one way and either way round. For the crates above: all of it is inner.
#![tactic(auto)]

ghost use Rattle.std.specs.Prelude.{◌≡◌, false, cond, ◌+◌, ◌*◌, ◌≤◌, length, drop, eqb};
ghost use Rattle.stream.specs.Stream.{stream};
ghost use Rattle.stream.specs.Bits.{all_bits};
ghost use Rattle.reasons.specs.Reasons.{number_of};
ghost use Rattle.chars.specs.Reading.{read_one};
ghost use Rattle.chars.specs.Shape.{format_of, body_of, found, found_count};
ghost use Rattle.bits.specs.Reading.{read_either, bytes_after, said, counted, Reads};
ghost use Rattle.bits.specs.Ways.{WayRead};

use chars::Shape;
use reasons::Reason;
use stream::Stream;

// The characters from `from` on, into `out`, to the end of the stream: two at a look, and what is left one by one.
fn read_body(s: &Stream, from: usize, h: Shape, out: &mut [u8]) -> Result<usize, Reason>
    requires { (from ≤ s.now.count) × (h.limit ≤ length out.old + 1) }
    ensures { (found result out.new ≡ body_of h (drop from (all_bits s.now))) × (found_count result + 2 ≤ h.limit) }
{
    let b = pairs::by_pairs(s, from, h, out);
    chars::read_rest(s, b, h, out)
}

// A reading one way: the count of the characters. Where it refuses, `out` may hold characters too.
fn read_one(s: &Stream, h: Shape, out: &mut [u8]) -> Result<usize, Reason>
    requires { (h.limit ≤ length out.old + 1) }
    ensures { (found result out.new ≡ read_one (format_of h) (all_bits s.now)) × (found_count result + 2 ≤ h.limit) }
{
    let at = chars::first_one(s, 0);
    if s.count - at <= h.size {
        return Err(Reason::NoStart);
    }
    if s.number_at(at + 1, h.size) != h.start {
        return Err(Reason::NoStart);
    }
    read_body(s, at + 1 + h.size, h, out)
}

// A reading one way whose characters go to the output; where it refuses, the output stays.
fn read_way(s: &Stream, h: Shape, out: &mut [u8]) -> Result<usize, Reason>
    requires { (h.limit ≤ length out.old + 2) }
    ensures { WayRead result (read_one (format_of h) (all_bits s.now)) out.old out.new }
{
    let mut chars = [0u8; 77];
    let n = read_one(s, h, &mut chars)?;
    text::put_at(out, 0, &chars[..n]);
    Ok(n)
}

// "forward's number, unless that is 8, when it is the reversed reading's number"
fn blamed(forward: Reason, reversed: Reason) -> Reason
    ensures { number_of result ≡ cond (eqb (number_of forward) 8) (number_of reversed) (number_of forward) }
{
    match forward {
        Reason::NoStart => reversed,
        _ => forward,
    }
}

// What a reading either way round read: the count of the characters, and the direction.
#[derive(Clone, Copy, Debug, PartialEq, Eq)]
pub enum Read {
    Forward(usize),
    Reversed(usize),
}

// The reading forward, and where it is refused the reading reversed.
fn read_ways(bytes: &[u8], count: usize, h: Shape, out: &mut [u8]) -> Result<Read, Reason>
    requires { (count ≤ 8 * length bytes.now) × (h.limit ≤ length out.old + 2) }
    ensures { (said result ≡ counted (read_either (format_of h) (stream false bytes.now count)))
        × (out.new ≡ bytes_after (read_either (format_of h) (stream false bytes.now count)) out.old) }
{
    let forward = Stream {
        bytes,
        count,
        reversed: false,
    };
    match read_way(&forward, h, out) {
        Ok(n) => Ok(Read::Forward(n)),
        Err(ahead) => {
            let back = Stream {
                bytes,
                count,
                reversed: true,
            };
            match read_way(&back, h, out) {
                Ok(n) => Ok(Read::Reversed(n)),
                Err(behind) => Err(blamed(ahead, behind)),
            }
        }
    }
}

// Output too short, then the bit count, then the reading either way round.
pub fn read_either(bytes: &[u8], bits: u64, h: Shape, out: &mut [u8]) -> Result<Read, Reason>
    ensures { Reads (format_of h) bytes.now bits out.old result out.new }
{
    if out.len() < h.limit - 2 {
        return Err(Reason::ShortOutput);
    }
    if 4096 < bits {
        return Err(Reason::BadBitCount);
    }
    let count = bits as usize;
    if bytes.len() < (count + 7) / 8 {
        return Err(Reason::BadBitCount);
    }
    read_ways(bytes, count, h, out)
}
