// Numbers in decimal and bytes in hexadecimal, as a text writes them.
#![tactic(auto)]

ghost use Rattle.std.specs.Prelude.{◌≡◌, true, [], ◌∷◌, ◌+◌, ◌*◌, ◌/◌, ◌%◌, ◌≤◌, ◌<◌, cond, leb, ltb, length, get_or};
ghost use Rattle.text.specs.Bytes.{every};
ghost use Rattle.text.specs.Numbers.{decimal, put};
ghost use Rattle.reasons.specs.Reasons.{gives, demand};
ghost use Rattle.numerals.specs.Numbers.{said_word, number_rule, is_hex, hex_value, bytes_in, bytes_rule, bytes_room, glyph, hex_text};

// Why a word isn't understood.
#[derive(Clone, Copy, Debug, PartialEq, Eq)]
pub enum Unclear {
    NotNumber,
    LargeNumber,
    NotBytes,
    ManyBytes,
}

// ---- numbers

// Whether v with the digit d after it is above most.
fn passes_over(v: u64, d: u64, most: u64) -> bool
    ensures { result ≡ ltb most (10 * v + d) }
{
    most < d || (most - d) / 10 < v
}

// The number that a run of digits writes.
fn digits(w: &[u8], most: u64) -> Result<u64, Unclear>
    ensures { said_word result ≡ demand (leb (decimal w.now) most) 2 (gives (decimal w.now)) }
{
    let mut v: u64 = 0;
    for &b in w {
        let d = text::digit_value(b);
        if passes_over(v, d, most) {
            return Err(Unclear::LargeNumber);
        }
        v = 10 * v + d;
    }
    Ok(v)
}

// The number that a word writes, of a field that holds no more than `most`.
#[tactic(auto, unfolding(crate::specs::Numbers::number_rule))]
pub fn number_in(w: &[u8], most: u64) -> Result<u64, Unclear>
    ensures { said_word result ≡ number_rule w.now most }
{
    if w.is_empty() || !text::all_digits(w) {
        return Err(Unclear::NotNumber);
    }
    digits(w, most)
}

// ---- bytes

// What a hexadecimal digit stands for.
#[tactic(auto, unfolding(crate::specs::Numbers::hex_value, crate::specs::Numbers::is_hex))]
fn hex_value(b: u8) -> Option<u8>
    ensures { result ≡ cond (is_hex b) (Some (hex_value b)) None }
{
    match b {
        b'0'..=b'9' => Some(b - 48),
        b'A'..=b'F' => Some(b - 55),
        b'a'..=b'f' => Some(b - 87),
        _ => None,
    }
}

fn all_hex(w: &[u8]) -> bool
    ensures { result ≡ every is_hex w.now }
{
    for &b in w {
        if hex_value(b).is_none() {
            return false;
        }
    }
    true
}

// The byte that pair k of a word writes.
fn pair_at(w: &[u8], k: usize) -> u8
    requires { (2 * k + 2 ≤ length w.now) × (every is_hex w.now ≡ true) }
    ensures { result ≡ get_or (bytes_in w.now) k 0 }
{
    let i = 2 * k;
    16 * hex_value(w[i]).unwrap() + hex_value(w[i + 1]).unwrap()
}

// Writes the bytes of a word over the front of the room.
fn write_bytes(w: &[u8], out: &mut [u8])
    requires { (length w.now / 2 ≤ length out.old) × (length w.now % 2 ≡ 0) × (every is_hex w.now ≡ true) }
    ensures { out.new ≡ put out.old 0 (bytes_in w.now) }
{
    for k in 0..w.len() / 2 {
        out[k] = pair_at(w, k);
    }
}

// The bytes that a word writes, into the front of the room; nothing is written where it isn't understood.
#[tactic(auto, unfolding(crate::specs::Numbers::bytes_rule, crate::specs::Numbers::bytes_room))]
pub fn bytes_in(w: &[u8], out: &mut [u8]) -> Result<usize, Unclear>
    ensures { (said_word result ≡ bytes_rule w.now (length out.old))
        × (out.new ≡ bytes_room w.now out.old) }
{
    if w.len() % 2 != 0 || !all_hex(w) {
        return Err(Unclear::NotBytes);
    }
    let count = w.len() / 2;
    if out.len() < count {
        return Err(Unclear::ManyBytes);
    }
    write_bytes(w, out);
    Ok(count)
}

// The hexadecimal digit that stands for n.
#[tactic(auto, unfolding(crate::specs::Numbers::glyph))]
fn glyph_of(n: u8) -> u8
    requires { n < 16 }
    ensures { result ≡ glyph n }
{
    if n < 10 { 48 + n } else { 55 + n }
}

// The two hexadecimal digits of a byte.
#[tactic(auto, unfolding(crate::specs::Numbers::hex_text))]
pub fn hex_of(b: u8) -> [u8; 2]
    ensures { result ≡ hex_text (b ∷ []) }
{
    [glyph_of(b / 16), glyph_of(b % 16)]
}
