// The number that a text writes, its remainder, and the pair. For the crates above: all of it is inner.
ghost use Rattle.std.specs.Prelude.{◌≡◌, [], ◌∷◌, ◌<◌, ◌≤◌, ◌%◌, length};
ghost use Rattle.mod97.specs.Text.{number, number_after};
ghost use Rattle.mod97.specs.Pair.{leaves, pair_digits, pair_of, checks, pair_for};

#[tactic(auto, unfolding(crate::specs::Text::number))]
fn number_of(b: u8) -> u64
    ensures { (result ≡ number b) × (result ≤ 200) }
{
    if b < b'A' {
        return b.saturating_sub(b'0') as u64;
    }
    (b - 55) as u64
}

// v, or once it is long its remainder: one more character can then be written after it. A remainder is taken every dozen characters, not after each.
fn with_room(v: u64) -> u64
    ensures { (result % 97 ≡ v % 97) × (result < 100000000000000000) }
{
    if v < 100000000000000000 {
        return v;
    }
    v % 97
}

// The number once the character's number, of one digit or two, is written after v.
fn written_after(v: u64, b: u8) -> u64
    requires { v < 100000000000000000 }
    ensures { result ≡ number_after v (b ∷ []) }
{
    if b < 58 {
        return 10 * v + number_of(b);
    }
    100 * v + number_of(b)
}

// The number that start and the text's characters after it write, or one with the same remainder.
fn read_after(s: &[u8], start: u64) -> u64
    ensures { result % 97 ≡ number_after start s.now % 97 }
{
    let mut v = start;
    for &b in s {
        v = written_after(with_room(v), b);
    }
    v
}

// The remainder of the text's number, its first four characters moved to the end.
fn moved_remainder(s: &[u8]) -> u64
    requires { 4 ≤ length s.now }
    ensures { result ≡ leaves s.now }
{
    let v = read_after(&s[4..], 0);
    read_after(&s[0..4], v) % 97
}

// Whether places 3 and 4 hold digits.
#[tactic(auto, unfolding(crate::specs::Pair::pair_digits))]
pub fn pair_digits(s: &[u8]) -> bool
    requires { 4 ≤ length s.now }
    ensures { result ≡ pair_digits s.now }
{
    text::is_digit(s[2]) && text::is_digit(s[3])
}

#[tactic(auto, unfolding(crate::specs::Pair::pair_of))]
fn pair_of(s: &[u8]) -> u64
    requires { 4 ≤ length s.now }
    ensures { result ≡ pair_of s.now }
{
    10 * number_of(s[2]) + number_of(s[3])
}

// Whether the pair is 02 to 98 and the remainder 1.
#[tactic(auto, unfolding(crate::specs::Pair::checks))]
pub fn checks_out(s: &[u8]) -> bool
    requires { 4 ≤ length s.now }
    ensures { result ≡ checks s.now }
{
    let p = pair_of(s);
    2 <= p && p <= 98 && moved_remainder(s) == 1
}

// The pair that is made for two letters and a body.
pub fn pair_for(letters: &[u8], body: &[u8]) -> u32
    requires { length letters.now ≡ 2 }
    ensures { result ≡ pair_for letters.now body.now }
{
    let v = read_after(body, 0);
    let w = read_after(letters, v);
    (98 - read_after(b"00", w) % 97) as u32
}
