// Bytes of a text: digits and capitals, numbers in bytes and in digits. For the crates above: all of it is inner.
#![tactic(auto)]

ghost use Rattle.std.specs.Prelude.{◌≡◌, true, ◌+◌, ◌-◌, ◌≤◌, length};
ghost use Rattle.text.specs.Bytes.{is_digit, is_capital, all_digits};
ghost use Rattle.text.specs.Numbers.{u16_at, u32_at, le16, le32, put, decimal};
ghost use Rattle.text.specs.Parts.{PieceOf};

#[tactic(auto, unfolding(crate::specs::Bytes::is_digit))]
pub fn is_digit(b: u8) -> bool
    ensures { result ≡ is_digit b }
{
    b.is_ascii_digit()
}

#[tactic(auto, unfolding(crate::specs::Bytes::is_capital))]
pub fn is_capital(b: u8) -> bool
    ensures { result ≡ is_capital b }
{
    b.is_ascii_uppercase()
}

// Looks at every byte, with no way out in between: the compiler then takes sixteen at a time.
#[tactic(auto, using(crate::proofs::Every::turn_on))]
pub fn all_digits(s: &[u8]) -> bool
    ensures { result ≡ all_digits s.now }
{
    let mut digits = true;
    for &b in s {
        digits = digits & is_digit(b);
    }
    digits
}

// What the digit b stands for.
pub fn digit_value(b: u8) -> u64
    ensures { (result ≡ b - 48) × (result ≤ 207) }
{
    u64::from(b.saturating_sub(b'0'))
}

// The number that at most 19 digits write.
pub fn decimal(s: &[u8]) -> u64
    requires s_len_bound { length s.now ≤ 19 }
    requires s_value { all_digits s.now ≡ true }
    ensures { result ≡ decimal s.now }
{
    let mut v: u64 = 0;
    for &b in s {
        v = 10 * v + digit_value(b);
    }
    v
}

// The number in the two bytes from `at`, lowest first.
#[tactic(auto, unfolding(crate::specs::Numbers::u16_at))]
pub fn u16_at(s: &[u8], at: usize) -> u16
    requires { at + 2 ≤ length s.now }
    ensures { result ≡ u16_at s.now at }
{
    u16::from_le_bytes([s[at], s[at + 1]])
}

// The number in the four bytes from `at`, lowest first.
#[tactic(auto, unfolding(crate::specs::Numbers::u32_at))]
pub fn u32_at(s: &[u8], at: usize) -> u32
    requires { at + 4 ≤ length s.now }
    ensures { result ≡ u32_at s.now at }
{
    u32::from_le_bytes([s[at], s[at + 1], s[at + 2], s[at + 3]])
}

// The two bytes of x, lowest first.
#[tactic(auto, unfolding(crate::specs::Numbers::le16))]
pub fn le16_of(x: u16) -> [u8; 2]
    ensures { result ≡ le16 x }
{
    x.to_le_bytes()
}

// The four bytes of x, lowest first.
#[tactic(auto, unfolding(crate::specs::Numbers::le32))]
pub fn le32_of(x: u32) -> [u8; 4]
    ensures { result ≡ le32 x }
{
    x.to_le_bytes()
}

// Writes vs over s from `at`.
#[tactic(auto, unfolding(crate::specs::Numbers::put))]
pub fn put_at(s: &mut [u8], at: usize, vs: &[u8])
    requires { at + length vs.now ≤ length s.old }
    ensures { s.new ≡ put s.old at vs.now }
{
    s[at..at + vs.len()].copy_from_slice(vs);
}

// The n bytes from `at`, fewer where the text ends: a part of it.
pub fn piece(s: &[u8], at: usize, n: usize) -> &[u8]
    ensures { PieceOf s.entry at n result }
{
    if s.len() <= at {
        return &s[..0];
    }
    if s.len() - at < n {
        return &s[at..];
    }
    let end = at + n;
    &s[at..end]
}
