// The stream of bits of lent bytes, forward or reversed: some of its bits at once, as a number. For the crates above: all of it is inner.
#![tactic(auto)]

ghost use Rattle.std.specs.Prelude.{◌≡◌, reverse, ◌+◌, ◌*◌, ◌^◌, ◌≤◌, ◌<◌, length, take, drop};
ghost use Rattle.stream.specs.Stream.{bits_from, stream, number, bits_of};

// Five bits turned round, the last of them the lowest, for each five bits.
const TURNED: [u8; 32] = [
    0, 16, 8, 24, 4, 20, 12, 28, 2, 18, 10, 26, 6, 22, 14, 30, 1, 17, 9, 25, 5, 21, 13, 29, 3, 19,
    11, 27, 7, 23, 15, 31,
];

// The `width` lowest bits of w turned round, five at a look.
fn turned(w: usize, width: usize) -> usize
    requires { (w < 1024) × (width ≤ 10) }
    ensures { (result ≡ number (reverse (bits_of width w))) × (result < 2 ^ width) }
{
    let five = TURNED;
    (32 * wide(five[w % 32]) + wide(five[w / 32])) >> (10 - width)
}

// A byte as a wider number: read through it, an element asks for its index alone.
fn wide(b: u8) -> usize
    ensures { (result ≡ b) × (result < 256) }
{
    b as usize
}

// The number of one to eight bits of the lent bytes, from bit `place` on, the first the lowest. They stand in two bytes, or in one, which
// is then taken twice.
fn window(s: &[u8], place: usize, width: usize) -> usize
    requires { (place + width ≤ 8 * length s.now) × (1 ≤ width) × (width ≤ 8) }
    ensures { (result ≡ number (bits_from s.now place width)) × (result < 2 ^ width) }
{
    let first = place / 8;
    let shift = place % 8;
    let last = first + (shift + width - 1) / 8;
    let word = wide(s[first]) + 256 * wide(s[last]);
    (word >> shift) % (1 << width)
}

// The number of the ten bits of the lent bytes that stand `shift` bits into the four bytes from `first` on.
fn ten(s: &[u8], first: usize, shift: usize) -> usize
    requires { (first + 4 ≤ length s.now) × (shift + 10 ≤ 32) }
    ensures { (result ≡ number (bits_from s.now (8 * first + shift) 10)) × (result < 1024) }
{
    ((text::u32_at(s, first) >> shift) % 1024) as usize
}

// The first `count` bits of lent bytes, read forward, or reversed: the last of them first.
#[derive(Clone, Copy)]
pub struct Stream<'a> {
    pub bytes: &'a [u8],
    pub count: usize,
    pub reversed: bool,
    pub ghost lent: { count ≤ 8 * length bytes.now },
    // Behind a `&` a number's range is known where it is read, and from this everywhere.
    pub ghost fits: { count < 2 ^ 64 },
}

impl<'a> Stream<'a> {
    ghost use Rattle.stream.specs.Bits.{all_bits};

    // The number of the `width` bits from bit `at` on.
    pub fn number_at(&self, at: usize, width: usize) -> u8
        requires { (at + width ≤ self.now.count) × (1 ≤ width) × (width ≤ 8) }
        ensures { (result ≡ number (take width (drop at (all_bits self.now)))) × (result < 2 ^ width) }
    {
        if self.reversed {
            return turned(window(self.bytes, self.count - at - width, width), width) as u8;
        }
        window(self.bytes, at, width) as u8
    }

    // "Read ten bits at once, the first lowest": those from bit `at` on. With 32 bits left, four bytes are there that have them all.
    pub fn ten_at(&self, at: usize) -> usize
        requires { at + 32 ≤ self.now.count }
        ensures { (result ≡ number (take 10 (drop at (all_bits self.now)))) × (result < 1024) }
    {
        if self.reversed {
            let last = self.count - at - 1;
            return turned(ten(self.bytes, last / 8 - 3, last % 8 + 15), 10);
        }
        ten(self.bytes, at / 8, at % 8)
    }
}
