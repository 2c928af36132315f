// A line of a script taken apart: its words, its tag, a text typed in groups.
#![tactic(auto)]

ghost use Rattle.std.specs.Prelude.{◌≡◌, cond, ◌+◌, ◌-◌, ◌≤◌, ◌<◌, length, take, drop, set};
ghost use Rattle.text.specs.Numbers.{put};
ghost use Rattle.script.specs.Words.{is_space, first_word, after_words, word, spaces, gap, plain, is_blank, trimmed, is_tag, untagged, solid, same};

// Where the word that starts at `from` ends.
fn end_of(line: &[u8], from: usize) -> usize
    requires { from ≤ length line.now }
    ensures { (result ≡ from + length (first_word (drop from line.now))) × (result ≤ length line.now) }
{
    for i in from..line.len() {
        if line[i] == b' ' {
            return i;
        }
    }
    line.len()
}

// Where word k starts; the line's end where there is none.
fn start_of(line: &[u8], k: usize) -> usize
    ensures { (result ≤ length line.now) × (drop result line.now ≡ after_words k line.now) }
{
    let mut at = 0;
    for _ in 0..k {
        let e = end_of(line, at);
        if line.len() <= e {
            return e;
        }
        at = e + 1;
    }
    at
}

// The line from word k on, the first being word 0; empty where there is none.
pub fn from_word(line: &[u8], k: usize) -> &[u8]
    ensures { result.now ≡ after_words k line.now }
{
    let a = start_of(line, k);
    &line[a..]
}

// The word that starts at the byte `from`: a part of the line, empty past its end. By these a long line is walked once.
pub fn word_at(line: &[u8], from: usize) -> &[u8]
    ensures { (result.now ≡ first_word (drop from line.now)) × (length result.now ≤ length line.now - from) }
{
    if line.len() <= from {
        return &line[..0];
    }
    let e = end_of(line, from);
    &line[from..e]
}

// Word k of a line: a part of the line, empty where there is none.
pub fn word(line: &[u8], k: usize) -> &[u8]
    ensures { result.now ≡ word k line.now }
{
    word_at(line, start_of(line, k))
}

// How many words follow the first.
pub fn operands(line: &[u8]) -> usize
    ensures { result ≡ spaces line.now }
{
    line.iter().filter(|&&b| b == b' ').count()
}

// Whether a word of a line is empty.
pub fn has_gap(line: &[u8]) -> bool
    ensures { result ≡ gap line.now }
{
    let mut space = true;
    for &b in line {
        let now = b == b' ';
        if space && now {
            return true;
        }
        space = now;
    }
    space
}

// The text that a word writes: `-` alone stands for the empty one.
#[tactic(auto, using(crate::proofs::Words::plain_is))]
pub fn text_of(w: &[u8]) -> &[u8]
    ensures { result.now ≡ plain w.now }
{
    if is_same(w, b"-") { &w[..0] } else { w }
}

fn is_blank(b: u8) -> bool
    ensures { result ≡ is_blank b }
{
    b == b' ' || b == b'\r'
}

// A line without the blanks at its end.
pub fn trimmed(line: &[u8]) -> &[u8]
    ensures { result.now ≡ trimmed line.now }
{
    let mut rest = line;
    while let [front @ .., last] = rest {
        if !is_blank(*last) {
            return rest;
        }
        rest = front;
    }
    rest
}

fn is_tag(w: &[u8]) -> bool
    ensures { result ≡ is_tag w.now }
{
    w.ends_with(b":")
}

// A line without its tag.
pub fn untagged(line: &[u8]) -> &[u8]
    ensures { result.now ≡ untagged line.now }
{
    if is_tag(word(line, 0)) {
        return from_word(line, 1);
    }
    line
}

// Writes a byte that isn't a space at n: where the next one goes.
fn put_solid(b: u8, room: &mut [u8], n: usize) -> usize
    requires { n < length room.old }
    ensures { (result ≡ cond (is_space b) n (n + 1)) × (room.new ≡ cond (is_space b) room.old (set room.old n b)) }
{
    if b == b' ' {
        return n;
    }
    room[n] = b;
    n + 1
}

// A text without its spaces, into the front of the room, as far as there is room: how many bytes that are.
pub fn solid(s: &[u8], room: &mut [u8]) -> usize
    ensures value { result ≡ length (take (length room.old) (solid s.now)) }
    ensures room_after { room.new ≡ put room.old 0 (take (length room.old) (solid s.now)) }
{
    let mut n = 0;
    for &b in s {
        if room.len() <= n {
            return n;
        }
        n = put_solid(b, room, n);
    }
    n
}

// Whether two texts are the same.
pub fn is_same(a: &[u8], b: &[u8]) -> bool
    ensures { result ≡ same a.now b.now }
{
    if a.len() != b.len() {
        return false;
    }
    for i in 0..a.len() {
        if a[i] != b[i] {
            return false;
        }
    }
    true
}
