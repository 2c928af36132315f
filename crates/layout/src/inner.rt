// For the crates above: the steps of a division, over the track that it is of.
ghost use Rattle.std.specs.Prelude.{◌≡◌, Bool, List, ℕ, ◌<◌, ◌≤◌, ◌+◌, length, get_or, take, drop};
ghost use Rattle.std.specs.List.{prefix_len, list_all};
ghost use Rattle.text.specs.Bytes.{every};
ghost use Rattle.text.specs.Parts.{PartOf};
ghost use Rattle.layout.specs.Layout.{mark, is_named, allowed, is_expiry, is_service, lead, field_rule, past, expiry_rule, CutOf, field_cut};
ghost use Rattle.reasons.specs.Reasons.{said};

use crate::{Fields, Track};
use reasons::Reason;

impl Track {
    // What ends the PAN, and stands for an absent field: `=`, and on track 1 `^`.
    fn mark(self) -> u8
        ensures { result ≡ mark self }
    {
        match self {
            Track::Two => b'=',
            Track::One => b'^',
        }
    }

    // Whether discretionary data may hold each of the bytes.
    fn allows(self, bytes: &[u8]) -> bool
        ensures { result ≡ every (allowed self) bytes.now }
    {
        match self {
            Track::Two => text::all_digits(bytes),
            Track::One => all_named(bytes),
        }
    }
}

// Whether a byte may stand in a name: one of track 1's characters, but no sentinel and no mark.
#[tactic(auto, using(std::proofs::lemmas::Bool::Decides::nat_tests), unfolding(crate::specs::Layout::is_named))]
fn is_named(b: u8) -> bool
    ensures { result ≡ is_named b }
{
    32 <= b && b <= 95 && b != b'%' && b != b'?' && b != b'^'
}

// Whether each byte may stand in a name.
fn all_named(bytes: &[u8]) -> bool
    ensures { result ≡ list_all is_named bytes.now }
{
    bytes.iter().all(|b| is_named(*b))
}

// How many bytes of a name the text starts with.
pub fn named_of(chars: &[u8]) -> usize
    ensures { (result ≡ prefix_len is_named chars.now) × (result ≤ length chars.now) }
{
    chars.iter().take_while(|b| is_named(**b)).count()
}

// How many digits the text starts with.
pub fn lead_of(chars: &[u8]) -> usize
    ensures { (result ≡ lead chars.now) × (result ≤ length chars.now) }
{
    chars.iter().take_while(|b| text::is_digit(**b)).count()
}

// The byte at i, or 0 past the end.
pub fn byte_at(chars: &[u8], i: usize) -> u8
    ensures { result ≡ get_or chars.now i 0 }
{
    chars.get(i).copied().unwrap_or(0)
}

// Whether a text is four digits YYMM with MM 01 to 12.
fn is_expiry(t: &[u8]) -> bool
    ensures { result ≡ is_expiry t.now }
{
    if t.len() != 4 {
        return false;
    }
    if !text::all_digits(t) {
        return false;
    }
    let month = text::decimal(&t[2..]);
    1 <= month && month <= 12
}

// Whether a text is three digits.
#[tactic(auto, unfolding(crate::specs::Layout::is_service))]
fn is_service(t: &[u8]) -> bool
    ensures { result ≡ is_service t.now }
{
    t.len() == 3 && text::all_digits(t)
}

// The field that is due at `at`, where `fits` tells whether the bytes from there pass its test; the mark stands for none.
fn due_at(track: Track, chars: &[u8], at: usize, fits: bool) -> Result<Option<usize>, Reason>
    ensures { (test : List ℕ → Bool) (n : ℕ) → fits ≡ test (take n (drop at chars.now)) → said result ≡ field_rule track test n chars.now at }
{
    if byte_at(chars, at) == track.mark() {
        return Ok(None);
    }
    if fits {
        return Ok(Some(at));
    }
    Err(Reason::WrongLayout)
}

// Where the field behind one of n bytes starts, that is due at `at`.
fn past(n: usize, at: usize, field: Option<usize>) -> usize
    requires { at + n < 100 }
    ensures { result ≡ past n at field }
{
    match field {
        None => at + 1,
        Some(_) => at + n,
    }
}

// The division whose PAN has `pan` digits and whose expiry is due at `at`.
pub fn with_expiry(track: Track, chars: &[u8], pan: usize, at: usize) -> Result<Fields, Reason>
    requires { at < 90 }
    ensures { said result ≡ expiry_rule track chars.now pan at }
{
    let expiry = due_at(track, chars, at, is_expiry(text::piece(chars, at, 4)))?;
    let behind = past(4, at, expiry);
    let service = due_at(
        track,
        chars,
        behind,
        is_service(text::piece(chars, behind, 3)),
    )?;
    let rest = past(3, behind, service);
    if !track.allows(text::piece(chars, rest, chars.len())) {
        return Err(Reason::WrongLayout);
    }
    Ok(Fields {
        pan,
        expiry,
        service,
        rest,
    })
}

// The n bytes from `at`, in their own place.
pub fn cut(chars: &[u8], at: usize, n: usize) -> &[u8]
    requires { at + n ≤ length chars.now }
    ensures { PartOf chars.entry at n result }
{
    let end = at + n;
    &chars[at..end]
}

// A field of n bytes; an absent one gives an empty part.
pub fn field_of(chars: &[u8], field: Option<usize>, n: usize) -> &[u8]
    requires { (field_cut n field).start + (field_cut n field).size ≤ length chars.now }
    ensures { CutOf chars.entry (field_cut n field) result }
{
    match field {
        Some(at) => cut(chars, at, n),
        None => cut(chars, 0, 0),
    }
}
