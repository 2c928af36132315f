// The card that pays: from the stripe to a card that is neither expired nor blocked, the label of its range, and the days that it has left. For the
// crates above: all of it is inner.
#![tactic(auto)]

ghost use Rattle.std.specs.Prelude.{◌≡◌, true, ◌≤◌, length, drop};
ghost use Rattle.reasons.specs.Reasons.{said};
ghost use Rattle.bits.specs.Reading.{Reads};
ghost use Rattle.layout.specs.Grammar.{field_in};
ghost use Rattle.dates.specs.Dates.{real};
ghost use Rattle.payer.specs.Payer.{format, count_of, division_rule, room, terms_of, Sound, given, payer_rule, part_of, chars_rule, card_rule};
ghost use Rattle.payer.specs.Payer.{said_card, pan_end, Divided};

use bits::Read;
use dates::Date;
use layout::Track;
use reasons::Reason;

// On what terms a card pays: both tables, and the hot list beside the length of its PANs.
#[derive(Clone, Copy)]
pub struct Terms<'a> {
    pub site: &'a [u8],
    pub acquirer: &'a [u8],
    pub hot: &'a [u64],
    pub digits: u32,
}

// ---- the tracks that a swipe reads, and what differs between them

// The scratch that a track's characters need.
pub fn room_of(track: Track) -> usize
    ensures { result ≡ room track }
{
    match track {
        Track::Two => 37,
        Track::One => 76,
    }
}

// The reading.
fn read(track: Track, stream: &[u8], bits: u64, out: &mut [u8]) -> Result<Read, Reason>
    ensures { Reads (format track) stream.now bits out.old result out.new }
{
    match track {
        Track::Two => track2::read(stream, bits, out),
        Track::One => track1::read(stream, bits, out),
    }
}

// How many characters were read, whichever way.
fn count_of(way: Read) -> usize
    ensures { result ≡ count_of way }
{
    match way {
        Read::Forward(n) | Read::Reversed(n) => n,
    }
}

// Where the PAN stands in the characters, how many digits it has, and where the expiry stands, if there is one.
#[derive(Clone, Copy, Debug, PartialEq, Eq)]
pub struct Spot {
    pub at: usize,
    pub digits: usize,
    pub expiry: Option<usize>,
}

// The layout of the characters between the sentinels.
fn spot_of(track: Track, chars: &[u8]) -> Result<Spot, Reason>
    ensures { said result ≡ division_rule track chars.now }
{
    match track {
        Track::Two => {
            let d = layout::divide(chars)?;
            Ok(Spot {
                at: 0,
                digits: d.pan,
                expiry: d.expiry,
            })
        }
        Track::One => {
            let d = layout1::divide(chars)?;
            Ok(Spot {
                at: 1,
                digits: d.pan,
                expiry: d.expiry,
            })
        }
    }
}

// ---- the card

// A card that pays: where its PAN stands in the scratch and how many digits it has, the label of its range, and the days that it has left, or no
// number where it has no expiry.
#[derive(Clone, Copy, Debug, PartialEq, Eq)]
pub struct Paying {
    pub at: usize,
    pub digits: usize,
    pub label: u16,
    pub left: Option<u32>,
}

// Luhn and the look-up of the PAN, the expiry, then the hot list.
fn card_at(chars: &[u8], spot: Spot, terms: Terms, date: Date) -> Result<Paying, Reason>
    requires { Sound (terms_of terms) × (real date ≡ true) × Divided chars.now spot }
    ensures { (said_card result chars.now ≡ payer_rule (terms_of terms.entry) date
        (part_of chars.now spot.at spot.digits) (field_in 4 chars.now spot.expiry)) × (pan_end result ≤ length chars.now) }
{
    let end = spot.at + spot.digits;
    let pan = &chars[spot.at..end];
    luhn::test(pan)?;
    let label = ranges::inner::label_tested(terms.site, terms.acquirer, pan)?;
    let left = dates::inner::left_on(date, chars, spot.expiry)?;
    if hotlist::inner::is_listed(terms.hot, terms.digits, pan) {
        return Err(Reason::ListedCard);
    }
    Ok(Paying {
        at: spot.at,
        digits: spot.digits,
        label,
        left,
    })
}

// The layout of the characters, then their PAN and expiry.
fn card_of_chars(track: Track, chars: &[u8], terms: Terms, date: Date) -> Result<Paying, Reason>
    requires { Sound (terms_of terms) × (real date ≡ true) }
    ensures { (said_card result chars.now ≡ chars_rule track (terms_of terms.entry) date chars.now)
        × (pan_end result ≤ length chars.now) }
{
    let spot = spot_of(track, chars)?;
    card_at(chars, spot, terms, date)
}

// The reading, into the front of the scratch, then its characters.
pub fn card_of_stripe(
    track: Track,
    stream: &[u8],
    bits: u64,
    terms: Terms,
    date: Date,
    scratch: &mut [u8],
) -> Result<Paying, Reason>
    requires { (room track ≤ length scratch.old) × Sound (terms_of terms) × (real date ≡ true) }
    ensures { (said_card result scratch.new ≡ card_rule (given track stream.now bits (terms_of terms.entry) date))
        × (pan_end result ≤ length scratch.new) × (drop (room track) scratch.new ≡ drop (room track) scratch.old) }
{
    let way = read(track, stream, bits, scratch)?;
    let n = count_of(way);
    card_of_chars(track, &scratch[..n], terms, date)
}
