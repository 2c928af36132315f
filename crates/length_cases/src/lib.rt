// Lengths at their bounds that no command can lend: outputs, scratch, streams, tables, journals.
#![tactic(auto)]

ghost use Rattle.std.specs.Prelude.{◌≤◌};

use bits::Read;
use layout::Track;
use payer::Terms;
use reasons::Reason;
use samples::{DAY, E1, EVERY, NONE, W11};
use say::Output;
use swipe::Receipt;

// A length, and what the lent bytes are afterwards.
fn lent(out: &mut Output, what: &[u8], bytes: &[u8]) {
    say::value(out, what, bytes.len() as u64);
    say::words(out, b" bytes, then ");
    say::hex(out, bytes);
    say::words(out, b": ");
}

// ---- the mask

fn mask<const N: usize>(out: &mut Output)
    requires { N ≤ 77 }
{
    let mut room = [46u8; N];
    let answer = pan::mask(b"4111111111111111", &mut room);
    lent(out, b"mask 4111111111111111 into ", &room);
    say::tested(out, answer);
}

fn masks(out: &mut Output) {
    mask::<15>(out);
    mask::<16>(out);
    mask::<18>(out);
}

// ---- the stripe

// What a stripe lends: its bits, and of which track they are.
#[derive(Clone, Copy)]
struct Stripe<'a> {
    track: Track,
    stream: &'a [u8],
    bits: u64,
}

fn w11() -> Stripe<'static> {
    Stripe {
        track: Track::Two,
        stream: &W11,
        bits: 135,
    }
}

fn e1() -> Stripe<'static> {
    Stripe {
        track: Track::One,
        stream: &E1,
        bits: 259,
    }
}

fn way(out: &mut Output, answer: Result<Read, Reason>) {
    match answer {
        Ok(Read::Forward(_)) => say::words(out, b"read forward\n"),
        Ok(Read::Reversed(_)) => say::words(out, b"read reversed\n"),
        Err(why) => say::refused(out, why),
    }
}

// Read into N bytes.
fn read<const N: usize>(out: &mut Output, what: &[u8], stripe: Stripe<'_>)
    requires { N ≤ 77 }
{
    let mut room = [9u8; N];
    say::value(out, what, stripe.bits);
    let answer = tracks::read_on(stripe.track, stripe.stream, stripe.bits, &mut room);
    lent(out, b" bits into ", &room);
    way(out, answer);
}

// As many bits as a stream may have, and one more.
fn read_zeros<const N: usize>(out: &mut Output, what: &[u8], track: Track)
    requires { N ≤ 77 }
{
    let stream = &[0u8; 513];
    for bits in 4096..4098 {
        let stripe = Stripe {
            track,
            stream,
            bits,
        };
        read::<N>(out, what, stripe);
    }
}

// Into one byte too few, and one more than are needed.
fn reads(out: &mut Output) {
    read::<36>(out, b"track2 of W11, ", w11());
    read::<38>(out, b"track2 of W11, ", w11());
    read_zeros::<38>(out, b"track2 of zeros, ", Track::Two);
    read::<75>(out, b"track1 of E1, ", e1());
    read::<77>(out, b"track1 of E1, ", e1());
    read_zeros::<76>(out, b"track1 of zeros, ", Track::One);
}

// ---- the swipe

fn swiped(stripe: Stripe<'_>, scratch: &mut [u8]) -> Result<Receipt, Reason> {
    let terms = Terms {
        site: &EVERY,
        acquirer: b"",
        hot: &NONE,
        digits: 16,
    };
    let mut journal = [0u8; 32];
    swipe::swipe(
        stripe.track,
        stripe.stream,
        stripe.bits,
        terms,
        250,
        DAY,
        0,
        scratch,
        &mut journal,
    )
}

// With scratch of N bytes.
fn swipe<const N: usize>(out: &mut Output, what: &[u8], stripe: Stripe<'_>)
    requires { N ≤ 77 }
{
    let mut scratch = [9u8; N];
    let answer = swiped(stripe, &mut scratch);
    lent(out, what, &scratch);
    match answer {
        Ok(_) => say::words(out, b"booked\n"),
        Err(why) => say::refused(out, why),
    }
}

// With scratch of one byte too few, and one more than is needed.
fn swipes(out: &mut Output) {
    swipe::<36>(out, b"swipe of W11 with scratch of ", w11());
    swipe::<38>(out, b"swipe of W11 with scratch of ", w11());
    swipe::<75>(out, b"swipe1 of E1 with scratch of ", e1());
    swipe::<77>(out, b"swipe1 of E1 with scratch of ", e1());
}

// ---- tables and journals

fn range(out: &mut Output, site: &[u8], acquirer: &[u8]) {
    let lengths = [site.len() as u64, acquirer.len() as u64];
    say::sentence(
        out,
        b"range of 4111111111111111 in tables of # and # bytes: ",
        &lengths,
    );
    match ranges::find(site, acquirer, b"4111111111111111") {
        Ok(_) => say::words(out, b"found\n"),
        Err(why) => say::refused(out, why),
    }
}

// The longest table, and a longer one, as either.
fn tables(out: &mut Output) {
    let zeros = [0u8; 65552];
    let longest = &zeros[..65536];
    range(out, longest, b"");
    range(out, &zeros, b"");
    range(out, b"", longest);
    range(out, b"", &zeros);
}

fn tell(out: &mut Output, journal: &[u8]) {
    let length = [journal.len() as u64];
    say::sentence(out, b"tell of a journal of # bytes: ", &length);
    match held::tell(journal) {
        Ok(_) => say::words(out, b"told\n"),
        Err(why) => say::refused(out, why),
    }
}

// The longest journal, and a longer one.
fn journals(out: &mut Output) {
    let zeros = [0u8; 65568];
    tell(out, &zeros[..65536]);
    tell(out, &zeros);
}

pub fn run(out: &mut Output) {
    say::words(out, b"\n# Lengths at their bounds\n");
    masks(out);
    tables(out);
    reads(out);
    journals(out);
    swipes(out);
}
