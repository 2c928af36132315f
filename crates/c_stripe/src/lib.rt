// The C interface on the stripe: each function calls the library's call and hands numbers over.
#![tactic(auto)]

ghost use Rattle.std.specs.Prelude.{◌≡◌, ◌<◌};
ghost use Rattle.bits.specs.Reading.{said};
ghost use Rattle.track2.specs.Track2.{track2};
ghost use Rattle.track1.specs.Track1.{track1};
ghost use Rattle.c_stripe.specs.Values.{counts_told, chars_in, start_of};
ghost use Rattle.hands.specs.Hands.{Hands};
ghost use Rattle.c_stripe.specs.Calls.{TrackReads, LayoutReads, Layout1Reads};

use bits::Read;
use reasons::Reason;

// Hands over what a reading answers: how many characters it has, and whether it was read reversed.
fn hand_over(read: Result<Read, Reason>, count: &mut u32, reversed: &mut u32) -> u32
    requires { chars_in read < 100 }
    ensures { Hands (said read) (count.old, reversed.old) counts_told result (count.new, reversed.new) }
{
    match read {
        Ok(Read::Forward(n)) => {
            *count = n as u32;
            *reversed = 0;
            0
        }
        Ok(Read::Reversed(n)) => {
            *count = n as u32;
            *reversed = 1;
            0
        }
        Err(why) => reasons::number(why),
    }
}

pub fn track2_read(
    stream: &[u8],
    bits: u64,
    out: &mut [u8],
    count: &mut u32,
    reversed: &mut u32,
) -> u32
    ensures { TrackReads track2 stream.now bits out.old
        (count.old, reversed.old) result (count.new, reversed.new) out.new }
{
    hand_over(track2::read(stream, bits, out), count, reversed)
}

pub fn track1_read(
    stream: &[u8],
    bits: u64,
    out: &mut [u8],
    count: &mut u32,
    reversed: &mut u32,
) -> u32
    ensures { TrackReads track1 stream.now bits out.old
        (count.old, reversed.old) result (count.new, reversed.new) out.new }
{
    hand_over(track1::read(stream, bits, out), count, reversed)
}

// Where a field stands, 0 for an absent one.
fn place(field: Option<usize>) -> u32
    requires { start_of field < 100 }
    ensures { result ≡ start_of field }
{
    field.unwrap_or(0) as u32
}

pub fn layout_read(
    chars: &[u8],
    pan: &mut u32,
    expiry: &mut u32,
    service: &mut u32,
    rest: &mut u32,
) -> u32
    ensures { LayoutReads chars.now
        (pan.old, expiry.old, service.old, rest.old) result
        (pan.new, expiry.new, service.new, rest.new) }
{
    match layout::divide(chars) {
        Ok(d) => {
            *pan = d.pan as u32;
            *expiry = place(d.expiry);
            *service = place(d.service);
            *rest = d.rest as u32;
            0
        }
        Err(why) => reasons::number(why),
    }
}

pub fn layout1_read(
    chars: &[u8],
    pan: &mut u32,
    name: &mut u32,
    expiry: &mut u32,
    service: &mut u32,
    rest: &mut u32,
) -> u32
    ensures { Layout1Reads chars.now
        (pan.old, name.old, expiry.old, service.old, rest.old) result
        (pan.new, name.new, expiry.new, service.new, rest.new) }
{
    match layout1::divide(chars) {
        Ok(f) => {
            *pan = f.pan as u32;
            *name = f.name as u32;
            *expiry = place(f.expiry);
            *service = place(f.service);
            *rest = f.rest as u32;
            0
        }
        Err(why) => reasons::number(why),
    }
}
