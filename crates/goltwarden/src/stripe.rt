// The stripe: gw_track2_read, gw_layout_read, gw_track1_read, gw_layout1_read.
ghost use Rattle.track2.specs.Track2.{track2};
ghost use Rattle.track1.specs.Track1.{track1};
ghost use Rattle.c_stripe.specs.Calls.{TrackReads, LayoutReads, Layout1Reads};

#[unsafe(no_mangle)]
pub extern "C" fn gw_track2_read(
    stream: &[u8],
    bits: u64,
    out: &mut [u8],
    count: &mut u32,
    reversed: &mut u32,
) -> u32
    ensures { TrackReads track2 stream.now bits out.old
        (count.old, reversed.old) result (count.new, reversed.new) out.new }
{
    c_stripe::track2_read(stream, bits, out, count, reversed)
}

#[unsafe(no_mangle)]
pub extern "C" fn gw_track1_read(
    stream: &[u8],
    bits: u64,
    out: &mut [u8],
    count: &mut u32,
    reversed: &mut u32,
) -> u32
    ensures { TrackReads track1 stream.now bits out.old
        (count.old, reversed.old) result (count.new, reversed.new) out.new }
{
    c_stripe::track1_read(stream, bits, out, count, reversed)
}

#[unsafe(no_mangle)]
pub extern "C" fn gw_layout_read(
    chars: &[u8],
    pan: &mut u32,
    expiry: &mut u32,
    service: &mut u32,
    rest: &mut u32,
) -> u32
    ensures { LayoutReads chars.now
        (pan.old, expiry.old, service.old, rest.old) result
        (pan.new, expiry.new, service.new, rest.new) }
{
    c_stripe::layout_read(chars, pan, expiry, service, rest)
}

#[unsafe(no_mangle)]
pub extern "C" fn gw_layout1_read(
    chars: &[u8],
    pan: &mut u32,
    name: &mut u32,
    expiry: &mut u32,
    service: &mut u32,
    rest: &mut u32,
) -> u32
    ensures { Layout1Reads chars.now
        (pan.old, name.old, expiry.old, service.old, rest.old) result
        (pan.new, name.new, expiry.new, service.new, rest.new) }
{
    c_stripe::layout1_read(chars, pan, name, expiry, service, rest)
}
