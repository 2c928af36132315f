// The commands on the stripe: tracks from bits, and the layouts between the sentinels.
#![tactic(auto)]

use bits::Read;
use layout::Track;
use reasons::Reason;
use say::{Output, fields};

// ---- the reading

// Track 1's characters may be spaces, so they are told in hexadecimal.
fn chars(out: &mut Output, track: Track, way: &[u8], read: &[u8]) {
    match track {
        Track::Two => say::named(out, way, read),
        Track::One => say::named_hex(out, way, read),
    }
}

fn told(out: &mut Output, track: Track, way: &[u8], read: &[u8]) {
    say::value(out, b"read ", read.len() as u64);
    chars(out, track, way, read);
    say::line(out);
}

// The reading of a track.
pub fn read_on(track: Track, stream: &[u8], bits: u64, room: &mut [u8]) -> Result<Read, Reason> {
    match track {
        Track::Two => track2::read(stream, bits, room),
        Track::One => track1::read(stream, bits, room),
    }
}

// 76 bytes are room for the characters of either track.
fn read(out: &mut Output, track: Track, stream: &[u8], bits: u64) {
    let mut room = [0u8; 76];
    match read_on(track, stream, bits, &mut room) {
        Ok(Read::Forward(n)) => told(out, track, b" forward ", text::piece(&room, 0, n)),
        Ok(Read::Reversed(n)) => told(out, track, b" reversed ", text::piece(&room, 0, n)),
        Err(why) => say::refused(out, why),
    }
}

pub fn track(out: &mut Output, track: Track, line: &[u8]) {
    let mut stream = [0u8; 70000];
    let Some(n) = fields::bytes(out, line, &mut stream) else {
        return;
    };
    let Some(bits) = fields::number(out, line, 2, u64::MAX) else {
        return;
    };
    read(out, track, &stream[..n], bits);
}

// ---- the layout

// The fields of digits, which both tracks have.
fn digits(out: &mut Output, pan: &[u8], expiry: &[u8], service: &[u8]) {
    say::named(out, b"pan ", pan);
    say::named(out, b" expiry ", expiry);
    say::named(out, b" service ", service);
}

fn parts(out: &mut Output, chars: &[u8]) {
    digits(
        out,
        layout::pan_of(chars),
        layout::expiry_of(chars),
        layout::service_of(chars),
    );
    say::named(out, b" rest ", layout::discretionary_of(chars));
    say::line(out);
}

pub fn divide(out: &mut Output, chars: &[u8]) {
    match layout::divide(chars) {
        Ok(_) => parts(out, chars),
        Err(why) => say::refused(out, why),
    }
}

fn parts1(out: &mut Output, chars: &[u8]) {
    digits(
        out,
        layout1::pan_of(chars),
        layout1::expiry_of(chars),
        layout1::service_of(chars),
    );
    say::named_hex(out, b" name ", layout1::name_of(chars));
    say::named_hex(out, b" rest ", layout1::discretionary_of(chars));
    say::line(out);
}

fn divide1(out: &mut Output, chars: &[u8]) {
    match layout1::divide(chars) {
        Ok(_) => parts1(out, chars),
        Err(why) => say::refused(out, why),
    }
}

pub fn layout1(out: &mut Output, line: &[u8]) {
    let mut room = [0u8; 70000];
    let Some(n) = fields::bytes(out, line, &mut room) else {
        return;
    };
    divide1(out, &room[..n]);
}
