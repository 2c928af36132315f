// Two cards as they are swiped, a table that takes them, a hot list that blocks none and a day on which both are good: what the worked cases share.
#![tactic(auto)]

use dates::Date;

// `;4111111111111111=2512101?` and its LRC, 135 bits.
pub const W11: [u8; 17] = *b"\x8B\x84\x10\x42\x08\x21\x84\x10\x42\x08\xA1\x89\x1A\x44\x80\xE1\x23";

// `%B4111111111111111^DOE/JANE^2512101?` and its LRC, 259 bits.
pub const E1: [u8; 33] =
    *b"\x45\x31\x35\x1A\x8D\x46\xA3\xD1\x68\x34\x1A\x8D\x46\xA3\xD1\xA8\x8F\xFC\x2A\x3D\x55\x61\x77\xC9\x27\xAD\x44\xA5\x51\x48\xF4\x83\x00";

// A table whose one range fits every PAN, label 7.
pub const EVERY: [u8; 16] = *b"\x00\x00\x00\x00\xFF\xFF\xFF\xFF\x07\x00\x0D\x13\x00\x00\x00\x00";

// A hot list of no card.
pub const NONE: [u64; 0] = [];

// The first day of the month in which both cards expire.
pub const DAY: Date = Date {
    year: 2025,
    month: 12,
    day: 1,
};
