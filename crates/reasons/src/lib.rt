// The numbered reasons, 1 to 20 of document 01 and from 21 on of document 02, their numbers and words.
#![tactic(auto)]

ghost use Rattle.std.specs.Prelude.{◌≡◌};
ghost use Rattle.text.specs.Bytes.{bytes_of};
ghost use Rattle.reasons.specs.Reasons.{number_of, number_in, said, words_of};

#[derive(Clone, Copy, Debug, PartialEq, Eq)]
pub enum Reason {
    ShortOutput,
    BadCount,
    BadByte,
    WrongCheck,
    UnknownCountry,
    WrongLayout,
    BadBitCount,
    NoStart,
    CutShort,
    WrongParity,
    LongTrack,
    WrongLrc,
    MarksAfter,
    BadTable,
    NoRange,
    BadJournal,
    ZeroAmount,
    JournalFull,
    SerialsUsedUp,
    NoSerial,
    BadHotList,
    ListedCard,
    BadDate,
    ExpiredCard,
}

// The paper's number of a reason.
pub fn number(r: Reason) -> u32
    ensures { result ≡ number_of r }
{
    match r {
        Reason::ShortOutput => 1,
        Reason::BadCount => 2,
        Reason::BadByte => 3,
        Reason::WrongCheck => 4,
        Reason::UnknownCountry => 5,
        Reason::WrongLayout => 6,
        Reason::BadBitCount => 7,
        Reason::NoStart => 8,
        Reason::CutShort => 9,
        Reason::WrongParity => 10,
        Reason::LongTrack => 11,
        Reason::WrongLrc => 12,
        Reason::MarksAfter => 13,
        Reason::BadTable => 14,
        Reason::NoRange => 15,
        Reason::BadJournal => 16,
        Reason::ZeroAmount => 17,
        Reason::JournalFull => 18,
        Reason::SerialsUsedUp => 19,
        Reason::NoSerial => 20,
        Reason::BadHotList => 21,
        Reason::ListedCard => 22,
        Reason::BadDate => 23,
        Reason::ExpiredCard => 24,
    }
}

// The number of a test's answer: 0 where the text passes.
pub fn tested_number(t: Result<(), Reason>) -> u32
    ensures { result ≡ number_in (said t) }
{
    match t {
        Ok(()) => 0,
        Err(why) => number(why),
    }
}

// A reason in words.
pub fn words(r: Reason) -> &'static str
    ensures { result.now ≡ bytes_of (words_of r) }
{
    match r {
        Reason::ShortOutput => "lent output or scratch too short",
        Reason::BadCount => "count of digits or characters outside its range",
        Reason::BadByte => "a byte that isn't allowed",
        Reason::WrongCheck => "check digits wrong",
        Reason::UnknownCountry => "country not listed",
        Reason::WrongLayout => "layout wrong",
        Reason::BadBitCount => "bit count over 4,096 or over 8 times the bytes lent",
        Reason::NoStart => "no start sentinel",
        Reason::CutShort => "track cut short",
        Reason::WrongParity => "parity wrong",
        Reason::LongTrack => "track too long",
        Reason::WrongLrc => "LRC wrong",
        Reason::MarksAfter => "marks after the LRC",
        Reason::BadTable => "range table's byte length not a multiple of 16, or over 65,536",
        Reason::NoRange => "no range fits",
        Reason::BadJournal => "journal not well formed",
        Reason::ZeroAmount => "amount 0",
        Reason::JournalFull => "journal full",
        Reason::SerialsUsedUp => "serials used up",
        Reason::NoSerial => "serial not there",
        Reason::BadHotList => "hot list not rising or too long, or PAN length or a number wrong",
        Reason::ListedCard => "card on the hot list",
        Reason::BadDate => "date outside 2000 to 2099, or no real day",
        Reason::ExpiredCard => "card expired",
    }
}
