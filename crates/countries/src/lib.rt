// The countries that have an IBAN: the table of their bodies, its search, and whether a body fits a row. For the crates above: all of it is inner.
#![tactic(auto)]

ghost use Rattle.std.specs.Prelude.{◌≡◌, map};
ghost use Rattle.std.specs.Option.{option_map};
ghost use Rattle.text.specs.Bytes.{every};
ghost use Rattle.countries.specs.Countries.{table, row_of, kind_fits, kinds_of, fits};
ghost use Rattle.countries.specs.Stored.{stored};

// What may stand at a place of a body.
#[derive(Clone, Copy)]
pub enum Kind {
    Digits,
    Capitals,
    Either,
}

// So many characters of a kind.
#[derive(Clone, Copy)]
pub struct Run {
    pub size: u8,
    pub kind: Kind,
}

// A country's two letters and the runs of its body, which are three at most: the others are empty.
#[derive(Clone, Copy)]
pub struct Row {
    pub country: [u8; 2],
    pub runs: [Run; 3],
}

// A row as the paper writes it: `11 n`, `4 a`, `16 c`.
macro_rules! run {
    ($size:literal n) => { Run { size: $size, kind: Kind::Digits } };
    ($size:literal a) => { Run { size: $size, kind: Kind::Capitals } };
    ($size:literal c) => { Run { size: $size, kind: Kind::Either } };
}

macro_rules! row {
    ($x:literal $y:literal, $m:literal $k:ident) => {
        Row { country: [$x, $y], runs: [run!($m $k), run!(0 n), run!(0 n)] }
    };
    ($x:literal $y:literal, $m:literal $k:ident, $n:literal $l:ident) => {
        Row { country: [$x, $y], runs: [run!($m $k), run!($n $l), run!(0 n)] }
    };
    ($x:literal $y:literal, $m:literal $k:ident, $n:literal $l:ident, $o:literal $p:ident) => {
        Row { country: [$x, $y], runs: [run!($m $k), run!($n $l), run!($o $p)] }
    };
}

const COUNTRIES: [Row; 34] = [
    row!(b'N' b'O', 11 n),
    row!(b'B' b'E', 12 n),
    row!(b'D' b'K', 14 n),
    row!(b'F' b'I', 14 n),
    row!(b'S' b'I', 15 n),
    row!(b'A' b'T', 16 n),
    row!(b'E' b'E', 16 n),
    row!(b'L' b'T', 16 n),
    row!(b'H' b'R', 17 n),
    row!(b'D' b'E', 18 n),
    row!(b'C' b'Z', 20 n),
    row!(b'E' b'S', 20 n),
    row!(b'S' b'E', 20 n),
    row!(b'S' b'K', 20 n),
    row!(b'P' b'T', 21 n),
    row!(b'I' b'S', 22 n),
    row!(b'H' b'U', 24 n),
    row!(b'P' b'L', 24 n),
    row!(b'N' b'L', 4 a, 10 n),
    row!(b'G' b'B', 4 a, 14 n),
    row!(b'I' b'E', 4 a, 14 n),
    row!(b'L' b'V', 4 a, 13 c),
    row!(b'R' b'O', 4 a, 16 c),
    row!(b'B' b'G', 4 a, 6 n, 8 c),
    row!(b'M' b'T', 4 a, 5 n, 18 c),
    row!(b'C' b'H', 5 n, 12 c),
    row!(b'L' b'I', 5 n, 12 c),
    row!(b'L' b'U', 3 n, 13 c),
    row!(b'C' b'Y', 8 n, 16 c),
    row!(b'G' b'R', 7 n, 16 c),
    row!(b'F' b'R', 10 n, 11 c, 2 n),
    row!(b'M' b'C', 10 n, 11 c, 2 n),
    row!(b'I' b'T', 1 a, 10 n, 12 c),
    row!(b'S' b'M', 1 a, 10 n, 12 c),
];

// The only function that touches the table: all its rows, by value.
#[tactic(auto, unfolding(crate::specs::Countries::table))]
fn table() -> [Row; 34]
    ensures { result ≡ map stored table }
{
    COUNTRIES
}

// A country's row, where it is listed.
#[tactic(auto, using(crate::proofs::Rows::row_laws))]
pub fn find(a: u8, b: u8) -> Option<Row>
    ensures { result ≡ option_map stored (row_of table a b) }
{
    for row in table() {
        if row.country == [a, b] {
            return Some(row);
        }
    }
    None
}

// Whether a byte may stand at a place of a kind.
#[tactic(auto, unfolding(crate::specs::Countries::kind_fits))]
fn kind_fits(kind: Kind, b: u8) -> bool
    ensures { result ≡ kind_fits kind b }
{
    match kind {
        Kind::Digits => text::is_digit(b),
        Kind::Capitals => text::is_capital(b),
        Kind::Either => text::is_digit(b) || text::is_capital(b),
    }
}

// Whether every byte may stand at a place of a kind.
pub fn all_fit(kind: Kind, s: &[u8]) -> bool
    ensures { result ≡ every (kind_fits kind) s.now }
{
    s.iter().all(|&b| kind_fits(kind, b))
}

// Whether a body has these runs, one after another, and nothing more.
#[tactic(auto, using(crate::proofs::Fits::run_laws))]
fn fits_runs(runs: &[Run], body: &[u8]) -> bool
    ensures { result ≡ fits (kinds_of runs.now) body.now }
{
    let mut rest = body;
    for &run in runs {
        let size = run.size as usize;
        if rest.len() < size {
            return false;
        }
        if !all_fit(run.kind, &rest[..size]) {
            return false;
        }
        rest = &rest[size..];
    }
    rest.is_empty()
}

// Whether a body fits a row.
pub fn fits_row(row: Row, body: &[u8]) -> bool
    ensures { result ≡ fits (kinds_of row.runs) body.now }
{
    fits_runs(&row.runs, body)
}
