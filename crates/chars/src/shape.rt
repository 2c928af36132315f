// What differs between tracks.
ghost use Rattle.std.specs.Prelude.{◌≡◌, true, ◌∷◌, ◌^◌, ◌≤◌, ◌<◌, take};
ghost use Rattle.stream.specs.Stream.{number, bits_of};

// A track's shape. `size`: the data bits of a character; `start`: the start sentinel's bits after the first, which is a one, as a number;
// `first`, `last`: the numbers of the start and the end sentinel; `base`: the byte of number 0; `limit`: the last character that may be
// the end sentinel; `pairs`: whether two characters are read at a look, which those of four data bits can be.
#[derive(Clone, Copy)]
pub struct Shape {
    pub size: usize,
    pub start: u8,
    pub first: u8,
    pub last: u8,
    pub base: u8,
    pub limit: usize,
    pub pairs: bool,
    pub ghost any: { 1 ≤ size },
    pub ghost few: { size ≤ 6 },
    pub ghost low: { base ≤ 128 },
    pub ghost short: { limit ≤ 78 },
    pub ghost some: { 2 ≤ limit },
    pub ghost start_fits: { start < 2 ^ size },
    pub ghost four: { pairs ≡ true → size ≡ 4 },
    pub ghost first_is: { number (take size (true ∷ bits_of size start)) ≡ first },
}
