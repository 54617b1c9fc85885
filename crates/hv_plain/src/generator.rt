//! Blocks of levels from a seed: every side, component and scan, in eight kinds.

ghost use Rattle.std.specs.Prelude.{◌<◌};

use hv_plan::Scan;

/// Numbers by chance (a xorshift of 64 bits).
#[derive(Clone, Copy)]
pub struct Random {
    state: u64,
}

impl Random {
    /// Numbers of a seed.
    pub fn new(seed: u64) -> Random {
        Random { state: seed | 1 }
    }

    /// The next number, of 32 bits.
    pub fn next(&mut self) -> u32 {
        let mut state = self.state;
        state ^= state << 13;
        state ^= state >> 7;
        state ^= state << 17;
        self.state = state;
        ((state >> 32) % 0x1_0000_0000) as u32
    }

    /// A number below a bound.
    pub fn below(&mut self, bound: u32) -> u32
        requires { 0 < bound }
        ensures { result < bound }
    {
        self.next() % bound
    }

    /// A level of this magnitude, which is cut to 15 bits.
    fn level(&mut self, magnitude: u32) -> i16 {
        let level = (magnitude & 0x7FFF) as i16;
        if self.below(2) == 0 {
            level
        } else {
            level.wrapping_neg()
        }
    }

    /// A level of any magnitude below 2^15: great and small ones come as often.
    fn any_level(&mut self) -> i16 {
        let bits = self.next() & 0x7FFF;
        let magnitude = bits >> self.below(16);
        self.level(magnitude)
    }

    /// A level from all 16 bits, often at an end.
    fn large_level(&mut self) -> i16 {
        match self.below(4) {
            0 => i16::MAX,
            1 => i16::MIN,
            _ => self.any_level(),
        }
    }
}

/// A block: its levels by rows of its side, and zeros behind them.
#[derive(Drop)]
pub(crate) struct Generated {
    pub(crate) scan: Scan,
    pub(crate) log2: u8,
    pub(crate) luma: bool,
    pub(crate) levels: [i16; 1024],
}

/// The block of this number. Any 192 numbers in a row have each kind, side, component and scan.
pub(crate) fn generate(random: &mut Random, number: u32) -> Generated {
    let scan = match number % 3 {
        0 => Scan::Diagonal,
        1 => Scan::Horizontal,
        _ => Scan::Vertical,
    };
    let log2 = 2 + (number / 3 % 4) as u8;
    Generated {
        scan,
        log2,
        luma: number / 12 % 2 == 0,
        levels: levels_of_kind(random, (number / 24 % 8) as u8, log2),
    }
}

/// The levels of a block of side 2^log2, 4 to 32, by rows, and zeros behind them; they aren't all
/// 0. There are eight kinds, from 0: few, small, one at a corner, large, by which the Rice
/// parameter rises, of magnitude 1, islands, and noise.
pub fn levels_of_kind(random: &mut Random, kind: u8, log2: u8) -> [i16; 1024] {
    let mut levels = [0i16; 1024];
    match kind {
        0 => put_few(random, &mut levels, log2),
        1 => put_many(random, &mut levels, log2, 4),
        2 => put_corner(random, &mut levels, log2),
        3 => put_large(random, &mut levels, log2),
        4 => put_rising(random, &mut levels, log2),
        5 => put_many(random, &mut levels, log2, 1),
        6 => put_islands(random, &mut levels, log2),
        _ => put_noise(random, &mut levels, log2),
    }
    if !levels.iter().any(|level| *level != 0) {
        levels[0] = -1;
    }
    levels
}

/// Puts a level at a place.
fn put(levels: &mut [i16; 1024], place: u32, level: i16) {
    levels[(place % 1024) as usize] = level;
}

/// A place in a block.
fn place_in(random: &mut Random, log2: u8) -> u32 {
    random.next() % 1024 % count_in(log2)
}

/// How many levels a block of side 2^log2 has.
pub(crate) fn count_in(log2: u8) -> u32
    ensures least { 0 < result }
    ensures most { result < 1025 }
{
    match log2 {
        2 => 16,
        3 => 64,
        4 => 256,
        _ => 1024,
    }
}

/// The side of a block.
fn side_in(log2: u8) -> u32
    ensures least { 3 < result }
    ensures most { result < 33 }
{
    match log2 {
        2 => 4,
        3 => 8,
        4 => 16,
        _ => 32,
    }
}

/// One to five small levels.
fn put_few(random: &mut Random, levels: &mut [i16; 1024], log2: u8) {
    for _ in 0..1 + random.below(5) {
        let magnitude = 1 + random.below(3);
        let level = random.level(magnitude);
        put(levels, place_in(random, log2), level);
    }
}

/// Three levels of four aren't 0; their magnitudes go to this one, or 2 now and then.
fn put_many(random: &mut Random, levels: &mut [i16; 1024], log2: u8, most: u32) {
    for place in 0..count_in(log2) {
        if random.below(4) > 0 {
            let magnitude = if random.below(24) == 0 {
                2
            } else {
                1 + random.next() % most.max(1)
            };
            let level = random.level(magnitude);
            put(levels, place, level);
        }
    }
}

/// One level at a corner.
fn put_corner(random: &mut Random, levels: &mut [i16; 1024], log2: u8) {
    let end = side_in(log2) - 1;
    let x = random.below(2) * end;
    let y = random.below(2) * end;
    let magnitude = 1 + random.below(2);
    let level = random.level(magnitude);
    put(levels, y * side_in(log2) + x, level);
}

/// One to eight levels of which half are at the ends of 16 bits.
fn put_large(random: &mut Random, levels: &mut [i16; 1024], log2: u8) {
    for _ in 0..1 + random.below(8) {
        let level = random.large_level();
        put(levels, place_in(random, log2), level);
    }
}

/// Levels by which the Rice parameter rises.
fn put_rising(random: &mut Random, levels: &mut [i16; 1024], log2: u8) {
    for place in 0..count_in(log2) {
        let bits = random.below(9);
        let magnitude = random.next() & ((2 << bits) - 1);
        let level = random.level(magnitude);
        put(levels, place, level);
    }
}

/// A third of the sub-blocks has one level, the others none; often the first of a sub-block.
fn put_islands(random: &mut Random, levels: &mut [i16; 1024], log2: u8) {
    let side = side_in(log2);
    for y in 0..side {
        for x in 0..side {
            if x % 4 == 0 && y % 4 == 0 && random.below(3) == 0 {
                let magnitude = 1 + random.below(2);
                let level = random.level(magnitude);
                let right = random.below(4) * random.below(2);
                let down = random.below(4) * random.below(2);
                put(levels, (y + down) * side + x + right, level);
            }
        }
    }
}

/// Levels of all magnitudes.
fn put_noise(random: &mut Random, levels: &mut [i16; 1024], log2: u8) {
    for place in 0..count_in(log2) {
        let level = random.any_level();
        put(levels, place, level);
    }
}
