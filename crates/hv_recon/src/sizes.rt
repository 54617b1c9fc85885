//! Sides and numbers of samples of transform blocks.

ghost use Rattle.std.specs.Prelude.{◌≡◌, ◌*◌, ◌^◌, ◌≤◌};

/// The side of a transform block.
#[inline(always)]
pub fn side_of(log2: u8) -> usize
    requires least { 2 ≤ log2 }
    requires most { log2 ≤ 5 }
    ensures value { result ≡ 2 ^ log2 }
    ensures few { result ≤ 32 }
    ensures some { 4 ≤ result }
{
    match log2 {
        2 => 4,
        3 => 8,
        4 => 16,
        _ => 32,
    }
}

/// How many samples it has.
#[inline(always)]
pub fn area_of(log2: u8) -> usize
    requires least { 2 ≤ log2 }
    requires most { log2 ≤ 5 }
    ensures value { result ≡ 4 ^ log2 }
    ensures square { result ≡ 2 ^ log2 * 2 ^ log2 }
    ensures few { result ≤ 1024 }
{
    match log2 {
        2 => 16,
        3 => 64,
        4 => 256,
        _ => 1024,
    }
}
