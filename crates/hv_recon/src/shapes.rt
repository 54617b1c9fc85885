//! Transform units and transform blocks of a coding tree block.

ghost use Rattle.std.specs.Prelude.{◌≡◌, ◌%◌, ◌<◌, ◌≤◌};
ghost use Rattle.hv_tree_model.specs.Sites.{squares};

use hv_plan::Mv;

/// An intra transform unit: its address, its size, 0 for 8x8 to 2 for 32x32 luma samples, its mode,
/// and the quantiser of luma.
#[derive(Clone, Copy)]
pub struct Unit {
    pub address: u8,
    pub size: u8,
    pub mode: u8,
    pub qp: u8,
    pub ghost few: { size ≤ 2 },
    pub ghost inside: { address < 64 },
    pub ghost even: { address % squares size ≡ 0 },
    pub ghost mode_known: { mode ≤ 34 },
    pub ghost quantiser: { qp ≤ 51 },
}

/// How a transform block is predicted and scaled, and where it lies in a coding tree block: its
/// address, its first column and row, and its side as a power of 2.
#[derive(Clone, Copy)]
pub struct Spot {
    pub address: usize,
    pub x: usize,
    pub y: usize,
    pub log2: u8,
    pub mode: u8,
    pub luma: bool,
    pub qp: u8,
    pub ghost least: { 2 ≤ log2 },
    pub ghost most: { log2 ≤ 5 },
    pub ghost mode_known: { mode ≤ 34 },
    pub ghost quantiser: { qp ≤ 51 },
}

/// An inter transform unit: its address, its size, 0 for 8x8 to 2 for 32x32 luma samples, its
/// vector, in quarters of a luma sample, and the quantiser of luma.
#[derive(Clone, Copy)]
pub struct InterUnit {
    pub address: u8,
    pub size: u8,
    pub mv: Mv,
    pub qp: u8,
    pub ghost few: { size ≤ 2 },
    pub ghost inside: { address < 64 },
    pub ghost even: { address % squares size ≡ 0 },
    pub ghost quantiser: { qp ≤ 51 },
}

/// How an inter transform block is predicted and scaled, and where it lies: its first column and
/// row in a coding tree block, those in the picture, and its side as a power of 2.
#[derive(Clone, Copy)]
pub struct InterSpot {
    pub x: usize,
    pub y: usize,
    pub column: u32,
    pub row: u32,
    pub log2: u8,
    pub mv: Mv,
    pub luma: bool,
    pub qp: u8,
    pub ghost least: { 2 ≤ log2 },
    pub ghost most: { log2 ≤ 5 },
    pub ghost quantiser: { qp ≤ 51 },
}
