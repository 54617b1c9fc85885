//! A picture of one slice, and what is known of its squares of 8x8 luma samples.

use crate::coded::Square;
use hv_tables::SliceKind;
use hv_types::NoMemory;
use std::alloc::Global;

/// A slice that is a whole picture.
#[derive(Clone, Copy)]
pub struct Slice {
    pub kind: SliceKind,
    /// How many pictures list 0 has (`num_ref_idx_l0_active_minus1` + 1): in P slices 1 or 2.
    pub references: u8,
    /// The width of the picture in luma samples, a multiple of 8.
    pub width: u32,
    /// The height of the picture in luma samples, a multiple of 8.
    pub height: u32,
}

impl Slice {
    /// How many coding tree blocks stand in a row.
    pub fn columns(self) -> u32 {
        self.width.saturating_add(63) / 64
    }

    /// How many coding tree blocks the picture has.
    pub fn blocks(self) -> u32 {
        self.columns()
            .saturating_mul(self.height.saturating_add(63) / 64)
    }

    /// The node of 64x64 that is the coding tree block of this number, in raster order (6.5.1).
    pub(crate) fn block_at(self, index: u32) -> Node {
        let columns = self.columns().max(1);
        Node {
            x: (index % columns).saturating_mul(64),
            y: (index / columns).saturating_mul(64),
            address: 0,
            size: 3,
        }
    }
}

/// A node of a coding quadtree.
#[derive(Clone, Copy)]
pub(crate) struct Node {
    /// Its left column in the picture, in luma samples (`x0`).
    pub(crate) x: u32,
    /// Its top row (`y0`).
    pub(crate) y: u32,
    /// The address of its first square in its coding tree block.
    pub(crate) address: u8,
    /// Its side is 8 << `size`, 8 to 64 (`log2CbSize` - 3).
    pub(crate) size: u8,
}

impl Node {
    /// Its side in luma samples.
    pub(crate) fn side(self) -> u32 {
        match self.size {
            0 => 8,
            1 => 16,
            2 => 32,
            _ => 64,
        }
    }

    /// How many squares it has.
    pub(crate) fn squares(self) -> u8 {
        match self.size {
            0 => 1,
            1 => 4,
            2 => 16,
            _ => 64,
        }
    }

    /// How deep it lies in the quadtree (`cqtDepth`).
    pub(crate) fn depth(self) -> u8 {
        3u8.saturating_sub(self.size)
    }

    /// Its quarter of this number: upper left, upper right, lower left, lower right.
    pub(crate) fn quarter(self, number: u8) -> Node {
        let half = self.side() / 2;
        let right = u32::from(number % 2);
        let down = u32::from(number / 2 % 2);
        let size = self.size.saturating_sub(1);
        Node {
            x: self.x.saturating_add(right.saturating_mul(half)),
            y: self.y.saturating_add(down.saturating_mul(half)),
            address: self
                .address
                .saturating_add((number % 4).saturating_mul(self.squares() / 4)),
            size,
        }
    }
}

/// A picture of one slice, and what is known of it so far.
#[derive(Drop)]
pub(crate) struct Picture {
    pub(crate) slice: Slice,
    /// The squares by rows of the picture: there once they were decoded.
    squares: Vec<Option<Square>>,
}

impl Picture {
    /// A picture of which nothing is known.
    pub(crate) fn new(alloc: Global, slice: Slice) -> Result<Picture, NoMemory> {
        let squares_in_a_row = (slice.width / 8) as usize;
        let count = squares_in_a_row.saturating_mul((slice.height / 8) as usize);
        let mut squares = Vec::new(alloc);
        for _ in 0..count {
            squares.push(None)?;
        }
        Ok(Picture { slice, squares })
    }

    /// The place of the square at a luma location; none outside of the picture.
    fn place(&self, x: u32, y: u32) -> Option<usize> {
        if x >= self.slice.width || y >= self.slice.height {
            return None;
        }
        let squares_in_a_row = (self.slice.width / 8) as usize;
        let place = squares_in_a_row.saturating_mul((y / 8) as usize);
        Some(place.saturating_add((x / 8) as usize))
    }

    /// The square at a luma location, where it is available (6.4.1): it lies in the picture, and
    /// was decoded before.
    fn square(&self, x: u32, y: u32) -> Option<Square> {
        let place = self.place(x, y)?;
        if place < self.squares.len() {
            self.squares[place]
        } else {
            None
        }
    }

    /// The square at the left of a luma location, where it is available.
    pub(crate) fn left_of(&self, node: Node) -> Option<Square> {
        self.square(node.x.checked_sub(1)?, node.y)
    }

    /// The square above a luma location, where it is available.
    pub(crate) fn above(&self, node: Node) -> Option<Square> {
        self.square(node.x, node.y.checked_sub(1)?)
    }

    /// Whether the first sample of a node lies in the picture.
    pub(crate) fn begins(&self, node: Node) -> bool {
        node.x < self.slice.width && node.y < self.slice.height
    }

    /// Whether a node lies in the picture with its last sample too.
    pub(crate) fn holds(&self, node: Node) -> bool {
        let side = node.side();
        node.x.saturating_add(side) <= self.slice.width
            && node.y.saturating_add(side) <= self.slice.height
    }

    /// Each square of the node is known to be this one.
    pub(crate) fn put(&mut self, node: Node, square: Square) {
        for row in 0..node.side() / 8 {
            for column in 0..node.side() / 8 {
                let x = node.x.saturating_add(column.saturating_mul(8));
                let y = node.y.saturating_add(row.saturating_mul(8));
                if let Some(place) = self.place(x, y) {
                    if place < self.squares.len() {
                        self.squares[place] = Some(square);
                    }
                }
            }
        }
    }
}
