//! The vectors that motion search finds for a picture.

ghost use Rattle.std.specs.Prelude.{◌≡◌, ◌+◌, ◌*◌, ◌/◌, ◌%◌, ◌^◌, ◌<◌, ◌≤◌, ◌&&◌, Bool, true, nat_le, length};
ghost use Rattle.hv_filter_model.specs.Blocks.{luma_side, blocks_over};
ghost use Rattle.hv_search.specs.Motion.{IsNode, node_side, node_x, node_y, number_of};

use hv_plan::{Mv, Node};
use std::marker::Model;

/// The vectors that motion search finds for the nodes of a picture and the pictures to which it
/// refers. Contracts see the sides of the padded picture and the vectors of each entry of list 0.
#[derive(Drop)]
pub struct Motion {
    pub(crate) width: u32,
    pub(crate) height: u32,
    pub(crate) first: Vec<Mv>,
    pub(crate) second: Vec<Mv>,
}

impl Model for Motion {
    ghost use Rattle.hv_search.specs.Motion.{Motion, IsMotion};

    ghost Value = { Motion };

    ghost view = { λ m. record {
      width = m.width;
      height = m.height;
      first = m.first.items;
      second = m.second.items;
    } };

    ghost invariant = { λ m. IsMotion (record {
      width = m.width;
      height = m.height;
      first = m.first.items;
      second = m.second.items;
    }) };
}

impl Motion {
    ghost use Rattle.hv_search.specs.Motion.{block_count, vector_of};

    /// The vector of a node, in quarters of a luma sample, for entry `reference` of list 0 of the
    /// picture. The coding tree block that has the node has this `index` in raster order. None
    /// comes exactly where the effort is 0, the node doesn't lie wholly inside of the picture, or
    /// list 0 has no such entry.
    pub fn vector(&self, reference: u8, index: u32, node: Node) -> Option<Mv>
        requires index { index < block_count self.now }
        requires node { IsNode node }
        ensures { result ≡ vector_of self.now reference index node }
    {
        let columns = self.width.div_ceil(64);
        let x = 64 * (index % columns) + 8 * u32::from(node.x);
        let y = 64 * (index / columns) + 8 * u32::from(node.y);
        let side = side_of(node);
        if x + side > self.width || y + side > self.height {
            return None;
        }
        let place = 85 * index as usize + number_of(node);
        match reference {
            0 => self.first.get(place).copied(),
            1 => self.second.get(place).copied(),
            _ => None,
        }
    }
}

/// The side of a node, in luma samples.
#[inline(always)]
fn side_of(node: Node) -> u32
    requires { IsNode node }
    ensures value { result ≡ node_side node }
    ensures most { result ≤ 64 }
{
    64 >> node.depth
}

/// The number of a node among those of its block.
fn number_of(node: Node) -> usize
    requires { IsNode node }
    ensures value { result ≡ number_of node }
    ensures most { result < 85 }
{
    let (x, y) = (usize::from(node.x), usize::from(node.y));
    let place = x / 4 % 2
        + 2 * (y / 4 % 2)
        + 4 * (x / 2 % 2)
        + 8 * (y / 2 % 2)
        + 16 * (x % 2)
        + 32 * (y % 2);
    let before = match node.depth {
        0 => 84,
        1 => 80,
        2 => 64,
        _ => 0,
    };
    before + place
}
