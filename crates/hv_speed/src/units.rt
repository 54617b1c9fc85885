//! The kernels of coding tree units that can be run: blocks put into the arithmetic encoder, and
//! nodes counted.
ghost use Rattle.std.specs.Prelude.{◌≡◌, ◌+◌, ◌-◌, ◌<◌, ◌≤◌};
ghost use Rattle.hv_tree_model.specs.Sites.{address_of, squares};
ghost use Rattle.hv_tree_model.specs.Plans.{NamesItsUnits};
ghost use Rattle.hv_near.specs.Neighbours.{lists_of_plan};
ghost use Rattle.hv_near.specs.Squares.{NamesNode};

use crate::levels::sum_of;
use anyhow::bail;
use hv_block::{Block, Neighbours};
use hv_cabac::{BinSink, Encoder, SliceKind};
use hv_plan::{Mv, Node, Place, Pred, SaoComponent, SaoKind, SaoParam};
use hv_syntax::{count_node, names_its_node, names_its_units, put_ctb};
use hv_types::NoMemory;
use std::alloc::Global;

/// A round has so many calls.
const CALLS: usize = 64;

/// The quantiser of the slice.
const QUANTISER: u8 = 26;

const NO_OFFSETS: SaoComponent = SaoComponent {
    kind: SaoKind::Off,
    offsets: [0, 0, 0, 0],
};

const NO_SAO: SaoParam = SaoParam {
    luma: NO_OFFSETS,
    cb: NO_OFFSETS,
    cr: NO_OFFSETS,
};

/// The block at the lower right of four.
const PLACE: Place = Place {
    width: 128,
    height: 128,
    index: 3,
};

/// The node of 16x16 at the upper left of a block.
const NODE: Node = Node {
    depth: 2,
    x: 0,
    y: 0,
};

/// A block between blocks that are like it, and its first node of 16x16.
#[derive(Drop)]
pub struct Units {
    kind: SliceKind,
    place: Place,
    near: Neighbours,
    block: Block,
    node: Node,
    ghost width: { 0 < place.width },
    ghost names: { NamesItsUnits place (lists_of_plan block.plan) },
    ghost depth: { node.depth ≤ 3 },
    ghost column: { node.x < 8 },
    ghost row: { node.y < 8 },
    ghost inside: { address_of node.x node.y + squares (3 - node.depth) ≤ 64 },
    ghost named: { NamesNode place (lists_of_plan block.plan) (3 - node.depth)
        (address_of node.x node.y) },
}

/// Two blocks, so that no call is like the one before.
#[derive(Drop)]
pub struct UnitPair {
    first: Units,
    second: Units,
}

/// Writes levels of -4 to 3 from a generator of numbers, in one of eight places.
fn put_levels(out: &mut [i16], seed: u32) {
    let mut state = seed;
    for i in 0..out.len() {
        state = state.wrapping_mul(1664525).wrapping_add(1013904223);
        let byte = (state >> 24) as u8;
        if byte < 32 {
            out[i] = i16::from(byte % 8) - 4;
        }
    }
}

/// Sets 64 intra units of 8x8, of many modes.
fn put_small_units(block: &mut Block) {
    for address in 0..64u8 {
        let mode = ((u16::from(address) * 11) % 35) as u8;
        block.plan.set_leaf(address, 0, Pred::Intra { mode });
    }
}

/// Sets an inter unit of 16x16 at the upper left.
fn put_inter_unit(block: &mut Block) {
    let pred = Pred::Inter {
        reference: 0,
        mv: Mv { x: 0, y: 0 },
        flag: 0,
        mvd: Mv { x: 5, y: -9 },
    };
    block.plan.set_leaf(0, 2, pred);
    block.plan.set_leaf(0, 1, pred);
    block.plan.set_leaf(4, 1, pred);
    block.plan.set_leaf(8, 1, pred);
    block.plan.set_leaf(12, 1, pred);
    block.plan.set_leaf(16, 2, pred);
    block.plan.set_leaf(32, 2, pred);
    block.plan.set_leaf(48, 2, pred);
}

impl Units {
    /// The kind and the node stand in fields, so that no kernel is compiled for one alone.
    #[inline(never)]
    fn new(kind: SliceKind, block: Block, place: Place, node: Node) -> anyhow::Result<Units>
        requires width { 0 < place.width }
        requires depth { node.depth ≤ 3 }
        requires column { node.x < 8 }
        requires row { node.y < 8 }
        requires inside { address_of node.x node.y + squares (3 - node.depth) ≤ 64 }
    {
        if !names_its_units(place, &block.plan) || !names_its_node(place, &block.plan, node) {
            bail!("the units of a block don't name its coding units");
        }
        let edges = Some(block.edges());
        let near = Neighbours {
            left: edges,
            above_left: edges,
            above: edges,
            above_right: edges,
        };
        Ok(Units {
            kind,
            place,
            near,
            block,
            node,
        })
    }

    /// A block with levels of noise.
    #[tactic(auto, unfolding(hv_tree_model::specs::Sites::address_of))]
    fn of_noise(alloc: Global, kind: SliceKind, seed: u32) -> anyhow::Result<Units> {
        let Ok(mut block) = Block::new(alloc) else {
            bail!("not enough memory");
        };
        match kind {
            SliceKind::I => put_small_units(&mut block),
            SliceKind::P => put_inter_unit(&mut block),
        }
        put_levels(block.plan.luma_mut(), seed);
        put_levels(block.plan.cb_mut(), seed.wrapping_add(1));
        put_levels(block.plan.cr_mut(), seed.wrapping_add(2));
        Units::new(kind, block, PLACE, NODE)
    }
}

/// Puts a block once.
#[inline(never)]
fn put_block(encoder: &mut Encoder, units: &Units) {
    put_ctb(
        encoder,
        units.kind,
        1,
        units.place,
        &units.near,
        &units.block.plan,
        &NO_SAO,
        false,
    );
}

/// Counts the bins of its node once.
#[inline(never)]
fn count(units: &Units) -> u64 {
    count_node(
        units.kind,
        1,
        units.place,
        &units.near,
        &units.block.plan,
        units.node,
    )
}

impl UnitPair {
    /// The block of this call.
    #[inline(always)]
    fn at(&self, place: usize) -> &Units {
        if place % 2 == 0 {
            &self.first
        } else {
            &self.second
        }
    }

    /// Puts all calls' blocks into one slice, and gives a sum of its bytes.
    fn put(&self, alloc: Global) -> Result<u64, NoMemory> {
        let mut encoder = Encoder::new(alloc, SliceKind::I, QUANTISER);
        for place in 0..CALLS {
            put_block(&mut encoder, self.at(place));
        }
        encoder.terminate(true);
        let bytes = encoder.finish()?;
        Ok(sum_of(&bytes))
    }

    /// The sum of all calls' counts.
    fn count(&self) -> u64 {
        let mut sum = 0u64;
        for place in 0..CALLS {
            sum = sum.wrapping_add(count(self.at(place)));
        }
        sum
    }
}

#[derive(Clone, Copy, PartialEq, Eq)]
pub enum UnitKernel {
    PutSmallUnits,
    CountInterUnit,
}

impl UnitKernel {
    /// All kernels, in the order in which they are run.
    pub const ALL: [UnitKernel; 2] = [UnitKernel::PutSmallUnits, UnitKernel::CountInterUnit];

    /// The word by which a user asks for it.
    pub fn name(self) -> &'static str {
        match self {
            UnitKernel::PutSmallUnits => "put_ctb_small_units",
            UnitKernel::CountInterUnit => "count_node_16",
        }
    }

    /// The kernel of this name, if there is one.
    pub fn named(word: &str) -> Option<UnitKernel> {
        for kernel in &UnitKernel::ALL {
            if kernel.name() == word {
                return Some(*kernel);
            }
        }
        None
    }

    /// The blocks that the kernel goes over.
    pub fn blocks(self, alloc: Global) -> anyhow::Result<UnitPair> {
        let kind = match self {
            UnitKernel::PutSmallUnits => SliceKind::I,
            UnitKernel::CountInterUnit => SliceKind::P,
        };
        let first = Units::of_noise(alloc, kind, 5)?;
        let second = Units::of_noise(alloc, kind, 8)?;
        Ok(UnitPair { first, second })
    }

    /// Runs a round of the kernel, and gives a sum of what came out.
    pub fn run(self, alloc: Global, blocks: &UnitPair) -> Result<u64, NoMemory> {
        match self {
            UnitKernel::PutSmallUnits => blocks.put(alloc),
            UnitKernel::CountInterUnit => Ok(blocks.count()),
        }
    }
}
