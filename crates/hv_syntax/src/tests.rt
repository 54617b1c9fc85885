//! Modes, contexts and bins, worked by hand.

ghost use Rattle.std.specs.Prelude.{◌≡◌, ◌<◌};

use crate::recorder::Bin::{Bypass, Coded, Terminate};
use crate::recorder::{Bin, Compared, Recorder};
use crate::{
    count_node, most_probable, most_probable_modes, names_its_node, names_its_units, put_ctb,
};
use hv_block::{Block, Edges, Neighbours};
use hv_near::{address_of, column_of, row_of};
use hv_plan::{Mv, Node, Place, Pred, SaoComponent, SaoKind, SaoParam};
use hv_tables::CtxTable::{
    Merge, MvdGreater0, MvdGreater1, MvpFlag, PartMode, PredMode, PrevIntra, RootCbf, SaoType,
    Skip, Split,
};
use hv_tables::SliceKind;
use hv_types::NoMemory;
use std::alloc::Global;
use std::process::Abort;
use std::test::Fail;

/// Modes at the left and above, and the three most probable ones.
const ROWS: [([u8; 2], [u8; 3]); 8] = [
    ([0, 0], [0, 1, 26]),
    ([1, 1], [0, 1, 26]),
    ([2, 2], [2, 33, 3]),
    ([26, 26], [26, 25, 27]),
    ([34, 34], [34, 33, 3]),
    ([0, 1], [0, 1, 26]),
    ([26, 0], [26, 0, 1]),
    ([10, 26], [10, 26, 0]),
];

#[test]
fn most_probable_modes_are_those_worked_by_hand(rt: HostRuntime) {
    for (modes, expected) in ROWS {
        assert!(rt; most_probable(modes[0], modes[1]) == expected);
    }
}

/// A coding unit: its first address, its size, and its mode of intra prediction, or `INTER`.
type Leaf = (u8, u8, u8);

/// What stands for the mode of an inter unit, of reference 0, flag 0 and vector difference (1, -3).
const INTER: u8 = 35;

/// A block: what is looked at, the sides of its picture in luma samples and its number in it, the
/// coding units at its left, those above it, its own, and bins of it.
type Case = (
    &'static str,
    [u32; 3],
    &'static [Leaf],
    &'static [Leaf],
    &'static [Leaf],
    &'static [Bin],
);

const NONE: [Leaf; 0] = [];

const WHOLE: [Leaf; 1] = [(0, 3, 1)];

const QUARTERS: [Leaf; 4] = [(0, 2, 1), (16, 2, 1), (32, 2, 1), (48, 2, 1)];

/// The quarter at the upper right alone is one unit: so the last column has depths 1 and 2, and the
/// last row 2.
const UPPER_RIGHT_WHOLE: [Leaf; 13] = [
    (0, 1, 1),
    (4, 1, 1),
    (8, 1, 1),
    (12, 1, 1),
    (16, 2, 1),
    (32, 1, 1),
    (36, 1, 1),
    (40, 1, 1),
    (44, 1, 1),
    (48, 1, 1),
    (52, 1, 1),
    (56, 1, 1),
    (60, 1, 1),
];

/// The quarter at the upper left is split.
const UPPER_LEFT_SPLIT: [Leaf; 7] = [
    (0, 1, 1),
    (4, 1, 1),
    (8, 1, 1),
    (12, 1, 1),
    (16, 2, 1),
    (32, 2, 1),
    (48, 2, 1),
];

/// Those at the upper right and the lower left are.
const TWO_SPLIT: [Leaf; 10] = [
    (0, 2, 1),
    (16, 1, 1),
    (20, 1, 1),
    (24, 1, 1),
    (28, 1, 1),
    (32, 1, 1),
    (36, 1, 1),
    (40, 1, 1),
    (44, 1, 1),
    (48, 2, 1),
];

/// A picture of 66x50 is padded to 72x56. The squares of its second block that are inside it: one
/// column of seven.
const COLUMN: [Leaf; 7] = [
    (0, 0, 1),
    (2, 0, 1),
    (8, 0, 1),
    (10, 0, 1),
    (32, 0, 1),
    (34, 0, 1),
    (40, 0, 1),
];

/// `split_cu_flag` (9.3.4.2.2).
#[rattlefmt::skip]
static SPLITS: [Case; 12] = [
    ("neither deeper", [128, 128, 3], &WHOLE, &WHOLE, &WHOLE, &[Coded(Split, 0, false)]),
    ("left deeper", [128, 128, 3], &QUARTERS, &WHOLE, &WHOLE, &[Coded(Split, 1, false)]),
    ("above deeper", [128, 128, 3], &WHOLE, &QUARTERS, &WHOLE, &[Coded(Split, 1, false)]),
    ("both deeper", [128, 128, 3], &QUARTERS, &QUARTERS, &WHOLE, &[Coded(Split, 2, false)]),
    ("left edge", [128, 128, 2], &NONE, &QUARTERS, &WHOLE, &[Coded(Split, 1, false)]),
    ("top edge", [128, 128, 1], &QUARTERS, &NONE, &WHOLE, &[Coded(Split, 1, false)]),
    ("left and top edge", [128, 128, 0], &NONE, &NONE, &WHOLE, &[Coded(Split, 0, false)]),
    ("units that an edge hides", [64, 64, 0], &QUARTERS, &QUARTERS, &WHOLE,
        &[Coded(Split, 0, false)]),
    ("inside: left alone, above alone", [64, 64, 0], &NONE, &NONE, &UPPER_LEFT_SPLIT, &[
        Coded(Split, 0, true), Coded(Split, 0, true),
        Coded(Split, 0, false), Coded(Split, 0, false),
        Coded(Split, 0, false), Coded(Split, 0, false),
        Coded(Split, 1, false), Coded(Split, 1, false), Coded(Split, 0, false),
    ]),
    ("inside: both", [64, 64, 0], &NONE, &NONE, &TWO_SPLIT, &[
        Coded(Split, 0, true), Coded(Split, 0, false), Coded(Split, 0, true),
        Coded(Split, 0, false), Coded(Split, 0, false),
        Coded(Split, 0, false), Coded(Split, 0, false),
        Coded(Split, 0, true),
        Coded(Split, 0, false), Coded(Split, 0, false),
        Coded(Split, 0, false), Coded(Split, 0, false),
        Coded(Split, 2, false),
    ]),
    ("rows and columns of the blocks beside", [128, 128, 3], &UPPER_RIGHT_WHOLE, &UPPER_RIGHT_WHOLE,
        &QUARTERS, &[
        Coded(Split, 2, true),
        Coded(Split, 1, false), Coded(Split, 1, false),
        Coded(Split, 1, false), Coded(Split, 0, false),
    ]),
    ("absent nodes: no flag", [72, 56, 1], &WHOLE, &NONE, &COLUMN, &[]),
];

const MODE_0: [Leaf; 1] = [(0, 3, 0)];

const MODE_1: [Leaf; 1] = [(0, 3, 1)];

const MODE_2: [Leaf; 1] = [(0, 3, 2)];

const MODE_10: [Leaf; 1] = [(0, 3, 10)];

const MODE_26: [Leaf; 1] = [(0, 3, 26)];

const MODE_34: [Leaf; 1] = [(0, 3, 34)];

const WHOLE_INTER: [Leaf; 1] = [(0, 3, INTER)];

const FOUR_MODES: [Leaf; 4] = [(0, 2, 10), (16, 2, 10), (32, 2, 10), (48, 2, 26)];

/// `prev_intra_luma_pred_flag` with `mpm_idx` or `rem_intra_luma_pred_mode` (8.4.2).
#[rattlefmt::skip]
static MODES: [Case; 13] = [
    ("left 26, above not seen: 26, 1, 0", [128, 128, 3], &MODE_26, &MODE_10, &MODE_26,
        &[Coded(PrevIntra, 0, true), Bypass(false)]),
    ("the second candidate", [128, 128, 3], &MODE_26, &MODE_10, &MODE_1,
        &[Coded(PrevIntra, 0, true), Bypass(true), Bypass(false)]),
    ("the third", [128, 128, 3], &MODE_26, &MODE_10, &MODE_0,
        &[Coded(PrevIntra, 0, true), Bypass(true), Bypass(true)]),
    ("the mode above isn't a candidate: 8 remains", [128, 128, 3], &MODE_26, &MODE_10, &MODE_10,
        &[Coded(PrevIntra, 0, false),
        Bypass(false), Bypass(true), Bypass(false), Bypass(false), Bypass(false)]),
    ("the greatest: 31 remains", [128, 128, 3], &MODE_26, &MODE_10, &MODE_34,
        &[Coded(PrevIntra, 0, false),
        Bypass(true), Bypass(true), Bypass(true), Bypass(true), Bypass(true)]),
    ("left 34, 1 and 0: 0 remains", [128, 128, 3], &MODE_34, &NONE, &MODE_2,
        &[Coded(PrevIntra, 0, false),
        Bypass(false), Bypass(false), Bypass(false), Bypass(false), Bypass(false)]),
    ("left is inter: 0, 1, 26", [128, 128, 3], &WHOLE_INTER, &MODE_10, &MODE_26,
        &[Coded(PrevIntra, 0, true), Bypass(true), Bypass(true)]),
    ("left edge: 0, 1, 26", [128, 128, 2], &NONE, &MODE_10, &MODE_1,
        &[Coded(PrevIntra, 0, true), Bypass(true), Bypass(false)]),
    ("top edge: 10, 1, 0", [128, 128, 1], &MODE_10, &NONE, &MODE_10,
        &[Coded(PrevIntra, 0, true), Bypass(false)]),
    ("left and top edge: 0, 1, 26", [128, 128, 0], &NONE, &NONE, &MODE_0,
        &[Coded(PrevIntra, 0, true), Bypass(false)]),
    ("a mode that the left edge hides", [64, 128, 1], &MODE_10, &NONE, &MODE_10,
        &[Coded(PrevIntra, 0, false),
        Bypass(false), Bypass(true), Bypass(false), Bypass(false), Bypass(false)]),
    ("inside: 0, 1, 26; 10, 1, 0; 1, 10, 0; 10, 9, 11", [64, 64, 0], &NONE, &NONE, &FOUR_MODES, &[
        Coded(PrevIntra, 0, false),
        Bypass(false), Bypass(true), Bypass(false), Bypass(false), Bypass(false),
        Coded(PrevIntra, 0, true), Bypass(false),
        Coded(PrevIntra, 0, true), Bypass(true), Bypass(false),
        Coded(PrevIntra, 0, false),
        Bypass(true), Bypass(false), Bypass(true), Bypass(true), Bypass(true),
    ]),
    ("absent nodes: 0, 1, 26 each", [72, 56, 1], &WHOLE, &NONE, &COLUMN, &[
        Coded(PrevIntra, 0, true), Bypass(true), Bypass(false),
        Coded(PrevIntra, 0, true), Bypass(true), Bypass(false),
        Coded(PrevIntra, 0, true), Bypass(true), Bypass(false),
        Coded(PrevIntra, 0, true), Bypass(true), Bypass(false),
        Coded(PrevIntra, 0, true), Bypass(true), Bypass(false),
        Coded(PrevIntra, 0, true), Bypass(true), Bypass(false),
        Coded(PrevIntra, 0, true), Bypass(true), Bypass(false),
    ]),
];

/// All bins of a block of one inter unit: `sao_type_idx_luma` and `sao_type_idx_chroma`, the
/// quadtree (7.3.8.4 to 7.3.8.9), and `end_of_slice_segment_flag`.
#[rattlefmt::skip]
static INTERS: [Case; 1] = [
    ("an inter unit", [64, 64, 0], &NONE, &NONE, &WHOLE_INTER, &[
        Coded(SaoType, 0, false), Coded(SaoType, 0, false),
        Coded(Split, 0, false), Coded(Skip, 0, false), Coded(PredMode, 0, false),
        Coded(PartMode, 0, true), Coded(Merge, 0, false),
        Coded(MvdGreater0, 0, true), Coded(MvdGreater0, 0, true),
        Coded(MvdGreater1, 0, false), Coded(MvdGreater1, 0, true),
        Bypass(false),
        Bypass(false), Bypass(true), Bypass(true),
        Coded(MvpFlag, 0, false), Coded(RootCbf, 0, false), Terminate(true),
    ]),
];

const NO_OFFSETS: SaoComponent = SaoComponent {
    kind: SaoKind::Off,
    offsets: [0, 0, 0, 0],
};

const NO_SAO: SaoParam = SaoParam {
    luma: NO_OFFSETS,
    cb: NO_OFFSETS,
    cr: NO_OFFSETS,
};

/// The whole block.
const ROOT: Node = Node {
    depth: 0,
    x: 0,
    y: 0,
};

/// The prediction of this mode.
fn pred_of(mode: u8) -> Pred {
    if mode < INTER {
        return Pred::Intra { mode };
    }
    Pred::Inter {
        reference: 0,
        mv: Mv { x: 0, y: 0 },
        flag: 0,
        mvd: Mv { x: 1, y: -3 },
    }
}

/// Puts a coding unit into a block, where it fits.
fn put_leaf(block: &mut Block, leaf: Leaf) {
    let (address, size, mode) = leaf;
    let pred = pred_of(mode);
    if size == 3 && address == 0 {
        block.plan.set_leaf(address, 3, pred);
    } else if size == 2 && address <= 48 {
        block.plan.set_leaf(address, 2, pred);
    } else if size == 1 && address <= 60 {
        block.plan.set_leaf(address, 1, pred);
    } else if size == 0 && address < 64 {
        block.plan.set_leaf(address, 0, pred);
    }
}

/// A block of these coding units, its levels 0.
fn block_of(alloc: Global, leaves: &[Leaf]) -> Result<Block, NoMemory> {
    let mut block = Block::new(alloc)?;
    for leaf in leaves {
        put_leaf(&mut block, *leaf);
    }
    Ok(block)
}

/// The edges of a block of these coding units; none where there are none.
fn edges_of(alloc: Global, leaves: &[Leaf]) -> Result<Option<Edges>, NoMemory> {
    if leaves.is_empty() {
        return Ok(None);
    }
    let block = block_of(alloc, leaves)?;
    Ok(Some(block.edges()))
}

/// A block in its picture, and what lies beside it.
#[derive(Drop)]
struct Placed {
    place: Place,
    near: Neighbours,
    block: Block,
}

/// The block of a case.
fn block_of_case(alloc: Global, case: &Case) -> Result<Placed, NoMemory> {
    let (_, picture, left, above, own, _) = *case;
    let place = Place {
        width: picture[0],
        height: picture[1],
        index: picture[2],
    };
    let near = Neighbours {
        left: edges_of(alloc, left)?,
        above_left: None,
        above: edges_of(alloc, above)?,
        above_right: None,
    };
    let block = block_of(alloc, own)?;
    Ok(Placed { place, near, block })
}

impl Placed {
    /// Puts it into the recorder, where its units name its coding units; says whether they do.
    fn record(&self, kind: SliceKind, recorder: &mut Recorder) -> bool {
        let plan = &self.block.plan;
        if self.place.width == 0 || !names_its_units(self.place, plan) {
            return false;
        }
        put_ctb(
            recorder, kind, 1, self.place, &self.near, plan, &NO_SAO, true,
        );
        true
    }

    /// How many bins its quadtree has, where its units name its coding units.
    #[tactic(auto, unfolding(hv_tree_model::specs::Sites::address_of))]
    fn count(&self, kind: SliceKind) -> Option<u64> {
        let plan = &self.block.plan;
        if self.place.width == 0 || !names_its_node(self.place, plan, ROOT) {
            return None;
        }
        Some(count_node(kind, 1, self.place, &self.near, plan, ROOT))
    }
}

/// Fails where bins of a case aren't those that it expects.
fn see_cases(
    rt: &impl Abort,
    alloc: Global,
    kind: SliceKind,
    compared: Compared,
    cases: &[Case],
) -> Result<(), Fail> {
    for case in cases {
        let block = block_of_case(alloc, case)?;
        let mut recorder = Recorder::new(compared, case.5);
        let is_named = block.record(kind, &mut recorder);
        assert!(rt; is_named && recorder.is_met(), "{}", case.0);
    }
    Ok(())
}

#[test]
fn bins_are_those_worked_by_hand(rt: HostRuntime) -> Result<(), Fail> {
    see_cases(&rt, rt.alloc(), SliceKind::I, Compared::Splits, &SPLITS)?;
    see_cases(&rt, rt.alloc(), SliceKind::I, Compared::Modes, &MODES)?;
    see_cases(&rt, rt.alloc(), SliceKind::P, Compared::All, &INTERS)
}

/// Whether the quadtree of a case has so many bins, and the block so many more.
fn counts(
    alloc: Global,
    kind: SliceKind,
    case: &Case,
    count: u64,
    others: u64,
) -> Result<bool, NoMemory> {
    let block = block_of_case(alloc, case)?;
    let mut recorder = Recorder::new(Compared::All, case.5);
    let is_named = block.record(kind, &mut recorder);
    let is_count = block.count(kind) == Some(count);
    Ok(is_named && is_count && recorder.count == count.saturating_add(others))
}

/// Seven units of eight bins, behind `sao_merge_left_flag` and two types, and the inter unit.
#[test]
fn bins_are_counted(rt: HostRuntime) -> Result<(), Fail> {
    assert!(rt; counts(rt.alloc(), SliceKind::I, &MODES[12], 56, 4)?);
    assert!(rt; counts(rt.alloc(), SliceKind::P, &INTERS[0], 15, 3)?);
    Ok(())
}

/// The most probable modes of the unit at an address of a case.
fn modes_of_case(alloc: Global, case: &Case, address: u8) -> Result<Option<[u8; 3]>, NoMemory>
    requires { address < 64 }
{
    let Placed { place, near, block } = block_of_case(alloc, case)?;
    if place.width == 0 {
        return Ok(None);
    }
    Ok(Some(most_probable_modes(place, &near, &block.plan, address)))
}

/// Beside other blocks, and inside a block of four units.
#[test]
fn modes_are_seen_beside_units(rt: HostRuntime) -> Result<(), Fail> {
    assert!(rt; modes_of_case(rt.alloc(), &MODES[0], 0)? == Some([26, 1, 0]));
    assert!(rt; modes_of_case(rt.alloc(), &MODES[11], 32)? == Some([1, 10, 0]));
    assert!(rt; modes_of_case(rt.alloc(), &MODES[11], 48)? == Some([10, 9, 11]));
    Ok(())
}

/// Column 5 is 101, and row 3 is 011: in turn, those of the column first, 011011.
#[test]
fn addresses_of_squares(rt: HostRuntime) -> Result<(), Fail> {
    assert_eq!(rt; address_of(5, 3), 27);
    assert_eq!(rt; (column_of(27), row_of(27)), (5, 3));
    Ok(())
}
