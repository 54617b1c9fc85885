//! Leaves of a few blocks, worked by hand.
ghost use Rattle.std.specs.Prelude.{◌≡◌, ◌+◌, ◌%◌, ◌^◌, ◌<◌, ◌≤◌, IfOk};
ghost use Rattle.hv_types.specs.Samples.{filled_plane};
ghost use Rattle.hv_tree_model.specs.Trees.{side};
ghost use Rattle.hv_tree_model.specs.Sites.{squares, x0, y0};

use super::*;
use hv_block::{Block, Edges, Frame, Neighbours};
use hv_plan::{Mv, Place, Pred, Unit};
use hv_types::{NoMemory, Picture, Plane};
use std::alloc::Global;
use std::test::Fail;

const NONE: Neighbours = Neighbours {
    left: None,
    above_left: None,
    above: None,
    above_right: None,
};

/// A block of a picture of 128x128 luma samples.
fn place(index: u32) -> Place
    ensures { result ≡ record { width = 128; height = 128; index = index } }
{
    Place {
        width: 128,
        height: 128,
        index,
    }
}

/// Edges of a block whose samples are these in each component.
fn edges(luma: u8, cb: u8, cr: u8) -> Edges {
    let unit = Unit {
        depth: 0,
        pred: Pred::Intra { mode: 1 },
    };
    Edges {
        right_units: [unit; 8],
        bottom_units: [unit; 8],
        right_luma: [luma; 64],
        bottom_luma: [luma; 64],
        right_cb: [cb; 32],
        bottom_cb: [cb; 32],
        right_cr: [cr; 32],
        bottom_cr: [cr; 32],
    }
}

/// Makes a node one unit of this mode, and rebuilds it at the quantiser 40. Tells whether it did.
fn rebuild(block: &mut Block, place: Place, node: (u8, u8), mode: u8, near: &Neighbours) -> bool
    requires size { node.1 ≤ 3 }
    requires address { node.0 < 64 }
    requires fits { node.0 + 4 ^ node.1 ≤ 64 }
    requires node { node.0 % squares node.1 ≡ 0 }
    requires right { x0 place node.0 + side node.1 ≤ place.width }
    requires bottom { y0 place node.0 + side node.1 ≤ place.height }
    requires mode { mode ≤ 34 }
{
    let (address, size) = node;
    block.plan.set_leaf(address, size, Pred::Intra { mode });
    if let Pred::Intra { mode } = block.plan.units()[usize::from(address)].pred {
        if mode <= 34 {
            rebuild_leaf(
                &block.plan,
                address,
                size,
                place,
                40,
                near,
                None,
                None,
                &mut block.samples,
            );
            return true;
        }
    }
    false
}

/// A frame of 128x128 luma samples that shows these samples in each component.
fn frame(alloc: Global, luma: u8, cb: u8, cr: u8) -> Result<Frame, NoMemory>
    ensures { IfOk result (λ frame. frame.shown.luma ≡ filled_plane 128 128 luma) }
{
    let shown = Picture {
        luma: Plane::new(alloc, 128, 128, luma)?,
        cb: Plane::new(alloc, 64, 64, cb)?,
        cr: Plane::new(alloc, 64, 64, cr)?,
    };
    let working = Picture {
        luma: Plane::new(alloc, 128, 128, 0)?,
        cb: Plane::new(alloc, 64, 64, 0)?,
        cr: Plane::new(alloc, 64, 64, 0)?,
    };
    Ok(Frame {
        shown,
        working,
        sao: Vec::new(alloc),
    })
}

/// Makes a node one unit of this entry of list 0 and this vector, and rebuilds it at the quantiser
/// 40. Tells whether it did.
fn move_unit(
    block: &mut Block,
    place: Place,
    node: (u8, u8),
    reference: u8,
    mv: Mv,
    frames: (&Frame, &Frame),
) -> bool
    requires size { node.1 ≤ 3 }
    requires address { node.0 < 64 }
    requires fits { node.0 + 4 ^ node.1 ≤ 64 }
    requires node { node.0 % squares node.1 ≡ 0 }
    requires right { x0 place node.0 + side node.1 ≤ place.width }
    requires bottom { y0 place node.0 + side node.1 ≤ place.height }
{
    let (address, size) = node;
    let mvd = Mv { x: 0, y: 0 };
    let pred = Pred::Inter {
        reference,
        mv,
        flag: 0,
        mvd,
    };
    block.plan.set_leaf(address, size, pred);
    if let Pred::Inter { reference, .. } = block.plan.units()[usize::from(address)].pred {
        if reference < 2 {
            rebuild_leaf(
                &block.plan,
                address,
                size,
                place,
                40,
                &NONE,
                Some(frames.0),
                Some(frames.1),
                &mut block.samples,
            );
            return true;
        }
    }
    false
}

/// Nothing is around the first block; from the left of the second, row by row, each of the four
/// transform units of 32x32 goes on with the one before.
#[test]
#[tactic(auto, unfolding(hv_tree_model::specs::Sites::column_of, hv_tree_model::specs::Sites::row_of))]
fn units_of_64(rt: HostRuntime) -> Result<(), Fail> {
    let mut block = Block::new(rt.alloc())?;
    assert!(rt; rebuild(&mut block, place(0), (0, 3), 1, &NONE));
    assert_eq!(rt; block.samples.luma(), &[128; 4096][..]);
    assert_eq!(rt; block.samples.cb(), &[128; 1024][..]);

    let mut near = NONE;
    near.left = Some(edges(50, 60, 70));
    assert!(rt; rebuild(&mut block, place(1), (0, 3), 10, &near));
    assert_eq!(rt; block.samples.luma(), &[50; 4096][..]);
    assert_eq!(rt; block.samples.cb(), &[60; 1024][..]);
    assert_eq!(rt; block.samples.cr(), &[70; 1024][..]);
    Ok(())
}

/// A unit of 8x8 beside the first, from the lower left, where nothing is decoded yet.
#[test]
#[tactic(auto, unfolding(hv_tree_model::specs::Sites::column_of, hv_tree_model::specs::Sites::row_of))]
fn lower_left_comes_later(rt: HostRuntime) -> Result<(), Fail> {
    let mut block = Block::new(rt.alloc())?;
    block.samples.luma_mut().fill(9);
    for y in 0..8 {
        block.samples.luma_mut()[64 * y..64 * y + 8].fill(40);
    }
    assert!(rt; rebuild(&mut block, place(0), (1, 0), 2, &NONE));
    let luma = block.samples.luma();
    assert_eq!(rt; &luma[8..16], &[40; 8][..]);
    assert_eq!(rt; &luma[64 * 7 + 8..64 * 7 + 16], &[40; 8][..]);
    assert_eq!(rt; (luma[16], luma[64 * 8], luma[64 * 8 + 8]), (9, 9, 9));
    Ok(())
}

/// From the upper right: the second unit of 8x8 is decoded before the third, the fifth isn't before
/// the fourth.
#[test]
#[tactic(auto, unfolding(hv_tree_model::specs::Sites::column_of, hv_tree_model::specs::Sites::row_of))]
fn upper_right_comes_before(rt: HostRuntime) -> Result<(), Fail> {
    let mut block = Block::new(rt.alloc())?;
    block.samples.luma_mut().fill(9);
    block.samples.luma_mut()[64 * 7..64 * 7 + 8].fill(40);
    block.samples.luma_mut()[64 * 7 + 8..64 * 7 + 16].fill(80);
    block.samples.cb_mut().fill(9);
    block.samples.cb_mut()[32 * 3..32 * 3 + 4].fill(40);
    block.samples.cb_mut()[32 * 3 + 4..32 * 3 + 8].fill(80);
    assert!(rt; rebuild(&mut block, place(0), (2, 0), 34, &NONE));
    let luma = block.samples.luma();
    assert_eq!(rt;
        &luma[64 * 8..64 * 8 + 8],
        &[40, 40, 40, 40, 40, 40, 50, 70][..]
    );
    assert_eq!(rt;
        &luma[64 * 15..64 * 15 + 8],
        &[70, 80, 80, 80, 80, 80, 80, 80][..]
    );
    let cb = block.samples.cb();
    assert_eq!(rt; &cb[32 * 4..32 * 4 + 4], &[40, 40, 40, 80][..]);
    assert_eq!(rt; &cb[32 * 5..32 * 5 + 4], &[40, 40, 80, 80][..]);

    assert!(rt; rebuild(&mut block, place(0), (3, 0), 34, &NONE));
    let cb = block.samples.cb();
    assert_eq!(rt; &cb[32 * 4 + 4..32 * 4 + 8], &[80; 4][..]);
    assert_eq!(rt; &cb[32 * 7 + 4..32 * 7 + 8], &[80; 4][..]);
    Ok(())
}

/// Below the picture's first blocks at its left edge, from the left: what lies there has the first
/// sample above. Luma of 8x8 is smoothed in its first row.
#[test]
#[tactic(auto, unfolding(hv_tree_model::specs::Sites::column_of, hv_tree_model::specs::Sites::row_of))]
fn left_edge(rt: HostRuntime) -> Result<(), Fail> {
    let mut block = Block::new(rt.alloc())?;
    let mut above = edges(50, 60, 70);
    above.bottom_luma[0] = 40;
    above.bottom_cb[0] = 20;
    let mut near = NONE;
    near.above = Some(above);
    assert!(rt; rebuild(&mut block, place(2), (0, 0), 10, &near));
    let luma = block.samples.luma();
    assert_eq!(rt; &luma[..9], &[40, 45, 45, 45, 45, 45, 45, 45, 0][..]);
    assert_eq!(rt; &luma[64..73], &[40, 40, 40, 40, 40, 40, 40, 40, 0][..]);
    assert_eq!(rt;
        &block.samples.cb()[32 * 3..32 * 3 + 5],
        &[20, 20, 20, 20, 0][..]
    );
    assert_eq!(rt; &block.samples.cr()[..5], &[70, 70, 70, 70, 0][..]);
    Ok(())
}

/// A unit of 32x32 from above: a column that differs is copied down to its end.
#[test]
#[tactic(auto, unfolding(hv_tree_model::specs::Sites::column_of, hv_tree_model::specs::Sites::row_of))]
fn column_of_32(rt: HostRuntime) -> Result<(), Fail> {
    let mut block = Block::new(rt.alloc())?;
    let mut above = edges(50, 60, 70);
    above.bottom_luma[40] = 7;
    above.bottom_cr[31] = 8;
    let mut near = NONE;
    near.above = Some(above);
    assert!(rt; rebuild(&mut block, place(2), (16, 2), 26, &near));
    let (luma, cr) = (block.samples.luma(), block.samples.cr());
    assert_eq!(rt; &luma[38..43], &[50, 50, 7, 50, 50][..]);
    assert_eq!(rt; &luma[64 * 31 + 38..64 * 31 + 43], &[50, 50, 7, 50, 50][..]);
    assert_eq!(rt; (luma[31], luma[64 * 32 + 40]), (0, 0));
    assert_eq!(rt; &cr[32 * 15 + 14..32 * 15 + 18], &[0, 0, 70, 70][..]);
    assert_eq!(rt; (cr[32 * 15 + 31], cr[32 * 16 + 31]), (8, 0));
    Ok(())
}

/// A plane through the samples at the left and above, in Cb of 8x8 and luma of 16x16.
#[test]
#[tactic(auto, unfolding(hv_tree_model::specs::Sites::column_of, hv_tree_model::specs::Sites::row_of))]
fn planar_of_16(rt: HostRuntime) -> Result<(), Fail> {
    let mut block = Block::new(rt.alloc())?;
    let mut near = NONE;
    near.left = Some(edges(50, 60, 70));
    near.above = Some(edges(90, 92, 70));
    assert!(rt; rebuild(&mut block, place(3), (0, 1), 0, &near));
    let cb = block.samples.cb();
    assert_eq!(rt; &cb[..9], &[76, 78, 80, 82, 84, 86, 88, 90, 0][..]);
    assert_eq!(rt;
        &cb[32 * 7..32 * 7 + 9],
        &[62, 64, 66, 68, 70, 72, 74, 76, 0][..]
    );
    assert_eq!(rt; block.samples.luma()[64 * 15 + 15], 70);
    assert_eq!(rt; block.samples.cr()[32 * 7 + 7], 70);
    Ok(())
}

/// The first level 1 at the quantiser 40 is 8 in each sample of luma of 8x8; chroma has the
/// quantiser 36, by which it is 10 in each sample of 4x4, and would have 16 by 40.
#[test]
#[tactic(auto, unfolding(hv_tree_model::specs::Sites::column_of, hv_tree_model::specs::Sites::row_of))]
fn levels_at_40(rt: HostRuntime) -> Result<(), Fail> {
    let mut block = Block::new(rt.alloc())?;
    block.plan.luma_mut()[0] = 1;
    block.plan.cb_mut()[0] = 1;
    block.plan.cr_mut()[0] = -1;
    assert!(rt; rebuild(&mut block, place(0), (0, 0), 1, &NONE));
    let luma = block.samples.luma();
    assert_eq!(rt; (luma[0], luma[64 * 7 + 7], luma[8]), (136, 136, 0));
    assert_eq!(rt;
        &block.samples.cb()[32 * 3..32 * 3 + 5],
        &[138, 138, 138, 138, 0][..]
    );
    assert_eq!(rt;
        &block.samples.cr()[32 * 3..32 * 3 + 5],
        &[118, 118, 118, 118, 0][..]
    );
    Ok(())
}

/// A unit of 8x8 in the last block, from the second frame: 12 samples at its right, and 1 below.
/// Its levels are added as to intra units.
#[test]
#[tactic(auto, unfolding(hv_tree_model::specs::Sites::column_of, hv_tree_model::specs::Sites::row_of))]
fn unit_from_second_frame(rt: HostRuntime) -> Result<(), Fail> {
    let mut block = Block::new(rt.alloc())?;
    let first = frame(rt.alloc(), 10, 20, 30)?;
    let mut second = frame(rt.alloc(), 100, 110, 120)?;
    second.shown.luma.set(84, 73, 7);
    let mv = Mv { x: 48, y: 4 };
    block.plan.cb_mut()[48] = 1;
    assert!(rt; move_unit(&mut block, place(3), (3, 0), 1, mv, (&first, &second)));
    let (luma, cb, cr) = (block.samples.luma(), block.samples.cb(), block.samples.cr());
    assert_eq!(rt; &luma[64 * 8 + 7..64 * 8 + 11], &[0, 7, 100, 100][..]);
    assert_eq!(rt; (luma[64 * 15 + 15], luma[64 * 16 + 15]), (100, 0));
    assert_eq!(rt;
        &cb[32 * 4 + 3..32 * 4 + 9],
        &[0, 120, 120, 120, 120, 0][..]
    );
    assert_eq!(rt;
        &cr[32 * 7 + 3..32 * 7 + 9],
        &[0, 120, 120, 120, 120, 0][..]
    );
    Ok(())
}

/// A unit of 64x64 from far outside the first frame, below its lower left corner.
#[test]
#[tactic(auto, unfolding(hv_tree_model::specs::Sites::column_of, hv_tree_model::specs::Sites::row_of))]
fn unit_from_outside(rt: HostRuntime) -> Result<(), Fail> {
    let mut block = Block::new(rt.alloc())?;
    let mut first = frame(rt.alloc(), 10, 20, 30)?;
    let second = frame(rt.alloc(), 100, 110, 120)?;
    first.shown.luma.set(0, 127, 33);
    let mv = Mv {
        x: -32768,
        y: 32767,
    };
    assert!(rt; move_unit(&mut block, place(1), (0, 3), 0, mv, (&first, &second)));
    assert_eq!(rt; block.samples.luma(), &[33; 4096][..]);
    assert_eq!(rt; block.samples.cb(), &[20; 1024][..]);
    assert_eq!(rt; block.samples.cr(), &[30; 1024][..]);
    Ok(())
}

/// Samples of a leaf of 8x8 by its mode, 0 to 34: of luma in the columns and rows (0, 0), (7, 0),
/// (0, 7), (7, 7) and (3, 5), and of Cb in (0, 0), (3, 0), (0, 3), (3, 3) and (1, 2). They were
/// computed from the text of H.265 by another program.
#[rattlefmt::skip]
const MODES: [([u8; 5], [u8; 5]); 35] = [
    ([101, 154, 41, 97, 82], [84, 109, 54, 81, 73]),
    ([104, 118, 84, 102, 102], [84, 84, 84, 84, 84]),
    ([13, 34, 34, 55, 37], [27, 48, 48, 69, 48]),
    ([12, 30, 33, 51, 35], [26, 43, 47, 64, 45]),
    ([12, 26, 33, 47, 33], [25, 38, 46, 59, 43]),
    ([12, 23, 33, 44, 31], [24, 35, 45, 56, 41]),
    ([11, 20, 32, 41, 30], [23, 31, 44, 52, 40]),
    ([11, 17, 32, 38, 28], [22, 28, 43, 49, 38]),
    ([10, 14, 31, 35, 27], [21, 24, 42, 45, 36]),
    ([10, 12, 31, 33, 26], [20, 22, 41, 43, 35]),
    ([65, 47, 31, 31, 25], [20, 20, 41, 41, 34]),
    ([15, 50, 31, 30, 24], [23, 30, 41, 39, 33]),
    ([23, 111, 31, 27, 23], [26, 45, 40, 37, 32]),
    ([33, 181, 30, 24, 22], [31, 68, 39, 33, 30]),
    ([43, 178, 30, 21, 20], [36, 111, 38, 30, 28]),
    ([53, 173, 29, 18, 19], [41, 139, 37, 26, 27]),
    ([63, 173, 29, 15, 17], [46, 135, 36, 23, 25]),
    ([75, 173, 29, 12, 15], [53, 137, 35, 30, 23]),
    ([98, 170, 28, 98, 13], [60, 132, 34, 60, 20]),
    ([111, 169, 27, 198, 20], [77, 130, 31, 128, 43]),
    ([128, 168, 27, 191, 97], [91, 129, 31, 147, 63]),
    ([142, 168, 27, 186, 179], [102, 128, 29, 142, 97]),
    ([155, 167, 24, 181, 197], [113, 127, 39, 138, 130]),
    ([169, 166, 21, 176, 193], [125, 126, 58, 133, 149]),
    ([183, 166, 74, 171, 190], [136, 124, 94, 129, 145]),
    ([193, 165, 145, 168, 187], [144, 124, 128, 125, 143]),
    ([160, 165, 170, 165, 185], [150, 123, 150, 123, 141]),
    ([200, 165, 198, 163, 183], [149, 122, 148, 121, 139]),
    ([199, 164, 194, 159, 180], [149, 122, 144, 117, 137]),
    ([199, 164, 189, 154, 177], [147, 120, 140, 113, 133]),
    ([198, 163, 184, 149, 173], [146, 119, 135, 108, 130]),
    ([197, 162, 179, 144, 169], [145, 118, 131, 104, 127]),
    ([197, 162, 174, 139, 165], [144, 117, 126, 99, 123]),
    ([196, 161, 168, 133, 161], [143, 116, 121, 94, 119]),
    ([195, 160, 160, 125, 155], [141, 114, 114, 87, 114]),
];

/// Edges whose samples rise downwards at the left, and fall to the right above.
fn slopes() -> Neighbours {
    let mut left = edges(0, 0, 0);
    let mut above = edges(0, 0, 0);
    for i in 0..16u8 {
        left.right_luma[usize::from(i)] = 10 + 3 * i;
        above.bottom_luma[usize::from(i)] = 200 - 5 * i;
    }
    for i in 0..8u8 {
        left.right_cb[usize::from(i)] = 20 + 7 * i;
        above.bottom_cb[usize::from(i)] = 150 - 9 * i;
    }
    Neighbours {
        left: Some(left),
        above_left: Some(edges(90, 60, 60)),
        above: Some(above),
        above_right: None,
    }
}

/// Each mode, in luma and in chroma, with all neighbours there.
#[test]
#[tactic(auto, unfolding(hv_tree_model::specs::Sites::column_of, hv_tree_model::specs::Sites::row_of))]
fn each_mode(rt: HostRuntime) -> Result<(), Fail> {
    let near = slopes();
    for mode in 0..35u8 {
        let mut block = Block::new(rt.alloc())?;
        assert!(rt; rebuild(&mut block, place(3), (0, 0), mode, &near));
        let (luma, cb) = (block.samples.luma(), block.samples.cb());
        let (known_luma, known_cb) = MODES[usize::from(mode)];
        let of_luma = [
            luma[0],
            luma[7],
            luma[64 * 7],
            luma[64 * 7 + 7],
            luma[64 * 5 + 3],
        ];
        let of_cb = [cb[0], cb[3], cb[32 * 3], cb[32 * 3 + 3], cb[32 * 2 + 1]];
        assert_eq!(rt; (mode, of_luma), (mode, known_luma));
        assert_eq!(rt; (mode, of_cb), (mode, known_cb));
    }
    Ok(())
}
