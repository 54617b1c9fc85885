//! A node that costs as much as one inter unit as split, worked by hand.

ghost use Rattle.std.specs.Prelude.{◌≡◌, IfOk};
ghost use Rattle.hv_types.specs.Video.{IsPicture};
ghost use Rattle.hv_types.specs.Configuration.{padded_width, padded_height};

use crate::ctb::{Room, decide_ctb};
use crate::task::Task;
use hv_amvp::Distances;
use hv_block::{Block, Frame, Neighbours};
use hv_decision::{Group, Structure};
use hv_plan::{Mv, Place, Pred, Unit};
use hv_search::{Motion, search_picture};
use hv_tables::SliceKind;
use hv_types::{Config, Emit, GroupInput, Picture, Plane, Settings};
use std::alloc::Global;
use std::process::Abort;
use std::test::Fail;

/// Settings of groups of three pictures of 16x16, whose middle one refers to the two others.
fn config_of(rt: &impl Abort) -> Config
    ensures group { result.group ≡ 3 }
    ensures levels { result.levels ≡ 1 }
    ensures width { padded_width result ≡ 16 }
    ensures height { padded_height result ≡ 16 }
{
    let settings = Settings {
        width: 16,
        height: 16,
        qp: 28,
        levels: 1,
        group: 3,
        workers: 1,
        effort: 1,
        segment: 1,
        emit: Emit::Stream,
        synth: None,
    };
    Config::checked(settings).expect(rt, "settings without a fault")
}

/// What motion search finds for the middle one of three flat pictures: each vector is (0, 0).
fn still(alloc: Global, config: &Config) -> Result<Motion, Fail>
    requires group { config.now.group ≡ 3 }
    requires levels { config.now.levels ≡ 1 }
    ensures width { IfOk result (λ m. m.width ≡ padded_width config.now) }
    ensures height { IfOk result (λ m. m.height ≡ padded_height config.now) }
{
    let raw = vec![in alloc; 128; config.picture_bytes() as usize]?;
    let mut input = GroupInput::new(alloc, *config)?;
    input.push(&raw)?;
    input.push(&raw)?;
    input.push(&raw)?;
    let structure = Structure::of(alloc, 3, 1)?;
    let group = Group {
        number: 0,
        input,
        structure,
    };
    Ok(search_picture(alloc, &group, 1)?)
}

/// A picture whose first quarter is flat, and whose other quarters have lines of 64 and of 192.
fn lined_picture(alloc: Global) -> Result<Picture, Fail>
    ensures { IfOk result (λ picture. IsPicture 16 16 picture) }
{
    let mut luma = Plane::new(alloc, 16, 16, 128)?;
    for y in 0..16 {
        for x in 0..16 {
            if x >= 8 || y >= 8 {
                luma.set(x, y, if x % 2 == 0 { 64 } else { 192 });
            }
        }
    }
    let cb = Plane::new(alloc, 8, 8, 128)?;
    let cr = Plane::new(alloc, 8, 8, 128)?;
    Ok(Picture { luma, cb, cr })
}

/// A frame that shows that picture, with these samples in four places of the first quarter.
fn frame(alloc: Global, config: &Config, spots: [u8; 4]) -> Result<Frame, Fail> {
    let mut shown = lined_picture(alloc)?;
    shown.luma.set(1, 1, spots[0]);
    shown.luma.set(5, 2, spots[1]);
    shown.luma.set(2, 5, spots[2]);
    shown.luma.set(6, 6, spots[3]);
    let mut frame = Frame::new(alloc, config)?;
    frame.shown = shown;
    Ok(frame)
}

/// The first block, in a P slice with two references whose frames show such samples.
fn decided(rt: &impl Abort, alloc: Global, spots: [u8; 4]) -> Result<Block, Fail> {
    let config = config_of(rt);
    let motion = still(alloc, &config)?;
    let input = lined_picture(alloc)?;
    let frame = frame(alloc, &config, spots)?;
    let near = Neighbours {
        left: None,
        above_left: None,
        above: None,
        above_right: None,
    };
    let (found, shown) = (Some(&motion), Some(&frame));
    let task = Task {
        effort: 1,
        qp: 30,
        input: &input,
        kind: SliceKind::P,
        references: 2,
        place: Place {
            width: 16,
            height: 16,
            index: 0,
        },
        near: &near,
        distances: Distances {
            first: 1,
            second: -1,
        },
        motion: found,
        first: shown,
        second: shown,
    };
    let mut room = Room::new(alloc)?;
    let mut out = Block::new(alloc)?;
    decide_ctb(&task, &mut room, &mut out);
    Ok(out)
}

/// The units of the first node of 16x16.
fn units_of(block: &Block) -> [Unit; 4] {
    let units = block.plan.units();
    [units[0], units[1], units[2], units[3]]
}

fn has_a_level(block: &Block) -> bool {
    block.plan.luma().iter().any(|level| *level != 0)
}

/// A unit that shows what entry 0 of list 0 shows there.
fn still_unit(depth: u8) -> Unit {
    let zero = Mv { x: 0, y: 0 };
    Unit {
        depth,
        pred: Pred::Inter {
            reference: 0,
            mv: zero,
            flag: 0,
            mvd: zero,
        },
    }
}

/// Three spots are off by 18, and no level is coded for them. One unit takes ten bins:
/// `split_cu_flag`, `cu_skip_flag`, `pred_mode_flag`, `part_mode`, `merge_flag`, `ref_idx_l0`,
/// `abs_mvd_greater0_flag` twice, `mvp_l0_flag` and `rqt_root_cbf`.
///
/// Four units take 37: `split_cu_flag`, nine for each inter unit, as above, and nine for the first
/// one, which is planar and shows the input: `cu_skip_flag`, `pred_mode_flag`, `part_mode`,
/// `prev_intra_luma_pred_flag`, one of `mpm_idx`, `intra_chroma_pred_mode`, and the flags of Cb, Cr
/// and luma.
///
/// At quantiser 30 a bin weighs 576, and a squared difference 16: 27 * 576 is 16 * 3 * 18 * 18. So
/// one unit costs as much as four, which come later. Both entries of list 0 show the same: the
/// first one is taken.
#[test]
fn equal_costs(rt: HostRuntime) -> Result<(), Fail> {
    let block = decided(&rt, rt.alloc(), [146, 146, 146, 128])?;
    assert_eq!(rt; units_of(&block), [still_unit(2); 4]);
    assert!(rt; !has_a_level(&block));
    Ok(())
}

/// One more spot is off by 1: four units cost 16 less than one.
#[test]
fn a_difference_more(rt: HostRuntime) -> Result<(), Fail> {
    let block = decided(&rt, rt.alloc(), [146, 146, 146, 129])?;
    let planar = Unit {
        depth: 3,
        pred: Pred::Intra { mode: 0 },
    };
    let still = still_unit(3);
    assert_eq!(rt; units_of(&block), [planar, still, still, still]);
    assert!(rt; !has_a_level(&block));
    Ok(())
}
