//! Pictures behind both filters.
use super::*;
use hv_block::{Block, Frame};
use hv_decision::{Group, Structure};
use hv_plan::{Pred, SaoComponent, SaoKind};
use hv_types::{Config, Emit, GroupInput, NoMemory, Plane, Settings};
use std::alloc::Global;
use std::test::Fail;

/// One value for each component.
#[derive(Clone, Copy)]
struct Values {
    luma: u8,
    cb: u8,
    cr: u8,
}

/// A group of one picture of these sides.
fn settings(width: u32, height: u32, qp: u8, effort: u8) -> Settings {
    Settings {
        width,
        height,
        qp,
        levels: 0,
        group: 1,
        workers: 1,
        effort,
        segment: 1,
        emit: Emit::Stream,
        synth: None,
    }
}

/// A block of intra units of 8x8 without levels, with samples of these values.
fn block_of(alloc: Global, values: Values) -> Result<Block, NoMemory> {
    let mut block = Block::new(alloc)?;
    for address in 0..64u8 {
        block.plan.set_leaf(address, 0, Pred::Intra { mode: 1 });
    }
    block.samples.luma_mut().fill(values.luma);
    block.samples.cb_mut().fill(values.cb);
    block.samples.cr_mut().fill(values.cr);
    Ok(block)
}

/// The bytes of a picture of these values, whose luma has so many samples.
fn raw_of(alloc: Global, samples: usize, values: Values) -> Result<Vec<u8>, NoMemory> {
    let mut raw = Vec::new(alloc);
    for _ in 0..samples {
        raw.push(values.luma)?;
    }
    for _ in 0..samples / 4 {
        raw.push(values.cb)?;
    }
    for _ in 0..samples / 4 {
        raw.push(values.cr)?;
    }
    Ok(raw)
}

/// The sample in the last column of the last row.
fn last(plane: &Plane) -> u8 {
    plane.at(plane.width() - 1, plane.height() - 1)
}

/// What stands when a picture with this input and these blocks is filtered.
fn filtered(
    alloc: Global,
    settings: Settings,
    raw: &[u8],
    values: &[Values],
) -> Result<Frame, Fail> {
    let mut input = GroupInput::new(alloc, Config::checked(settings)?)?;
    let whole = raw.len() as u64 == input.config().picture_bytes();
    if whole && input.count() < input.config().settings().group {
        input.push(raw)?;
    }
    if input.count() == 0 {
        return Err("no picture".into());
    }
    let structure = Structure::of(alloc, input.count(), input.config().settings().levels)?;
    let group = Group {
        number: 0,
        input,
        structure,
    };
    let mut blocks = Vec::new(alloc);
    for each in values {
        blocks.push(block_of(alloc, *each)?)?;
    }
    let config = group.input.config();
    let mut frame = Frame::new(alloc, &config)?;
    let count = config.columns() as usize * config.rows() as usize;
    if blocks.len() != count || frame.sao.len() != count {
        return Err("no such blocks".into());
    }
    filter_picture(&group, 0, &blocks, &mut frame);
    Ok(frame)
}

/// A step between two blocks is smoothed, and nothing is offset at effort 0.
#[test]
fn a_step_between_blocks(rt: HostRuntime) -> Result<(), Fail> {
    let left = Values {
        luma: 100,
        cb: 100,
        cr: 110,
    };
    let right = Values {
        luma: 110,
        cb: 110,
        cr: 100,
    };
    let raw = raw_of(rt.alloc(), 72 * 8, left)?;

    let frame = filtered(rt.alloc(), settings(72, 8, 32, 0), &raw, &[left, right])?;

    let luma = frame.shown.luma.samples();
    let cb = frame.shown.cb.samples();
    let cr = frame.shown.cr.samples();
    if luma.len() < 576 || cb.len() < 144 || cr.len() < 144 {
        return Err("no such planes".into());
    }
    assert_eq!(rt;
        &luma[60..68],
        [100, 100, 101, 103, 107, 109, 110, 110].as_slice()
    );
    assert_eq!(rt;
        &luma[564..572],
        [100, 100, 101, 103, 107, 109, 110, 110].as_slice()
    );
    assert_eq!(rt; &cb[30..34], [100, 103, 107, 110].as_slice());
    assert_eq!(rt; &cr[138..142], [110, 107, 103, 100].as_slice());
    assert_eq!(rt; frame.working.luma.samples(), luma);
    for choice in frame.sao.as_slice() {
        assert_eq!(rt; *choice, hv_block::no_offsets());
    }
    Ok(())
}

/// Luma lies 3 too low in band 2, Cb 4 in band 12, and Cr 5 in band 31.
#[test]
fn offsets_at_effort_1(rt: HostRuntime) -> Result<(), Fail> {
    let decoded = Values {
        luma: 20,
        cb: 100,
        cr: 250,
    };
    let wanted = Values {
        luma: 23,
        cb: 104,
        cr: 255,
    };
    let raw = raw_of(rt.alloc(), 8 * 8, wanted)?;

    let frame = filtered(rt.alloc(), settings(8, 8, 12, 1), &raw, &[decoded])?;

    let band = SaoComponent {
        kind: SaoKind::Band { position: 0 },
        offsets: [0, 0, 3, 0],
    };
    if frame.sao.len() != 1 {
        return Err("not one block".into());
    }
    assert_eq!(rt; frame.sao[0].luma, band);
    let shown = &frame.shown;
    let working = &frame.working;
    assert_eq!(rt; (last(&shown.luma), last(&working.luma)), (23, 20));
    assert_eq!(rt; (last(&shown.cb), last(&working.cb)), (104, 100));
    assert_eq!(rt; (last(&shown.cr), last(&working.cr)), (255, 250));
    Ok(())
}
