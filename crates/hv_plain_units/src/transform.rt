//! The transform tree of a coding unit, and its levels (7.3.8.8, 7.3.8.10).

use crate::alternatives::UnitElement;
use crate::coded::{CodedBlock, Prediction, put_levels};
use crate::source::Source;
use hv_plan::Scan;
use hv_tables::CtxTable;

/// A transform unit: how it is predicted, its luma side 2^log2 (`log2TrafoSize`), its depth
/// (`trafoDepth`), and the address of its first square in the coding tree block.
#[derive(Clone, Copy)]
struct TransformUnit {
    prediction: Prediction,
    log2: u8,
    depth: u8,
    address: u8,
}

/// The coded block flags of a transform unit (`cbf_luma`, `cbf_cb`, `cbf_cr`).
#[derive(Clone, Copy)]
struct Flags {
    luma: bool,
    cb: bool,
    cr: bool,
}

/// The transform tree of a coding unit of side 8 << `size`, whose first square has this address,
/// and whether any level isn't 0. None where a flag of a 64x64 unit's chroma is 1 over four
/// quarters without levels.
pub(crate) fn read_transform_tree(
    source: &mut Source<'_>,
    block: &mut CodedBlock,
    prediction: Prediction,
    size: u8,
    address: u8,
) -> Option<bool> {
    let cb = read_chroma_flag(source, UnitElement::CbFlag, 0, true)?;
    let cr = read_chroma_flag(source, UnitElement::CrFlag, 0, true)?;
    if size > 2 {
        return read_quarters(source, block, prediction, cb, cr);
    }
    let unit = TransformUnit {
        prediction,
        log2: 3 + size,
        depth: 0,
        address,
    };
    let luma = read_transform_unit(source, block, unit, cb, cr)?;
    Some(luma || cb || cr)
}

/// The four transform units of 32x32 of a coding unit of 64x64: split_transform_flag is inferred to
/// be 1 (7.4.9.8).
fn read_quarters(
    source: &mut Source<'_>,
    block: &mut CodedBlock,
    prediction: Prediction,
    parent_cb: bool,
    parent_cr: bool,
) -> Option<bool> {
    let mut any = Flags {
        luma: false,
        cb: false,
        cr: false,
    };
    for quarter in 0..4u8 {
        let cb = read_chroma_flag(source, UnitElement::CbFlag, 1, parent_cb)?;
        let cr = read_chroma_flag(source, UnitElement::CrFlag, 1, parent_cr)?;
        let unit = TransformUnit {
            prediction,
            log2: 5,
            depth: 1,
            address: 16 * quarter,
        };
        let luma = read_transform_unit(source, block, unit, cb, cr)?;
        any.luma = any.luma || luma;
        any.cb = any.cb || cb;
        any.cr = any.cr || cr;
    }
    if any.cb != parent_cb || any.cr != parent_cr {
        return None;
    }
    Some(any.luma || any.cb || any.cr)
}

/// cbf_cb or cbf_cr: it is inferred to be 0 where that of the parent is 0. The context's number is
/// trafoDepth (9.3.4.2).
fn read_chroma_flag(
    source: &mut Source<'_>,
    element: UnitElement,
    depth: u8,
    parent: bool,
) -> Option<bool> {
    if !parent {
        source.note(element, 4);
        return Some(false);
    }
    let flag = source.bin(CtxTable::CbfChroma, depth)?;
    source.note(element, if depth == 0 { 0 } else { 2 } + u8::from(flag));
    Some(flag)
}

/// cbf_luma of a transform unit, and the levels of its blocks whose flags are 1. The flag.
fn read_transform_unit(
    source: &mut Source<'_>,
    block: &mut CodedBlock,
    unit: TransformUnit,
    cb: bool,
    cr: bool,
) -> Option<bool> {
    let luma = read_luma_flag(source, unit, cb || cr)?;
    if luma {
        let levels = read_block(source, unit, 0)?;
        put_levels(
            &mut block.luma,
            64 * usize::from(unit.address),
            &levels,
            count_of(unit.log2),
        );
    }
    let chroma_count = count_of(unit.log2.saturating_sub(1));
    let chroma_place = 16 * usize::from(unit.address);
    if cb {
        let levels = read_block(source, unit, 1)?;
        put_levels(&mut block.cb, chroma_place, &levels, chroma_count);
    }
    if cr {
        let levels = read_block(source, unit, 2)?;
        put_levels(&mut block.cr, chroma_place, &levels, chroma_count);
    }
    Some(luma)
}

/// cbf_luma: it is inferred to be 1 in an inter unit at depth 0 without levels of chroma. The
/// context's number is 1 at depth 0, else 0 (9.3.4.2).
fn read_luma_flag(source: &mut Source<'_>, unit: TransformUnit, any_chroma: bool) -> Option<bool> {
    let is_intra = matches!(unit.prediction, Prediction::Intra { .. });
    if !is_intra && unit.depth == 0 && !any_chroma {
        source.note(UnitElement::LumaFlag, 2);
        return Some(true);
    }
    let index = if unit.depth == 0 { 1 } else { 0 };
    let flag = source.bin(CtxTable::CbfLuma, index)?;
    source.note(
        UnitElement::LumaFlag,
        if unit.depth == 0 { 0 } else { 3 } + u8::from(flag),
    );
    Some(flag)
}

/// The levels of a transform block of a unit: component 0 is luma, 1 is Cb, 2 is Cr.
fn read_block(source: &mut Source<'_>, unit: TransformUnit, component: u8) -> Option<[i16; 1024]> {
    let is_luma = component == 0;
    let log2 = if is_luma {
        unit.log2
    } else {
        unit.log2.saturating_sub(1)
    };
    let side = unit.log2.saturating_sub(3).min(2);
    source.note(UnitElement::TransformBlock, component.min(2) * 3 + side);
    let scan = scan_of(source, unit.prediction, log2, is_luma);
    source.levels(scan, log2, is_luma)
}

/// scanIdx (7.4.9.11), which is noted where it depends on the mode.
fn scan_of(source: &mut Source<'_>, prediction: Prediction, log2: u8, is_luma: bool) -> Scan {
    let (index, scan) = scan_by_mode(prediction, log2, is_luma);
    if let Some(index) = index {
        source.note(
            UnitElement::ScanOfMode,
            if is_luma { 0 } else { 3 } + index.min(2),
        );
    }
    scan
}

/// The scan of a block, and its scanIdx where that depends on the mode: where an intra block has
/// 4x4 samples, or is luma of 8x8 (7.4.9.11).
fn scan_by_mode(prediction: Prediction, log2: u8, is_luma: bool) -> (Option<u8>, Scan) {
    let Prediction::Intra { mode } = prediction else {
        return (None, Scan::Diagonal);
    };
    if log2 > 3 || (log2 == 3 && !is_luma) {
        return (None, Scan::Diagonal);
    }
    if 6 <= mode && mode <= 14 {
        (Some(2), Scan::Vertical)
    } else if 22 <= mode && mode <= 30 {
        (Some(1), Scan::Horizontal)
    } else {
        (Some(0), Scan::Diagonal)
    }
}

/// How many samples a block of side 2^log2 has.
pub(crate) fn count_of(log2: u8) -> usize {
    match log2 {
        2 => 16,
        3 => 64,
        4 => 256,
        _ => 1024,
    }
}
