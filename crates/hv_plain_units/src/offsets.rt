//! Sample adaptive offsets (`sao`, 7.3.8.3).

use crate::alternatives::UnitElement;
use crate::coded::NO_OFFSETS;
use crate::source::Source;
use hv_plan::{SaoComponent, SaoKind, SaoParam};
use hv_tables::CtxTable;

/// The offsets of a block (7.3.8.3). None where they are merged with those of another block.
pub(crate) fn read_offsets(
    source: &mut Source<'_>,
    has_left: bool,
    has_above: bool,
) -> Option<SaoParam> {
    read_merge_flag(source, UnitElement::MergeLeft, has_left)?;
    read_merge_flag(source, UnitElement::MergeUp, has_above)?;
    let luma_type = read_type(source, UnitElement::LumaType)?;
    let luma = read_component(source, luma_type, UnitElement::LumaClass, None)?;
    let chroma_type = read_type(source, UnitElement::ChromaType)?;
    let cb = read_component(source, chroma_type, UnitElement::ChromaClass, None)?;
    let class = match cb.kind {
        SaoKind::Edge { class } => class,
        _ => 0,
    };
    let cr = read_component(source, chroma_type, UnitElement::ChromaClass, Some(class))?;
    Some(SaoParam { luma, cb, cr })
}

/// sao_merge_left_flag or sao_merge_up_flag, where there is such a block: 0 in this profile.
fn read_merge_flag(source: &mut Source<'_>, element: UnitElement, is_there: bool) -> Option<()> {
    if !is_there {
        source.note(element, 1);
        return Some(());
    }
    source.fixed_bin(CtxTable::SaoMerge, false)?;
    source.note(element, 0);
    Some(())
}

/// sao_type_idx_luma or sao_type_idx_chroma: the first bin has a context, the second is in bypass.
fn read_type(source: &mut Source<'_>, element: UnitElement) -> Option<u8> {
    let type_idx = if !source.bin(CtxTable::SaoType, 0)? {
        0
    } else if !source.bypass()? {
        1
    } else {
        2
    };
    source.note(element, type_idx);
    Some(type_idx)
}

/// What follows SaoTypeIdx of a component. The class is read where it isn't given.
fn read_component(
    source: &mut Source<'_>,
    type_idx: u8,
    element: UnitElement,
    class: Option<u8>,
) -> Option<SaoComponent> {
    if type_idx == 0 {
        return Some(NO_OFFSETS);
    }
    let magnitudes = read_magnitudes(source)?;
    if type_idx == 1 {
        return read_band(source, magnitudes);
    }
    let class = match class {
        Some(class) => class,
        None => {
            let class = source.number(2)?;
            source.note(element, class);
            class
        }
    };
    let offsets = [
        offset(magnitudes[0], false),
        offset(magnitudes[1], false),
        offset(magnitudes[2], true),
        offset(magnitudes[3], true),
    ];
    let kind = SaoKind::Edge { class };
    Some(SaoComponent { kind, offsets })
}

/// sao_offset_abs of the four categories, each at most 7 for samples of 8 bits.
fn read_magnitudes(source: &mut Source<'_>) -> Option<[u8; 4]> {
    let mut magnitudes = [0u8; 4];
    for i in 0..4 {
        let magnitude = source.ones(7)?;
        source.note(UnitElement::OffsetMagnitude, magnitude);
        magnitudes[i] = magnitude;
    }
    Some(magnitudes)
}

/// sao_offset_sign where an offset isn't 0, and sao_band_position.
fn read_band(source: &mut Source<'_>, magnitudes: [u8; 4]) -> Option<SaoComponent> {
    let mut offsets = [0i8; 4];
    for i in 0..4 {
        if magnitudes[i] != 0 {
            let sign = source.bypass()?;
            source.note(UnitElement::OffsetSign, u8::from(sign));
            offsets[i] = offset(magnitudes[i], sign);
        }
    }
    let position = source.number(5)?;
    source.note(UnitElement::BandPosition, position);
    let kind = SaoKind::Band { position };
    Some(SaoComponent { kind, offsets })
}

/// An offset of this magnitude and sign.
fn offset(magnitude: u8, is_negative: bool) -> i8 {
    let offset = (magnitude % 8) as i8;
    if is_negative {
        offset.wrapping_neg()
    } else {
        offset
    }
}
