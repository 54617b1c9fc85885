//! How a coding unit is predicted: the mode of intra prediction (7.3.8.5, 8.4.2), and what is coded
//! of a vector (7.3.8.6, 7.3.8.9).

use crate::alternatives::UnitElement;
use crate::coded::{Prediction, Square};
use crate::picture::{Node, Picture};
use crate::source::Source;
use hv_plan::Mv;
use hv_tables::CtxTable;

/// INTRA_PLANAR
const PLANAR: u8 = 0;

/// INTRA_DC
const DC: u8 = 1;

/// INTRA_ANGULAR26, which is vertical
const VERTICAL: u8 = 26;

/// candIntraPredModeX of a square beside a unit: DC where it isn't available, or isn't predicted
/// inside the picture (8.4.2).
fn candidate(square: Option<Square>) -> u8 {
    match square {
        Some(square) => match square.prediction {
            Prediction::Intra { mode } => mode,
            Prediction::Inter { .. } => DC,
        },
        None => DC,
    }
}

/// candIntraPredModeA and candIntraPredModeB of a unit (8.4.2). What lies above its coding tree
/// block stands for DC.
fn candidates_beside(picture: &Picture, node: Node) -> (u8, u8) {
    let a = candidate(picture.left_of(node));
    let b = if node.y % 64 == 0 {
        DC
    } else {
        candidate(picture.above(node))
    };
    (a, b)
}

/// candModeList (8.4.2).
fn list_of(a: u8, b: u8) -> [u8; 3] {
    if a == b {
        if a < 2 {
            return [PLANAR, DC, VERTICAL];
        }
        return [a, 2 + a.saturating_add(29) % 32, 2 + (a - 2 + 1) % 32];
    }
    let third = if a != PLANAR && b != PLANAR {
        PLANAR
    } else if a != DC && b != DC {
        DC
    } else {
        VERTICAL
    };
    [a, b, third]
}

/// candModeList of a unit (8.4.2).
pub(crate) fn candidates(picture: &Picture, node: Node) -> [u8; 3] {
    let (a, b) = candidates_beside(picture, node);
    list_of(a, b)
}

/// Notes where the most probable modes of a unit come from, and what they are.
fn note_candidates(source: &mut Source<'_>, picture: &Picture, node: Node) {
    let left = kind_of(picture.left_of(node));
    source.note(UnitElement::LeftMode, left);
    let above = kind_of(picture.above(node));
    let is_far = above > 0 && node.y % 64 == 0;
    source.note(UnitElement::AboveMode, if is_far { 3 } else { above });
    let (a, b) = candidates_beside(picture, node);
    let form = if a == b {
        u8::from(a >= 2)
    } else {
        match list_of(a, b)[2] {
            PLANAR => 2,
            DC => 3,
            _ => 4,
        }
    };
    source.note(UnitElement::MostProbableModes, form);
}

/// 0 for none, 1 for intra, 2 for inter.
fn kind_of(square: Option<Square>) -> u8 {
    match square {
        None => 0,
        Some(square) => match square.prediction {
            Prediction::Intra { .. } => 1,
            Prediction::Inter { .. } => 2,
        },
    }
}

/// The mode of an intra unit: prev_intra_luma_pred_flag, then mpm_idx or
/// rem_intra_luma_pred_mode, and intra_chroma_pred_mode, which is 4 in this profile (7.3.8.5).
pub(crate) fn read_mode(source: &mut Source<'_>, picture: &Picture, node: Node) -> Option<u8> {
    note_candidates(source, picture, node);
    let list = candidates(picture, node);
    let mode = if source.bin(CtxTable::PrevIntra, 0)? {
        let mpm_idx = source.ones(2)?;
        source.note(UnitElement::MpmIdx, mpm_idx);
        list[usize::from(mpm_idx % 3)]
    } else {
        source.note(UnitElement::MpmIdx, 3);
        let remaining = source.number(5)?;
        source.note(UnitElement::RemainingMode, remaining);
        mode_of_remaining(list, remaining)
    };
    source.fixed_bin(CtxTable::ChromaMode, false)?;
    source.note(UnitElement::Mode, mode);
    Some(mode)
}

/// IntraPredModeY of rem_intra_luma_pred_mode (8.4.2): the candidates are put in order, and each
/// that the mode reaches raises it by 1.
fn mode_of_remaining(list: [u8; 3], remaining: u8) -> u8 {
    let [mut first, mut second, mut third] = list;
    if first > second {
        (first, second) = (second, first);
    }
    if first > third {
        (first, third) = (third, first);
    }
    if second > third {
        (second, third) = (third, second);
    }
    let mut mode = remaining;
    for candidate in [first, second, third] {
        if mode >= candidate {
            mode = mode.saturating_add(1);
        }
    }
    mode
}

/// What is coded of the vector of a unit: merge_flag, which is 0 in this profile, ref_idx_l0 where
/// there are two references, the difference, and mvp_l0_flag (7.3.8.6).
pub(crate) fn read_motion(source: &mut Source<'_>, references: u8) -> Option<Prediction> {
    source.fixed_bin(CtxTable::Merge, false)?;
    let reference = if references > 1 {
        let reference = u8::from(source.bin(CtxTable::RefIdx, 0)?);
        source.note(UnitElement::Reference, reference);
        reference
    } else {
        source.note(UnitElement::Reference, 2);
        0
    };
    let mvd = read_difference(source)?;
    let flag = u8::from(source.bin(CtxTable::MvpFlag, 0)?);
    source.note(UnitElement::VectorFlag, flag);
    Some(Prediction::Inter {
        reference,
        flag,
        mvd,
    })
}

/// The difference of a vector (`mvd_coding`, 7.3.8.9). None where it leaves 16 bits.
fn read_difference(source: &mut Source<'_>) -> Option<Mv> {
    let x_greater0 = source.bin(CtxTable::MvdGreater0, 0)?;
    let y_greater0 = source.bin(CtxTable::MvdGreater0, 0)?;
    let x_greater1 = x_greater0 && source.bin(CtxTable::MvdGreater1, 0)?;
    let y_greater1 = y_greater0 && source.bin(CtxTable::MvdGreater1, 0)?;
    let x_class = u8::from(x_greater0) + u8::from(x_greater1);
    let y_class = u8::from(y_greater0) + u8::from(y_greater1);
    source.note(UnitElement::DifferenceX, x_class);
    source.note(UnitElement::DifferenceY, y_class);
    let x = read_component(source, x_greater0, x_greater1)?;
    let y = read_component(source, y_greater0, y_greater1)?;
    Some(Mv { x, y })
}

/// abs_mvd_minus2 and mvd_sign_flag of a component, where they are coded, and its value (7.4.9.9).
fn read_component(source: &mut Source<'_>, greater0: bool, greater1: bool) -> Option<i16> {
    if !greater0 {
        return Some(0);
    }
    let magnitude = if greater1 {
        let (ones, minus2) = source.exp_golomb(1, 15)?;
        source.note(UnitElement::DifferenceOnes, ones);
        i64::from(minus2) + 2
    } else {
        1
    };
    let is_negative = source.bypass()?;
    source.note(UnitElement::DifferenceSign, u8::from(is_negative));
    let value = if is_negative { -magnitude } else { magnitude };
    i16::try_from(value).ok()
}
