//! Sample adaptive offsets in their ranges (7.4.9.3), by chance.

use crate::coded::NO_OFFSETS;
use hv_plain::Random;
use hv_plan::{SaoComponent, SaoKind, SaoParam};

/// The offsets of a block. Those of Cb and Cr have their type and their class in common.
pub(crate) fn offsets(random: &mut Random) -> SaoParam {
    let luma_kind = kind(random);
    let luma = component(random, luma_kind);
    let cb_kind = kind(random);
    let cb = component(random, cb_kind);
    let cr_kind = match cb_kind {
        SaoKind::Band { .. } => band(random),
        other => other,
    };
    let cr = component(random, cr_kind);
    SaoParam { luma, cb, cr }
}

/// How samples are put into categories.
fn kind(random: &mut Random) -> SaoKind {
    match random.below(3) {
        0 => SaoKind::Off,
        1 => band(random),
        _ => SaoKind::Edge {
            class: (random.below(4)) as u8,
        },
    }
}

/// Any band.
fn band(random: &mut Random) -> SaoKind {
    SaoKind::Band {
        position: (random.below(32)) as u8,
    }
}

/// Offsets of this kind: -7 to 7 for bands, and for edges 0 to 7 in the first two categories and
/// -7 to 0 in the others.
fn component(random: &mut Random, kind: SaoKind) -> SaoComponent {
    if kind == SaoKind::Off {
        return NO_OFFSETS;
    }
    let mut offsets = [0i8; 4];
    for i in 0..4 {
        let magnitude = (random.below(8)) as i8;
        let is_negative = match kind {
            SaoKind::Edge { .. } => i >= 2,
            _ => random.below(2) == 0,
        };
        offsets[i] = if is_negative {
            magnitude.wrapping_neg()
        } else {
            magnitude
        };
    }
    SaoComponent { kind, offsets }
}
