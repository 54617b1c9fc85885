//! What is coded of vectors, by chance.

use crate::coded::Prediction;
use hv_plain::Random;
use hv_plan::Mv;

/// Parts of differences that stand at the ends of what is coded.
const ENDS: [i16; 7] = [0, 1, -1, 2, -2, i16::MAX, i16::MIN];

/// What is coded of a vector, in a slice with so many references.
pub(crate) fn motion(random: &mut Random, references: u8) -> Prediction {
    let reference = if references > 1 {
        (random.below(2)) as u8
    } else {
        0
    };
    let flag = (random.below(2)) as u8;
    let x = difference(random);
    let y = difference(random);
    Prediction::Inter {
        reference,
        flag,
        mvd: Mv { x, y },
    }
}

/// A part of a difference: in half of the cases an end, and else of any magnitude.
fn difference(random: &mut Random) -> i16 {
    let by_chance = random.below(14);
    if by_chance < 7 {
        return ENDS[by_chance as usize];
    }
    let bits = random.next() % 0x8000;
    let magnitude = ((bits >> random.below(16)) % 0x8000) as i16;
    if random.below(2) == 0 {
        magnitude
    } else {
        magnitude.wrapping_neg()
    }
}
