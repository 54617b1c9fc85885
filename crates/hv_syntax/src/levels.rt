//! The levels of coding units, by transform units.

ghost use Rattle.std.specs.Prelude.{◌≡◌, ◌≤◌, ◌-◌, ◌*◌, ◌^◌, length};
ghost use Rattle.hv_plan.specs.Levels.{any_significant};

use hv_residual::any_significant;

/// The levels of a transform unit (7.3.8.10), those of each block by rows, and whether one of them
/// isn't 0 (`cbf_luma`, `cbf_cb`, `cbf_cr`). The block of luma has side 2^log2, 8 to 32.
#[derive(Clone, Copy)]
pub struct TransformUnit<'a> {
    pub log2: u8,
    pub luma: &'a [i16],
    pub cb: &'a [i16],
    pub cr: &'a [i16],
    pub cbf_luma: bool,
    pub cbf_cb: bool,
    pub cbf_cr: bool,
    pub ghost least: { 3 ≤ log2 },
    pub ghost most: { log2 ≤ 5 },
    pub ghost all_luma: { length luma.now ≡ 2 ^ log2 * 2 ^ log2 },
    pub ghost all_cb: { length cb.now ≡ 2 ^ (log2 - 1) * 2 ^ (log2 - 1) },
    pub ghost all_cr: { length cr.now ≡ 2 ^ (log2 - 1) * 2 ^ (log2 - 1) },
    pub ghost luma_flag: { cbf_luma ≡ any_significant luma.now },
    pub ghost cb_flag: { cbf_cb ≡ any_significant cb.now },
    pub ghost cr_flag: { cbf_cr ≡ any_significant cr.now },
}

impl<'a> TransformUnit<'a> {
    ghost use Rattle.std.specs.Prelude.{◌≡◌, ◌≤◌, ◌-◌, ◌*◌, ◌^◌, length};
    ghost use Rattle.hv_syntax.specs.Levels.{unit_of};

    /// Of these levels.
    pub fn of(log2: u8, luma: &'a [i16], cb: &'a [i16], cr: &'a [i16]) -> TransformUnit<'a>
        requires least { 3 ≤ log2 }
        requires most { log2 ≤ 5 }
        requires luma { length luma.now ≡ 2 ^ log2 * 2 ^ log2 }
        requires cb { length cb.now ≡ 2 ^ (log2 - 1) * 2 ^ (log2 - 1) }
        requires cr { length cr.now ≡ 2 ^ (log2 - 1) * 2 ^ (log2 - 1) }
        ensures unit { unit_of result ≡
            record { luma = luma.entry.now; cb = cb.entry.now; cr = cr.entry.now } }
        ensures side { result.log2 ≡ log2 }
    {
        TransformUnit {
            log2,
            luma,
            cb,
            cr,
            cbf_luma: any_significant(luma),
            cbf_cb: any_significant(cb),
            cbf_cr: any_significant(cr),
        }
    }
}

/// The levels of the four quarters of a coding unit of 64x64, in decoding order.
#[derive(Clone, Copy)]
pub struct Quarters<'a> {
    pub first: TransformUnit<'a>,
    pub second: TransformUnit<'a>,
    pub third: TransformUnit<'a>,
    pub fourth: TransformUnit<'a>,
    pub ghost side_of_first: { first.log2 ≡ 5 },
    pub ghost side_of_second: { second.log2 ≡ 5 },
    pub ghost side_of_third: { third.log2 ≡ 5 },
    pub ghost side_of_fourth: { fourth.log2 ≡ 5 },
}

/// The levels of a coding unit: those of one transform unit, or of four.
#[derive(Clone, Copy)]
pub enum UnitLevels<'a> {
    One(TransformUnit<'a>),
    Four(Quarters<'a>),
}
