//! A coding tree block that is coded, with what lies beside it.

ghost use Rattle.std.specs.Prelude.{◌≡◌, length};

use hv_near::Site;
use hv_plan::Unit;
use hv_tables::SliceKind;

/// The units of the blocks at the left of a coding tree block and above it, as far as it is coded
/// by them.
#[derive(Clone, Copy)]
pub struct Beside {
    /// Those in the last column of the block at the left, from top to bottom.
    pub left: Option<[Unit; 8]>,
    /// Those in the last row of the block above, from left to right.
    pub above: Option<[Unit; 8]>,
}

/// A coding tree block as flat lists: the units of its squares of 8x8 luma samples, by address
/// (6.5.2), and the levels of its transform blocks in decoding order, those of each by rows.
#[derive(Clone, Copy)]
pub struct Plan<'a> {
    /// 64 units.
    pub units: &'a [Unit],
    /// 4,096 levels, 64 to each address.
    pub luma: &'a [i16],
    /// 1,024 levels, 16 to each address.
    pub cb: &'a [i16],
    /// 1,024 levels, 16 to each address.
    pub cr: &'a [i16],
    pub ghost all_units: { length units.now ≡ 64 },
    pub ghost all_luma: { length luma.now ≡ 4096 },
    pub ghost all_cb: { length cb.now ≡ 1024 },
    pub ghost all_cr: { length cr.now ≡ 1024 },
}

/// A coding tree block in a slice of this kind and number of references.
#[derive(Clone, Copy)]
pub struct Block<'a> {
    pub kind: SliceKind,
    pub references: u8,
    pub site: Site,
    pub beside: Beside,
    pub plan: Plan<'a>,
}
