//! The context variables of each syntax element: their places, and the values that they start from
//! (9.3.2.2), as the standard prints them.

ghost use Rattle.std.specs.Prelude.{◌≡◌, ◌≤◌, length};
ghost use Rattle.hv_tables.specs.ContextTables.{offset_of, place_of, tables, values_of_kind};
ghost use Rattle.hv_tables.specs.ContextTableLaws.{AreAdjacent, AreFull, HaveValues, HavePlaces, HaveSums, CoordinatesAreAlike};

use crate::{Ctx, CtxTable, SliceKind};

/// How many context variables there are.
pub const CONTEXTS: usize = 140;

/// initValue of each context variable in I slices (initType 0); 154 where they have none.
#[rattlefmt::skip]
static INIT_VALUES_I: [u8; 140] = [
    /* split_cu_flag                          */ 139, 141, 157,
    /* cu_skip_flag                           */ 154, 154, 154,
    /* part_mode                              */ 184, 154, 154, 154,
    /* pred_mode_flag                         */ 154,
    /* prev_intra_luma_pred_flag              */ 184,
    /* intra_chroma_pred_mode                 */  63,
    /* merge_flag                             */ 154,
    /* ref_idx_l0                             */ 154, 154,
    /* abs_mvd_greater0_flag                  */ 154,
    /* abs_mvd_greater1_flag                  */ 154,
    /* mvp_l0_flag                            */ 154,
    /* rqt_root_cbf                           */ 154,
    /* cbf_luma                               */ 111, 141,
    /* cbf_cb, cbf_cr                         */  94, 138, 182, 154,
    /* sao_merge_left_flag, sao_merge_up_flag */ 153,
    /* sao_type_idx_luma, sao_type_idx_chroma */ 200,
    /* last_sig_coeff_x_prefix                */ 110, 110, 124, 125, 140, 153, 125, 127, 140,
    /*                                        */ 109, 111, 143, 127, 111,  79, 108, 123,  63,
    /* last_sig_coeff_y_prefix                */ 110, 110, 124, 125, 140, 153, 125, 127, 140,
    /*                                        */ 109, 111, 143, 127, 111,  79, 108, 123,  63,
    /* coded_sub_block_flag                   */  91, 171, 134, 141,
    /* sig_coeff_flag                         */ 111, 111, 125, 110, 110,  94, 124, 108, 124,
    /*                                        */ 107, 125, 141, 179, 153, 125, 107, 125, 141,
    /*                                        */ 179, 153, 125, 107, 125, 141, 179, 153, 125,
    /*                                        */ 140, 139, 182, 182, 152, 136, 152, 136, 153,
    /*                                        */ 136, 139, 111, 136, 139, 111,
    /* coeff_abs_level_greater1_flag          */ 140,  92, 137, 138, 140, 152, 138, 139, 153,
    /*                                        */  74, 149,  92, 139, 107, 122, 152, 140, 179,
    /*                                        */ 166, 182, 140, 227, 122, 197,
    /* coeff_abs_level_greater2_flag          */ 138, 153, 136, 167, 152, 152,
];

/// initValue of each context variable in P slices (initType 1).
#[rattlefmt::skip]
static INIT_VALUES_P: [u8; 140] = [
    /* split_cu_flag                          */ 107, 139, 126,
    /* cu_skip_flag                           */ 197, 185, 201,
    /* part_mode                              */ 154, 139, 154, 154,
    /* pred_mode_flag                         */ 149,
    /* prev_intra_luma_pred_flag              */ 154,
    /* intra_chroma_pred_mode                 */ 152,
    /* merge_flag                             */ 110,
    /* ref_idx_l0                             */ 153, 153,
    /* abs_mvd_greater0_flag                  */ 140,
    /* abs_mvd_greater1_flag                  */ 198,
    /* mvp_l0_flag                            */ 168,
    /* rqt_root_cbf                           */  79,
    /* cbf_luma                               */ 153, 111,
    /* cbf_cb, cbf_cr                         */ 149, 107, 167, 154,
    /* sao_merge_left_flag, sao_merge_up_flag */ 153,
    /* sao_type_idx_luma, sao_type_idx_chroma */ 185,
    /* last_sig_coeff_x_prefix                */ 125, 110,  94, 110,  95,  79, 125, 111, 110,
    /*                                        */  78, 110, 111, 111,  95,  94, 108, 123, 108,
    /* last_sig_coeff_y_prefix                */ 125, 110,  94, 110,  95,  79, 125, 111, 110,
    /*                                        */  78, 110, 111, 111,  95,  94, 108, 123, 108,
    /* coded_sub_block_flag                   */ 121, 140,  61, 154,
    /* sig_coeff_flag                         */ 155, 154, 139, 153, 139, 123, 123,  63, 153,
    /*                                        */ 166, 183, 140, 136, 153, 154, 166, 183, 140,
    /*                                        */ 136, 153, 154, 166, 183, 140, 136, 153, 154,
    /*                                        */ 170, 153, 123, 123, 107, 121, 107, 121, 167,
    /*                                        */ 151, 183, 140, 151, 183, 140,
    /* coeff_abs_level_greater1_flag          */ 154, 196, 196, 167, 154, 152, 167, 182, 182,
    /*                                        */ 134, 149, 136, 153, 121, 136, 137, 169, 194,
    /*                                        */ 166, 167, 154, 167, 137, 182,
    /* coeff_abs_level_greater2_flag          */ 107, 167,  91, 122, 107, 167,
];

/// initValue (9.3.2.2) of each context variable in slices of a kind, in the order of their places;
/// 154 where the kind has none.
pub fn init_values(kind: SliceKind) -> &'static [u8; 140]
    ensures value { result.now ≡ values_of_kind kind }
    ensures count { length result.now ≡ 140 }
{
    match kind {
        SliceKind::I => &INIT_VALUES_I,
        SliceKind::P => &INIT_VALUES_P,
    }
}

/// The place of a table's first variable among all of them, 0 to 134.
#[inline(always)]
pub fn context_offset(table: CtxTable) -> u8
    ensures value { result ≡ offset_of table }
    ensures most { result ≤ 134 }
{
    match table {
        CtxTable::Split => 0,
        CtxTable::Skip => 3,
        CtxTable::PartMode => 6,
        CtxTable::PredMode => 10,
        CtxTable::PrevIntra => 11,
        CtxTable::ChromaMode => 12,
        CtxTable::Merge => 13,
        CtxTable::RefIdx => 14,
        CtxTable::MvdGreater0 => 16,
        CtxTable::MvdGreater1 => 17,
        CtxTable::MvpFlag => 18,
        CtxTable::RootCbf => 19,
        CtxTable::CbfLuma => 20,
        CtxTable::CbfChroma => 22,
        CtxTable::SaoMerge => 26,
        CtxTable::SaoType => 27,
        CtxTable::LastX => 28,
        CtxTable::LastY => 46,
        CtxTable::CodedSub => 64,
        CtxTable::Sig => 68,
        CtxTable::Greater1 => 110,
        CtxTable::Greater2 => 134,
    }
}

/// The place of a context's variable among all of them.
#[inline(always)]
pub fn context_place(context: Ctx) -> usize
    ensures { result ≡ place_of context }
{
    usize::from(context_offset(context.table)) + usize::from(context.index)
}

/// The context variables of the tables stand one after another, 140 in all, and each has a value to
/// start from. The values have the sums that the standard's have, and those of the last
/// coefficient's two coordinates are the same.
pub fn context_tables_laws()
    ensures adjacent { AreAdjacent 0 tables }
    ensures full { AreFull }
    ensures values { HaveValues }
    ensures places { HavePlaces }
    ensures sums { HaveSums }
    ensures alike { CoordinatesAreAlike }
{}
