//! Bins with their contexts, and tables of H.265 that definitions and code both read: those of the
//! arithmetic coder, the transform matrix, intra prediction angles, the quantisers of chroma and
//! the factors of scaling. In `specs/` each stands as the standard's rule or row; here as a table,
//! with the law that its entries are those.
#![tactic(auto)]

mod angles;
mod arithmetic;
mod bins;
mod contexts;
mod matrix;
mod quantisers;
#[cfg(test)]
mod tests;

pub use angles::{angle_laws, intra_pred_angle, inv_angle};
pub use arithmetic::{arithmetic_tables_laws, next_state, range_tab_lps, trans_idx_lps};
pub use bins::{BinSink, Ctx, CtxTable, SliceKind};
pub use contexts::{CONTEXTS, context_offset, context_place, context_tables_laws, init_values};
pub use matrix::{
    matrix_columns_4, matrix_columns_8, matrix_columns_16, matrix_columns_32, matrix_laws,
    matrix_rows_4, matrix_rows_8, matrix_rows_16, matrix_rows_32,
};
pub use quantisers::{chroma_qp, level_scale, quantisation_factor, quantiser_laws};
