//! The arithmetic encoder of H.265 (9.3): of the bins of a slice it makes the code word from which
//! the arithmetic decoder reads them. And a counter, which takes bins as well and only counts them.
#![tactic(auto)]

mod counter;
mod encoder;
mod register;
#[cfg(test)]
mod tests;
mod variables;

pub use counter::Counter;
pub use encoder::Encoder;
pub use hv_tables::{BinSink, Ctx, CtxTable, SliceKind};
