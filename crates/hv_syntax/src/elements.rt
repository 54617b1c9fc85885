//! Syntax elements of one bin.

ghost use Rattle.std.specs.Prelude.{◌∷◌, []};
ghost use Rattle.hv_residual_model.specs.UnitBins.{PutsUnit};
ghost use Rattle.hv_unit_model.specs.Bins.{bin, where_coded};

use hv_tables::{BinSink, Ctx, CtxTable};

/// Puts a bin with the context variable of this place in its table (`ctxInc` of 9.3.4.2).
#[inline(always)]
pub fn put_bin<B: BinSink>(sink: &mut B, table: CtxTable, index: u8, value: bool)
    ensures { PutsUnit B.stands_for sink.old sink.new (bin table index value ∷ []) }
{
    sink.bin(Ctx { table, index }, value);
}

/// Puts it only where it is coded.
#[inline(always)]
pub fn put_where<B: BinSink>(sink: &mut B, coded: bool, table: CtxTable, index: u8, value: bool)
    ensures { PutsUnit B.stands_for sink.old sink.new
        (where_coded coded (bin table index value)) }
{
    if coded {
        put_bin(sink, table, index, value);
    }
}
