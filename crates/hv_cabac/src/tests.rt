//! What no clause says: that words come out where there is memory, and the bytes of known ones. The
//! bytes were computed elsewhere, in a few lines of another language, by whole numbers never cut.

ghost use Rattle.std.specs.Prelude.{◌≡◌, [], ◌∷◌, true, false, IfOk};
ghost use Rattle.hv_tables.specs.Bins.{Puts, context_bin, bypass_bin, terminate_bin};
ghost use Rattle.hv_tables.specs.declared.bins.CtxTable.TheVariants.{CodedSub};
ghost use Rattle.hv_tables.specs.declared.bins.SliceKind.TheVariants.{P};
ghost use Rattle.hv_stream_model.specs.Bits.{bytes_of};
ghost use Rattle.hv_entropy_model.specs.CodeWord.{word};

use crate::{BinSink, Counter, Ctx, CtxTable, Encoder, SliceKind};
use hv_types::NoMemory;
use std::alloc::Global;
use std::test::Fail;

/// Puts a bypass bin for each character, true for `1`.
fn put_digits<B: BinSink>(sink: &mut B, digits: &str) {
    for digit in digits.bytes() {
        sink.bypass(digit == b'1');
    }
}

/// Puts a bin with the first context of a table.
fn put_first<B: BinSink>(sink: &mut B, table: CtxTable, value: bool) {
    sink.bin(Ctx { table, index: 0 }, value);
}

/// Puts the bins of a grey block of 64x64, and the end of its slice.
fn put_grey_block<B: BinSink>(sink: &mut B) {
    put_first(sink, CtxTable::SaoType, false);
    put_first(sink, CtxTable::SaoType, false);
    put_first(sink, CtxTable::Split, false);
    put_first(sink, CtxTable::PrevIntra, true);
    put_digits(sink, "10");
    put_first(sink, CtxTable::ChromaMode, false);
    put_first(sink, CtxTable::CbfChroma, false);
    put_first(sink, CtxTable::CbfChroma, false);
    for _ in 0..4 {
        put_first(sink, CtxTable::CbfLuma, false);
    }
    sink.terminate(true);
}

/// A caller with a clause on the bytes: it knows a sink by its trait alone.
fn put_three<B: BinSink>(sink: &mut B)
    ensures { Puts B.stands_for sink.old sink.new
        (context_bin (record { table = CodedSub; index = 3 }) true ∷
        bypass_bin false ∷ terminate_bin true ∷ []) }
{
    sink.bin(
        Ctx {
            table: CtxTable::CodedSub,
            index: 3,
        },
        true,
    );
    sink.bypass(false);
    sink.terminate(true);
}

/// The bytes of the bins of `put_three`.
fn three_bins(alloc: Global, qp: u8) -> Result<Vec<u8>, NoMemory>
    ensures { IfOk result (λ bytes. bytes.items ≡ bytes_of (word P qp
        (context_bin (record { table = CodedSub; index = 3 }) true ∷
        bypass_bin false ∷ terminate_bin true ∷ []))) }
{
    let mut encoder = Encoder::new(alloc, SliceKind::P, qp);
    put_three(&mut encoder);
    encoder.finish()
}

/// A caller that counts the same bins.
fn three_counted() -> u64
    ensures { result ≡ 3 }
{
    let mut counter = Counter::new();
    put_three(&mut counter);
    counter.count()
}

#[test]
fn six_bins_in_bypass(rt: HostRuntime) -> Result<(), Fail> {
    let mut encoder = Encoder::new(rt.alloc(), SliceKind::I, 26);
    put_digits(&mut encoder, "010001");
    encoder.terminate(true);
    assert_eq!(rt; encoder.finish()?.as_slice(), [0x47, 0xB6].as_slice());
    Ok(())
}

#[test]
fn grey_block(rt: HostRuntime) -> Result<(), Fail> {
    let mut encoder = Encoder::new(rt.alloc(), SliceKind::I, 26);
    put_grey_block(&mut encoder);
    assert_eq!(rt;
        encoder.finish()?.as_slice(),
        [0xE8, 0x73, 0x7F, 0x80].as_slice()
    );
    Ok(())
}

#[test]
fn bins_of_a_p_slice(rt: HostRuntime) -> Result<(), Fail> {
    assert_eq!(rt;
        three_bins(rt.alloc(), 30)?.as_slice(),
        [0x43, 0x40].as_slice()
    );
    Ok(())
}

#[test]
fn bins_are_counted(rt: HostRuntime) {
    let mut counter = Counter::new();
    put_grey_block(&mut counter);
    assert_eq!(rt; counter.count(), 14);
    assert_eq!(rt; three_counted(), 3);
}

/// The 120 digits of the least number that makes 2 to the 128th and more of 510, and 16 zeros: the
/// carry runs back over thirteen bytes of 255.
#[test]
fn carry_over_many_bytes(rt: HostRuntime) -> Result<(), Fail> {
    let mut encoder = Encoder::new(rt.alloc(), SliceKind::I, 26);
    put_digits(&mut encoder, "1000000010000000100000001000000010000000");
    put_digits(&mut encoder, "1000000010000000100000001000000010000000");
    put_digits(&mut encoder, "1000000010000000100000001000000010000001");
    put_digits(&mut encoder, "0000000000000000");
    encoder.terminate(true);
    let want = [
        0x80, 0x00, 0x00, 0x00, 0x00, 0x00, 0x00, 0x00, 0x00, 0x00, 0x00, 0x00, 0x00, 0x00, 0x00,
        0x7F, 0x00, 0xFE, 0x80,
    ];
    assert_eq!(rt; encoder.finish()?.as_slice(), want.as_slice());
    Ok(())
}

/// Some 300 bins: a growth that is refused is kept until `finish`, which says so.
#[test]
fn answers_want_of_memory(rt: HostRuntime) {
    let mut encoder = Encoder::new(rt.alloc(), SliceKind::P, 51);
    for _ in 0..30 {
        put_digits(&mut encoder, "110100101");
        put_first(&mut encoder, CtxTable::Sig, true);
        encoder.terminate(false);
    }
    encoder.terminate(true);
    match encoder.finish() {
        Ok(bytes) => assert_eq!(rt; bytes.len(), 36),
        Err(error) => assert_eq!(rt; error, NoMemory),
    }
}
