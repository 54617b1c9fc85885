//! What the arithmetic encoder writes is what the plain interval gives, and the plain decoder reads
//! its bins back. The bytes come from outside: they were computed by whole numbers never cut.

use crate::{BinReader, Field, PlainInterval, Question, bits_of_fields, escape, field_bits};
use hv_cabac::Encoder;
use hv_tables::{BinSink, Ctx, CtxTable, SliceKind};
use hv_types::NoMemory;
use std::alloc::{AllocError, Global};
use std::process::Abort;
use std::test::Fail;

/// A bin before which the slice goes on.
type Bin = (Question, bool);

/// The bytes that the encoder makes of these bins and the end of the slice.
fn written(alloc: Global, bins: &[Bin]) -> Result<Vec<u8>, NoMemory> {
    let mut encoder = Encoder::new(alloc, SliceKind::I, 26);
    for (question, value) in bins {
        match *question {
            Question::Bin(context) => encoder.bin(context, *value),
            Question::Bypass => encoder.bypass(*value),
            Question::End => encoder.terminate(*value),
        }
    }
    encoder.terminate(true);
    encoder.finish()
}

/// The interval after one more bin.
fn put(interval: PlainInterval, bin: Bin) -> Result<PlainInterval, AllocError> {
    match bin.0 {
        Question::Bin(context) => interval.bin(context, bin.1),
        Question::Bypass => interval.bypass(bin.1),
        Question::End => interval.go_on(),
    }
}

/// The bytes that bits make, with zeros to the byte.
fn bytes_of(alloc: Global, bits: &[u8]) -> Result<Vec<u8>, AllocError> {
    let mut bytes = Vec::new(alloc);
    for chunk in bits.chunks(8) {
        let mut byte = 0u8;
        for i in 0..8 {
            let bit = chunk.get(i).copied().unwrap_or(0);
            byte = (byte << 1) | (bit & 1);
        }
        bytes.push(byte)?;
    }
    Ok(bytes)
}

/// The bytes of the plain code word of these bins and the end of the slice.
fn plain(alloc: Global, bins: &[Bin]) -> Result<Vec<u8>, AllocError> {
    let mut interval = PlainInterval::first(alloc, SliceKind::I, 26)?;
    for bin in bins {
        interval = put(interval, *bin)?;
    }
    bytes_of(alloc, &interval.word())
}

/// Reads these bins and the end of the slice, after which only zeros to the byte are left, and
/// nothing more is answered.
fn check_read(rt: &impl Abort, alloc: Global, bytes: &[u8], bins: &[Bin]) -> Result<(), Fail> {
    assert!(rt; bytes.len() < 100_000);
    let mut reader = BinReader::new(alloc, bytes, SliceKind::I, 26)?.ok_or("begins")?;
    for (question, want) in bins {
        assert_eq!(rt; reader.answer(*question), Some(*want));
    }
    assert_eq!(rt; reader.answer(Question::End), Some(true));
    assert_eq!(rt; reader.answer(Question::Bypass), None);
    let left = reader.bits_left();
    assert!(rt; left < 8);
    let last = bytes.last().copied().unwrap_or(1);
    assert_eq!(rt; u32::from(last) % (2 << left), 1 << left);
    Ok(())
}

/// The encoder's bytes of these bins, once they are the plain ones and were read.
fn checked(rt: &impl Abort, alloc: Global, bins: &[Bin]) -> Result<Vec<u8>, Fail> {
    let bytes = written(alloc, bins)?;
    assert_eq!(rt; plain(alloc, bins)?.as_slice(), bytes.as_slice());
    check_read(rt, alloc, &bytes, bins)?;
    Ok(bytes)
}

#[test]
fn six_bypass_bins(rt: HostRuntime) -> Result<(), Fail> {
    let bins = [false, true, false, false, false, true].map(|value| (Question::Bypass, value));
    let bytes = checked(&rt, rt.alloc(), &bins)?;
    assert_eq!(rt; bytes.as_slice(), [0x47, 0xB6].as_slice());
    Ok(())
}

/// A word whose bits end: what isn't answered isn't read.
#[test]
fn bits_end(rt: HostRuntime) -> Result<(), Fail> {
    assert!(rt; BinReader::new(rt.alloc(), &[0xFF, 0x80], SliceKind::I, 26)?.is_none());
    assert!(rt; BinReader::new(rt.alloc(), &[0x47], SliceKind::I, 26)?.is_none());
    let bytes = [0x47, 0xB6];
    let mut reader = BinReader::new(rt.alloc(), &bytes, SliceKind::I, 26)?.ok_or("begins")?;
    for want in [false, true, false, false, false, true, true] {
        assert_eq!(rt; reader.answer(Question::Bypass), Some(want));
    }
    assert_eq!(rt; reader.bits_left(), 0);
    assert_eq!(rt; reader.answer(Question::Bypass), None);
    assert_eq!(rt; reader.answer(Question::Bypass), None);
    Ok(())
}

/// The 120 digits of ⌊2^128 / 510⌋ + 1 as bypass bins, and sixteen zeros: the low end passes a
/// power of two late, so that a carry runs back over more than ten bytes.
#[test]
fn long_carry_comes_back(rt: HostRuntime) -> Result<(), Fail> {
    let mut bins = Vec::new(rt.alloc());
    for i in 0..136u32 {
        let byte: u8 = if i < 112 {
            0x80
        } else if i < 120 {
            0x81
        } else {
            0
        };
        bins.push((Question::Bypass, (byte >> (7 - i % 8)) & 1 == 1))?;
    }
    let bytes = checked(&rt, rt.alloc(), &bins)?;
    let want = [
        0x80, 0, 0, 0, 0, 0, 0, 0, 0, 0, 0, 0, 0, 0, 0, 0x7F, 0, 0xFE, 0x80,
    ];
    assert_eq!(rt; bytes.as_slice(), want.as_slice());
    Ok(())
}

/// The context that the list of all widths is about.
const SIG: Ctx = Ctx {
    table: CtxTable::Sig,
    index: 0,
};

/// The next bin on the way to the less probable value in a state and a quarter of the range: the
/// state is reached by bins of the context, and the quarter by bins before terminate, each of which
/// takes 2 from the range.
fn bin_towards(interval: &PlainInterval, state: u8, quarter: u32) -> Bin {
    let variable = interval.variable(SIG);
    let now = variable.p_state_idx();
    if now < state {
        (Question::Bin(SIG), variable.val_mps())
    } else if now > state || interval.range() / 64 % 4 == quarter {
        (Question::Bin(SIG), !variable.val_mps())
    } else {
        (Question::End, false)
    }
}

/// Notes where a bin of the context has the less probable value, or the more probable one.
fn note(interval: &PlainInterval, bin: Bin, less: &mut [[bool; 4]; 64], more: &mut [bool; 64]) {
    let variable = interval.variable(SIG);
    let state = usize::from(variable.p_state_idx() % 64);
    if let Question::Bin(_) = bin.0 {
        if bin.1 == variable.val_mps() {
            more[state] = true;
        } else {
            less[state][(interval.range() / 64 % 4) as usize] = true;
        }
    }
}

/// Bins by which a context has the less probable value in each state from 0 to 62 and each quarter
/// of the range, and the more probable value in each state.
fn all_widths(rt: &impl Abort, alloc: Global) -> Result<Vec<Bin>, Fail> {
    let mut less = [[false; 4]; 64];
    let mut more = [false; 64];
    let mut interval = PlainInterval::first(alloc, SliceKind::I, 26)?;
    let mut bins = Vec::new(alloc);
    for target in 0..252u8 {
        let (state, quarter) = (target / 4, 3 - target % 4);
        for _ in 0..250 {
            if less[usize::from(state)][usize::from(quarter)] {
                break;
            }
            let bin = bin_towards(&interval, state, u32::from(quarter));
            note(&interval, bin, &mut less, &mut more);
            bins.push(bin)?;
            interval = put(interval, bin)?;
        }
        assert!(rt;
            less[usize::from(state)][usize::from(quarter)],
            "{state}, {quarter}"
        );
    }
    for _ in 0..63 {
        let bin = (Question::Bin(SIG), interval.variable(SIG).val_mps());
        if !more[62] {
            note(&interval, bin, &mut less, &mut more);
            bins.push(bin)?;
            interval = put(interval, bin)?;
        }
    }
    for state in 0..63 {
        assert!(rt; more[state], "{state}");
    }
    Ok(bins)
}

#[test]
fn all_widths_are_written_and_read(rt: HostRuntime) -> Result<(), Fail> {
    let bins = all_widths(&rt, rt.alloc())?;
    assert_eq!(rt; bins.len(), 10_995);
    let bytes = checked(&rt, rt.alloc(), &bins)?;
    assert_eq!(rt; bytes.len(), 160);
    let first = [0xFE, 0xFE, 0x9E, 0x20, 0x88, 0x7C, 0x77, 0xCE];
    let last = [0xBB, 0x7F, 0x4E, 0x7D, 0x91, 0x73, 0x76, 0x54];
    assert_eq!(rt; &bytes[..8], first.as_slice());
    assert_eq!(rt; &bytes[152..], last.as_slice());
    let mut sum = 0u64;
    for byte in &bytes {
        sum = sum.saturating_add(u64::from(*byte));
    }
    assert_eq!(rt; sum, 21_821);
    Ok(())
}

#[test]
fn zeros_are_escaped(rt: HostRuntime) -> Result<(), Fail> {
    let escaped = escape(rt.alloc(), &[0, 0, 0, 0x80])?;
    assert_eq!(rt; escaped.as_slice(), [0, 0, 3, 0, 0x80].as_slice());
    Ok(())
}

/// ue(0), ue(4), and se(-2), of which codeNum is 4 (9.2.2).
#[test]
fn fields_have_bits(rt: HostRuntime) -> Result<(), Fail> {
    let zero = field_bits(rt.alloc(), Field::Ue(0))?;
    assert_eq!(rt; zero.as_slice(), [1].as_slice());
    let four = field_bits(rt.alloc(), Field::Ue(4))?;
    assert_eq!(rt; four.as_slice(), [0, 0, 1, 0, 1].as_slice());
    let fields = [Field::U(3, 6), Field::Ue(4), Field::Ue(0)];
    let bits = bits_of_fields(rt.alloc(), &fields)?;
    assert_eq!(rt; bits.as_slice(), [1, 1, 0, 0, 0, 1, 0, 1, 1].as_slice());
    Ok(())
}
