//! What no clause says: that bytes come out where there is memory, and the bytes of worked fields
//! and units, which come from outside.

ghost use Rattle.std.specs.Prelude.{◌≢◌, IfOk};
ghost use Rattle.hv_stream_model.specs.Units.{last_of};

use crate::{BitReader, BitWriter, BitsError, strip_nal, write_nal};
use hv_types::NoMemory;
use std::alloc::{AllocError, Global};
use std::process::Abort;
use std::test::Fail;

/// Zeros, one byte, and a byte 128 at the end.
fn zeros_and(alloc: Global, zeros: u8, byte: u8) -> Result<Vec<u8>, AllocError>
    ensures { IfOk result (λ payload. last_of payload.items ≢ 0) }
{
    let mut payload = Vec::new(alloc);
    for _ in 0..zeros {
        payload.push(0)?;
    }
    payload.push(byte)?;
    payload.push(128)?;
    Ok(payload)
}

/// No two zero bytes are followed by one of at most 2.
fn has_no_start_code(rt: &impl Abort, bytes: &[u8]) {
    for window in bytes.windows(3) {
        assert!(rt;
            window.first() != Some(&0) || window.get(1) != Some(&0) || window.get(2) > Some(&2)
        );
    }
}

#[test]
fn worked_unit(rt: HostRuntime) -> Result<(), Fail> {
    let payload = [0, 0, 0, 0x80];
    let unit = [0, 0, 0, 1, 0x50, 1, 0, 0, 3, 0, 0x80];
    assert_eq!(rt;
        write_nal(rt.alloc(), 40, 0, &payload)?.as_slice(),
        unit.as_slice()
    );
    assert_eq!(rt;
        strip_nal(rt.alloc(), &unit[4..])?.as_slice(),
        payload.as_slice()
    );
    Ok(())
}

#[test]
fn runs_of_zeros(rt: HostRuntime) -> Result<(), Fail> {
    for zeros in 0..9 {
        for byte in 0..5 {
            let payload = zeros_and(rt.alloc(), zeros, byte)?;
            let unit = write_nal(rt.alloc(), 1, 2, payload.as_slice())?;
            let (start, escaped) = unit.split_at_checked(4).ok_or("no start code")?;
            assert_eq!(rt; start, [0, 0, 0, 1].as_slice());
            assert_eq!(rt; escaped.first_chunk(), Some(&[2, 3]));
            has_no_start_code(&rt, escaped);
            assert!(rt; escaped.len() > 1);
            assert_eq!(rt;
                strip_nal(rt.alloc(), escaped)?.as_slice(),
                payload.as_slice()
            );
        }
    }
    Ok(())
}

#[test]
fn worked_numbers(rt: HostRuntime) -> Result<(), Fail> {
    // 1, 00101, 00101, 011, and a one behind them
    let mut writer = BitWriter::new(rt.alloc());
    writer.ue(0);
    writer.ue(4);
    writer.se(-2);
    writer.put(3, 3);
    writer.trail();
    let bytes = writer.finish()?;
    assert_eq!(rt; bytes.as_slice(), [0b1001_0100, 0b1010_1110].as_slice());

    assert_eq!(rt; BitReader::new(&[0]).ue(), Err(BitsError::EndOfBits));
    assert_eq!(rt; BitReader::new(&[0; 5]).ue(), Err(BitsError::TooLong));
    let mut reader = BitReader::new(&bytes);
    assert_eq!(rt; reader.ue(), Ok(0));
    assert_eq!(rt; reader.bits(9), Ok(0b0_0101_0010));
    assert_eq!(rt; reader.bits(32), Err(BitsError::EndOfBits));
    assert_eq!(rt; reader.bits(6), Ok(0b10_1110));
    assert_eq!(rt; reader.bits(1), Err(BitsError::EndOfBits));
    Ok(())
}

/// A signed number with its code, and then eight ones: `ue(v)` with a value as `se(v)` has it.
fn coded(alloc: Global, unsigned: u32, signed: i32) -> Result<Vec<u8>, NoMemory> {
    let mut writer = BitWriter::new(alloc);
    if unsigned < u32::MAX {
        writer.ue(unsigned);
    }
    if signed > i32::MIN {
        writer.se(signed);
    }
    writer.put(255, 8);
    writer.trail();
    writer.finish()
}

#[test]
fn powers_of_two(rt: HostRuntime) -> Result<(), Fail> {
    for k in 0..31u8 {
        let power = 1u32 << k;
        let half = (power / 2) as i32;
        // Each number is a place of the table of codes: 2k - 1 for k, 2k for -k.
        for (unsigned, signed, code) in [
            (power - 1, half, 2 * (power as u64 / 2)),
            (power, -half, 2 * (power as u64 / 2)),
            (2 * (power - 1), half, 2 * (power as u64 / 2)),
        ] {
            let bytes = coded(rt.alloc(), unsigned, signed)?;
            let mut reader = BitReader::new(&bytes);
            assert_eq!(rt; reader.ue(), Ok(u64::from(unsigned)));
            let want = if signed > 0 {
                code.saturating_sub(1)
            } else {
                code
            };
            assert_eq!(rt; reader.ue(), Ok(want), "at {signed}");
            assert_eq!(rt; reader.bits(8), Ok(255));
        }
    }
    let bytes = coded(rt.alloc(), u32::MAX - 1, -i32::MAX)?;
    let mut reader = BitReader::new(&bytes);
    assert_eq!(rt; reader.ue(), Ok(0xffff_fffe));
    assert_eq!(rt; reader.ue(), Ok(0xffff_fffe));
    assert_eq!(rt; reader.bits(8), Ok(255));
    Ok(())
}

/// Puts fields of all kinds, 42 bytes of them, so that the writer grows several times.
fn fields_of_all_kinds(alloc: Global) -> Result<Vec<u8>, NoMemory> {
    let mut writer = BitWriter::new(alloc);
    for k in 0..8u8 {
        writer.put(0x8765_4321, 32);
        writer.ue(u32::from(k));
        writer.se(-i32::from(k));
    }
    writer.trail();
    writer.finish()
}

/// The fields are whole, or the answer is that memory was wanted, now or at an earlier growth.
fn see_fields(rt: &impl Abort, alloc: Global) {
    match fields_of_all_kinds(alloc) {
        Ok(bytes) => {
            assert_eq!(rt; bytes.len(), 42);
            let mut reader = BitReader::new(&bytes);
            for k in 0..8u8 {
                assert_eq!(rt; reader.bits(32), Ok(0x8765_4321));
                assert_eq!(rt; reader.ue(), Ok(u64::from(k)));
                assert_eq!(rt; reader.ue(), Ok(2 * u64::from(k)));
            }
            assert_eq!(rt; reader.bits(1), Ok(1));
        }
        Err(error) => assert_eq!(rt; error, NoMemory),
    }
}

/// The same of a unit, and of its payload.
fn see_unit(rt: &impl Abort, alloc: Global) {
    let payload = [0, 0, 0, 0, 0, 0, 0, 0, 0, 0, 0, 0x80];
    let unit = [
        0, 0, 0, 1, 0x50, 1, 0, 0, 3, 0, 0, 3, 0, 0, 3, 0, 0, 3, 0, 0, 3, 0, 0x80,
    ];
    match write_nal(alloc, 40, 0, &payload) {
        Ok(bytes) => assert_eq!(rt; bytes.as_slice(), unit.as_slice()),
        Err(error) => assert_eq!(rt; error, NoMemory),
    }
    match strip_nal(alloc, &unit[4..]) {
        Ok(bytes) => assert_eq!(rt; bytes.as_slice(), payload.as_slice()),
        Err(error) => assert_eq!(rt; error, NoMemory),
    }
}

/// Whichever allocation is refused, a call gives all its bytes or says so.
#[test]
fn answers_want_of_memory(rt: HostRuntime) {
    see_fields(&rt, rt.alloc());
    see_unit(&rt, rt.alloc());
}
