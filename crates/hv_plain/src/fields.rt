//! The bits of fields (7.2, 9.2), bit by bit.

ghost use Rattle.std.specs.Prelude.{◌≡◌, ◌+◌, ◌<◌, ◌≤◌, ◌^◌, ◌++◌, map, IfOk, OnOk};
ghost use Rattle.hv_stream_model.specs.Bits.{digits};
ghost use Rattle.hv_stream_model.specs.Fields.{halvings, log2_of, exp_golomb, field_bits, bits_of_fields};
ghost use Rattle.hv_plain.specs.PlainFields.{field_of};

use hv_types::NoMemory;
use std::alloc::{AllocError, Global};

/// A field of a header with its value (7.2).
#[derive(Clone, Copy, Debug, PartialEq, Eq)]
pub enum Field {
    /// u(n): how many bits, and the number, of which those bits are written.
    U(u8, u32),
    /// ue(v): a number in Exp-Golomb code.
    Ue(u32),
}

/// The bits of a field, as numbers 0 and 1 (7.2, 9.2).
///
/// `NoMemory` where there is not enough memory.
pub fn field_bits(alloc: Global, field: Field) -> Result<Vec<u8>, NoMemory>
    ensures { IfOk result (λ bits. bits.items ≡ field_bits (field_of field)) }
{
    let mut bits = Vec::new(alloc);
    put_field(&mut bits, field)?;
    Ok(bits)
}

/// The bits of fields, one after another, as numbers 0 and 1 (7.2, 9.2).
///
/// `NoMemory` where there is not enough memory.
pub fn bits_of_fields(alloc: Global, fields: &[Field]) -> Result<Vec<u8>, NoMemory>
    ensures { IfOk result (λ bits. bits.items ≡ bits_of_fields (map field_of fields.now)) }
{
    let mut bits = Vec::new(alloc);
    for field in fields {
        put_field(&mut bits, *field)?;
    }
    Ok(bits)
}

/// Puts the bits of a field.
fn put_field(bits: &mut Vec<u8>, field: Field) -> Result<(), AllocError>
    ensures { OnOk result (bits.new.items ≡ bits.old.items ++ field_bits (field_of field)) }
{
    match field {
        Field::U(count, value) => put_digits(bits, u32::from(count), u64::from(value)),
        Field::Ue(value) => put_exp_golomb(bits, value),
    }
}

/// Puts the lowest binary digits of a number, the highest first.
fn put_digits(bits: &mut Vec<u8>, count: u32, value: u64) -> Result<(), AllocError>
    ensures { OnOk result (bits.new.items ≡ bits.old.items ++ digits count value) }
{
    if count == 0 {
        return Ok(());
    }
    put_digits(bits, count - 1, value / 2)?;
    bits.push((value % 2) as u8)?;
    Ok(())
}

/// Puts a number in Exp-Golomb code (9.2): as many zeros as the number plus 1 has digits less one,
/// and then those digits.
fn put_exp_golomb(bits: &mut Vec<u8>, value: u32) -> Result<(), AllocError>
    ensures { OnOk result (bits.new.items ≡ bits.old.items ++ exp_golomb value) }
{
    let number = u64::from(value) + 1;
    let zeros = log2_of(number);
    put_digits(bits, zeros, 0)?;
    put_digits(bits, zeros + 1, number)?;
    Ok(())
}

/// How often a number halves until it is less than 2, at most `fuel` times.
fn halvings(fuel: u32, number: u64) -> u32
    ensures value { result ≡ halvings fuel number }
    ensures most { result ≤ fuel }
{
    if fuel == 0 || number < 2 {
        0
    } else {
        1 + halvings(fuel - 1, number / 2)
    }
}

/// The greatest k for which 2^k is at most the number, which is not 0.
#[tactic(auto, unfolding(hv_stream_model::specs::Fields::log2_of))]
fn log2_of(number: u64) -> u32
    ensures value { result ≡ log2_of number }
    ensures most { result ≤ 64 }
{
    halvings(64, number)
}
