//! Binary digits as a number that is never cut.

ghost use Rattle.std.specs.Prelude.{◌≡◌, ◌+◌, ◌*◌, ◌^◌, ◌<◌, ◌≤◌, length, All, OnOk};
ghost use Rattle.hv_stream_model.specs.Bits.{number_of};

use std::alloc::AllocError;

/// Adds to the number that the digits make.
pub fn add(digits: &mut Vec<u8>, value: u32)
    requires most { value < 2 ^ 20 }
    requires bits { All (λ d. d < 2) digits.old.items }
    requires fits { number_of digits.old.items + value < 2 ^ length digits.old.items }
    ensures number { number_of digits.new.items ≡ number_of digits.old.items + value }
    ensures count { length digits.new.items ≡ length digits.old.items }
    ensures bits { All (λ d. d < 2) digits.new.items }
{
    let mut carry = value;
    let mut at = digits.len();
    while at > 0 {
        at -= 1;
        let sum = u32::from(digits[at]) + carry;
        digits[at] = (sum % 2) as u8;
        carry = sum / 2;
    }
}

/// Doubles the number so often: as many zeros more.
pub fn double(digits: &mut Vec<u8>, times: u32) -> Result<(), AllocError>
    requires bits { All (λ d. d < 2) digits.old.items }
    ensures number { OnOk result
        (number_of digits.new.items ≡ number_of digits.old.items * 2 ^ times) }
    ensures count { OnOk result (length digits.new.items ≡ length digits.old.items + times) }
    ensures bits { OnOk result (All (λ d. d < 2) digits.new.items) }
{
    for i in 0..times {
        digits.push(0)?;
    }
    Ok(())
}
