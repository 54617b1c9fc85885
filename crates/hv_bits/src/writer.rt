//! A writer of bits.

ghost use Rattle.std.specs.Prelude.{◌≡◌, ◌+◌, ◌-◌, ◌%◌, ◌^◌, ◌<◌, ◌≤◌, false, [], length, OnOk, IfOk, negsuc, ◌<ℤ◌};
ghost use Rattle.hv_stream_model.specs.Bits.{digits, bits_of, bytes_of};
ghost use Rattle.hv_stream_model.specs.Fields.{exp_golomb, code_num, padding_of};
ghost use Rattle.hv_bits.specs.Writing.{Appends};

use hv_types::NoMemory;
use std::alloc::Global;
use std::marker::Model;

/// Takes bits one field after another, the highest bit of a field first, and gives the bytes that
/// they make (7.2). Where there is not enough memory, the writer keeps that in mind, and `finish`
/// answers it.
#[derive(Drop)]
pub struct BitWriter {
    bytes: Vec<u8>,
    // The last bits that were put, of which the lowest `waiting` are not in `bytes` yet.
    recent: u32,
    waiting: u32,
    failed: bool,
}

impl Model for BitWriter {
    ghost use Rattle.std.specs.Prelude.{◌<◌, ◌++◌};
    ghost use Rattle.hv_stream_model.specs.Bits.{digits, bits_of};
    ghost use Rattle.hv_stream_model.specs.BitLaws.{AreBytes};
    ghost use Rattle.hv_bits.specs.Writing.{Written};

    ghost Value = { Written };

    ghost view = { λ w. record {
      bits = bits_of w.bytes.items ++ digits w.waiting w.recent;
      failed = w.failed;
    } };

    ghost invariant = { λ w. (w.waiting < 32) × AreBytes w.bytes.items };
}

impl BitWriter {
    /// A writer without a bit. It takes no memory yet.
    pub fn new(alloc: Global) -> BitWriter
        ensures { result ≡ record { bits = []; failed = false } }
    {
        BitWriter {
            bytes: Vec::new(alloc),
            recent: 0,
            waiting: 0,
            failed: false,
        }
    }

    /// Puts `u(bits)` of a value that fits (7.2): at most 32 bits.
    pub fn put(&mut self, value: u32, bits: u8)
        requires width { bits ≤ 32 }
        requires fits { value < 2 ^ bits }
        ensures { Appends self.old self.new (digits bits value) }
    {
        let all = u64::from(self.recent) << bits | u64::from(value);
        let waiting = self.waiting + u32::from(bits);
        self.recent = (all & 0xffff_ffff) as u32;
        if waiting < 32 {
            self.waiting = waiting;
        } else {
            self.waiting = waiting - 32;
            let word = (all >> (waiting - 32) & 0xffff_ffff) as u32;
            if self.bytes.extend_from_slice(&word.to_be_bytes()).is_err() {
                self.failed = true;
            }
        }
    }

    /// Puts `ue(v)` of a value below 2^32 - 1 (9.2).
    pub fn ue(&mut self, value: u32)
        requires { value < 2 ^ 32 - 1 }
        ensures { Appends self.old self.new (exp_golomb value) }
    {
        let digits = value + 1;
        let zeros = digits.ilog2() as u8;
        self.put(0, zeros);
        self.put(digits, zeros + 1);
    }

    /// Puts `se(v)` of a value above -2^31 (9.2.2).
    pub fn se(&mut self, value: i32)
        requires { negsuc 2147483647 <ℤ value }
        ensures { Appends self.old self.new (exp_golomb (code_num value)) }
    {
        if value > 0 {
            self.ue(2 * value.unsigned_abs() - 1);
        } else {
            self.ue(2 * value.unsigned_abs());
        }
    }

    /// Puts a one, and zeros up to a whole number of bytes (7.3.2.11 and 7.3.2.12).
    pub fn trail(&mut self)
        ensures put { Appends self.old self.new (padding_of (length self.old.bits)) }
        ensures whole { self.new.failed ≡ false → length self.new.bits % 8 ≡ 0 }
    {
        let bits = 8 - (self.waiting % 8) as u8;
        self.put(1 << (bits - 1), bits);
    }

    /// The bytes of the bits that were put, which are a whole number of bytes. `NoMemory` where a
    /// growth failed, now or in any earlier call.
    pub fn finish(self) -> Result<Vec<u8>, NoMemory>
        requires { self.failed ≡ false → length self.bits % 8 ≡ 0 }
        ensures unfailed { OnOk result (self.failed ≡ false) }
        ensures ok { IfOk result (λ bytes. bytes.items ≡ bytes_of self.bits) }
        ensures bits { IfOk result (λ bytes. bits_of bytes.items ≡ self.bits) }
    {
        let BitWriter {
            mut bytes,
            recent,
            mut waiting,
            failed,
        } = self;
        if failed {
            return Err(NoMemory);
        }
        while waiting >= 8 {
            waiting -= 8;
            bytes.push((recent >> waiting & 0xff) as u8)?;
        }
        Ok(bytes)
    }
}
