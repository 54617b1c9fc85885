//! The samples of a coding tree block.

ghost use Rattle.std.specs.Prelude.{◌≡◌, length, IfOk};
ghost use Rattle.std.specs.Borrow.{sem};

use hv_types::NoMemory;
use std::alloc::Global;
use std::marker::Model;

/// The samples of a coding tree block, by rows: 64x64 of luma, and 32x32 each of Cb and Cr.
///
/// Contracts see them as three lists, which have these lengths.
#[derive(Drop)]
pub struct Samples {
    luma: Vec<u8>,
    cb: Vec<u8>,
    cr: Vec<u8>,
}

impl Model for Samples {
    ghost use Rattle.hv_block.specs.Samples.{Samples, AreWholeSamples, samples_of_lists};

    ghost Value = { Samples };

    ghost view = { λ s. samples_of_lists s.luma.items s.cb.items s.cr.items };

    ghost invariant = { λ s. AreWholeSamples
        (samples_of_lists s.luma.items s.cb.items s.cr.items) };
}

impl Samples {
    ghost use Rattle.hv_block.specs.Samples.{opening_samples};
    ghost use Rattle.hv_block.specs.Lending.{LendsLumaSamples, LendsCbSamples, LendsCrSamples};

    /// Samples of 0. The only error is want of memory.
    pub fn new(alloc: Global) -> Result<Self, NoMemory>
        ensures { IfOk result (λ samples. samples ≡ opening_samples) }
    {
        let luma = vec![in alloc; 0u8; 4096]?;
        let cb = vec![in alloc; 0u8; 1024]?;
        let cr = vec![in alloc; 0u8; 1024]?;
        Ok(Samples { luma, cb, cr })
    }

    /// The 64x64 samples of luma.
    pub fn luma(&self) -> &[u8]
        ensures value { result.now ≡ self.now.luma }
        ensures count { length result.now ≡ 4096 }
    {
        &self.luma
    }

    /// The 32x32 samples of Cb.
    pub fn cb(&self) -> &[u8]
        ensures value { result.now ≡ self.now.cb }
        ensures count { length result.now ≡ 1024 }
    {
        &self.cb
    }

    /// The 32x32 samples of Cr.
    pub fn cr(&self) -> &[u8]
        ensures value { result.now ≡ self.now.cr }
        ensures count { length result.now ≡ 1024 }
    {
        &self.cr
    }

    /// The 64x64 samples of luma, lent for writing.
    pub fn luma_mut(&mut self) -> &mut [u8]
        ensures* written { sem 𝓛 (LendsLumaSamples self.entry result) }
        ensures value { result.now ≡ self.old.luma }
        ensures count { length result.now ≡ 4096 }
    {
        &mut self.luma
    }

    /// The 32x32 samples of Cb, lent for writing.
    pub fn cb_mut(&mut self) -> &mut [u8]
        ensures* written { sem 𝓛 (LendsCbSamples self.entry result) }
        ensures value { result.now ≡ self.old.cb }
        ensures count { length result.now ≡ 1024 }
    {
        &mut self.cb
    }

    /// The 32x32 samples of Cr, lent for writing.
    pub fn cr_mut(&mut self) -> &mut [u8]
        ensures* written { sem 𝓛 (LendsCrSamples self.entry result) }
        ensures value { result.now ≡ self.old.cr }
        ensures count { length result.now ≡ 1024 }
    {
        &mut self.cr
    }
}
