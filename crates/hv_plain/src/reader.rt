//! The arithmetic decoder (9.3.4.3), bin by bin.

ghost use Rattle.std.specs.Prelude.{◌≡◌, ◌+◌, ◌-◌, ◌*◌, ◌^◌, ◌<◌, ◌≤◌, Bool, not, false, List, length, drop, Option, option_map, IfOk, IfSome};
ghost use Rattle.hv_tables.specs.Bins.{Context, Bypass, Terminate};
ghost use Rattle.hv_stream_model.specs.Bits.{bits_of};
ghost use Rattle.hv_entropy_model.specs.Contexts.{ContextVariable, first_variables, variable_at, with_variable, next_variable};
ghost use Rattle.hv_entropy_model.specs.Oracle.{begin_decoder, renormalize, with_value, decode};
ghost use Rattle.hv_plain.specs.PlainReading.{question_of, answered, Answers};

use crate::bits::{read_bits, shift_of};
use crate::contexts::{put_variable, variable_at};
use crate::variables::{Variable, first_variables, lps_width, next_variable};
use hv_tables::{Ctx, SliceKind};
use std::alloc::{AllocError, Global};
use std::marker::Model;

/// What is asked of the arithmetic decoder.
#[derive(Clone, Copy)]
pub enum Question {
    /// A bin with a context (9.3.4.3.2).
    Bin(Ctx),
    /// A bypass bin (9.3.4.3.4).
    Bypass,
    /// The bin before terminate, which is true where the slice ends (9.3.4.3.5).
    End,
}

/// The decoder within the data of a slice.
#[derive(Drop)]
pub struct BinReader<'a> {
    bytes: &'a [u8],
    at: usize,
    ivl_curr_range: u32,
    ivl_offset: u32,
    variables: Vec<Variable>,
}

impl<'a> Model for BinReader<'a> {
    ghost use Rattle.std.specs.Prelude.{◌*◌, ◌^◌, ◌<◌, ◌≤◌, length, drop};
    ghost use Rattle.hv_stream_model.specs.Bits.{bits_of};
    ghost use Rattle.hv_entropy_model.specs.Oracle.{Decoder};

    ghost Value = { Decoder };

    ghost view = { λ r. record {
      bits = drop r.at (bits_of r.bytes.now);
      ivlCurrRange = r.ivl_curr_range;
      ivlOffset = r.ivl_offset;
      variables = r.variables.items;
    } };

    ghost invariant = { λ r. (length r.bytes.now < 2 ^ 32) × (r.at ≤ 8 * length r.bytes.now)
        × (r.ivl_curr_range ≤ 510) × (r.ivl_offset < r.ivl_curr_range → 256 ≤ r.ivl_curr_range) };
}

impl<'a> BinReader<'a> {
    /// The decoder at the start of a slice's data (9.3.2.5): none where there are fewer than nine
    /// bits, or where they are 510 or 511.
    pub fn new(
        alloc: Global,
        bytes: &'a [u8],
        kind: SliceKind,
        qp: u8,
    ) -> Result<Option<BinReader<'a>>, AllocError>
        requires { length bytes.now < 2 ^ 32 }
        ensures { IfOk result
            (λ r. r ≡ begin_decoder (first_variables kind qp) (bits_of bytes.now)) }
    {
        let variables = first_variables(alloc, kind, qp)?;
        match read_bits(bytes, 0, 9, 0) {
            None => Ok(None),
            Some((ivl_offset, at)) => {
                if ivl_offset < 510 {
                    Ok(Some(BinReader {
                        bytes,
                        at,
                        ivl_curr_range: 510,
                        ivl_offset,
                        variables,
                    }))
                } else {
                    Ok(None)
                }
            }
        }
    }

    /// The value of the bin that is asked for, which is then read. None where the bits end, or
    /// where the slice has ended; the reader is then as it was.
    pub fn answer(&mut self, question: Question) -> Option<bool>
        ensures { Answers (answered self.old (question_of question)) self.old self.new result }
    {
        if self.ivl_offset >= self.ivl_curr_range {
            return None;
        }
        match question {
            Question::Bin(context) => self.decision(context),
            Question::Bypass => self.bypass(),
            Question::End => self.terminate(),
        }
    }

    /// How many bits are left.
    pub fn bits_left(&self) -> usize
        ensures { result ≡ length self.now.bits }
    {
        8 * self.bytes.len() - self.at
    }

    /// A bin with a context (9.3.4.3.2).
    fn decision(&mut self, context: Ctx) -> Option<bool>
        requires { self.old.ivlOffset < self.old.ivlCurrRange }
        ensures { Answers (decode self.old (Context context)) self.old self.new result }
    {
        let variable = variable_at(&self.variables, context);
        let lps = lps_width(variable, self.ivl_curr_range);
        let mps = self.ivl_curr_range - lps;
        let val_mps = variable.val_mps();
        if self.ivl_offset < mps {
            self.decide(mps, self.ivl_offset, context, val_mps)
        } else {
            self.decide(lps, self.ivl_offset - mps, context, !val_mps)
        }
    }

    /// A binary decision of this value (9.3.4.3.2.2), from a range and an offset within it.
    fn decide(&mut self, range: u32, offset: u32, context: Ctx, value: bool) -> Option<bool>
        requires most { range ≤ 510 }
        requires inside { offset < range }
        ensures { let before = variable_at self.old.variables context in
            let after = with_variable self.old.variables context (next_variable before value) in
            Answers (with_value value (renormalize after range offset self.old.bits))
            self.old self.new result }
    {
        match renormalized(self.bytes, self.at, range, offset) {
            None => None,
            Some(place) => {
                let variable = variable_at(&self.variables, context);
                put_variable(&mut self.variables, context, next_variable(variable, value));
                self.at = place.at;
                self.ivl_curr_range = place.range;
                self.ivl_offset = place.offset;
                Some(value)
            }
        }
    }

    /// A bypass bin (9.3.4.3.4).
    fn bypass(&mut self) -> Option<bool>
        requires { self.old.ivlOffset < self.old.ivlCurrRange }
        ensures { Answers (decode self.old Bypass) self.old self.new result }
    {
        match read_bits(self.bytes, self.at, 1, self.ivl_offset) {
            None => None,
            Some((doubled, at)) => {
                let value = doubled >= self.ivl_curr_range;
                self.at = at;
                self.ivl_offset = if value {
                    doubled - self.ivl_curr_range
                } else {
                    doubled
                };
                Some(value)
            }
        }
    }

    /// A bin before terminate (9.3.4.3.5).
    fn terminate(&mut self) -> Option<bool>
        requires { self.old.ivlOffset < self.old.ivlCurrRange }
        ensures { Answers (decode self.old Terminate) self.old self.new result }
    {
        let range = self.ivl_curr_range - 2;
        if self.ivl_offset >= range {
            self.ivl_curr_range = range;
            return Some(true);
        }
        match renormalized(self.bytes, self.at, range, self.ivl_offset) {
            None => None,
            Some(place) => {
                self.at = place.at;
                self.ivl_curr_range = place.range;
                self.ivl_offset = place.offset;
                Some(false)
            }
        }
    }
}

/// Where a decoder stands: how many bits it has read, its range and its offset.
#[derive(Clone, Copy)]
struct Place {
    at: usize,
    range: u32,
    offset: u32,
}

/// Where the decoder stands after renormalization (9.3.4.3.3), from a range and an offset within
/// it; none where the bits end.
fn renormalized(bytes: &[u8], at: usize, range: u32, offset: u32) -> Option<Place>
    requires bytes_most { length bytes.now < 2 ^ 32 }
    requires within { at ≤ 8 * length bytes.now }
    requires range_most { range ≤ 510 }
    requires inside { offset < range }
    ensures value { (variables : List ContextVariable) →
        renormalize variables range offset (drop at (bits_of bytes.now))
        ≡ option_map (λ r. record {
          bits = drop r.at (bits_of bytes.now);
          ivlCurrRange = r.range;
          ivlOffset = r.offset;
          variables = variables;
        }) result }
    ensures within { IfSome result (λ r. r.at ≤ 8 * length bytes.now) }
    ensures wide { IfSome result (λ r. 256 ≤ r.range) }
    ensures most { IfSome result (λ r. r.range ≤ 510) }
    ensures inside { IfSome result (λ r. r.offset < r.range) }
{
    let shift = shift_of(range);
    match read_bits(bytes, at, shift, offset) {
        None => None,
        Some((offset, at)) => Some(Place {
            at,
            range: doubled(range, shift),
            offset,
        }),
    }
}

/// A width doubled so often.
pub(crate) fn doubled(width: u32, times: u32) -> u32
    requires times_most { times ≤ 8 }
    requires width_most { width * 2 ^ times < 2 ^ 20 }
    ensures { result ≡ width * 2 ^ times }
{
    width << times
}

/// The variables after a context's bin of this value (9.3.4.3.2.2).
pub(crate) fn adapted(variables: Vec<Variable>, context: Ctx, value: bool) -> Vec<Variable>
    ensures { let before = variable_at variables.items context in
        result.items ≡ with_variable variables.items context (next_variable before value) }
{
    let mut adapted = variables;
    let variable = variable_at(&adapted, context);
    put_variable(&mut adapted, context, next_variable(variable, value));
    adapted
}
