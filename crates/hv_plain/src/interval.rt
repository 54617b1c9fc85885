//! The interval of the arithmetic coder, bin by bin, with a low end that is never cut.

ghost use Rattle.std.specs.Prelude.{◌≡◌, ◌+◌, ◌-◌, ◌*◌, ◌^◌, ◌<◌, ◌≤◌, false, cond, length, All, IfOk};
ghost use Rattle.hv_tables.specs.Bins.{context_bin, bypass_bin, terminate_bin};
ghost use Rattle.hv_stream_model.specs.Bits.{number_of};
ghost use Rattle.hv_entropy_model.specs.Contexts.{first_variables, variable_at};
ghost use Rattle.hv_entropy_model.specs.CodeWord.{Interval, first_interval, shift_of, cut_at, cut_to, advance, word_at};

use crate::bits::shift_of;
use crate::contexts::variable_at;
use crate::digits::{add, double};
use crate::reader::{adapted, doubled};
use crate::variables::{Variable, first_variables, lps_width};
use hv_tables::{Ctx, SliceKind};
use std::alloc::{AllocError, Global};
use std::marker::Model;

/// The interval after some bins.
#[derive(Drop)]
pub struct PlainInterval {
    low: Vec<u8>,
    range: u32,
    variables: Vec<Variable>,
}

impl Model for PlainInterval {
    ghost use Rattle.std.specs.Prelude.{◌+◌, ◌-◌, ◌*◌, ◌^◌, ◌<◌, ◌≤◌, length, All};
    ghost use Rattle.hv_stream_model.specs.Bits.{number_of};
    ghost use Rattle.hv_entropy_model.specs.CodeWord.{Interval};

    ghost Value = { Interval };

    ghost view = { λ i. record {
      low = number_of i.low.items;
      range = i.range;
      n = length i.low.items - 9;
      variables = i.variables.items;
    } };

    ghost invariant = { λ i. (9 ≤ length i.low.items) × (256 ≤ i.range) × (i.range ≤ 510)
        × All (λ d. d < 2) i.low.items
        × (number_of i.low.items + i.range ≤ 510 * 2 ^ (length i.low.items - 9)) };
}

impl PlainInterval {
    /// The interval before the first bin.
    pub fn first(alloc: Global, kind: SliceKind, qp: u8) -> Result<PlainInterval, AllocError>
        ensures { IfOk result (λ i. i ≡ first_interval (first_variables kind qp)) }
    {
        let variables = first_variables(alloc, kind, qp)?;
        let low = vec![in alloc; 0; 9]?;
        Ok(PlainInterval {
            low,
            range: 510,
            variables,
        })
    }

    /// The interval's width, 256 to 510.
    pub fn range(&self) -> u32
        ensures { result ≡ self.now.range }
    {
        self.range
    }

    /// The variable of a context, as it stands; pStateIdx 0 and valMps 0 where none has its place.
    pub fn variable(&self, context: Ctx) -> Variable
        ensures { result ≡ variable_at self.now.variables context }
    {
        variable_at(&self.variables, context)
    }

    /// The interval after a bin with a context (9.3.4.3.2).
    pub fn bin(self, context: Ctx, value: bool) -> Result<PlainInterval, AllocError>
        ensures { IfOk result (λ i. i ≡ advance self (context_bin context value)) }
    {
        let PlainInterval {
            low,
            range,
            variables,
        } = self;
        let variable = variable_at(&variables, context);
        let probable = value == variable.val_mps();
        let adapted = adapted(variables, context, value);
        decided(low, range, lps_width(variable, range), probable, adapted)
    }

    /// The interval after a bypass bin (9.3.4.3.4).
    pub fn bypass(self, value: bool) -> Result<PlainInterval, AllocError>
        ensures { IfOk result (λ i. i ≡ advance self (bypass_bin value)) }
    {
        let PlainInterval {
            low,
            range,
            variables,
        } = self;
        let mut digits = low;
        double(&mut digits, 1)?;
        add(&mut digits, skip_of(range, value));
        Ok(PlainInterval {
            low: digits,
            range,
            variables,
        })
    }

    /// The interval after a bin before terminate that is false (9.3.4.3.5).
    pub fn go_on(self) -> Result<PlainInterval, AllocError>
        ensures { IfOk result (λ i. i ≡ advance self (terminate_bin false)) }
    {
        let PlainInterval {
            low,
            range,
            variables,
        } = self;
        keep(low, range, 0, range - 2, variables)
    }

    /// The code word of the bins before, and of the bin that ends the slice (9.3.2.5).
    pub fn word(self) -> Vec<u8>
        ensures { result.items ≡ word_at self }
    {
        let PlainInterval {
            low,
            range,
            variables: _,
        } = self;
        let mut digits = low;
        add(&mut digits, range - 2);
        let last = digits.len() - 1;
        digits[last] = 1;
        digits
    }
}

/// What a bypass bin leaves out of the doubled interval.
fn skip_of(range: u32, value: bool) -> u32
    ensures value { result ≡ cond value range 0 }
    ensures most { result ≤ range }
{
    if value { range } else { 0 }
}

/// The interval when a part of it is kept, doubled until it has 256.
fn keep(
    low: Vec<u8>,
    range: u32,
    skip: u32,
    width: u32,
    variables: Vec<Variable>,
) -> Result<PlainInterval, AllocError>
    requires long { 9 ≤ length low.items }
    requires most { range ≤ 510 }
    requires bits { All (λ d. d < 2) low.items }
    requires below { number_of low.items + range ≤ 510 * 2 ^ (length low.items - 9) }
    requires some { 0 < width }
    requires inside { skip + width ≤ range }
    ensures { IfOk result (λ i. i ≡ record {
      low = number_of low.items * 2 ^ shift_of width + skip * 2 ^ shift_of width;
      range = width * 2 ^ shift_of width;
      n = length low.items - 9 + shift_of width;
      variables = variables.items;
    }) }
{
    let times = shift_of(width);
    let mut digits = low;
    double(&mut digits, times)?;
    add(&mut digits, doubled(skip, times));
    Ok(PlainInterval {
        low: digits,
        range: doubled(width, times),
        variables,
    })
}

/// The interval when the part of a context's value is kept.
fn decided(
    low: Vec<u8>,
    range: u32,
    lps: u32,
    probable: bool,
    variables: Vec<Variable>,
) -> Result<PlainInterval, AllocError>
    requires long { 9 ≤ length low.items }
    requires most { range ≤ 510 }
    requires bits { All (λ d. d < 2) low.items }
    requires below { number_of low.items + range ≤ 510 * 2 ^ (length low.items - 9) }
    requires some { 0 < lps }
    requires inside { lps < range }
    ensures { let before : Interval = record {
      low = number_of low.items;
      range = range;
      n = length low.items - 9;
      variables = variables.items;
    } in
        IfOk result (λ i. i ≡ cut_to before (cut_at range lps probable) variables.items) }
{
    if probable {
        keep(low, range, 0, range - lps, variables)
    } else {
        keep(low, range, range - lps, lps, variables)
    }
}
