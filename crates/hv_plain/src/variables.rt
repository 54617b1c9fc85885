//! Context variables (9.3.2.2, 9.3.4.3.2).

ghost use Rattle.std.specs.Prelude.{◌≡◌, ◌+◌, ◌*◌, ◌/◌, ◌%◌, ◌<◌, ◌≤◌, cond, not, nat_eq, IfOk, flat_map, length, slice_index_or, pos, negsuc, ◌+ℤ◌, ◌-ℤ◌, ◌*ℤ◌, ◌≤ℤ◌};
ghost use Rattle.std.specs.Int.{int_shr};
ghost use Rattle.hv_lemmas.specs.Clipping.{clip3};
ghost use Rattle.hv_entropy_model.specs.Contexts.{preCtxState, first_variable, first_variables, lps_width, after_mps, after_lps, next_variable};

use hv_tables::{SliceKind, init_values, range_tab_lps, trans_idx_lps};
use std::alloc::{AllocError, Global};
use std::marker::Model;

/// A context variable.
#[derive(Clone, Copy)]
pub struct Variable {
    p_state_idx: u8,
    val_mps: bool,
}

impl Model for Variable {
    ghost use Rattle.hv_entropy_model.specs.Contexts.{ContextVariable};

    ghost Value = { ContextVariable };

    ghost view = { λ v. record { pStateIdx = v.p_state_idx; valMps = v.val_mps } };

    ghost inverse = { λ d. record { p_state_idx = d.pStateIdx; val_mps = d.valMps } };
}

impl Variable {
    ghost use Rattle.std.specs.Prelude.{◌≡◌};
    ghost use Rattle.hv_entropy_model.specs.Contexts.{no_variable};

    /// What stands where a context has no variable.
    pub fn none() -> Variable
        ensures { result ≡ no_variable }
    {
        Variable {
            p_state_idx: 0,
            val_mps: false,
        }
    }

    /// The state, from 0 to 62 (9.3.4.3.2.2).
    pub fn p_state_idx(self) -> u8
        ensures { result ≡ self.pStateIdx }
    {
        self.p_state_idx
    }

    /// The more probable value.
    pub fn val_mps(self) -> bool
        ensures { result ≡ self.valMps }
    {
        self.val_mps
    }
}

/// Clip3 (5.8).
fn clip3(low: i32, high: i32, value: i32) -> i32
    requires { low ≤ℤ high }
    ensures value { result ≡ clip3 low high value }
    ensures least { low ≤ℤ result }
    ensures most { result ≤ℤ high }
{
    value.min(high).max(low)
}

/// m of 9.3.2.2, of a variable's initValue.
fn slope(init_value: u8) -> i32
    ensures value { result ≡ pos (init_value / 16 * 5) -ℤ pos 45 }
    ensures least { negsuc 44 ≤ℤ result }
    ensures most { result ≤ℤ pos 30 }
{
    i32::from(init_value / 16 * 5) - 45
}

/// n of 9.3.2.2, of a variable's initValue.
fn offset(init_value: u8) -> i32
    ensures value { result ≡ pos (init_value % 16 * 8) -ℤ pos 16 }
    ensures least { negsuc 15 ≤ℤ result }
    ensures most { result ≤ℤ pos 104 }
{
    i32::from(init_value % 16 * 8) - 16
}

/// m times the quantiser.
fn scaled(slope: i32, qp: u8) -> i32
    requires least { negsuc 44 ≤ℤ slope }
    requires most { slope ≤ℤ pos 30 }
    ensures { result ≡ slope *ℤ pos qp }
{
    slope * i32::from(qp)
}

/// A sixteenth, rounded down.
fn sixteenth(value: i32) -> i32
    ensures value { result ≡ int_shr value 4 }
    ensures least { negsuc 134217727 ≤ℤ result }
    ensures most { result ≤ℤ pos 134217727 }
{
    value >> 4
}

/// preCtxState (9.3.2.2) before it is clipped.
fn unclipped(qp: u8, init_value: u8) -> i32
    ensures { let m = pos (init_value / 16 * 5) -ℤ pos 45 in
        let n = pos (init_value % 16 * 8) -ℤ pos 16 in
        result ≡ int_shr (m *ℤ pos qp) 4 +ℤ n }
{
    sixteenth(scaled(slope(init_value), qp)) + offset(init_value)
}

/// preCtxState (9.3.2.2) of a variable's initValue, in a slice of this quantiser.
fn pre_ctx_state(qp: u8, init_value: u8) -> u8
    ensures value { result ≡ preCtxState qp init_value }
    ensures most { result ≤ 126 }
{
    clip3(1, 126, unclipped(qp, init_value)) as u8
}

/// The variable from which a context starts (9.3.2.2).
fn first_variable(qp: u8, init_value: u8) -> Variable
    ensures { result ≡ first_variable qp init_value }
{
    let state = pre_ctx_state(qp, init_value);
    if state > 63 {
        Variable {
            p_state_idx: state - 64,
            val_mps: true,
        }
    } else {
        Variable {
            p_state_idx: 63 - state,
            val_mps: false,
        }
    }
}

/// All context variables at the start of a slice (9.3.2.2).
pub fn first_variables(alloc: Global, kind: SliceKind, qp: u8) -> Result<Vec<Variable>, AllocError>
    ensures { IfOk result (λ all. all.items ≡ first_variables kind qp) }
{
    let values = init_values(kind);
    let mut variables = Vec::new(alloc);
    for value in values {
        variables.push(first_variable(qp, *value))?;
    }
    Ok(variables)
}

/// The width of the less probable part of a range (9.3.4.3.2).
#[tactic(auto, unfolding(hv_entropy_model::specs::Contexts::lps_width))]
pub fn lps_width(v: Variable, range: u32) -> u32
    ensures value { result ≡ lps_width v range }
    ensures least { 2 ≤ result }
    ensures most { result ≤ 240 }
{
    u32::from(range_tab_lps(v.p_state_idx % 64, (range / 64 % 4) as u8))
}

/// The more probable value after the less probable one (9.3.4.3.2.2).
fn mps_after_lps(state: u8, val_mps: bool) -> bool
    ensures { result ≡ cond (nat_eq state 0) (not val_mps) val_mps }
{
    if state == 0 { !val_mps } else { val_mps }
}

/// The variable after the more probable value (9.3.4.3.2.2).
fn after_mps(v: Variable) -> Variable
    ensures { result ≡ after_mps v }
{
    Variable {
        p_state_idx: (v.p_state_idx % 64 + 1).min(62),
        val_mps: v.val_mps,
    }
}

/// The variable after the less probable value (9.3.4.3.2.2).
fn after_lps(v: Variable) -> Variable
    ensures { result ≡ after_lps v }
{
    let state = v.p_state_idx % 64;
    Variable {
        p_state_idx: trans_idx_lps(state),
        val_mps: mps_after_lps(state, v.val_mps),
    }
}

/// The variable after a bin of this value (9.3.4.3.2.2).
#[tactic(auto, unfolding(hv_entropy_model::specs::Contexts::next_variable))]
pub fn next_variable(v: Variable, value: bool) -> Variable
    ensures { result ≡ next_variable v value }
{
    let val_mps = v.val_mps;
    if value == val_mps {
        after_mps(v)
    } else {
        after_lps(v)
    }
}
