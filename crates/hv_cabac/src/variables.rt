//! The context variables of a slice.

ghost use Rattle.std.specs.Prelude.{◌≡◌, ◌<◌, ◌≤◌, slice_index_or, slice_set, pos, ◌+ℤ◌, ◌*ℤ◌};
ghost use Rattle.std.specs.Int.{int_shr};
ghost use Rattle.std.specs.Int.RustNames.{unsigned_abs};
ghost use Rattle.hv_entropy_model.specs.Contexts.{first_variable, first_variables, preCtxState, no_variable, lps_width, next_variable};
ghost use Rattle.hv_lemmas.specs.Clipping.{clip3};
ghost use Rattle.hv_cabac.specs.Variables.{variable_of, slope_of, offset_of};

use hv_tables::{CONTEXTS, SliceKind, init_values, next_state, range_tab_lps};

/// How steeply a variable's start falls or rises with the quantiser (9.3.2.2).
fn slope(init_value: u8) -> i32
    ensures value { result ≡ slope_of init_value }
    ensures most { unsigned_abs result ≤ 45 }
{
    i32::from(init_value / 16 * 5) - 45
}

/// Where a variable's start stands at quantiser 0 (9.3.2.2).
fn offset(init_value: u8) -> i32
    ensures value { result ≡ offset_of init_value }
    ensures most { unsigned_abs result ≤ 104 }
{
    i32::from(init_value % 16 * 8) - 16
}

/// A variable's start in a slice of this quantiser, on the line of its initValue (9.3.2.2).
fn start(qp: u8, init_value: u8) -> i32
    ensures { result ≡ int_shr (slope_of init_value *ℤ pos qp) 4 +ℤ offset_of init_value }
{
    (slope(init_value) * i32::from(qp) >> 4) + offset(init_value)
}

/// A number brought within 1 and 126.
fn clipped(value: i32) -> u8
    ensures value { result ≡ unsigned_abs (clip3 (pos 1) (pos 126) value) }
    ensures least { 1 ≤ result }
    ensures most { result ≤ 126 }
{
    value.min(126).max(1) as u8
}

/// preCtxState (9.3.2.2) of a variable with this initValue, in a slice of this quantiser.
fn pre_state(qp: u8, init_value: u8) -> u8
    ensures value { result ≡ preCtxState qp init_value }
    ensures least { 1 ≤ result }
    ensures most { result ≤ 126 }
{
    clipped(start(qp, init_value))
}

/// The state from which a variable starts (9.3.2.2).
fn first_state(qp: u8, init_value: u8) -> u8
    ensures { variable_of result ≡ first_variable qp init_value }
{
    let state = pre_state(qp, init_value);
    if state > 63 {
        (state - 64) * 2 + 1
    } else {
        (63 - state) * 2
    }
}

/// The width of the less probable part of a range (9.3.4.3.2.1).
#[inline(always)]
#[tactic(auto, unfolding(hv_entropy_model::specs::Contexts::lps_width))]
pub fn lps_width(state: u8, range: u32) -> u32
    ensures value { result ≡ lps_width (variable_of state) range }
    ensures least { 2 ≤ result }
    ensures most { result ≤ 240 }
{
    u32::from(range_tab_lps(state / 2 % 64, (range / 64 % 4) as u8))
}

/// The state after a bin of this value (9.3.4.3.2.2).
#[inline(always)]
pub fn state_after(state: u8, value: bool) -> u8
    ensures { variable_of result ≡ next_variable (variable_of state) value }
{
    next_state(state, value)
}

/// The states of all context variables in the order of their places, each 2 * pStateIdx + valMps.
#[derive(Drop)]
pub struct Variables {
    states: [u8; 140],
}

impl Variables {
    ghost use Rattle.hv_cabac.specs.VariableStates.{variables_of};

    /// The variables at the start of a slice (9.3.2.2).
    pub fn first(kind: SliceKind, qp: u8) -> Variables
        ensures { variables_of result ≡ first_variables kind qp }
    {
        let values = init_values(kind);
        let mut states = [0; 140];
        for i in 0..CONTEXTS {
            states[i] = first_state(qp, values[i]);
        }
        Variables { states }
    }

    /// The state at a place; 0 where no variable has it.
    #[inline(always)]
    pub fn state(&self, place: usize) -> u8
        ensures { variable_of result ≡ slice_index_or (variables_of self.now) place no_variable }
    {
        if place < CONTEXTS {
            self.states[place]
        } else {
            0
        }
    }

    /// Puts a state at a place; nothing where no variable has it.
    #[inline(always)]
    pub fn set(&mut self, place: usize, state: u8)
        ensures { variables_of self.new ≡
            slice_set (variables_of self.old) place (variable_of state) }
    {
        if place < CONTEXTS {
            self.states[place] = state;
        }
    }
}
