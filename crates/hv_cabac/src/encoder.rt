//! The arithmetic encoder.

ghost use Rattle.std.specs.Prelude.{◌≡◌, ℕ, List, [], IfOk};
ghost use Rattle.hv_tables.specs.declared.bins.SliceKind.{SliceKind as Kind};
ghost use Rattle.hv_tables.specs.Bins.{Bin};
ghost use Rattle.hv_stream_model.specs.Bits.{bytes_of};
ghost use Rattle.hv_entropy_model.specs.CodeWord.{IsEnded, word};

use crate::register::Register;
use crate::variables::{Variables, lps_width, state_after};
use hv_tables::{BinSink, Ctx, SliceKind, context_place};
use hv_types::NoMemory;
use std::alloc::Global;

/// The arithmetic encoder (9.3): it takes the bins of a slice and gives their code word, from which
/// the arithmetic decoder reads them. A bin has no answer: `finish` says where memory was wanted.
#[derive(Drop)]
pub struct Encoder {
    register: Register,
    variables: Variables,
}

impl Encoder {
    ghost use Rattle.hv_cabac.specs.Encoding.{Encodes};

    /// An encoder at the start of a slice of this kind and quantiser (0 to 51 in H.265), which has
    /// taken no bins. It takes no memory.
    pub fn new(alloc: Global, kind: SliceKind, qp: u8) -> Encoder
        ensures { Encodes result kind qp [] }
    {
        Encoder {
            register: Register::new(alloc),
            variables: Variables::first(kind, qp),
        }
    }

    /// The bytes of the code word, with zeros to the byte, where the last of the bins taken and no
    /// other is a `terminate` that is true.
    ///
    /// `NoMemory` where there was not enough memory, now or for a bin before.
    pub fn finish(self) -> Result<Vec<u8>, NoMemory>
        ensures { (kind : Kind) (qp : ℕ) (bins : List Bin) → Encodes self kind qp bins →
            IsEnded bins → IfOk result (λ bytes. bytes.items ≡ bytes_of (word kind qp bins)) }
    {
        let Encoder {
            register,
            variables: _,
        } = self;
        register.flush()
    }
}

impl BinSink for Encoder {
    ghost use Rattle.hv_cabac.specs.Encoding.{Encodes};

    ghost stands_for = { Encodes };

    #[inline(always)]
    fn bin(&mut self, context: Ctx, value: bool) {
        let place = context_place(context);
        let state = self.variables.state(place);
        let lps = lps_width(state, self.register.range());
        self.register
            .encode_decision(lps, value == (state % 2 == 1));
        self.variables.set(place, state_after(state, value));
    }

    #[inline(always)]
    fn bypass(&mut self, value: bool) {
        self.register.encode_bypass(value);
    }

    #[inline(always)]
    fn terminate(&mut self, value: bool) {
        self.register.encode_terminate(value);
    }
}
