//! Bins, and what takes them.

/// The kind of a slice (7.4.7.1, `slice_type`).
#[derive(Clone, Copy, Debug, PartialEq, Eq, Hash)]
pub enum SliceKind {
    I,
    P,
}

/// A table of context variables: one for each syntax element that is coded by contexts (9.3.4.2).
#[derive(Clone, Copy, Debug, PartialEq, Eq, Hash)]
pub enum CtxTable {
    /// `split_cu_flag`
    Split,
    /// `cu_skip_flag`
    Skip,
    /// `part_mode`
    PartMode,
    /// `pred_mode_flag`
    PredMode,
    /// `prev_intra_luma_pred_flag`
    PrevIntra,
    /// `intra_chroma_pred_mode`
    ChromaMode,
    /// `merge_flag`
    Merge,
    /// `ref_idx_l0`
    RefIdx,
    /// `abs_mvd_greater0_flag`
    MvdGreater0,
    /// `abs_mvd_greater1_flag`
    MvdGreater1,
    /// `mvp_l0_flag`
    MvpFlag,
    /// `rqt_root_cbf`
    RootCbf,
    /// `cbf_luma`
    CbfLuma,
    /// `cbf_cb` and `cbf_cr`
    CbfChroma,
    /// `sao_merge_left_flag` and `sao_merge_up_flag`
    SaoMerge,
    /// `sao_type_idx_luma` and `sao_type_idx_chroma`
    SaoType,
    /// `last_sig_coeff_x_prefix`
    LastX,
    /// `last_sig_coeff_y_prefix`
    LastY,
    /// `coded_sub_block_flag`
    CodedSub,
    /// `sig_coeff_flag`
    Sig,
    /// `coeff_abs_level_greater1_flag`
    Greater1,
    /// `coeff_abs_level_greater2_flag`
    Greater2,
}

/// A context variable: a place in its table, from 0 (`ctxInc` of 9.3.4.2).
#[derive(Clone, Copy, Debug, PartialEq, Eq, Hash)]
pub struct Ctx {
    pub table: CtxTable,
    pub index: u8,
}

/// What takes bins, one after another. It stands for the list of those that it was given, as bins
/// of a slice of some kind and quantiser: a sink may have these from its start, and keeps them.
pub trait BinSink {
    ghost use Rattle.std.specs.Prelude.{List, [], ◌∷◌, ℕ};
    ghost use Rattle.hv_tables.specs.declared.bins.SliceKind.{SliceKind};
    ghost use Rattle.hv_tables.specs.Bins.{Bin, Puts, context_bin, bypass_bin, terminate_bin};

    /// That it stands for these bins, in their order, of a slice of this kind and quantiser.
    ghost stands_for: { Self → SliceKind → ℕ → List Bin → Type 0 };

    /// Takes a bin that is coded with a context.
    fn bin(&mut self, context: Ctx, value: bool)
        ensures { Puts stands_for self.old self.new (context_bin context value ∷ []) };

    /// Takes a bin that is coded without a context, both values alike.
    fn bypass(&mut self, value: bool)
        ensures { Puts stands_for self.old self.new (bypass_bin value ∷ []) };

    /// Takes a bin before terminate: true where the slice ends.
    fn terminate(&mut self, value: bool)
        ensures { Puts stands_for self.old self.new (terminate_bin value ∷ []) };
}
