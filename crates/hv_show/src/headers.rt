//! Parameter sets and slice headers of this profile (7.3.2, 7.3.6.1), read plainly: a field with
//! another value than the profile's is refused.

use anyhow::bail;
use hv_bits::BitReader;
use hv_bits::Field::{self, Se, U, Ue};

/// The sides of the pictures in luma samples, as they are coded and as they are shown.
#[derive(Clone, Copy, Debug, PartialEq, Eq)]
pub(crate) struct Sides {
    pub(crate) width: u32,
    pub(crate) height: u32,
    pub(crate) shown_width: u32,
    pub(crate) shown_height: u32,
}

/// What is read of a slice's header: its quantiser (`SliceQpY`), and at which byte of the payload
/// its data begins.
#[derive(Clone, Copy)]
pub(crate) struct Header {
    pub(crate) qp: u8,
    pub(crate) data: usize,
}

/// seq_parameter_set_rbsp behind the size and what a decoder holds.
#[rattlefmt::skip]
const SPS_END: [Field; 4] = [
    Ue(0), // log2_min_luma_coding_block_size_minus3
    Ue(3), // log2_diff_max_min_luma_coding_block_size
    Ue(0), // log2_min_luma_transform_block_size_minus2
    Ue(3), // log2_diff_max_min_luma_transform_block_size
];

/// seq_parameter_set_rbsp behind max_transform_hierarchy_depth_inter.
#[rattlefmt::skip]
const SPS_TOOLS: [Field; 9] = [
    Ue(0),   // max_transform_hierarchy_depth_intra
    U(1, 0), // scaling_list_enabled_flag
    U(1, 0), // amp_enabled_flag
    U(1, 1), // sample_adaptive_offset_enabled_flag
    U(1, 0), // pcm_enabled_flag
    Ue(0),   // num_short_term_ref_pic_sets
    U(1, 0), // long_term_ref_pics_present_flag
    U(1, 0), // sps_temporal_mvp_enabled_flag
    U(1, 0), // strong_intra_smoothing_enabled_flag
];

/// pic_parameter_set_rbsp before the numbers of references.
#[rattlefmt::skip]
const PPS_START: [Field; 7] = [
    Ue(0),   // pps_pic_parameter_set_id
    Ue(0),   // pps_seq_parameter_set_id
    U(1, 0), // dependent_slice_segments_enabled_flag
    U(1, 0), // output_flag_present_flag
    U(3, 0), // num_extra_slice_header_bits
    U(1, 0), // sign_data_hiding_enabled_flag
    U(1, 0), // cabac_init_present_flag
];

/// pic_parameter_set_rbsp behind the numbers of references.
#[rattlefmt::skip]
const PPS_TOOLS: [Field; 16] = [
    Se(0),   // init_qp_minus26
    U(1, 0), // constrained_intra_pred_flag
    U(1, 0), // transform_skip_enabled_flag
    U(1, 0), // cu_qp_delta_enabled_flag
    Se(0),   // pps_cb_qp_offset
    Se(0),   // pps_cr_qp_offset
    U(1, 0), // pps_slice_chroma_qp_offsets_present_flag
    U(1, 0), // weighted_pred_flag
    U(1, 0), // weighted_bipred_flag
    U(1, 0), // transquant_bypass_enabled_flag
    U(1, 0), // tiles_enabled_flag
    U(1, 0), // entropy_coding_sync_enabled_flag
    U(1, 0), // pps_loop_filter_across_slices_enabled_flag
    U(1, 0), // deblocking_filter_control_present_flag
    U(1, 0), // pps_scaling_list_data_present_flag
    U(1, 0), // lists_modification_present_flag
];

/// Bits of a payload, and how many of them were read.
#[derive(Drop)]
struct Fields<'a> {
    reader: BitReader<'a>,
    at: usize,
}

impl<'a> Fields<'a> {
    fn of(payload: &'a [u8]) -> Fields<'a> {
        Fields {
            reader: BitReader::new(payload),
            at: 0,
        }
    }

    /// u(count), of at most 32 bits.
    fn u(&mut self, count: u8) -> anyhow::Result<u32> {
        let count = count.min(32);
        let Ok(value) = self.reader.bits(count) else {
            bail!("a header ends too early");
        };
        self.at = self.at.saturating_add(usize::from(count));
        Ok(value)
    }

    /// ue(v)
    fn ue(&mut self) -> anyhow::Result<u32> {
        let Ok(value) = self.reader.ue() else {
            bail!("a header ends too early");
        };
        let value = u32::try_from(value)?;
        let ones = value.saturating_add(1).ilog2() as usize;
        self.at = self.at.saturating_add(2 * ones + 1);
        Ok(value)
    }

    /// se(v)
    fn se(&mut self) -> anyhow::Result<i64> {
        let number = i64::from(self.ue()?);
        if number % 2 == 1 {
            Ok(number / 2 + 1)
        } else {
            Ok(-(number / 2))
        }
    }

    /// Reads these fields, which must have these values.
    fn expect(&mut self, fields: &[Field]) -> anyhow::Result<()> {
        for i in 0..fields.len() {
            let is_same = match fields[i] {
                U(count, value) => self.u(count)? == value,
                Ue(value) => self.ue()? == value,
                Se(value) => self.se()? == i64::from(value),
            };
            if !is_same {
                bail!(
                    "a field of a header leaves the profile, behind {} bits",
                    self.at
                );
            }
        }
        Ok(())
    }
}

/// The sides of the pictures (seq_parameter_set_rbsp, 7.3.2.2).
pub(crate) fn read_sps(payload: &[u8]) -> anyhow::Result<Sides> {
    let mut fields = Fields::of(payload);
    fields.u(4)?;
    fields.expect(&[U(3, 0)])?;
    fields.u(1)?;
    // profile_tier_level
    fields.u(32)?;
    fields.u(32)?;
    fields.u(32)?;
    fields.expect(&[Ue(0), Ue(1)])?;
    let sides = read_size(&mut fields)?;
    fields.expect(&[Ue(0), Ue(0)])?;
    read_order(&mut fields)?;
    fields.expect(&SPS_END)?;
    fields.ue()?;
    fields.expect(&SPS_TOOLS)?;
    Ok(sides)
}

/// The size and the conformance window, whose numbers count chroma samples.
fn read_size(fields: &mut Fields<'_>) -> anyhow::Result<Sides> {
    let width = fields.ue()?;
    let height = fields.ue()?;
    let (mut right, mut bottom) = (0, 0);
    if fields.u(1)? == 1 {
        fields.expect(&[Ue(0)])?;
        right = fields.ue()?;
        fields.expect(&[Ue(0)])?;
        bottom = fields.ue()?;
    }
    Ok(Sides {
        width,
        height,
        shown_width: width.saturating_sub(right.saturating_mul(2)),
        shown_height: height.saturating_sub(bottom.saturating_mul(2)),
    })
}

/// The number of bits of picture order counts, and what a decoder holds.
fn read_order(fields: &mut Fields<'_>) -> anyhow::Result<()> {
    fields.ue()?;
    fields.u(1)?;
    fields.ue()?;
    fields.ue()?;
    fields.ue()?;
    Ok(())
}

/// Refuses a picture parameter set of another profile (pic_parameter_set_rbsp, 7.3.2.3).
pub(crate) fn read_pps(payload: &[u8]) -> anyhow::Result<()> {
    let mut fields = Fields::of(payload);
    fields.expect(&PPS_START)?;
    fields.ue()?;
    fields.ue()?;
    fields.expect(&PPS_TOOLS)?;
    // log2_parallel_merge_level_minus2
    fields.ue()?;
    // slice_segment_header_extension_present_flag
    fields.expect(&[U(1, 0)])
}

/// The header of the slice of an IDR picture (slice_segment_header, 7.3.6.1), which is an I slice
/// of the whole picture.
pub(crate) fn read_header(payload: &[u8]) -> anyhow::Result<Header> {
    let mut fields = Fields::of(payload);
    // first_slice_segment_in_pic_flag
    fields.expect(&[U(1, 1)])?;
    // no_output_of_prior_pics_flag
    fields.u(1)?;
    // slice_pic_parameter_set_id, slice_type, slice_sao_luma_flag, slice_sao_chroma_flag
    fields.expect(&[Ue(0), Ue(2), U(1, 1), U(1, 1)])?;
    let qp = fields.se()?.saturating_add(26);
    if qp < 0 || qp > 51 {
        bail!("the quantiser {qp} is out of its range");
    }
    // alignment_bit_equal_to_one
    fields.expect(&[U(1, 1)])?;
    Ok(Header {
        qp: u8::try_from(qp)?,
        data: fields.at.div_ceil(8),
    })
}
