//! The fields of the parameter sets in their order (7.3.2): constants where this profile leaves
//! nothing free.

ghost use Rattle.std.specs.Prelude.{◌≡◌, ◌≤◌, true, map};
ghost use Rattle.std.specs.List.{list_all};
ghost use Rattle.hv_types.specs.Configuration.{most_levels};
ghost use Rattle.hv_bits.specs.FieldTables.{field_of, is_codable};
ghost use Rattle.hv_stream_model.specs.Headers.{ordering as ordering_of};

use hv_bits::Field::{self, Se, U, Ue};

/// video_parameter_set_rbsp (7.3.2.1), before profile_tier_level.
#[rattlefmt::skip]
pub const VPS_START: [Field; 7] = [
    U(4, 0),      // vps_video_parameter_set_id
    U(1, 1),      // vps_base_layer_internal_flag
    U(1, 1),      // vps_base_layer_available_flag
    U(6, 0),      // vps_max_layers_minus1
    U(3, 0),      // vps_max_sub_layers_minus1
    U(1, 1),      // vps_temporal_id_nesting_flag
    U(16, 65535), // vps_reserved_0xffff_16bits
];

/// video_parameter_set_rbsp, behind what a decoder has to hold.
#[rattlefmt::skip]
pub const VPS_END: [Field; 4] = [
    U(6, 0), // vps_max_layer_id
    Ue(0),   // vps_num_layer_sets_minus1
    U(1, 0), // vps_timing_info_present_flag
    U(1, 0), // vps_extension_flag
];

/// profile_tier_level (7.3.3): Main profile, level 5.1.
#[rattlefmt::skip]
pub const PROFILE_TIER_LEVEL: [Field; 11] = [
    U(2, 0),            // general_profile_space
    U(1, 0),            // general_tier_flag
    U(5, 1),            // general_profile_idc
    U(32, 0x6000_0000), // general_profile_compatibility_flag, those of 1 and 2 set
    U(1, 1),            // general_progressive_source_flag
    U(1, 0),            // general_interlaced_source_flag
    U(1, 0),            // general_non_packed_constraint_flag
    U(1, 1),            // general_frame_only_constraint_flag
    U(32, 0),           // 44 bits 0
    U(12, 0),
    U(8, 153),          // general_level_idc
];

/// What a decoder has to hold of each sub-layer, by the number of temporal levels.
#[rattlefmt::skip]
pub fn ordering(levels: u8) -> [Field; 4]
    requires { levels ≤ most_levels }
    ensures value { map field_of result ≡ ordering_of levels }
    ensures codable { list_all is_codable result ≡ true }
{
    let levels = u32::from(levels);
    [
        U(1, 1),        // sub_layer_ordering_info_present_flag
        Ue(levels + 1), // max_dec_pic_buffering_minus1
        Ue(levels),     // max_num_reorder_pics
        Ue(0),          // max_latency_increase_plus1
    ]
}

/// seq_parameter_set_rbsp (7.3.2.2), before profile_tier_level.
#[rattlefmt::skip]
pub const SPS_START: [Field; 3] = [
    U(4, 0), // sps_video_parameter_set_id
    U(3, 0), // sps_max_sub_layers_minus1
    U(1, 1), // sps_temporal_id_nesting_flag
];

/// seq_parameter_set_rbsp, between profile_tier_level and the size.
#[rattlefmt::skip]
pub const SPS_FORMAT: [Field; 2] = [
    Ue(0), // sps_seq_parameter_set_id
    Ue(1), // chroma_format_idc
];

/// seq_parameter_set_rbsp, behind the size.
#[rattlefmt::skip]
pub const SPS_DEPTHS: [Field; 3] = [
    Ue(0), // bit_depth_luma_minus8
    Ue(0), // bit_depth_chroma_minus8
    Ue(4), // log2_max_pic_order_cnt_lsb_minus4
];

/// seq_parameter_set_rbsp, behind what a decoder has to hold.
#[rattlefmt::skip]
pub const SPS_END: [Field; 16] = [
    Ue(0),   // log2_min_luma_coding_block_size_minus3
    Ue(3),   // log2_diff_max_min_luma_coding_block_size
    Ue(0),   // log2_min_luma_transform_block_size_minus2
    Ue(3),   // log2_diff_max_min_luma_transform_block_size
    Ue(0),   // max_transform_hierarchy_depth_inter
    Ue(0),   // max_transform_hierarchy_depth_intra
    U(1, 0), // scaling_list_enabled_flag
    U(1, 0), // amp_enabled_flag
    U(1, 1), // sample_adaptive_offset_enabled_flag
    U(1, 0), // pcm_enabled_flag
    Ue(0),   // num_short_term_ref_pic_sets
    U(1, 0), // long_term_ref_pics_present_flag
    U(1, 0), // sps_temporal_mvp_enabled_flag
    U(1, 0), // strong_intra_smoothing_enabled_flag
    U(1, 0), // vui_parameters_present_flag
    U(1, 0), // sps_extension_present_flag
];

/// pic_parameter_set_rbsp (7.3.2.3).
#[rattlefmt::skip]
pub const PPS: [Field; 28] = [
    Ue(0),   // pps_pic_parameter_set_id
    Ue(0),   // pps_seq_parameter_set_id
    U(1, 0), // dependent_slice_segments_enabled_flag
    U(1, 0), // output_flag_present_flag
    U(3, 0), // num_extra_slice_header_bits
    U(1, 0), // sign_data_hiding_enabled_flag
    U(1, 0), // cabac_init_present_flag
    Ue(0),   // num_ref_idx_l0_default_active_minus1
    Ue(0),   // num_ref_idx_l1_default_active_minus1
    Se(0),   // init_qp_minus26
    U(1, 0), // constrained_intra_pred_flag
    U(1, 0), // transform_skip_enabled_flag
    U(1, 0), // cu_qp_delta_enabled_flag
    Se(0),   // pps_cb_qp_offset
    Se(0),   // pps_cr_qp_offset
    U(1, 0), // pps_slice_chroma_qp_offsets_present_flag
    U(1, 0), // weighted_pred_flag
    U(1, 0), // weighted_bipred_flag
    U(1, 0), // transquant_bypass_enabled_flag
    U(1, 0), // tiles_enabled_flag
    U(1, 0), // entropy_coding_sync_enabled_flag
    U(1, 0), // pps_loop_filter_across_slices_enabled_flag
    U(1, 0), // deblocking_filter_control_present_flag
    U(1, 0), // pps_scaling_list_data_present_flag
    U(1, 0), // lists_modification_present_flag
    Ue(0),   // log2_parallel_merge_level_minus2
    U(1, 0), // slice_segment_header_extension_present_flag
    U(1, 0), // pps_extension_present_flag
];
