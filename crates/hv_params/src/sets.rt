//! The parameter sets, field by field, and their units.

ghost use Rattle.std.specs.Prelude.{◌≡◌, ◌≤◌, ◌<◌, false, IfOk};
ghost use Rattle.hv_types.specs.Configuration.{most_levels};
ghost use Rattle.hv_bits.specs.Writing.{Appends};
ghost use Rattle.hv_stream_model.specs.Bits.{bytes_of};
ghost use Rattle.hv_stream_model.specs.Fields.{bits_of_fields, aligned};
ghost use Rattle.hv_stream_model.specs.Headers.{Size, size_of, window, size_fields, vps, sps, pps, parameter_set};
ghost use Rattle.hv_stream_model.specs.Units.{VPS_NUT as vps_nut, SPS_NUT as sps_nut, PPS_NUT as pps_nut, unit_of_payload};

use crate::tables::{
    PPS, PROFILE_TIER_LEVEL, SPS_DEPTHS, SPS_END, SPS_FORMAT, SPS_START, VPS_END, VPS_START,
    ordering,
};
use hv_bits::Field::{U, Ue};
use hv_bits::{BitWriter, put_fields, tables_join, write_nal};
use hv_stream_model::aligned_bytes_end;
use hv_types::{Config, NoMemory};
use std::alloc::Global;

/// nal_unit_type (7.4.2.2).
const VPS_NUT: u8 = 32;

const SPS_NUT: u8 = 33;

const PPS_NUT: u8 = 34;

/// The video parameter set of these settings, as a unit with its start code (7.3.2.1, Annex B): it
/// says by the number of temporal levels how many pictures a decoder holds. `NoMemory` where a
/// growth failed.
pub fn write_vps(alloc: Global, config: &Config) -> Result<Vec<u8>, NoMemory>
    ensures { IfOk result (λ unit. unit.items ≡ parameter_set vps_nut (vps config.now.levels)) }
{
    let mut writer = BitWriter::new(alloc);
    put_vps(&mut writer, config.settings().levels);
    unit(alloc, VPS_NUT, writer)
}

/// The sequence parameter set of these settings, as a unit with its start code (7.3.2.2, Annex B):
/// the padded size in luma samples, what of it isn't shown in chroma samples, and how many pictures
/// a decoder holds. `NoMemory` where a growth failed.
pub fn write_sps(alloc: Global, config: &Config) -> Result<Vec<u8>, NoMemory>
    ensures { IfOk result (λ unit.
        unit.items ≡ parameter_set sps_nut (sps config.now.levels (size_of config.now))) }
{
    let mut writer = BitWriter::new(alloc);
    put_sps(&mut writer, config);
    unit(alloc, SPS_NUT, writer)
}

/// The picture parameter set, as a unit with its start code (7.3.2.3, Annex B): it is the same for
/// all settings. `NoMemory` where a growth failed.
pub fn write_pps(alloc: Global, _config: &Config) -> Result<Vec<u8>, NoMemory>
    ensures { IfOk result (λ unit. unit.items ≡ parameter_set pps_nut pps) }
{
    let mut writer = BitWriter::new(alloc);
    put_fields(&mut writer, &PPS);
    unit(alloc, PPS_NUT, writer)
}

/// The unit of the bits that were put, with their trailing bits (7.3.2.11).
fn unit(alloc: Global, nal_unit_type: u8, mut writer: BitWriter) -> Result<Vec<u8>, NoMemory>
    requires { nal_unit_type < 64 }
    ensures unfailed { IfOk result (λ unit. writer.failed ≡ false) }
    ensures value { IfOk result (λ unit.
        unit.items ≡ unit_of_payload nal_unit_type (bytes_of (aligned writer.bits))) }
{
    aligned_bytes_end();
    writer.trail();
    let payload = writer.finish()?;
    write_nal(alloc, nal_unit_type, 0, &payload)
}

/// video_parameter_set_rbsp (7.3.2.1).
fn put_vps(writer: &mut BitWriter, levels: u8)
    requires { levels ≤ most_levels }
    ensures { Appends writer.old writer.new (bits_of_fields (vps levels)) }
{
    tables_join();
    put_fields(writer, &VPS_START);
    put_fields(writer, &PROFILE_TIER_LEVEL);
    put_fields(writer, &ordering(levels));
    put_fields(writer, &VPS_END);
}

/// seq_parameter_set_rbsp (7.3.2.2).
fn put_sps(writer: &mut BitWriter, config: &Config)
    ensures { Appends writer.old writer.new
        (bits_of_fields (sps config.now.levels (size_of config.now))) }
{
    tables_join();
    put_fields(writer, &SPS_START);
    put_fields(writer, &PROFILE_TIER_LEVEL);
    put_fields(writer, &SPS_FORMAT);
    put_size(writer, config);
    put_fields(writer, &SPS_DEPTHS);
    put_fields(writer, &ordering(config.settings().levels));
    put_fields(writer, &SPS_END);
}

/// The padded size, and the window of it that is shown.
fn put_size(writer: &mut BitWriter, config: &Config)
    ensures { Appends writer.old writer.new (bits_of_fields (size_fields (size_of config.now))) }
{
    tables_join();
    let settings = config.settings();
    let width = config.padded_width();
    let height = config.padded_height();
    #[rattlefmt::skip]
    let sides = [
        Ue(width),  // pic_width_in_luma_samples
        Ue(height), // pic_height_in_luma_samples
    ];
    put_fields(writer, &sides);
    put_window(
        writer,
        (width - settings.width) / 2,
        (height - settings.height) / 2,
    );
}

/// The conformance window, by what is cut off at the right and at the bottom, in chroma samples.
fn put_window(writer: &mut BitWriter, right: u32, bottom: u32)
    requires right { right ≤ 3 }
    requires bottom { bottom ≤ 3 }
    ensures { (size : Size) →
        size.conf_win_right_offset ≡ right → size.conf_win_bottom_offset ≡ bottom →
        Appends writer.old writer.new (bits_of_fields (window size)) }
{
    if right + bottom == 0 {
        #[rattlefmt::skip]
        let whole = [
            U(1, 0), // conformance_window_flag
        ];
        put_fields(writer, &whole);
    } else {
        #[rattlefmt::skip]
        let cropped = [
            U(1, 1),    // conformance_window_flag
            Ue(0),      // conf_win_left_offset
            Ue(right),  // conf_win_right_offset
            Ue(0),      // conf_win_top_offset
            Ue(bottom), // conf_win_bottom_offset
        ];
        put_fields(writer, &cropped);
    }
}
