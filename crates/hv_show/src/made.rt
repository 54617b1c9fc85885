//! Streams of pictures by chance, for decoders of others.

use crate::filters::group_of;
use crate::headers::Sides;
use crate::memory::enough;
use anyhow::bail;
use hv_bits::BitWriter;
use hv_decision::Group;
use hv_params::{write_pps, write_sps, write_vps};
use hv_plain::{Random, escape};
use hv_plain_units::{Slice, generate_picture, write_slice};
use hv_slice::write_slice_header;
use hv_tables::SliceKind;
use std::alloc::Global;

/// nal_unit_type of the slice of an IDR picture without leading pictures (7.4.2.2).
const IDR_N_LP: u8 = 20;

/// Which pictures are made: where chance starts, how many there are, their quantiser, and their
/// sides in luma samples.
#[derive(Clone, Copy)]
pub(crate) struct Wanted {
    pub(crate) seed: u32,
    pub(crate) pictures: u32,
    pub(crate) qp: u32,
    pub(crate) width: u32,
    pub(crate) height: u32,
}

/// A stream of pictures by chance, each an IDR picture of one I slice: coding units of all sizes
/// with any modes, levels and offsets.
pub(crate) fn make_stream(alloc: Global, wanted: Wanted) -> anyhow::Result<Vec<u8>> {
    let qp = u8::try_from(wanted.qp)?;
    let sides = Sides {
        width: wanted.width.div_ceil(8).saturating_mul(8),
        height: wanted.height.div_ceil(8).saturating_mul(8),
        shown_width: wanted.width,
        shown_height: wanted.height,
    };
    let group = group_of(alloc, sides, qp)?;
    let config = group.input.config();
    let mut stream = enough(write_vps(alloc, &config))?;
    stream.extend_from_slice(&enough(write_sps(alloc, &config))?)?;
    stream.extend_from_slice(&enough(write_pps(alloc, &config))?)?;
    let slice = Slice {
        kind: SliceKind::I,
        references: 0,
        width: sides.width,
        height: sides.height,
    };
    let mut random = Random::new(u64::from(wanted.seed));
    for _ in 0..wanted.pictures {
        let blocks = enough(generate_picture(alloc, &mut random, slice))?;
        let Some(data) = enough(write_slice(alloc, slice, qp, &blocks))? else {
            bail!("a block can't be coded");
        };
        append_slice(alloc, &mut stream, &group, &data)?;
    }
    Ok(stream)
}

/// Appends the unit of a slice of this data, with its start code (7.3.1, Annex B).
fn append_slice(
    alloc: Global,
    stream: &mut Vec<u8>,
    group: &Group,
    data: &[u8],
) -> anyhow::Result<()> {
    let mut writer = BitWriter::new(alloc);
    write_slice_header(&mut writer, group, 0, &[]);
    let mut payload = enough(writer.finish())?;
    payload.extend_from_slice(data)?;
    stream.extend_from_slice(&[0, 0, 0, 1, 2 * IDR_N_LP, 1])?;
    stream.extend_from_slice(&enough(escape(alloc, &payload))?)?;
    Ok(())
}
