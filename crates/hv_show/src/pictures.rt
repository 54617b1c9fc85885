//! The pictures of a stream.

ghost use Rattle.std.specs.Prelude.{◌≤◌};

use crate::filters::{filter_blocks, group_of};
use crate::headers::{Sides, read_header, read_pps, read_sps};
use crate::memory::enough;
use crate::offsets::valid_offsets;
use crate::rebuilding::rebuild_blocks;
use crate::shown::append_picture;
use crate::tally::Leaves;
use crate::units::find_units;
use anyhow::bail;
use hv_bits::strip_nal;
use hv_plain::BinReader;
use hv_plain_units::{CodedBlock, Slice, Source, UnitTally, is_end, read_slice};
use hv_tables::SliceKind;
use md5::{Digest, Md5};
use std::alloc::Global;

/// The most bytes of a slice's data.
const MOST_BYTES: usize = 1 << 24;

/// nal_unit_type (7.4.2.2): slices below that of the first parameter set, those of IDR pictures,
/// and parameter sets.
const IDR_W_RADL: u8 = 19;

const IDR_N_LP: u8 = 20;

const VPS_NUT: u8 = 32;

const SPS_NUT: u8 = 33;

const PPS_NUT: u8 = 34;

/// What a stream shows.
#[derive(Drop)]
pub(crate) struct Show {
    /// The pictures of the I slices, cropped, one behind the other.
    pub(crate) raw: Vec<u8>,
    /// How many pictures there are.
    pub(crate) pictures: u32,
    /// How many slices aren't those of IDR pictures, and were passed over.
    pub(crate) passed_over: u32,
    /// The coding units that came.
    pub(crate) leaves: Leaves,
    sides: Option<Sides>,
}

impl Show {
    /// The MD5 of the pictures in hexadecimal digits.
    pub(crate) fn digest(&self, alloc: Global) -> anyhow::Result<String> {
        let mut hasher = Md5::new();
        hasher.update(self.raw.as_slice());
        let mut text = String::new(alloc);
        for byte in hasher.finalize() {
            text.push_str(&format!(in alloc; "{byte:02x}")?)?;
        }
        Ok(text)
    }

    /// Takes a NAL unit with its header.
    fn take_unit(&mut self, alloc: Global, unit: &[u8]) -> anyhow::Result<()> {
        if unit.len() < 2 {
            bail!("a unit without a header");
        }
        let kind = unit[0] / 2 % 64;
        if kind == SPS_NUT {
            self.sides = Some(read_sps(&enough(strip_nal(alloc, unit))?)?);
        } else if kind == PPS_NUT {
            read_pps(&enough(strip_nal(alloc, unit))?)?;
        } else if kind == IDR_W_RADL || kind == IDR_N_LP {
            let payload = enough(strip_nal(alloc, unit))?;
            self.take_slice(alloc, &payload)?;
        } else if kind < VPS_NUT {
            self.passed_over = self.passed_over.saturating_add(1);
        }
        Ok(())
    }

    /// Takes the slice of an IDR picture.
    fn take_slice(&mut self, alloc: Global, payload: &[u8]) -> anyhow::Result<()> {
        let Some(sides) = self.sides else {
            bail!("no sequence parameter set");
        };
        let header = read_header(payload)?;
        let slice = Slice {
            kind: SliceKind::I,
            references: 0,
            width: sides.width,
            height: sides.height,
        };
        let group = group_of(alloc, sides, header.qp)?;
        let data = &payload[header.data.min(payload.len())..];
        let coded = read_data(alloc, data, slice, header.qp)?;
        if header.qp > 51 {
            bail!("the quantiser is out of its range");
        }
        let blocks = rebuild_blocks(alloc, slice, header.qp, &coded, &mut self.leaves)?;
        let Some(offsets) = valid_offsets(alloc, &coded)? else {
            bail!("offsets that may not be coded");
        };
        let picture = filter_blocks(alloc, &group, &blocks, &offsets)?;
        append_picture(
            &mut self.raw,
            &picture,
            sides.shown_width,
            sides.shown_height,
        )?;
        self.pictures = self.pictures.saturating_add(1);
        Ok(())
    }
}

/// What is coded of the blocks of an I slice, which is read to its end.
fn read_data(alloc: Global, data: &[u8], slice: Slice, qp: u8) -> anyhow::Result<Vec<CodedBlock>> {
    if data.len() > MOST_BYTES {
        bail!("the slice is too long");
    }
    let Some(reader) = BinReader::new(alloc, data, slice.kind, qp)? else {
        bail!("the slice doesn't begin");
    };
    let mut source = Source::new(reader, UnitTally::new());
    let Some(coded) = enough(read_slice(alloc, &mut source, slice))? else {
        bail!("a slice isn't read");
    };
    if !is_end(data, source.bits_left()) {
        bail!("a slice doesn't end behind its last block");
    }
    Ok(coded)
}

/// The pictures of the I slices of a stream. Slices of pictures that aren't IDR pictures are passed
/// over. An error where the stream leaves this profile, and where there is not enough memory.
pub(crate) fn show_stream(alloc: Global, stream: &[u8]) -> anyhow::Result<Show> {
    let mut show = Show {
        raw: Vec::new(alloc),
        pictures: 0,
        passed_over: 0,
        leaves: Leaves::new(),
        sides: None,
    };
    let spans = find_units(alloc, stream)?;
    for i in 0..spans.len() {
        let span = spans[i];
        if span.from <= span.to && span.to <= stream.len() {
            show.take_unit(alloc, &stream[span.from..span.to])?;
        }
    }
    Ok(show)
}
