//! The reading of a group of pictures.

ghost use Rattle.std.specs.Prelude.{◌≡◌, ◌≤◌, ℕ, List, length};
ghost use Rattle.hv_types.specs.Configuration.{IsValid, most_pictures, picture_bytes};
ghost use Rattle.hv_serial.specs.Transfers.{drawn};
ghost use Rattle.hv_serial.specs.Steps.{EndsGroup, EndsPicture};

use crate::answers::EncodeError;
use crate::transfer::fill;
use hv_types::{Config, Failed, GroupInput, MOST_PICTURES, Source};
use std::alloc::Global;

/// Reads the group behind so many pictures: as many as a group has, or fewer, also none, where the
/// input ends. No read asks for more than the picture still lacks, and after the last picture that
/// a video may have for one byte.
pub(crate) fn read_group<S: Source>(
    alloc: Global,
    config: &Config,
    before: u32,
    raw: &mut [u8],
    source: &mut S,
) -> Result<GroupInput, EncodeError>
    requires valid { IsValid config.now }
    requires before { before ≤ most_pictures }
    requires room { length raw.old ≡ picture_bytes config.now }
    ensures { EndsGroup config.now before (drawn S.left S.faults source.old source.new) result }
{
    let Ok(mut input) = GroupInput::new(alloc, *config) else {
        return Err(EncodeError::NoMemory);
    };
    for count in 0..config.settings().group {
        match read_picture(config, before + u32::from(count), raw, source) {
            Ok(true) => (),
            Ok(false) => return Ok(input),
            Err(error) => return Err(error),
        }
        let Ok(()) = input.push(raw) else {
            return Err(EncodeError::NoMemory);
        };
    }
    Ok(input)
}

/// Reads the picture of this number, from 0, into `raw`, and says whether there is one: there is
/// none where the input has ended. Behind the last picture that a video may have, a byte more is
/// `TooLong`.
fn read_picture<S: Source>(
    config: &Config,
    number: u32,
    raw: &mut [u8],
    source: &mut S,
) -> Result<bool, EncodeError>
    requires valid { IsValid config.now }
    requires number { number ≤ most_pictures }
    requires room { length raw.old ≡ picture_bytes config.now }
    ensures { EndsPicture config.now number raw.new (drawn S.left S.faults source.old source.new)
        result }
{
    if number == MOST_PICTURES {
        return read_end(config, source);
    }
    match fill(source, raw) {
        Err(Failed) => Err(EncodeError::ReadFault),
        Ok(0) => Ok(false),
        Ok(have) if have < raw.len() => Err(EncodeError::ShortPicture { have: have as u64 }),
        Ok(_) => Ok(true),
    }
}

/// Asks for one byte behind the last picture that a video may have.
fn read_end<S: Source>(config: &Config, source: &mut S) -> Result<bool, EncodeError>
    requires valid { IsValid config.now }
    ensures { (raw : List ℕ) → EndsPicture config.now most_pictures raw
        (drawn S.left S.faults source.old source.new) result }
{
    let mut byte = [0u8; 1];
    match fill(source, &mut byte) {
        Err(Failed) => Err(EncodeError::ReadFault),
        Ok(0) => Ok(false),
        Ok(_) => Err(EncodeError::TooLong),
    }
}
