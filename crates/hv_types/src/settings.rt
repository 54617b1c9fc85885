//! What an encoding is asked to do.

ghost use Rattle.std.specs.Prelude.{◌≡◌, ◌≤◌, ◌<◌, ◌%◌, ◌*◌, None, Some, IfOk, IfErr};
ghost use Rattle.hv_types.specs.Configuration.{fault_of, padded_width, padded_height, columns, rows, picture_bytes, picture_bytes_of, field_out_of_range, IsValid};

use std::marker::Model;
use thiserror::Error;

/// What is written out.
#[derive(Clone, Copy, Debug, PartialEq, Eq, Hash)]
pub enum Emit {
    /// The coded video, as a byte stream of NAL units (Annex B).
    Stream,
    /// The pictures that a decoder of that stream shows, raw.
    Recon,
}

/// A generated video that stands in for an input.
#[derive(Clone, Copy, Debug, PartialEq, Eq, Hash)]
pub struct SynthSpec {
    /// Where the generator starts: equal seeds give equal videos.
    pub seed: u32,
    /// The number of pictures, 0 to 400,000.
    pub pictures: u32,
}

/// The settings of an encoding, tested or not.
#[derive(Clone, Copy, Debug, PartialEq, Eq, Hash)]
pub struct Settings {
    /// The width of a picture in luma samples: even, 8 to 4096.
    pub width: u32,
    /// The height of a picture in luma samples: even, 8 to 2176.
    pub height: u32,
    /// The quantisation parameter, 0 to 51.
    pub qp: u8,
    /// How often the span between two anchor pictures, of 2^levels pictures, is halved: 0 to 3.
    pub levels: u8,
    /// The pictures of a group, 1 to 64.
    pub group: u8,
    /// How many threads work on a group, 1 to 16.
    pub workers: u8,
    /// How much is tried for each block, 0 to 2.
    pub effort: u8,
    /// The coding tree blocks of a segment, which one worker codes at a time, 1 to 64.
    pub segment: u8,
    pub emit: Emit,
    /// Where it is there, the pictures are generated and not read.
    pub synth: Option<SynthSpec>,
}

/// A setting with a range of its own.
#[derive(Clone, Copy, Debug, PartialEq, Eq, Hash)]
pub enum Field {
    Qp,
    Levels,
    Group,
    Workers,
    Effort,
    Segment,
    Pictures,
}

/// Why settings are refused.
#[derive(Clone, Copy, Debug, PartialEq, Eq, Hash, Error)]
pub enum ConfigError {
    /// The width or the height is odd.
    #[error("{text}", text = self.text())]
    OddSize,
    /// The width is not in 8 to 4096, or the height is not in 8 to 2176.
    #[error("{text}", text = self.text())]
    SizeRange,
    /// A group has more than 2^28 luma samples.
    #[error("{text}", text = self.text())]
    GroupTooLarge,
    /// This field is the first that is out of its range.
    #[error("{text}", text = self.text())]
    OutOfRange { field: Field },
}

impl ConfigError {
    ghost use Rattle.hv_types.specs.Texts.{fault_text};

    /// What is told of settings with this fault, without a line feed.
    pub fn text(self) -> &'static str
        ensures { result.now ≡ fault_text self }
    {
        match self {
            ConfigError::OddSize => "odd size",
            ConfigError::SizeRange => "size out of range",
            ConfigError::GroupTooLarge => "group too large",
            ConfigError::OutOfRange { field: _ } => "value out of range",
        }
    }
}

/// The most temporal levels above the lowest.
pub const MOST_LEVELS: u8 = 3;

/// The most pictures of a video.
pub const MOST_PICTURES: u32 = 400_000;

/// The most luma samples of a group.
const MOST_GROUP_SAMPLES: u64 = 1 << 28;

/// Settings that pass every test of `Config::checked`. Contracts see the settings.
#[derive(Clone, Copy, Debug, PartialEq, Eq, Hash)]
pub struct Config {
    settings: Settings,
}

impl Model for Config {
    ghost use Rattle.std.specs.Prelude.{◌≡◌, None};
    ghost use Rattle.hv_types.specs.declared.settings.Settings.{Settings};
    ghost use Rattle.hv_types.specs.Configuration.{fault_of};

    ghost Value = { Settings };

    ghost view = { λ c. c.settings };

    ghost invariant = { λ c. fault_of c.settings ≡ None };

    ghost inverse = { λ s. record { settings = s } };
}

impl Config {
    /// Tests settings: the sizes are even, then in their ranges, then the group is not too large,
    /// then each field is in its range, in the order of `Field`. An error is that of the first
    /// test that fails.
    pub fn checked(settings: Settings) -> Result<Self, ConfigError>
        ensures ok { IfOk result (λ config. (config ≡ settings) × (fault_of settings ≡ None)) }
        ensures err { IfErr result (λ error. fault_of settings ≡ Some error) }
    {
        match first_fault(&settings) {
            Some(error) => Err(error),
            None => Ok(Config { settings }),
        }
    }

    /// The settings, which passed every test.
    pub fn settings(&self) -> Settings
        ensures value { result ≡ self.now }
        ensures valid { fault_of self.now ≡ None }
        ensures ranges { IsValid self.now }
    {
        self.settings
    }

    /// The width of a padded picture in luma samples: the next multiple of 8.
    pub fn padded_width(&self) -> u32
        ensures value { result ≡ padded_width self.now }
        ensures whole { result % 8 ≡ 0 }
        ensures least { 8 ≤ result }
        ensures most { result ≤ 4096 }
    {
        self.settings.width.div_ceil(8) * 8
    }

    /// The height of a padded picture in luma samples: the next multiple of 8.
    pub fn padded_height(&self) -> u32
        ensures value { result ≡ padded_height self.now }
        ensures whole { result % 8 ≡ 0 }
        ensures least { 8 ≤ result }
        ensures most { result ≤ 2176 }
    {
        self.settings.height.div_ceil(8) * 8
    }

    /// The number of coding tree blocks in a row of a padded picture (`PicWidthInCtbsY`,
    /// 7.4.3.2).
    pub fn columns(&self) -> u32
        ensures value { result ≡ columns self.now }
        ensures least { 1 ≤ result }
        ensures most { result ≤ 64 }
    {
        self.settings.width.div_ceil(64)
    }

    /// The number of rows of coding tree blocks in a padded picture (`PicHeightInCtbsY`, 7.4.3.2).
    pub fn rows(&self) -> u32
        ensures value { result ≡ rows self.now }
        ensures least { 1 ≤ result }
        ensures most { result ≤ 34 }
    {
        self.settings.height.div_ceil(64)
    }

    /// The number of bytes of one raw picture, without padding: 4:2:0, a byte a sample.
    pub fn picture_bytes(&self) -> u64
        ensures value { result ≡ picture_bytes self.now }
        ensures least { 96 ≤ result }
        ensures most { result ≤ 13369344 }
    {
        bytes_of_sides(self.settings.width, self.settings.height)
    }
}

/// The number of bytes of one raw picture of these sides: 4:2:0, a byte a sample.
fn bytes_of_sides(width: u32, height: u32) -> u64
    requires wide { width ≤ 4096 }
    requires high { height ≤ 2176 }
    ensures { result ≡ picture_bytes_of width height }
{
    let width = u64::from(width);
    let height = u64::from(height);
    width * height + 2 * (width / 2 * (height / 2))
}

/// The first test that the settings fail.
fn first_fault(settings: &Settings) -> Option<ConfigError>
    ensures { result ≡ fault_of settings.now }
{
    if settings.width % 2 != 0 || settings.height % 2 != 0 {
        return Some(ConfigError::OddSize);
    }
    if !(8..=4096).contains(&settings.width) || !(8..=2176).contains(&settings.height) {
        return Some(ConfigError::SizeRange);
    }
    let picture = u64::from(settings.width) * u64::from(settings.height);
    if picture * u64::from(settings.group) > MOST_GROUP_SAMPLES {
        return Some(ConfigError::GroupTooLarge);
    }
    match first_field(settings) {
        Some(field) => Some(ConfigError::OutOfRange { field }),
        None => None,
    }
}

/// The first field that is out of its range.
fn first_field(settings: &Settings) -> Option<Field>
    ensures { result ≡ field_out_of_range settings.now }
{
    let pictures = match settings.synth {
        Some(synth) => synth.pictures,
        None => 0,
    };
    if settings.qp > 51 {
        Some(Field::Qp)
    } else if settings.levels > MOST_LEVELS {
        Some(Field::Levels)
    } else if settings.group < 1 || settings.group > 64 {
        Some(Field::Group)
    } else if settings.workers < 1 || settings.workers > 16 {
        Some(Field::Workers)
    } else if settings.effort > 2 {
        Some(Field::Effort)
    } else if settings.segment < 1 || settings.segment > 64 {
        Some(Field::Segment)
    } else if pictures > MOST_PICTURES {
        Some(Field::Pictures)
    } else {
        None
    }
}

#[cfg(test)]
mod tests {
    use super::*;
    use std::test::Fail;

    /// Settings of this size whose other fields are in their ranges.
    fn of_size(width: u32, height: u32, group: u8) -> Settings {
        Settings {
            width,
            height,
            qp: 32,
            levels: 3,
            group,
            workers: 1,
            effort: 2,
            segment: 4,
            emit: Emit::Stream,
            synth: None,
        }
    }

    #[test]
    fn the_first_fault_is_answered(rt: HostRuntime) {
        let coarse = Settings {
            qp: 52,
            ..of_size(64, 64, 1)
        };
        let many = Some(SynthSpec {
            seed: 1,
            pictures: 400_001,
        });
        let long = Settings {
            synth: many,
            ..of_size(64, 64, 1)
        };
        let rows = [
            (of_size(65, 64, 1), Some(ConfigError::OddSize)),
            (of_size(7, 64, 1), Some(ConfigError::OddSize)),
            (of_size(4098, 64, 1), Some(ConfigError::SizeRange)),
            (of_size(4096, 2176, 30), None),
            (of_size(4096, 2176, 31), Some(ConfigError::GroupTooLarge)),
            (coarse, Some(ConfigError::OutOfRange { field: Field::Qp })),
            (
                long,
                Some(ConfigError::OutOfRange {
                    field: Field::Pictures,
                }),
            ),
        ];
        for (settings, fault) in rows {
            assert_eq!(rt; Config::checked(settings).err(), fault, "at {settings:?}");
        }
    }

    #[test]
    fn a_small_picture_is_padded(rt: HostRuntime) {
        let config = Config::checked(of_size(66, 50, 1)).expect(&rt, "a good size");
        assert_eq!(rt; config.settings(), of_size(66, 50, 1));
        assert_eq!(rt; (config.padded_width(), config.padded_height()), (72, 56));
        assert_eq!(rt; (config.columns(), config.rows()), (2, 1));
        assert_eq!(rt; config.picture_bytes(), 4950);
    }
}
