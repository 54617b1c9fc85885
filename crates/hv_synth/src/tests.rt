//! Samples worked out by hand, and reads in pieces against one read.

use crate::Synth;
use hv_types::{Config, ConfigError, Emit, Settings, Source, SynthSpec};

/// Generated video of pictures of 16 columns and 8 rows, 192 bytes each.
fn small(synth: Option<SynthSpec>) -> Result<Synth, ConfigError> {
    let settings = Settings {
        width: 16,
        height: 8,
        qp: 32,
        levels: 3,
        group: 16,
        workers: 1,
        effort: 2,
        segment: 4,
        emit: Emit::Stream,
        synth,
    };
    Ok(Synth::new(Config::checked(settings)?))
}

#[test]
fn samples_are_those_worked_out(rt: HostRuntime) -> Result<(), ConfigError> {
    let rows = [
        ("luma in column 10 of row 6 of picture 1", 7, 298, 82),
        ("luma in column 13 of row 5 of picture 1", 11, 285, 89),
        ("luma in column 8 of row 0 of picture 0", 6, 8, 39),
        ("Cb in column 2 of row 3 of picture 1", 4, 346, 10),
        ("Cr in column 3 of row 3 of picture 1", 4, 379, 12),
        ("the last sample", 4294967295, 383, 20),
    ];
    for (name, seed, place, value) in rows {
        let mut source = small(Some(SynthSpec { seed, pictures: 2 }))?;
        let mut bytes = [0; 385];
        assert_eq!(rt; source.read(&mut bytes), Ok(384));
        assert_eq!(rt; bytes.get(place), Some(&value), "{name}");
    }
    Ok(())
}

#[test]
fn pieces_are_the_whole(rt: HostRuntime) -> Result<(), ConfigError> {
    let spec = Some(SynthSpec {
        seed: 7,
        pictures: 3,
    });
    let mut whole = [0; 576];
    assert_eq!(rt; small(spec)?.read(&mut whole), Ok(576));
    for length in [1, 7, 191] {
        let mut source = small(spec)?;
        let mut pieces = [0; 576];
        for piece in pieces.chunks_mut(length) {
            assert_eq!(rt; source.read(piece), Ok(piece.len()));
        }
        assert_eq!(rt; pieces, whole, "pieces of {length}");
        assert_eq!(rt; source.read(&mut [0]), Ok(0));
    }
    Ok(())
}

#[test]
fn no_generator_gives_nothing(rt: HostRuntime) -> Result<(), ConfigError> {
    assert_eq!(rt; small(None)?.read(&mut [0]), Ok(0));
    Ok(())
}
