//! What no clause says: that parameter sets come out where there is memory, and the bytes of known
//! ones, which are those of another encoder, written by another hand, whose streams two decoders
//! accept; and the texts of errors.

use crate::answers::EncodeError;
use crate::parameters::parameter_sets;
use hv_types::{Config, Emit, Settings};
use std::process::Abort;
use std::test::Fail;

/// Settings of this size, at quantiser 0 and effort 0.
fn config_of(rt: &impl Abort, width: u32, height: u32) -> Config {
    let settings = Settings {
        width,
        height,
        qp: 0,
        levels: 0,
        group: 1,
        workers: 1,
        effort: 0,
        segment: 4,
        emit: Emit::Stream,
        synth: None,
    };
    Config::checked(settings).expect(rt, "settings without a fault")
}

/// Of a picture of 66x50, which is padded.
#[test]
#[rattlefmt::skip]
fn parameter_sets_in_their_order(rt: HostRuntime) -> Result<(), Fail> {
    let units = parameter_sets(rt.alloc(), &config_of(&rt, 66, 50))?;
    let known = [
        0x00, 0x00, 0x00, 0x01, 0x40, 0x01, 0x0C, 0x01, 0xFF, 0xFF, 0x01, 0x60, 0x00, 0x00,
        0x03, 0x00, 0x90, 0x00, 0x00, 0x03, 0x00, 0x00, 0x03, 0x00, 0x99, 0xAC, 0x09,
        0x00, 0x00, 0x00, 0x01, 0x42, 0x01, 0x01, 0x01, 0x60, 0x00, 0x00, 0x03, 0x00, 0x90,
        0x00, 0x00, 0x03, 0x00, 0x00, 0x03, 0x00, 0x99, 0xA0, 0x24, 0x83, 0x9C, 0x92, 0x65,
        0xAE, 0x49, 0x32, 0x82,
        0x00, 0x00, 0x00, 0x01, 0x44, 0x01, 0xC0, 0x71, 0x80, 0x12,
    ];
    assert_eq!(rt; units.as_slice(), known.as_slice());
    Ok(())
}

/// The texts of errors are the lines of the report, but for the size of a picture.
#[test]
#[rattlefmt::skip]
fn errors_have_texts(rt: HostRuntime) -> Result<(), Fail> {
    for (error, text) in [
        (EncodeError::ReadFault, "read fault"),
        (EncodeError::ShortPicture { have: 7 }, "short picture: 7 bytes"),
        (EncodeError::WriteFault, "write fault"),
        (EncodeError::NoMemory, "no memory"),
        (EncodeError::TooLong, "more than 400000 pictures"),
    ] {
        assert_eq!(rt; format!(in rt.alloc(); "{error}")?.as_str(), text);
    }
    Ok(())
}
