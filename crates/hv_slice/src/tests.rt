//! What no clause says: that headers come out where there is memory, and the bytes of known ones.
//! The bytes are those of another encoder, written by another hand, whose streams two decoders
//! accept; where its groups end before ten pictures, the others are worked by hand.

ghost use Rattle.std.specs.Prelude.{◌<◌, length};

use crate::write_slice_header;
use hv_bits::BitWriter;
use hv_decision::{Group, Structure};
use hv_types::{Config, Emit, GroupInput, NoMemory, Settings};
use std::alloc::Global;
use std::process::Abort;
use std::test::Fail;

/// A group of so many pictures of 8x8.
fn group_of(alloc: Global, count: u8, levels: u8, qp: u8) -> Result<Group, Fail> {
    let config = Config::checked(Settings {
        width: 8,
        height: 8,
        qp,
        levels,
        group: count,
        workers: 1,
        effort: 0,
        segment: 1,
        emit: Emit::Stream,
        synth: None,
    })?;
    let raw = vec![in alloc; 0u8; 96]?;
    let mut input = GroupInput::new(alloc, config)?;
    for _ in 0..count {
        let whole = raw.len() as u64 == input.config().picture_bytes();
        if whole && input.count() < input.config().settings().group {
            input.push(&raw)?;
        }
    }
    if input.count() == 0 {
        return Err("no picture".into());
    }
    let structure = Structure::of(alloc, input.count(), input.config().settings().levels)?;
    Ok(Group {
        number: 0,
        input,
        structure,
    })
}

/// The bytes of the header of a picture's slice.
fn header(alloc: Global, group: &Group, picture: u8) -> Result<Vec<u8>, NoMemory>
    requires { picture < length group.now.input.pictures }
{
    let mut writer = BitWriter::new(alloc);
    write_slice_header(&mut writer, group, picture, &[]);
    writer.finish()
}

/// The first pictures of the group have these headers.
fn has_headers(rt: &impl Abort, alloc: Global, group: &Group, wants: &[&[u8]]) -> Result<(), Fail> {
    for picture in 0..group.input.count() {
        if let Some(want) = wants.get(usize::from(picture)) {
            let found = header(alloc, group, picture)?;
            assert_eq!(rt; found.as_slice(), *want, "at picture {picture}");
        }
    }
    Ok(())
}

#[test]
#[rattlefmt::skip]
fn headers_without_levels(rt: HostRuntime) -> Result<(), Fail> {
    let group = group_of(rt.alloc(), 10, 0, 32)?;
    assert_eq!(rt; group.input.count(), 10);
    has_headers(&rt, rt.alloc(), &group, &[
        &[0xAF, 0x19],
        &[0xD0, 0x09, 0x7F, 0x28, 0xE8],
        &[0xD0, 0x11, 0x7F, 0x28, 0xE8],
        &[0xD0, 0x19, 0x7F, 0x28, 0xE8],
        // by hand: another count, and the same set
        &[0xD0, 0x21, 0x7F, 0x28, 0xE8],
        &[0xD0, 0x29, 0x7F, 0x28, 0xE8],
        &[0xD0, 0x31, 0x7F, 0x28, 0xE8],
        &[0xD0, 0x39, 0x7F, 0x28, 0xE8],
        &[0xD0, 0x41, 0x7F, 0x28, 0xE8],
        &[0xD0, 0x49, 0x7F, 0x28, 0xE8],
    ])
}

#[test]
#[rattlefmt::skip]
fn headers_at_one_level(rt: HostRuntime) -> Result<(), Fail> {
    let group = group_of(rt.alloc(), 10, 1, 32)?;
    assert_eq!(rt; group.input.count(), 10);
    has_headers(&rt, rt.alloc(), &group, &[
        &[0xAF, 0x19],
        &[0xD0, 0x09, 0x2F, 0xE8, 0xA1, 0x08],
        &[0xD0, 0x11, 0x57, 0xCA, 0x3A],
        &[0xD0, 0x19, 0x2F, 0xE8, 0xA1, 0x08],
        &[0xD0, 0x21, 0x57, 0xCA, 0x3A],
        // by hand: another count, and the same sets but for the last picture, which is an anchor
        &[0xD0, 0x29, 0x2F, 0xE8, 0xA1, 0x08],
        &[0xD0, 0x31, 0x57, 0xCA, 0x3A],
        &[0xD0, 0x39, 0x2F, 0xE8, 0xA1, 0x08],
        &[0xD0, 0x41, 0x57, 0xCA, 0x3A],
        &[0xD0, 0x49, 0x7F, 0x28, 0xE8],
    ])
}

#[test]
#[rattlefmt::skip]
fn headers_at_two_levels(rt: HostRuntime) -> Result<(), Fail> {
    let group = group_of(rt.alloc(), 10, 2, 45)?;
    assert_eq!(rt; group.input.count(), 10);
    has_headers(&rt, rt.alloc(), &group, &[
        &[0xAF, 0x04, 0xD0],
        &[0xD0, 0x09, 0x3F, 0x4E, 0x8A, 0x0B, 0x20],
        &[0xD0, 0x11, 0x25, 0x5E, 0x8A, 0x0A, 0xA0],
        &[0xD0, 0x19, 0x2F, 0xE8, 0xA0, 0xB2],
        &[0xD0, 0x21, 0x49, 0xF2, 0x82, 0x88],
        &[0xD0, 0x29, 0x3F, 0x4E, 0x8A, 0x0B, 0x20],
        &[0xD0, 0x31, 0x25, 0x5E, 0x8A, 0x0A, 0xA0],
        &[0xD0, 0x39, 0x2F, 0xE8, 0xA0, 0xB2],
        &[0xD0, 0x41, 0x49, 0xF2, 0x82, 0x88],
        &[0xD0, 0x49, 0x7F, 0x28, 0x28, 0x80],
    ])
}

#[test]
#[rattlefmt::skip]
fn headers_at_three_levels(rt: HostRuntime) -> Result<(), Fail> {
    let group = group_of(rt.alloc(), 17, 3, 32)?;
    assert_eq!(rt; group.input.count(), 17);
    has_headers(&rt, rt.alloc(), &group, &[
        &[0xAF, 0x19],
        &[0xD0, 0x09, 0x13, 0xD0, 0x8E, 0x8A, 0x14, 0x80],
        &[0xD0, 0x11, 0x35, 0x52, 0x3A, 0x28, 0x4A],
        &[0xD0, 0x19, 0x3F, 0x23, 0xA2, 0x85, 0x20],
        &[0xD0, 0x21, 0x22, 0x49, 0xE8, 0xA1, 0x08],
        &[0xD0, 0x29, 0x3F, 0x4E, 0x8A, 0x14, 0x80],
        &[0xD0, 0x31, 0x25, 0x5E, 0x8A, 0x12, 0x80],
        &[0xD0, 0x39, 0x2F, 0xE8, 0xA1, 0x48],
        &[0xD0, 0x41, 0x44, 0x7C, 0xA3, 0xA0],
        &[0xD0, 0x49, 0x13, 0xD0, 0x8E, 0x8A, 0x14, 0x80],
    ])
}
