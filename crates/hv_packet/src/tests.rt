//! What no clause says: that units come out where there is memory, and the bytes of known ones. The
//! bytes are those of another encoder, written by another hand, whose streams two decoders accept.

ghost use Rattle.std.specs.Prelude.{◌≡◌, ◌<◌, length, IfOk};

use crate::{code_picture, picture_unit};
use hv_block::Block;
use hv_decision::{Group, Structure};
use hv_plan::{SaoComponent, SaoKind, SaoParam};
use hv_types::{Config, Emit, GroupInput, NoMemory, Settings};
use std::alloc::Global;
use std::process::Abort;
use std::test::Fail;

/// Settings of this size and quantiser, of groups of so many pictures at effort 0.
fn config_of(rt: &impl Abort, width: u32, height: u32, qp: u8, group: u8) -> Config
    ensures width { result.width ≡ width }
    ensures height { result.height ≡ height }
    ensures group { result.group ≡ group }
    ensures effort { result.effort ≡ 0 }
{
    let settings = Settings {
        width,
        height,
        qp,
        levels: 0,
        group,
        workers: 1,
        effort: 0,
        segment: 4,
        emit: Emit::Stream,
        synth: None,
    };
    Config::checked(settings).expect(rt, "settings without a fault")
}

/// The unit of a black picture, if there is memory for it.
fn unit_of(alloc: Global, config: &Config) -> Result<Vec<u8>, NoMemory>
    requires group { config.now.group ≡ 1 }
    requires effort { config.now.effort ≡ 0 }
{
    let raw = vec![in alloc; 0; config.picture_bytes() as usize]?;
    let mut input = GroupInput::new(alloc, *config)?;
    input.push(&raw)?;
    let structure = Structure::of(alloc, 1, config.settings().levels)?;
    let group = Group {
        number: 0,
        input,
        structure,
    };
    picture_unit(alloc, &group, 0)
}

/// A group of two black pictures, if there is memory for it.
fn group_of_two(alloc: Global, config: &Config) -> Result<Group, NoMemory>
    requires group { config.now.group ≡ 2 }
    ensures config { IfOk result (λ group. group.input.config ≡ config.now) }
    ensures count { IfOk result (λ group. length group.input.pictures ≡ 2) }
{
    let raw = vec![in alloc; 0; config.picture_bytes() as usize]?;
    let mut input = GroupInput::new(alloc, *config)?;
    input.push(&raw)?;
    input.push(&raw)?;
    let structure = Structure::of(alloc, 2, config.settings().levels)?;
    Ok(Group {
        number: 0,
        input,
        structure,
    })
}

/// The unit of the second of two black pictures of a group, if there is memory for it.
fn second_unit_of(alloc: Global, config: &Config) -> Result<Vec<u8>, NoMemory>
    requires group { config.now.group ≡ 2 }
    requires effort { config.now.effort ≡ 0 }
{
    let group = group_of_two(alloc, config)?;
    picture_unit(alloc, &group, 1)
}

/// No sample of a component is offset.
const NO_OFFSET: SaoComponent = SaoComponent {
    kind: SaoKind::Off,
    offsets: [0; 4],
};

/// The unit of one of two pictures of a group, from a block of one intra unit with DC prediction
/// and without a level but 0, if there is memory for it.
fn unit_from_block(alloc: Global, config: &Config, picture: u8) -> Result<Vec<u8>, NoMemory>
    requires group { config.now.group ≡ 2 }
    requires width { config.now.width ≡ 64 }
    requires height { config.now.height ≡ 64 }
    requires picture { picture < 2 }
{
    let group = group_of_two(alloc, config)?;
    let block = Block::new(alloc)?;
    let mut blocks = Vec::new(alloc);
    blocks.push(block)?;
    let sao = [SaoParam {
        luma: NO_OFFSET,
        cb: NO_OFFSET,
        cr: NO_OFFSET,
    }];
    code_picture(alloc, &group, picture, &blocks, &sao)
}

/// The start code, the header of a unit with an IDR picture, and what its payload begins with.
const FRONT: [u8; 7] = [0x00, 0x00, 0x00, 0x01, 0x28, 0x01, 0xAF];

/// Widths, heights and quantisers: pictures of one block and of several, whole and cut by the edge,
/// and some that are padded.
#[test]
#[rattlefmt::skip]
fn units_of_pictures(rt: HostRuntime) -> Result<(), Fail> {
    let rows: [(u32, u32, u8, &[u8]); 10] = [
        (8, 8, 0, &[0x06, 0xB0, 0x98, 0xEF, 0xFF, 0xF0]),
        (8, 8, 51, &[0x06, 0x50, 0xFC, 0xD9, 0x20]),
        (16, 8, 0, &[0x06, 0xB0, 0x98, 0xEF, 0xFF, 0xB2, 0xFF, 0xF0]),
        (64, 64, 0, &[0x06, 0xB0, 0x98, 0x7F, 0xFF, 0xFF, 0xF8]),
        (64, 64, 26, &[0xC0, 0xE8, 0x73, 0x7F, 0x80]),
        (66, 50, 0, &[
            0x06, 0xB0, 0x98, 0x7F, 0xFF, 0x65, 0xFE, 0xD3, 0xF9, 0xBF, 0xBC, 0x78, 0xBD, 0x7D,
            0x21, 0xE1, 0x82, 0xDF, 0xDE, 0x70, 0x78, 0x74, 0x50, 0x0C, 0x67, 0x47,
        ]),
        (130, 66, 0, &[
            0x06, 0xB0, 0x98, 0x7F, 0xFF, 0xFA, 0xBC, 0xBF, 0xEC, 0x45, 0xFE, 0xDF, 0xF2, 0x1E,
            0xAD, 0xAF, 0xA4, 0x43, 0x4A, 0xF3, 0x8F, 0xEF, 0x76, 0xFC, 0x28, 0x5C, 0x99, 0x17,
            0x56, 0xA7, 0xBF, 0x4C,
        ]),
        (130, 66, 51, &[
            0x06, 0x50, 0xFC, 0x4C, 0x4F, 0x53, 0xAF, 0xA7, 0x50, 0x3F, 0xDF, 0xE0, 0x1C, 0x70,
            0x9F, 0xEB, 0xC4, 0xBC,
        ]),
        (64, 136, 0, &[
            0x06, 0xB0, 0x98, 0x7F, 0xFF, 0xFA, 0xBC, 0xBF, 0xEC, 0x45, 0xFE, 0xDF, 0xF2, 0x1E,
            0xAD, 0xAF, 0xA4, 0x43, 0x4B, 0xB3,
        ]),
        (256, 192, 0, &[
            0x06, 0xB0, 0x98, 0x7F, 0xFF, 0xFA, 0xBC, 0xBF, 0xEC, 0x09, 0xF7, 0x9F, 0x10, 0x1A,
            0x5D, 0xE3, 0x73, 0xCA, 0x9B, 0x16, 0x87, 0x85, 0x8A,
        ]),
    ];
    for (width, height, qp, rest) in rows {
        let config = config_of(&rt, width, height, qp, 1);
        let unit = unit_of(rt.alloc(), &config)?;
        let got = unit.as_slice().strip_prefix(&FRONT);
        assert_eq!(rt; got, Some(rest), "{width}x{height} at {qp}");
    }
    Ok(())
}

/// A P picture that refers to the one before it.
#[test]
fn unit_of_a_second_picture(rt: HostRuntime) -> Result<(), Fail> {
    let unit = second_unit_of(rt.alloc(), &config_of(&rt, 8, 8, 32, 2))?;
    let known = [
        0x00, 0x00, 0x00, 0x01, 0x02, 0x01, 0xD0, 0x09, 0x7F, 0x28, 0xE8, 0xF7, 0x52, 0x76,
    ];
    assert_eq!(rt; unit.as_slice(), known.as_slice());
    Ok(())
}

/// Whichever allocation is refused, the unit is whole or want of memory is answered.
#[test]
fn answers_want_of_memory(rt: HostRuntime) {
    let known = [0x06, 0xB0, 0x98, 0xEF, 0xFF, 0xF0];
    if let Ok(unit) = unit_of(rt.alloc(), &config_of(&rt, 8, 8, 0, 1)) {
        assert_eq!(rt;
            unit.as_slice().strip_prefix(&FRONT),
            Some(known.as_slice())
        );
    }
}

/// A block of one unit stands for a picture in which nothing is chosen.
#[test]
fn units_from_a_block(rt: HostRuntime) -> Result<(), Fail> {
    let config = config_of(&rt, 64, 64, 26, 2);
    let known = [0xC0, 0xE8, 0x73, 0x7F, 0x80];
    let first = unit_from_block(rt.alloc(), &config, 0)?;
    assert_eq!(rt;
        first.as_slice().strip_prefix(&FRONT),
        Some(known.as_slice())
    );
    let second = unit_from_block(rt.alloc(), &config, 1)?;
    let blank = second_unit_of(rt.alloc(), &config)?;
    assert_eq!(rt; second.as_slice(), blank.as_slice());
    Ok(())
}
