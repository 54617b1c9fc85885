//! What no clause says: that a structure comes out where there is memory, and known ones, which
//! were worked by hand from the rule of halving.

ghost use Rattle.std.specs.Prelude.{◌<◌, length};

use crate::{Group, GroupOutput, SetEntry, Structure};
use hv_types::{Config, Emit, GroupInput, NoMemory, Settings};
use std::alloc::Global;
use std::test::Fail;

/// The pictures from this place on in coding order.
fn order_from(alloc: Global, structure: &Structure, place: u8) -> Result<Vec<u8>, NoMemory> {
    let mut pictures = Vec::new(alloc);
    for i in place..structure.count() {
        pictures.push(structure.order(i))?;
    }
    Ok(pictures)
}

/// The depths of all pictures in coding order.
fn depths(alloc: Global, structure: &Structure) -> Result<Vec<u8>, NoMemory> {
    let mut depths = Vec::new(alloc);
    for i in 0..structure.count() {
        depths.push(structure.depth(structure.order(i)))?;
    }
    Ok(depths)
}

/// The reference set of a picture.
fn reference_set(alloc: Global, structure: &Structure, k: u8) -> Result<Vec<SetEntry>, NoMemory>
    requires { k < structure.now.count }
{
    let mut entries = Vec::new(alloc);
    for i in 0..structure.set_len(k) {
        entries.push(structure.set_entry(k, i))?;
    }
    Ok(entries)
}

#[test]
fn ten_pictures(rt: HostRuntime) -> Result<(), Fail> {
    let structure = Structure::of(rt.alloc(), 10, 3)?;
    assert_eq!(rt; (structure.count(), structure.levels()), (10, 3));
    let order = order_from(rt.alloc(), &structure, 0)?;
    assert_eq!(rt; order.as_slice(), [0, 8, 4, 2, 1, 3, 6, 5, 7, 9].as_slice());
    let depths = depths(rt.alloc(), &structure)?;
    assert_eq!(rt;
        depths.as_slice(),
        [0, 1, 2, 3, 4, 4, 3, 4, 4, 1].as_slice()
    );
    Ok(())
}

#[test]
fn fourth_of_ten(rt: HostRuntime) -> Result<(), Fail> {
    let structure = Structure::of(rt.alloc(), 10, 3)?;
    assert_eq!(rt; structure.qp(3, 32), 36);
    assert_eq!(rt; structure.qp(3, 50), 51);
    assert_eq!(rt;
        (structure.first(3), structure.second(3)),
        (Some(2), Some(4))
    );
    assert_eq!(rt; structure.before_len(3), 1);
    let entries = reference_set(rt.alloc(), &structure, 3)?;
    let want = [
        SetEntry {
            delta: -1,
            used: true,
        },
        SetEntry {
            delta: 1,
            used: true,
        },
        SetEntry {
            delta: 5,
            used: false,
        },
    ];
    assert_eq!(rt; entries.as_slice(), want.as_slice());
    Ok(())
}

/// The last block is one picture shorter than the others.
#[test]
fn last_block_of_64(rt: HostRuntime) -> Result<(), Fail> {
    let structure = Structure::of(rt.alloc(), 64, 3)?;
    let order = order_from(rt.alloc(), &structure, 57)?;
    assert_eq!(rt; order.as_slice(), [63, 59, 57, 58, 61, 60, 62].as_slice());
    Ok(())
}

#[test]
fn one_picture_alone(rt: HostRuntime) -> Result<(), Fail> {
    let structure = Structure::of(rt.alloc(), 1, 3)?;
    assert_eq!(rt; structure.order(0), 0);
    assert_eq!(rt; (structure.first(0), structure.second(0)), (None, None));
    assert_eq!(rt; (structure.depth(0), structure.qp(0, 26)), (0, 26));
    assert_eq!(rt; (structure.set_len(0), structure.before_len(0)), (0, 0));
    Ok(())
}

#[test]
fn two_pictures_on_one_level(rt: HostRuntime) -> Result<(), Fail> {
    let structure = Structure::of(rt.alloc(), 2, 0)?;
    assert_eq!(rt; (structure.order(0), structure.order(1)), (0, 1));
    assert_eq!(rt; (structure.first(1), structure.second(1)), (Some(0), None));
    let entries = reference_set(rt.alloc(), &structure, 1)?;
    let want = [SetEntry {
        delta: -1,
        used: true,
    }];
    assert_eq!(rt; entries.as_slice(), want.as_slice());
    Ok(())
}

/// The group of these pictures.
fn group_of(alloc: Global, number: u32, input: GroupInput) -> Result<Group, NoMemory>
    requires { 0 < length input.pictures }
{
    let structure = Structure::of(alloc, input.count(), input.config().settings().levels)?;
    Ok(Group {
        number,
        input,
        structure,
    })
}

#[test]
fn group_of_one(rt: HostRuntime) -> Result<(), Fail> {
    let config = Config::checked(Settings {
        width: 8,
        height: 8,
        qp: 30,
        levels: 2,
        group: 3,
        workers: 1,
        effort: 0,
        segment: 1,
        emit: Emit::Stream,
        synth: None,
    })?;
    let mut raw = Vec::new(rt.alloc());
    for sample in 0..96 {
        raw.push(sample)?;
    }
    assert_eq!(rt; raw.len(), 96);
    let mut input = GroupInput::new(rt.alloc(), config)?;
    input.push(&raw)?;
    let group = group_of(rt.alloc(), 5, input)?;
    assert_eq!(rt; group.number, 5);
    assert_eq!(rt; (group.structure.count(), group.structure.levels()), (1, 2));
    Ok(())
}

#[test]
fn outputs_are_kept_apart(rt: HostRuntime) -> Result<(), Fail> {
    let mut output = GroupOutput::new(rt.alloc());
    output.push_slice(vec![in rt.alloc(); 1, 2]?)?;
    output.push_shown(vec![in rt.alloc(); 3]?)?;
    assert_eq!(rt; (output.slices.len(), output.shown.len()), (1, 1));
    Ok(())
}

/// A structure of many rows: whichever allocation is refused, the answer is that there was not
/// enough memory.
#[test]
fn answers_want_of_memory(rt: HostRuntime) {
    let _ = Structure::of(rt.alloc(), 64, 3);
}
