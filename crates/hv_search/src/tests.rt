//! Vectors worked by hand: pictures that show what their reference shows elsewhere.

ghost use Rattle.std.specs.Prelude.{◌≡◌, ◌*◌, ◌<◌, length, IfOk};
ghost use Rattle.hv_types.specs.Configuration.{picture_bytes, padded_width, padded_height};
ghost use Rattle.hv_search.specs.Motion.{IsNode, block_count};
ghost use Rattle.hv_filter_model.specs.Blocks.{luma_side, blocks_over};

use crate::plain::plain_vector;
use crate::quarter::quarter_samples;
use crate::source::Source;
use crate::square::Square;
use crate::window::grid_of;
use crate::{Motion, search_picture};
use hv_decision::{Group, Structure};
use hv_plan::{Mv, Node};
use hv_types::{Config, Emit, GroupInput, Settings};
use std::alloc::Global;
use std::process::Abort;
use std::test::Fail;

/// Settings of this size and effort, of groups of two pictures.
fn config_of(rt: &impl Abort, width: u32, height: u32, effort: u8) -> Config
    ensures width { result.width ≡ width }
    ensures height { result.height ≡ height }
    ensures group { result.group ≡ 2 }
{
    let settings = Settings {
        width,
        height,
        qp: 32,
        levels: 0,
        group: 2,
        workers: 1,
        effort,
        segment: 4,
        emit: Emit::Stream,
        synth: None,
    };
    Config::checked(settings).expect(rt, "settings without a fault")
}

/// What a picture shows.
#[derive(Clone, Copy)]
enum Scene {
    /// Samples that grow to the right and below, ever faster. Beyond 200 columns and 120 rows they
    /// are those of the last ones.
    Slope,
    /// Columns that grow and fall again, alike each 128, and rows that grow.
    Wave,
    /// Samples alike.
    Flat,
    /// Squares of 8x8 that have nothing to do with one another, and grain over them.
    Noise { squares: u32, grain: u32 },
}

/// Three numbers mixed.
fn mixed(x: u32, y: u32, seed: u32) -> u32 {
    let sum = x
        .wrapping_mul(374761393)
        .wrapping_add(y.wrapping_mul(668265263))
        .wrapping_add(seed.wrapping_mul(2246822519));
    let product = (sum ^ (sum >> 13)).wrapping_mul(1274126177);
    product ^ (product >> 16)
}

/// The sample of a scene in column `x` of row `y`.
fn sample(scene: Scene, x: i32, y: i32) -> u8 {
    match scene {
        Scene::Slope => {
            let (x, y) = (
                x.clamp(0, 199).unsigned_abs(),
                y.clamp(0, 119).unsigned_abs(),
            );
            let right = x.wrapping_mul(x) / 400;
            let down = y.wrapping_mul(y) / 150;
            (right.wrapping_add(down) % 256) as u8
        }
        Scene::Wave => {
            let (x, y) = (
                x.rem_euclid(128).unsigned_abs(),
                y.clamp(0, 119).unsigned_abs(),
            );
            let right = x.min(x.abs_diff(128)).wrapping_mul(2);
            (right.wrapping_add(y) % 256) as u8
        }
        Scene::Flat => 77,
        Scene::Noise { squares, grain } => {
            let (x, y) = (x.wrapping_add(4096), y.wrapping_add(4096));
            let (x, y) = (x.unsigned_abs(), y.unsigned_abs());
            let base = mixed(x / 8, y / 8, squares) % 192;
            (base.wrapping_add(mixed(x, y, grain) % 64) % 256) as u8
        }
    }
}

/// The bytes of a picture that shows a scene so many samples further right and down, in grey.
fn raw_picture(
    alloc: Global,
    config: &Config,
    scene: Scene,
    right: i32,
    down: i32,
) -> Result<Vec<u8>, Fail>
    ensures { IfOk result (λ raw. length raw.items ≡ picture_bytes config.now) }
{
    let (width, height) = (config.settings().width, config.settings().height);
    let mut raw = vec![in alloc; 128; config.picture_bytes() as usize]?;
    for k in 0..raw.len().min(width as usize * height as usize) {
        let (x, y) = ((k as u32 % width) as i32, (k as u32 / width) as i32);
        raw[k] = sample(scene, x.wrapping_add(right), y.wrapping_add(down));
    }
    Ok(raw)
}

/// A group of two pictures: the second one shows its scene so many samples further right and down.
fn group_of(
    alloc: Global,
    config: &Config,
    first: Scene,
    second: Scene,
    right: i32,
    down: i32,
) -> Result<Group, Fail>
    requires { config.now.group ≡ 2 }
    ensures config { IfOk result (λ group. group.input.config ≡ config.now) }
    ensures count { IfOk result (λ group. length group.input.pictures ≡ 2) }
{
    let mut input = GroupInput::new(alloc, *config)?;
    let raw = raw_picture(alloc, config, first, 0, 0)?;
    input.push(&raw)?;
    let raw = raw_picture(alloc, config, second, right, down)?;
    input.push(&raw)?;
    let structure = Structure::of(alloc, 2, config.settings().levels)?;
    Ok(Group {
        number: 0,
        input,
        structure,
    })
}

/// Motion search of the second of two pictures, which shows so many samples further right and down
/// what the first one shows.
fn searched(
    alloc: Global,
    config: &Config,
    scene: Scene,
    right: i32,
    down: i32,
) -> Result<Motion, Fail>
    requires { config.now.group ≡ 2 }
    ensures width { IfOk result (λ m. m.width ≡ padded_width config.now) }
    ensures height { IfOk result (λ m. m.height ≡ padded_height config.now) }
{
    let group = group_of(alloc, config, scene, scene, right, down)?;
    Ok(search_picture(alloc, &group, 1)?)
}

/// A node of 16x16 in the middle of a block.
const MIDDLE: Node = Node {
    depth: 2,
    x: 4,
    y: 2,
};

/// A picture that is moved has that vector: there the score is 0, and nowhere else.
#[test]
fn moved_pictures(rt: HostRuntime) -> Result<(), Fail> {
    for effort in 1..3u8 {
        let config = config_of(&rt, 200, 120, effort);
        for (right, down) in [(0, 0), (5, -3), (-64, 64), (67, 0)] {
            let motion = searched(rt.alloc(), &config, Scene::Slope, right, down)?;
            let (x, y) = (4 * right as i16, 4 * down as i16);
            let mv = motion.vector(0, 1, MIDDLE);
            assert_eq!(rt; mv, Some(Mv { x, y }), "{effort}: {right} {down}");
        }
    }
    Ok(())
}

/// Of two vectors of least score the earlier one is taken: 64 samples to the left and 64 to the
/// right lies the same.
#[test]
fn two_least_scores(rt: HostRuntime) -> Result<(), Fail> {
    for effort in 1..3u8 {
        let config = config_of(&rt, 200, 120, effort);
        let motion = searched(rt.alloc(), &config, Scene::Wave, 64, 0)?;
        let mv = motion.vector(0, 1, MIDDLE);
        assert_eq!(rt; mv, Some(Mv { x: -256, y: 0 }), "{effort}");
    }
    Ok(())
}

/// The first node of 8x8 of a picture.
const SMALL: Node = Node {
    depth: 3,
    x: 0,
    y: 0,
};

/// The first node of 64x64.
const WHOLE: Node = Node {
    depth: 0,
    x: 0,
    y: 0,
};

/// The vectors of the first nodes of pictures without a difference: of 8x8 and of 64x64 for entry 0
/// of list 0, and of 8x8 for entry 1, which the list doesn't have.
fn flat_vectors(alloc: Global, config: &Config) -> Result<[Option<Mv>; 3], Fail>
    requires group { config.now.group ≡ 2 }
    requires some { 0 < blocks_over luma_side (padded_width config.now) *
        blocks_over luma_side (padded_height config.now) }
{
    let motion = searched(alloc, config, Scene::Flat, 0, 0)?;
    let small = motion.vector(0, 0, SMALL);
    let whole = motion.vector(0, 0, WHOLE);
    Ok([small, whole, motion.vector(1, 0, SMALL)])
}

/// In pictures without a difference no vector is better than that which comes first. A node that
/// crosses an edge has none, nor has any at effort 0.
#[test]
fn flat_pictures(rt: HostRuntime) -> Result<(), Fail> {
    for effort in 0..3u8 {
        let mv = (effort > 0).then_some(Mv { x: 0, y: 0 });
        let config = config_of(&rt, 8, 8, effort);
        assert_eq!(rt;
            flat_vectors(rt.alloc(), &config)?,
            [mv, None, None],
            "{effort}"
        );
        let config = config_of(&rt, 72, 56, effort);
        assert_eq!(rt;
            flat_vectors(rt.alloc(), &config)?,
            [mv, None, None],
            "{effort}"
        );
        let config = config_of(&rt, 200, 120, effort);
        assert_eq!(rt;
            flat_vectors(rt.alloc(), &config)?,
            [mv, mv, None],
            "{effort}"
        );
    }
    Ok(())
}

/// The last node of 8x8 of a block.
const LAST: Node = Node {
    depth: 3,
    x: 7,
    y: 7,
};

/// The second node of 32x32 of a block.
const HALF: Node = Node {
    depth: 1,
    x: 4,
    y: 0,
};

/// Whether the vector of a node is that of the search without any shortcut.
fn node_agrees(
    motion: &Motion,
    effort: u8,
    input: Source,
    reference: Source,
    index: u32,
    node: Node,
) -> bool
    requires index { index < block_count motion.now }
    requires node { IsNode node }
{
    let columns = motion.width.div_ceil(64);
    let side = match node.depth {
        0 => 64,
        1 => 32,
        2 => 16,
        _ => 8,
    };
    let square = Square {
        x: 64 * (index % columns) + 8 * u32::from(node.x),
        y: 64 * (index / columns) + 8 * u32::from(node.y),
        side,
    };
    motion.vector(0, index, node) == plain_vector(effort, input, reference, square)
}

/// Whether the vectors of some nodes of each block are those of the search without any shortcut.
fn agrees(alloc: Global, group: &Group, effort: u8) -> Result<bool, Fail>
    requires { length group.now.input.pictures ≡ 2 }
{
    let motion = search_picture(alloc, group, 1)?;
    let luma = &group.input.picture(1).luma;
    let samples = quarter_samples(alloc, grid_of(luma))?;
    let input = Source {
        luma,
        samples: &samples,
    };
    let luma = &group.input.picture(0).luma;
    let samples = quarter_samples(alloc, grid_of(luma))?;
    let reference = Source {
        luma,
        samples: &samples,
    };
    let count = motion.width.div_ceil(64) * motion.height.div_ceil(64);
    let mut agree = true;
    for index in 0..count {
        agree = agree
            && node_agrees(&motion, effort, input, reference, index, SMALL)
            && node_agrees(&motion, effort, input, reference, index, LAST)
            && node_agrees(&motion, effort, input, reference, index, MIDDLE)
            && node_agrees(&motion, effort, input, reference, index, HALF)
            && node_agrees(&motion, effort, input, reference, index, WHOLE);
    }
    Ok(agree)
}

/// Ten groups of noise: the search finds what the one without any shortcut does.
#[test]
fn noise(rt: HostRuntime) -> Result<(), Fail> {
    for seed in 0..10u32 {
        let effort = 1 + (seed % 2) as u8;
        let config = match seed % 3 {
            0 => config_of(&rt, 8, 8, effort),
            1 => config_of(&rt, 72, 56, effort),
            _ => config_of(&rt, 136, 72, effort),
        };
        let first = Scene::Noise {
            squares: seed,
            grain: 100 + seed,
        };
        let second = Scene::Noise {
            squares: seed,
            grain: 200 + seed,
        };
        let (right, down) = (seed as i32 - 5, 3 * (seed as i32) - 12);
        let group = group_of(rt.alloc(), &config, first, second, right, down)?;
        assert!(rt; agrees(rt.alloc(), &group, effort)?, "{seed}");
    }
    Ok(())
}
