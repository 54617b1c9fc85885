//! Motion search of the second of two pictures of 416x240. The first one's content is like that of
//! nature, and each square of 32x32 of the second shows a part of the first that lies elsewhere, at
//! whole samples or halves.
ghost use Rattle.std.specs.Prelude.{◌≡◌, ◌<◌, IfOk, length};
ghost use Rattle.hv_types.specs.Configuration.{picture_bytes};
ghost use Rattle.hv_search.specs.Motion.{IsNode};

use crate::choices::sample_of;
use anyhow::bail;
use hv_decision::{Group, Structure};
use hv_plan::{Mv, Node};
use hv_search::{Motion, search_picture};
use hv_types::{Config, Emit, GroupInput, NoMemory, Settings};
use std::alloc::Global;

const WIDTH: u32 = 416;

const HEIGHT: u32 = 240;

/// The samples of luma.
const SAMPLES: usize = 99840;

/// The coding tree blocks of a picture.
const BLOCKS: u32 = 28;

/// The first picture, in grey.
fn first_picture(alloc: Global, config: &Config) -> Result<Vec<u8>, NoMemory>
    ensures { IfOk result (λ raw. length raw.items ≡ picture_bytes config.now) }
{
    let mut raw = vec![in alloc; 128; config.picture_bytes() as usize]?;
    for k in 0..raw.len().min(SAMPLES) {
        raw[k] = sample_of(k as u32 % WIDTH, k as u32 / WIDTH, 1);
    }
    Ok(raw)
}

/// The mean of two samples of the first picture, which lie where the square of the second picture
/// that has sample `k` comes from.
fn moved_sample(raw: &[u8], k: usize) -> u8
    requires { k < 99840 }
{
    let square = k % 416 / 32 + k / 416 / 32;
    let at = k + 21 + square % 4 + 416 * (9 + square % 3);
    let next = at + square % 2 + 416 * (square / 2 % 2);
    let first = raw.get(at).copied().unwrap_or(128);
    let second = raw.get(next).copied().unwrap_or(128);
    first / 2 + second / 2
}

/// The second picture.
fn second_picture(alloc: Global, config: &Config, first: &[u8]) -> Result<Vec<u8>, NoMemory>
    ensures { IfOk result (λ raw. length raw.items ≡ picture_bytes config.now) }
{
    let mut raw = vec![in alloc; 128; config.picture_bytes() as usize]?;
    for k in 0..raw.len().min(SAMPLES) {
        raw[k] = moved_sample(first, k);
    }
    Ok(raw)
}

/// The group of both.
fn group_of(alloc: Global, config: Config) -> Result<Group, NoMemory>
    requires group { config.group ≡ 2 }
    ensures config { IfOk result (λ group. group.input.config ≡ config) }
    ensures count { IfOk result (λ group. length group.input.pictures ≡ 2) }
{
    let first = first_picture(alloc, &config)?;
    let second = second_picture(alloc, &config, &first)?;
    let mut input = GroupInput::new(alloc, config)?;
    input.push(&first)?;
    input.push(&second)?;
    let structure = Structure::of(alloc, 2, config.settings().levels)?;
    Ok(Group {
        number: 0,
        input,
        structure,
    })
}

/// What is searched.
#[derive(Drop)]
pub struct Searched {
    group: Group,
    ghost count: { length group.input.pictures ≡ 2 },
    ghost width: { group.input.config.width ≡ 416 },
    ghost height: { group.input.config.height ≡ 240 },
}

/// The node of this depth that has column `x` and row `y` of squares of 8x8.
fn node_of(depth: u8, x: u8, y: u8) -> Node
    requires depth { depth < 4 }
    requires x { x < 8 }
    requires y { y < 8 }
    ensures { IsNode result }
{
    match depth {
        0 => Node { depth, x: 0, y: 0 },
        1 => Node {
            depth,
            x: x / 4 * 4,
            y: y / 4 * 4,
        },
        2 => Node {
            depth,
            x: x / 2 * 2,
            y: y / 2 * 2,
        },
        _ => Node { depth, x, y },
    }
}

/// A number for a vector, or for none.
fn number_of(mv: Option<Mv>) -> u64 {
    match mv {
        Some(mv) => {
            let x = u64::from(mv.x.unsigned_abs()) * 7 + u64::from(mv.x < 0);
            let y = u64::from(mv.y.unsigned_abs()) * 5 + u64::from(mv.y < 0);
            1 + 3 * x + y
        }
        None => 0,
    }
}

/// A sum of the vectors of all nodes, each as often as it has squares of 8x8.
fn sum_of_vectors(motion: &Motion) -> u64
    requires width { motion.now.width ≡ 416 }
    requires height { motion.now.height ≡ 240 }
{
    let mut sum = 0u64;
    for index in 0..BLOCKS {
        for place in 0..256u32 {
            let depth = (place / 64) as u8;
            let node = node_of(depth, (place % 8) as u8, (place / 8 % 8) as u8);
            let number = number_of(motion.vector(0, index, node));
            sum = sum.wrapping_mul(31).wrapping_add(number);
        }
    }
    sum
}

impl Searched {
    /// Two pictures that are to be searched at this effort.
    fn new(alloc: Global, effort: u8) -> anyhow::Result<Searched> {
        let settings = Settings {
            width: WIDTH,
            height: HEIGHT,
            qp: 32,
            levels: 0,
            group: 2,
            workers: 1,
            effort,
            segment: 4,
            emit: Emit::Stream,
            synth: None,
        };
        let Ok(config) = Config::checked(settings) else {
            bail!("settings with a fault");
        };
        let Ok(group) = group_of(alloc, config) else {
            bail!("not enough memory");
        };
        Ok(Searched { group })
    }

    /// Searches once, and gives a sum of the vectors.
    pub fn run(&self, alloc: Global) -> Result<u64, NoMemory> {
        let motion = search_picture(alloc, &self.group, 1)?;
        Ok(sum_of_vectors(&motion))
    }
}

#[derive(Clone, Copy, PartialEq, Eq)]
pub enum SearchKernel {
    Whole,
    Fractions,
}

impl SearchKernel {
    /// All kernels, in the order in which they are run.
    pub const ALL: [SearchKernel; 2] = [SearchKernel::Whole, SearchKernel::Fractions];

    /// The word by which a user asks for it: the effort.
    pub fn name(self) -> &'static str {
        match self {
            SearchKernel::Whole => "search_1",
            SearchKernel::Fractions => "search_2",
        }
    }

    /// The kernel of this name, if there is one.
    pub fn named(word: &str) -> Option<SearchKernel> {
        for kernel in &SearchKernel::ALL {
            if kernel.name() == word {
                return Some(*kernel);
            }
        }
        None
    }

    /// The pictures that the kernel searches.
    pub fn searched(self, alloc: Global) -> anyhow::Result<Searched> {
        match self {
            SearchKernel::Whole => Searched::new(alloc, 1),
            SearchKernel::Fractions => Searched::new(alloc, 2),
        }
    }
}
