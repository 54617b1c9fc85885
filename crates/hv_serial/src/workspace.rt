//! What the encoding of groups works in.

ghost use Rattle.std.specs.Prelude.{◌≡◌, ◌*◌, length, IfOk};
ghost use Rattle.hv_types.specs.Configuration.{IsValid, columns, rows};
ghost use Rattle.hv_serial.specs.Workspaces.{AreFrames, IsSpace, IsWorkspace};

use hv_block::{Block, Frame};
use hv_mode::Room;
use hv_types::{Config, NoMemory};
use std::alloc::Global;

/// What the coding of the pictures of a group works in: room for the choice of a coding tree block,
/// the blocks of a picture, and frames for the pictures to which later ones refer.
#[derive(Drop)]
pub struct GroupSpace {
    pub room: Room,
    pub blocks: Vec<Block>,
    pub frames: Vec<Frame>,
}

/// What the encoding of groups works in. It is made once a run, for its settings, and what stands
/// in it doesn't matter to the next group.
#[derive(Drop)]
pub enum Workspace {
    /// Where nothing is chosen: it has no memory.
    Blank,
    /// Where coding tree blocks are chosen.
    Chosen(GroupSpace),
}

impl Workspace {
    /// For groups of these settings. The only error is want of memory.
    pub fn new(alloc: Global, config: &Config) -> Result<Self, NoMemory>
        requires valid { IsValid config.now }
        ensures { IfOk result (λ work. IsWorkspace config.now work) }
    {
        if config.settings().effort == 0 {
            Ok(Workspace::Blank)
        } else {
            Ok(Workspace::Chosen(group_space(alloc, config)?))
        }
    }
}

/// For groups of these settings.
fn group_space(alloc: Global, config: &Config) -> Result<GroupSpace, NoMemory>
    requires valid { IsValid config.now }
    ensures { IfOk result (λ space. IsSpace config.now space) }
{
    let room = Room::new(alloc)?;
    let blocks = blocks_of_picture(alloc, config)?;
    let frames = frames_of_group(alloc, config)?;
    Ok(GroupSpace {
        room,
        blocks,
        frames,
    })
}

/// A block for each coding tree block of a picture of these settings.
fn blocks_of_picture(alloc: Global, config: &Config) -> Result<Vec<Block>, NoMemory>
    ensures { IfOk result (λ blocks.
        length blocks.items ≡ columns config.now * rows config.now) }
{
    let count = config.columns() * config.rows();
    let mut blocks = Vec::with_capacity(alloc, count as usize)?;
    for _index in 0..count {
        blocks.push(Block::new(alloc)?)?;
    }
    Ok(blocks)
}

/// As many frames as serve a group of these settings.
fn frames_of_group(alloc: Global, config: &Config) -> Result<Vec<Frame>, NoMemory>
    requires valid { IsValid config.now }
    ensures { IfOk result (λ frames. AreFrames config.now frames.items) }
{
    let settings = config.settings();
    let count = settings.group.min(settings.levels + 2);
    let mut frames = Vec::with_capacity(alloc, usize::from(count))?;
    for _index in 0..count {
        frames.push(Frame::new(alloc, config)?)?;
    }
    Ok(frames)
}
