//! Motion search of a picture.

ghost use Rattle.std.specs.Prelude.{◌≡◌, ◌^◌, ◌<◌, ◌≤◌, length, IfOk, Option};
ghost use Rattle.hv_types.specs.Configuration.{padded_width, padded_height};
ghost use Rattle.hv_search.specs.Motion.{IsMotionOf};
ghost use Rattle.hv_search.specs.Searched.{IsSearched};

use crate::field::FIELD_SAMPLES;
use crate::motion::Motion;
use crate::quarter::quarter_samples;
use crate::source::Source;
use crate::vectors::vectors_of;
use crate::window::grid_of;
use hv_decision::Group;
use hv_plan::Mv;
use hv_types::NoMemory;
use std::alloc::Global;

/// Motion search of picture `picture` of a group, which is there: for each node and each entry of
/// list 0 the vector of least score (`Motion::vector`). It works on padded input pictures alone.
/// The only error is want of memory.
pub fn search_picture(alloc: Global, group: &Group, picture: u8) -> Result<Motion, NoMemory>
    requires { picture < length group.now.input.pictures }
    ensures { IfOk result (IsMotionOf group.now.input picture) }
{
    let luma = &group.input.picture(picture).luma;
    let (width, height) = (luma.width(), luma.height());
    let effort = group.input.config().settings().effort;
    let pictures = group.input.count();
    if effort == 0 {
        return Ok(Motion {
            width,
            height,
            first: Vec::new(alloc),
            second: Vec::new(alloc),
        });
    }
    let samples = quarter_samples(alloc, grid_of(luma))?;
    let input = Source {
        luma,
        samples: &samples,
    };
    let mut room = field_room(alloc, effort)?;
    let first = group.structure.first(picture);
    let second = group.structure.second(picture);
    Ok(Motion {
        width,
        height,
        first: searched(alloc, group, pictures, effort, input, first, &mut room)?,
        second: searched(alloc, group, pictures, effort, input, second, &mut room)?,
    })
}

/// Room for the samples of a field, which there is from effort 2 on.
fn field_room(alloc: Global, effort: u8) -> Result<Vec<u8>, NoMemory>
    ensures { IfOk result (λ room. 2 ≤ effort → length room.items ≡ 124416) }
{
    let count = if effort < 2 { 0 } else { FIELD_SAMPLES };
    let room = vec![in alloc; 0; count]?;
    Ok(room)
}

/// The vectors of all nodes from a picture to another one of its group of so many `pictures`, none
/// where there is no such picture.
fn searched(
    alloc: Global,
    group: &Group,
    pictures: u8,
    effort: u8,
    input: Source,
    reference: Option<u8>,
    samples: &mut [u8],
) -> Result<Vec<Mv>, NoMemory>
    requires pictures { pictures ≡ length group.now.input.pictures }
    requires wide { padded_width group.now.input.config < 2 ^ 16 }
    requires high { padded_height group.now.input.config < 2 ^ 16 }
    requires samples { 2 ≤ effort → length samples.old ≡ 124416 }
    ensures samples { length samples.new ≡ length samples.old }
    ensures is { IfOk result (λ vectors. IsSearched group.now.input effort input.entry.luma.now
        reference vectors.items) }
{
    match reference {
        Some(k) if k < pictures => {
            let luma = &group.input.picture(k).luma;
            let quarters = quarter_samples(alloc, grid_of(luma))?;
            let reference = Source {
                luma,
                samples: &quarters,
            };
            vectors_of(alloc, effort, input, reference, samples)
        }
        _ => Ok(Vec::new(alloc)),
    }
}
