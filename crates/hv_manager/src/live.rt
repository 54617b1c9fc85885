//! How many unfinished pictures name each picture of a group.
ghost use Rattle.std.specs.Prelude.{◌≡◌, ℕ, ◌+◌, ◌<◌, ◌≤◌, All, IfOk, length, slice_index};
ghost use Rattle.std.specs.Option.{ForSome};
ghost use Rattle.hv_decision.specs.Structure.{IsStructure};
ghost use Rattle.hv_manager.specs.Progress.{AreCounts, coded_at, names, one_where, one_at};

use hv_decision::Structure;
use hv_types::NoMemory;
use std::alloc::Global;

/// For each picture of a group, how many pictures are it or refer to it. The only error is want of
/// memory.
pub(crate) fn all_live(alloc: Global, structure: &Structure) -> Result<Vec<u8>, NoMemory>
    requires { IsStructure structure.now }
    ensures { IfOk result (λ live.
        AreCounts structure.now.count structure.now.levels 0 live.items) }
{
    let mut live = vec![in alloc; 0; usize::from(structure.count())]?;
    for place in 0..structure.count() {
        add_named(&mut live, structure, structure.order(place));
    }
    Ok(live)
}

/// Adds one to the counts of the picture itself and of those to which it refers.
fn add_named(live: &mut Vec<u8>, structure: &Structure, picture: u8)
    requires structure { IsStructure structure.now }
    requires picture { picture < structure.now.count }
    requires count { length live.old.items ≡ structure.now.count }
    requires most { All (λ n. n ≤ 64) live.old.items }
    ensures count { length live.new.items ≡ structure.now.count }
    ensures each { (k : ℕ) → k < structure.now.count → slice_index live.new.items k ≡
        slice_index live.old.items k
        + one_where (names (coded_at structure.now.count structure.now.levels picture) k) }
{
    add(live, Some(picture));
    add(live, structure.first(picture));
    add(live, structure.second(picture));
}

/// Takes one off the counts of the picture itself and of those to which it refers.
pub(crate) fn take_off_named(live: &mut Vec<u8>, structure: &Structure, picture: u8)
    requires structure { IsStructure structure.now }
    requires picture { picture < structure.now.count }
    requires count { length live.old.items ≡ structure.now.count }
    requires held { (k : ℕ) → k < structure.now.count →
        one_where (names (coded_at structure.now.count structure.now.levels picture) k)
        ≤ slice_index live.old.items k }
    ensures count { length live.new.items ≡ structure.now.count }
    ensures each { (k : ℕ) → k < structure.now.count → slice_index live.old.items k ≡
        one_where (names (coded_at structure.now.count structure.now.levels picture) k)
        + slice_index live.new.items k }
{
    take_off(live, Some(picture));
    take_off(live, structure.first(picture));
    take_off(live, structure.second(picture));
}

/// Adds one to the count of a picture, where there is one.
fn add(live: &mut Vec<u8>, picture: Option<u8>)
    requires below { ForSome picture (λ k. k < length live.old.items) }
    requires most { All (λ n. n < 255) live.old.items }
    ensures count { length live.new.items ≡ length live.old.items }
    ensures each { (k : ℕ) → k < length live.old.items → slice_index live.new.items k ≡
        slice_index live.old.items k + one_at picture k }
{
    if let Some(k) = picture {
        live[usize::from(k)] += 1;
    }
}

/// Takes one off the count of a picture, where there is one.
fn take_off(live: &mut Vec<u8>, picture: Option<u8>)
    requires below { ForSome picture (λ k. k < length live.old.items) }
    requires held { ForSome picture (λ k. 1 ≤ slice_index live.old.items k) }
    ensures count { length live.new.items ≡ length live.old.items }
    ensures each { (k : ℕ) → k < length live.old.items → slice_index live.old.items k ≡
        one_at picture k + slice_index live.new.items k }
{
    if let Some(k) = picture {
        live[usize::from(k)] -= 1;
    }
}
