//! Reference picture sets (8.3.2).

ghost use Rattle.std.specs.Prelude.{◌≡◌, ◌+◌, ◌<◌, ◌≤◌, map, length, IfOk, OnOk, ℕ, slice_index_or, cond, ◌++◌, ◌∷◌, []};
ghost use Rattle.hv_group_model.specs.Structure.{rising, place_in, set_in};
ghost use Rattle.hv_decision.specs.Coding.{coded_as};
ghost use Rattle.hv_decision.specs.declared.row.Life.{Life as LifeSeen};
ghost use Rattle.hv_decision.specs.Sets.{AreLives, life_before, row_in, row_as, entry_before, entry_after, kept_by, is_kept_at};

use crate::coded::CodedPicture;
use crate::row::{Life, Row, SetEntry};
use hv_types::NoMemory;
use smallvec::SmallVec;
use std::alloc::Global;

/// What is kept of each picture of a group with this coding order, in output order. The only error
/// is want of memory.
pub(crate) fn rows(alloc: Global, order: &[CodedPicture]) -> Result<Vec<Row>, NoMemory>
    requires most { length order.now ≤ 64 }
    requires whole { (k : ℕ) → k < length order.now →
        place_in (map coded_as order.now) k < length order.now }
    ensures { IfOk result (λ rows. map row_as rows.items ≡
        map (row_in (map coded_as order.now) (length order.now)) (rising (length order.now) 0)) }
{
    let lives = lives(alloc, order)?;
    let mut rows = Vec::with_capacity(alloc, order.len())?;
    for picture in 0..order.len() as u8 {
        rows.push(row(alloc, order, &lives, picture)?)?;
    }
    Ok(rows)
}

/// The life of each picture, in output order, by one walk backwards over the coding order.
fn lives(alloc: Global, order: &[CodedPicture]) -> Result<Vec<Life>, NoMemory>
    requires most { length order.now ≤ 64 }
    ensures { IfOk result (λ lives. AreLives order.now lives.items) }
{
    let uncoded = Life {
        place: order.len() as u8,
        until: 0,
    };
    let mut lives = vec![in alloc; uncoded; order.len()]?;
    for place in (0..order.len() as u8).rev() {
        step_back(&mut lives, &order[usize::from(place)], place);
    }
    Ok(lives)
}

/// The lives by what is coded from a place on, from those by what is coded behind it.
fn step_back(lives: &mut Vec<Life>, coded: &CodedPicture, place: u8)
    requires most { length lives.old.items ≤ 64 }
    requires place { place < 64 }
    ensures count { length lives.new.items ≡ length lives.old.items }
    ensures each { (d : LifeSeen) (picture : ℕ) → picture < length lives.old.items →
        slice_index_or lives.new.items picture d ≡
        life_before (slice_index_or lives.old.items picture d) (coded_as coded.now) place picture }
{
    for picture in 0..lives.len() as u8 {
        let at = usize::from(picture);
        lives[at] = lives[at].before(coded, place, picture);
    }
}

/// What is kept of one picture.
fn row(alloc: Global, order: &[CodedPicture], lives: &[Life], picture: u8) -> Result<Row, NoMemory>
    requires most { length order.now ≤ 64 }
    requires lives { AreLives order.now lives.now }
    requires picture { picture < length order.now }
    requires coded { place_in (map coded_as order.now) picture < length order.now }
    ensures { IfOk result (λ row. row_as row ≡
        row_in (map coded_as order.now) (length order.now) picture) }
{
    let place = lives[usize::from(picture)].place;
    let coded = order[usize::from(place)];
    let mut entries = SmallVec::new(alloc);
    push_before(&mut entries, order, lives, picture)?;
    let before = entries.len() as u8;
    push_after(&mut entries, order, lives, picture)?;
    Ok(Row {
        coded,
        entries,
        before,
    })
}

/// Appends the entries of the pictures before a picture that it keeps, the nearest first.
fn push_before(
    entries: &mut SmallVec<SetEntry, 4>,
    order: &[CodedPicture],
    lives: &[Life],
    picture: u8,
) -> Result<(), NoMemory>
    requires most { length order.now ≤ 64 }
    requires lives { AreLives order.now lives.now }
    requires picture { picture < length order.now }
    requires coded { place_in (map coded_as order.now) picture < length order.now }
    ensures { OnOk result (entries.new.items ≡ entries.old.items ++
        map entry_before (set_in (map coded_as order.now) (length order.now) picture).before) }
{
    let place = lives[usize::from(picture)].place;
    let coded = &order[usize::from(place)];
    for other in (0..picture).rev() {
        let life = lives[usize::from(other)];
        push_kept(entries, life, place, entry(coded, picture, other))?;
    }
    Ok(())
}

/// Appends the entries of the pictures after a picture that it keeps, the nearest first.
fn push_after(
    entries: &mut SmallVec<SetEntry, 4>,
    order: &[CodedPicture],
    lives: &[Life],
    picture: u8,
) -> Result<(), NoMemory>
    requires most { length order.now ≤ 64 }
    requires lives { AreLives order.now lives.now }
    requires picture { picture < length order.now }
    requires coded { place_in (map coded_as order.now) picture < length order.now }
    ensures { OnOk result (entries.new.items ≡ entries.old.items ++
        map entry_after (set_in (map coded_as order.now) (length order.now) picture).after) }
{
    let place = lives[usize::from(picture)].place;
    let coded = &order[usize::from(place)];
    for other in picture + 1..order.len() as u8 {
        let life = lives[usize::from(other)];
        push_kept(entries, life, place, entry(coded, picture, other))?;
    }
    Ok(())
}

/// Appends an entry where the picture at this place keeps the picture of this life.
fn push_kept(
    entries: &mut SmallVec<SetEntry, 4>,
    life: Life,
    place: u8,
    entry: SetEntry,
) -> Result<(), NoMemory>
    ensures { OnOk result (entries.new.items ≡
        entries.old.items ++ cond (is_kept_at life place) (entry ∷ []) []) }
{
    if life.is_kept_at(place) {
        entries.push(entry)?;
    }
    Ok(())
}

/// The entry of another picture in a picture's set.
fn entry(coded: &CodedPicture, picture: u8, other: u8) -> SetEntry
    requires picture { picture < 64 }
    requires other { other < 64 }
    ensures before { other < picture → result ≡ entry_before (kept_by coded.now picture other) }
    ensures after { picture < other → result ≡ entry_after (kept_by coded.now picture other) }
{
    SetEntry {
        delta: other as i8 - picture as i8,
        used: coded.references.has(other),
    }
}
