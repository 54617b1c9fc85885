//! What no clause says: that there is room where there is memory, and worked cases.
ghost use Rattle.std.specs.Prelude.{◌*◌, ◌<◌, ◌≤◌, ◌^◌};
ghost use Rattle.hv_wave.specs.Segments.{per_row};

use crate::Wave;
use hv_types::NoMemory;
use std::alloc::Global;
use std::test::Fail;

/// Finishes a segment, and says whether it was taken.
fn finish(wave: &mut Wave, segment: u32) -> bool {
    let taken = wave.is_taken(segment);
    if taken {
        wave.done(segment);
    }
    taken
}

#[test]
fn three_columns_of_two_rows(rt: HostRuntime) -> Result<(), Fail> {
    let mut wave = Wave::new(rt.alloc(), 3, 2, 1)?;
    assert_eq!(rt; wave.next(), Some(0));
    assert_eq!(rt; wave.next(), None);
    assert!(rt; finish(&mut wave, 0));
    assert_eq!(rt; wave.next(), Some(1));
    assert_eq!(rt; wave.next(), None);
    assert!(rt; finish(&mut wave, 1));
    assert_eq!(rt; wave.next(), Some(2));
    assert_eq!(rt; wave.next(), Some(3));
    assert_eq!(rt; wave.next(), None);
    assert!(rt; finish(&mut wave, 2));
    assert_eq!(rt; wave.next(), None);
    assert!(rt; finish(&mut wave, 3));
    assert_eq!(rt; wave.next(), Some(4));
    assert!(rt; !wave.complete());
    assert!(rt; finish(&mut wave, 4) && wave.next() == Some(5) && finish(&mut wave, 5));
    assert!(rt; wave.complete());
    Ok(())
}

/// Takes all ready segments and puts them behind those taken before.
fn take_all(wave: &mut Wave, taken: &mut Vec<u32>) -> Result<(), NoMemory> {
    for _ in 0..u32::MAX {
        match wave.next() {
            Some(segment) => taken.push(segment)?,
            None => break,
        }
    }
    Ok(())
}

/// Finishes these segments, and says whether all were taken.
fn finish_all(wave: &mut Wave, taken: &[u32]) -> bool {
    let mut all = true;
    for segment in taken {
        all = finish(wave, *segment) && all;
    }
    all
}

/// In how many rounds a wave is complete, where each round takes all ready segments and then
/// finishes them; 1,000 where it isn't by then.
fn rounds(alloc: Global, columns: u32, rows: u32, segment: u8) -> Result<u32, NoMemory>
    requires columns { 1 ≤ columns }
    requires segment { 1 ≤ segment }
    requires most { rows * per_row columns segment < 2 ^ 32 }
{
    let mut wave = Wave::new(alloc, columns, rows, segment)?;
    for round in 0..1000 {
        if wave.complete() {
            return Ok(round);
        }
        let mut taken = Vec::new(alloc);
        take_all(&mut wave, &mut taken)?;
        if !finish_all(&mut wave, &taken) {
            break;
        }
    }
    Ok(1000)
}

/// A row of n segments is done in n rounds, and each row below it is two behind, or one behind
/// where a row has one segment.
#[test]
fn rows_run_two_behind(rt: HostRuntime) -> Result<(), Fail> {
    assert_eq!(rt; rounds(rt.alloc(), 1, 1, 1)?, 1);
    assert_eq!(rt; rounds(rt.alloc(), 1, 1, 4)?, 1);
    assert_eq!(rt; rounds(rt.alloc(), 1, 1, 64)?, 1);
    assert_eq!(rt; rounds(rt.alloc(), 1, 17, 1)?, 17);
    assert_eq!(rt; rounds(rt.alloc(), 1, 17, 4)?, 17);
    assert_eq!(rt; rounds(rt.alloc(), 1, 17, 64)?, 17);
    assert_eq!(rt; rounds(rt.alloc(), 64, 1, 1)?, 64);
    assert_eq!(rt; rounds(rt.alloc(), 64, 1, 4)?, 16);
    assert_eq!(rt; rounds(rt.alloc(), 64, 1, 64)?, 1);
    assert_eq!(rt; rounds(rt.alloc(), 64, 34, 1)?, 64 + 2 * 33);
    assert_eq!(rt; rounds(rt.alloc(), 64, 34, 4)?, 16 + 2 * 33);
    assert_eq!(rt; rounds(rt.alloc(), 64, 34, 64)?, 34);
    assert_eq!(rt; rounds(rt.alloc(), 5, 2, 4)?, 2 + 2);
    Ok(())
}

/// How many segments come, by their numbers, where each is given back once, taken again and then
/// finished before the next one is taken.
fn given_back(alloc: Global, columns: u32, rows: u32, segment: u8) -> Result<u32, NoMemory>
    requires columns { 1 ≤ columns }
    requires segment { 1 ≤ segment }
    requires most { rows * per_row columns segment < 2 ^ 32 }
{
    let mut wave = Wave::new(alloc, columns, rows, segment)?;
    for number in 0..u32::MAX {
        if wave.next() != Some(number) || !wave.is_taken(number) {
            return Ok(number);
        }
        wave.give_back(number);
        if wave.is_taken(number) || wave.next() != Some(number) || !finish(&mut wave, number) {
            return Ok(number);
        }
    }
    Ok(u32::MAX)
}

#[test]
fn each_is_given_back(rt: HostRuntime) -> Result<(), Fail> {
    assert_eq!(rt; given_back(rt.alloc(), 1, 1, 1)?, 1);
    assert_eq!(rt; given_back(rt.alloc(), 1, 1, 4)?, 1);
    assert_eq!(rt; given_back(rt.alloc(), 1, 1, 64)?, 1);
    assert_eq!(rt; given_back(rt.alloc(), 1, 17, 1)?, 17);
    assert_eq!(rt; given_back(rt.alloc(), 1, 17, 4)?, 17);
    assert_eq!(rt; given_back(rt.alloc(), 1, 17, 64)?, 17);
    assert_eq!(rt; given_back(rt.alloc(), 64, 1, 1)?, 64);
    assert_eq!(rt; given_back(rt.alloc(), 64, 1, 4)?, 16);
    assert_eq!(rt; given_back(rt.alloc(), 64, 1, 64)?, 1);
    assert_eq!(rt; given_back(rt.alloc(), 64, 34, 1)?, 64 * 34);
    assert_eq!(rt; given_back(rt.alloc(), 64, 34, 4)?, 16 * 34);
    assert_eq!(rt; given_back(rt.alloc(), 64, 34, 64)?, 34);
    Ok(())
}

/// Finishes the segments in the order of these choices: each is the place, among those that are
/// taken, of the one that is finished next, and 0 where no choice is left. Gives how many were
/// taken at each step, or nothing where the wave isn't complete in the end.
fn widths(
    alloc: Global,
    columns: u32,
    rows: u32,
    choices: &[usize],
) -> Result<Option<Vec<usize>>, NoMemory>
    requires columns { 1 ≤ columns }
    requires most { rows * per_row columns 1 < 2 ^ 32 }
{
    let mut wave = Wave::new(alloc, columns, rows, 1)?;
    let mut taken = Vec::new(alloc);
    let mut widths = Vec::new(alloc);
    for step in 0..1000 {
        take_all(&mut wave, &mut taken)?;
        let choice = choices.get(step).copied().unwrap_or(0);
        if choice >= taken.len() {
            break;
        }
        widths.push(taken.len())?;
        let segment = taken.remove(choice);
        if !finish(&mut wave, segment) {
            return Ok(None);
        }
    }
    Ok(wave.complete().then_some(widths))
}

/// Puts the next choices in the place of these, and says whether there are more: the last choice
/// that can go on goes on by one, and those behind it are left out.
fn choose_next(choices: &mut Vec<usize>, widths: &[usize]) -> Result<bool, NoMemory> {
    for _ in choices.len()..widths.len() {
        choices.push(0)?;
    }
    for _ in 0..widths.len() {
        let Some(choice) = choices.pop() else {
            break;
        };
        if choice.saturating_add(1) < widths.get(choices.len()).copied().unwrap_or(0) {
            choices.push(choice.saturating_add(1))?;
            return Ok(true);
        }
    }
    Ok(false)
}

/// How many orders there are in which segments of one block can be done, each of which ends
/// complete; 0 where one doesn't.
fn orders(alloc: Global, columns: u32, rows: u32) -> Result<u32, NoMemory>
    requires columns { 1 ≤ columns }
    requires most { rows * per_row columns 1 < 2 ^ 32 }
{
    let mut choices = Vec::new(alloc);
    for count in 1..10_000 {
        let Some(widths) = widths(alloc, columns, rows, &choices)? else {
            return Ok(0);
        };
        if !choose_next(&mut choices, &widths)? {
            return Ok(count);
        }
    }
    Ok(10_000)
}

/// The numbers of orders were counted by hand for the first, and else by another program.
#[test]
fn every_order_ends_complete(rt: HostRuntime) -> Result<(), Fail> {
    assert_eq!(rt; orders(rt.alloc(), 3, 2)?, 2);
    assert_eq!(rt; orders(rt.alloc(), 4, 3)?, 29);
    assert_eq!(rt; orders(rt.alloc(), 5, 4)?, 6392);
    Ok(())
}

/// The one allocation is that of `new`: where it is refused, the answer is that there was not
/// enough memory.
#[test]
fn answers_want_of_memory(rt: HostRuntime) {
    let _ = Wave::new(rt.alloc(), 64, 34, 4);
}
