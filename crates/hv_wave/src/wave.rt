//! The wave of a picture.
ghost use Rattle.std.specs.Prelude.{◌≡◌, ◌+◌, ◌*◌, ◌<◌, ◌≤◌, ◌^◌, ◌↔◌, IfOk, IsTrue, MatchOption, length};

use crate::rows::{Row, all_done, first_to_go_on};
use hv_types::NoMemory;
use std::alloc::Global;
use std::marker::Model;

/// The segments of a picture, each of which is waiting, taken or done. A segment is a run of coding
/// tree blocks in one row, cut from the left; segments are numbered by rows from 0. A waiting one
/// is ready where the one to its left is done, and in the row above the one that covers the column
/// behind its last column, or the last column of the picture. So what a block reads of its
/// neighbours left, above left, above and above right is there (6.4.1). Contracts see the columns
/// of the picture, the greatest length of a segment, and how far each segment is.
#[derive(Drop)]
pub struct Wave {
    columns: u32,
    segment: u8,
    rows: Vec<Row>,
}

impl Model for Wave {
    ghost use Rattle.hv_wave.specs.Segments.{Wave as Seen};
    ghost use Rattle.hv_wave.specs.Rows.{IsWhole, as_seen};

    ghost Value = { Seen };

    ghost view = { λ w. as_seen w.columns w.segment w.rows.items };

    ghost invariant = { λ w. IsWhole w.columns w.segment w.rows.items };
}

impl Wave {
    ghost use Rattle.hv_wave.specs.Segments.{Done, IsComplete, IsFirstReady, NoneIsReady, Taken, Waiting, opening, per_row, stage, with_stage};

    /// The wave of a picture of so many columns and rows of coding tree blocks, whose segments have
    /// at most `segment` blocks. All are waiting. The only error is want of memory.
    pub fn new(alloc: Global, columns: u32, rows: u32, segment: u8) -> Result<Self, NoMemory>
        requires columns { 1 ≤ columns }
        requires segment { 1 ≤ segment }
        requires most { rows * per_row columns segment < 2 ^ 32 }
        ensures { IfOk result (λ w. w ≡ opening columns rows segment) }
    {
        let row = Row {
            done: 0,
            taken: false,
        };
        Ok(Wave {
            columns,
            segment,
            rows: vec![in alloc; row; rows as usize]?,
        })
    }

    /// Takes the ready segment of least number. None comes exactly where no segment is ready, and
    /// then all is as before. It takes no memory and the time of a walk down the rows.
    pub fn next(&mut self) -> Option<u32>
        ensures { MatchOption result
            (NoneIsReady self.old × (self.new ≡ self.old))
            (λ s. IsFirstReady self.old s × (self.new ≡ with_stage self.old s Taken)) }
    {
        let per_row = self.per_row();
        let index = first_to_go_on(&self.rows, per_row)?;
        let row = &mut self.rows[index as usize];
        row.taken = true;
        Some(index * per_row + row.done)
    }

    /// Whether this segment is taken. It is in constant time.
    pub fn is_taken(&self, segment: u32) -> bool
        ensures { IsTrue result ↔ (stage self.now segment ≡ Taken) }
    {
        let per_row = self.per_row();
        match self.rows.get((segment / per_row) as usize) {
            Some(row) => row.has_taken(segment % per_row),
            None => false,
        }
    }

    /// A segment that is taken is done. It is in constant time and takes no memory.
    pub fn done(&mut self, segment: u32)
        requires { stage self.old segment ≡ Taken }
        ensures { self.new ≡ with_stage self.old segment Done }
    {
        let index = segment / self.per_row();
        let row = &mut self.rows[index as usize];
        row.done += 1;
        row.taken = false;
    }

    /// A segment that is taken waits again. It is in constant time and takes no memory.
    pub fn give_back(&mut self, segment: u32)
        requires { stage self.old segment ≡ Taken }
        ensures { self.new ≡ with_stage self.old segment Waiting }
    {
        let index = segment / self.per_row();
        self.rows[index as usize].taken = false;
    }

    /// Whether all segments are done. It takes no memory and the time of a walk down the rows.
    pub fn complete(&self) -> bool
        ensures { IsTrue result ↔ IsComplete self.now }
    {
        all_done(&self.rows, self.per_row())
    }

    /// How many segments a row has.
    fn per_row(&self) -> u32
        ensures value { result ≡ per_row self.now.columns self.now.segment }
        ensures some { 1 ≤ result }
    {
        self.columns.div_ceil(u32::from(self.segment))
    }
}
