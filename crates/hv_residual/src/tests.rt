//! Blocks worked by hand. A row says which bins a block has: `X` and `Y` for the prefixes of the
//! last position, `C` for coded_sub_block_flag, `S` for sig_coeff_flag, `1` and `2` for the
//! greater1 and greater2 flags, each with the number of its context variable and the value, `+` for
//! 1 and `-` for 0; and the value alone for a bin in bypass.

ghost use Rattle.std.specs.Prelude.{◌≡◌, ◌*◌, ◌^◌, ◌≤◌, length, true};
ghost use Rattle.hv_plan.specs.Levels.{any_significant};

use crate::{BinSink, Pred, Scan, any_significant, count_residual, put_residual, scan_of};
use hv_plan::Mv;
use hv_tables::{Ctx, CtxTable};

/// A sink that compares the bins with a row, and counts them.
#[derive(Drop)]
struct Expected<'a> {
    row: &'a [u8],
    at: usize,
    same: bool,
    count: u32,
}

impl<'a> Expected<'a> {
    /// One more character.
    fn take(&mut self, character: u8) {
        if self.at < self.row.len() && self.row[self.at] == character {
            self.at += 1;
        } else {
            self.same = false;
        }
    }

    /// The value of a bin, and its end.
    fn take_value(&mut self, value: bool) {
        self.take(if value { b'+' } else { b'-' });
        self.take(b' ');
        self.count = self.count.saturating_add(1);
    }
}

/// The letter of a table.
fn letter(table: CtxTable) -> u8 {
    match table {
        CtxTable::LastX => b'X',
        CtxTable::LastY => b'Y',
        CtxTable::CodedSub => b'C',
        CtxTable::Sig => b'S',
        CtxTable::Greater1 => b'1',
        CtxTable::Greater2 => b'2',
        _ => b'?',
    }
}

impl<'a> BinSink for Expected<'a> {
    ghost stands_for = { λ sink kind qp bins. Unit {0} };

    fn bin(&mut self, context: Ctx, value: bool) {
        self.take(letter(context.table));
        if context.index >= 10 {
            self.take(b'0' + context.index / 10);
        }
        self.take(b'0' + context.index % 10);
        self.take_value(value);
    }

    fn bypass(&mut self, value: bool) {
        self.take_value(value);
    }

    fn terminate(&mut self, _value: bool) {
        self.same = false;
    }
}

/// A block worked by hand: its levels that aren't 0, by their places in its rows, and its bins.
struct Row<'a> {
    scan: Scan,
    log2: u8,
    luma: bool,
    levels: &'a [(usize, i16)],
    bins: &'a str,
}

/// Whether these are the levels of a block that isn't all 0.
fn is_block(levels: &[i16], log2: u8) -> bool
    ensures { result ≡ true → (2 ≤ log2) × (log2 ≤ 5) ×
        (length levels.now ≡ 2 ^ log2 * 2 ^ log2) × (any_significant levels.now ≡ true) }
{
    let count = match log2 {
        2 => 16,
        3 => 64,
        4 => 256,
        5 => 1024,
        _ => return false,
    };
    levels.len() == count && any_significant(levels)
}

/// Whether a block has the bins of its row, and as many as are counted.
fn is_as_worked(row: &Row<'_>) -> bool {
    let mut levels = [0i16; 1024];
    for (at, level) in row.levels {
        if *at < 1024 {
            levels[*at] = *level;
        }
    }
    let count = match row.log2 {
        2 => 16,
        3 => 64,
        4 => 256,
        _ => 1024,
    };
    let levels = &levels[..count];
    if !is_block(levels, row.log2) {
        return false;
    }
    let mut sink = Expected {
        row: row.bins.as_bytes(),
        at: 0,
        same: true,
        count: 0,
    };
    put_residual(&mut sink, levels, row.scan, row.log2, row.luma);
    let counted = count_residual(levels, row.scan, row.log2, row.luma);
    sink.same && sink.at == row.bins.len() && sink.count == counted
}

/// The greatest level alone: coeff_abs_level_remaining is 32,764, in 32 bins.
#[test]
fn greatest_level(rt: HostRuntime) {
    assert!(rt;
        is_as_worked(&Row {
            scan: Scan::Diagonal,
            log2: 2,
            luma: true,
            levels: &[(0, 32767)],
            bins: "X0- Y0- 11+ 20+ - + + + + + + + + + + + + + + + + + - \
            + + + + + + + + + + + - + - ",
        })
    );
}

/// One level at the right upper corner of 8x8, in the diagonal scan: the right sub-block has it.
#[test]
fn corner_in_the_diagonal_scan(rt: HostRuntime) {
    assert!(rt;
        is_as_worked(&Row {
            scan: Scan::Diagonal,
            log2: 3,
            luma: true,
            levels: &[(7, 1)],
            bins: "X3+ X3+ X4+ X4+ X5+ Y3- + S12- S12- S12- S13- S13- S13- S13- S13- S14- 19- - \
            C0- S9- S9- S9- S10- S9- S9- S11- S10- S9- S9- S11- S10- S9- S11- S10- S0- ",
        })
    );
}

/// The same in the vertical scan, in which the coordinates change places, and negative.
#[test]
fn corner_in_the_vertical_scan(rt: HostRuntime) {
    assert!(rt;
        is_as_worked(&Row {
            scan: Scan::Vertical,
            log2: 3,
            luma: true,
            levels: &[(7, -1)],
            bins: "X3- Y3+ Y3+ Y4+ Y4+ Y5+ + S18- S18- S18- S19- S18- S18- S19- S19- S18- S19- \
            S19- S20- 19- + C0- S15- S15- S16- S17- S15- S15- S16- S17- S15- S15- S16- S17- \
            S15- S15- S16- S0- ",
        })
    );
}

/// One level at the left lower corner of 8x8 in chroma: the sub-block below is coded.
#[test]
fn corner_in_chroma(rt: HostRuntime) {
    assert!(rt;
        is_as_worked(&Row {
            scan: Scan::Diagonal,
            log2: 3,
            luma: false,
            levels: &[(56, 1)],
            bins: "X15- Y15+ Y15+ Y16+ Y16+ Y17+ + S37- S37- S37- S37- S37- S38- 117- - \
            S36- S36- S36- S36- S36- S37- S36- S36- S37- S38- S36- S37- S38- S37- S38- S27- ",
        })
    );
}

/// All 16 positions of a 4x4 block of chroma, in the horizontal scan: eight greater1 flags, Rice
/// parameters 0 to 4, and the escape at 4.
#[test]
fn all_positions_of_a_sub_block(rt: HostRuntime) {
    assert!(rt;
        is_as_worked(&Row {
            scan: Scan::Horizontal,
            log2: 2,
            luma: false,
            levels: &[
                (15, -1),
                (14, 1),
                (13, 3),
                (12, 1),
                (11, 2),
                (10, 1),
                (9, 1),
                (8, 4),
                (7, 1),
                (6, 5),
                (5, 7),
                (4, 13),
                (3, 25),
                (2, 49),
                (1, 100),
                (0, -1),
            ],
            bins: "X15+ X16+ X17+ Y15+ Y16+ Y17+ S35+ S34+ S34+ S35+ S35+ S33+ S33+ S32+ S31+ S30+ \
            S29+ S32+ S31+ S28+ S27+ 117- 118- 119+ 116- 116+ 116- 116- 116+ 24+ \
            + - - - - - - - - - - - - - - + - - + + - - - + + - - + + + - - + + + - - - \
            + + + - - - - + + + - - - - - + + + + + - - - - - + + - - - - - ",
        })
    );
}

/// A coded sub-block between two empty ones, its only level inferred, behind a sub-block whose
/// greater1 flag is 1, in 16x16.
#[test]
fn coded_between_empty_ones(rt: HostRuntime) {
    assert!(rt;
        is_as_worked(&Row {
            scan: Scan::Diagonal,
            log2: 4,
            luma: true,
            levels: &[(68, 2), (4, -1)],
            bins: "X6+ X6+ X7+ X7+ X8- Y6+ Y6+ Y7+ Y7+ Y8- - - 19+ 22- - C0- C1+ \
            S24- S24- S24- S24- S24- S25- S24- S24- S25- S26- S24- S25- S26- S25- S26- 113- + \
            C1- S21- S21- S21- S22- S21- S21- S23- S22- S21- S21- S23- S22- S21- S23- S22- S0- ",
        })
    );
}

/// The bounds of the modes that have a scan of their own, and the blocks that have none.
#[test]
fn scans_of_modes(rt: HostRuntime) {
    for (mode, scan) in [
        (5, Scan::Diagonal),
        (6, Scan::Vertical),
        (10, Scan::Vertical),
        (14, Scan::Vertical),
        (15, Scan::Diagonal),
        (21, Scan::Diagonal),
        (22, Scan::Horizontal),
        (26, Scan::Horizontal),
        (30, Scan::Horizontal),
        (31, Scan::Diagonal),
    ] {
        let pred = Pred::Intra { mode };
        assert_eq!(rt; scan_of(pred, 2, false), scan);
        assert_eq!(rt; scan_of(pred, 3, true), scan);
        assert_eq!(rt; scan_of(pred, 3, false), Scan::Diagonal);
        assert_eq!(rt; scan_of(pred, 4, true), Scan::Diagonal);
    }
    let vector = Mv { x: 0, y: 0 };
    let inter = Pred::Inter {
        reference: 0,
        mv: vector,
        flag: 0,
        mvd: vector,
    };
    assert_eq!(rt; scan_of(inter, 2, true), Scan::Diagonal);
}
