//! Sums from hand calculation.
ghost use Rattle.std.specs.Prelude.{◌≡◌, ◌≤◌, length};

use super::*;
use hv_types::Window;

/// The length, and the sums where each difference is 255.
const LENGTHS: [(usize, u64, u64); 8] = [
    (0, 0, 0),
    (1, 255, 65025),
    (15, 3825, 975375),
    (16, 4080, 1040400),
    (17, 4335, 1105425),
    (63, 16065, 4096575),
    (64, 16320, 4161600),
    (65, 16575, 4226625),
];

#[test]
fn lists_of_extreme_samples(rt: HostRuntime) {
    let black = [0u8; 65];
    let white = [255u8; 65];
    for (length, absolute, squared) in LENGTHS {
        assert!(rt; length <= 65);
        let black = &black[..length];
        let white = &white[..length];
        assert_eq!(rt; sad(black, white), absolute, "at {length}");
        assert_eq!(rt; sad(white, black), absolute, "at {length}");
        assert_eq!(rt; ssd(black, white), squared, "at {length}");
        assert_eq!(rt; ssd(white, black), squared, "at {length}");
        assert_eq!(rt; sad(white, white), 0, "at {length}");
        assert_eq!(rt; ssd(black, black), 0, "at {length}");
    }
}

#[test]
fn short_lists(rt: HostRuntime) {
    assert_eq!(rt; sad(&[1, 2, 3], &[4, 0, 3]), 5);
    assert_eq!(rt; ssd(&[1, 2, 3], &[4, 0, 3]), 13);
    assert_eq!(rt; sad(&[10], &[250]), 240);
    assert_eq!(rt; ssd(&[10], &[250]), 57600);
    assert_eq!(rt; sad(&[0, 255], &[255, 0]), 510);
    assert_eq!(rt; ssd(&[0, 255], &[255, 0]), 130050);
}

/// Row y has the samples y, and then three of 200 that belong to no block.
fn slow_rows() -> [u8; 4288] {
    let mut samples = [200u8; 4288];
    for y in 0..64usize {
        for x in 0..64usize {
            samples[67 * y + x] = y as u8;
        }
    }
    samples
}

/// Row y has the samples 2y.
fn fast_rows() -> [u8; 4096] {
    let mut samples = [0u8; 4096];
    for y in 0..64usize {
        for x in 0..64usize {
            samples[64 * y + x] = (2 * y) as u8;
        }
    }
    samples
}

/// A block of slow rows beside one of fast rows.
fn slow_and_fast<'a>(slow: &'a [u8], fast: &'a [u8], columns: usize, rows: usize) -> Pair<'a>
    requires slow { length slow.now ≡ 4288 }
    requires fast { length fast.now ≡ 4096 }
    requires columns_most { columns ≤ 64 }
    requires rows_most { rows ≤ 64 }
    ensures { result.first.columns ≡ columns }
{
    Pair {
        first: Window {
            samples: slow,
            stride: 67,
            columns,
            rows,
        },
        second: Window {
            samples: fast,
            stride: 64,
            columns,
            rows,
        },
    }
}

/// The differences of row y are y, so the sums are those of y and of y * y, times the width.
#[test]
fn blocks_of_rows(rt: HostRuntime) {
    let slow = slow_rows();
    let fast = fast_rows();
    assert_eq!(rt; sad_block_8(slow_and_fast(&slow, &fast, 8, 8)), 224);
    assert_eq!(rt; sad_block_16(slow_and_fast(&slow, &fast, 16, 16)), 1920);
    assert_eq!(rt; sad_block_16(slow_and_fast(&slow, &fast, 16, 5)), 160);
    assert_eq!(rt; sad_block_16(slow_and_fast(&slow, &fast, 16, 0)), 0);
    assert_eq!(rt; sad_block_32(slow_and_fast(&slow, &fast, 32, 32)), 15872);
    assert_eq!(rt; sad_block_32(slow_and_fast(&slow, &fast, 32, 7)), 672);
    assert_eq!(rt; sad_block_64(slow_and_fast(&slow, &fast, 64, 64)), 129024);
    assert_eq!(rt; ssd_block_4(slow_and_fast(&slow, &fast, 4, 4)), 56);
    assert_eq!(rt; ssd_block_8(slow_and_fast(&slow, &fast, 8, 8)), 1120);
    assert_eq!(rt; ssd_block_16(slow_and_fast(&slow, &fast, 16, 16)), 19840);
    assert_eq!(rt; ssd_block_32(slow_and_fast(&slow, &fast, 32, 32)), 333312);
    assert_eq!(rt; ssd_block_32(slow_and_fast(&slow, &fast, 32, 3)), 160);
    assert_eq!(rt; ssd_block_64(slow_and_fast(&slow, &fast, 64, 64)), 5462016);
}

/// A block of 64 columns, or less, of samples with the stride 64.
fn of_stride_64<'a>(samples: &'a [u8], columns: usize, rows: usize) -> Window<'a>
    requires samples { length samples.now ≡ 4096 }
    requires columns_most { columns ≤ 64 }
    requires rows_most { rows ≤ 64 }
    ensures columns { result.columns ≡ columns }
    ensures rows { result.rows ≡ rows }
{
    Window {
        samples,
        stride: 64,
        columns,
        rows,
    }
}

#[test]
fn blocks_of_extreme_samples(rt: HostRuntime) {
    let black = [0u8; 4096];
    let white = [255u8; 4096];
    let high = Pair {
        first: of_stride_64(&black, 64, 64),
        second: of_stride_64(&white, 64, 64),
    };
    let low = Pair {
        first: of_stride_64(&white, 8, 8),
        second: of_stride_64(&black, 8, 8),
    };
    assert_eq!(rt; sad_block_64(high), 1044480);
    assert_eq!(rt; ssd_block_64(high), 266342400);
    assert_eq!(rt; sad_block_8(low), 16320);
    assert_eq!(rt; ssd_block_8(low), 4161600);
}

/// Square k of 20 columns has the sum 16k, and then 16k + 7 and 16k + 8.
#[test]
fn quarter_rows(rt: HostRuntime) {
    for (more, first) in [(0u8, 0u8), (7, 0), (8, 1)] {
        let mut rows = [0u8; 80];
        for k in 0..5usize {
            rows[20 * (k % 4) + 4 * k + k % 4] = 16 * k as u8 + more;
        }
        let mut out = [9u8; 5];
        decimate(&rows, 20, &mut out);
        for k in 0..5usize {
            assert_eq!(rt; out[k], first + k as u8, "{k} with {more} more");
        }
    }
    let mut out = [0u8; 5];
    decimate(&[255u8; 80], 20, &mut out);
    assert_eq!(rt; out.as_slice(), [255u8; 5].as_slice());
}

/// At quantiser 30 a bin weighs 9 * 2^10 / 16, and at 31 11 * 2^10 / 16.
#[test]
fn costs_of_bins(rt: HostRuntime) {
    assert_eq!(rt; bin_weight(0), 0);
    assert_eq!(rt; bin_weight(30), 576);
    assert_eq!(rt; bin_weight(31), 704);
    assert_eq!(rt; bin_weight(51), 73728);
    assert_eq!(rt; cost(30, 1000, 7), 20032);
    assert_eq!(rt; cost(4, 3, 10), 58);
}
