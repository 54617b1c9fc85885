//! Worked predictions.
ghost use Rattle.std.specs.Prelude.{◌≡◌, ◌*◌, ◌≤◌};

use super::*;
use hv_plan::Mv;
use hv_types::Plane;
use std::test::Fail;

/// A block of a component, by a vector.
fn block<const AREA: usize>(
    reference: &Plane,
    luma: bool,
    place: (u32, u32),
    size: u8,
    mv: (i16, i16),
) -> [u8; AREA]
    requires most { size ≤ 64 }
    requires area { AREA ≡ size * size }
{
    let mut out = [7; AREA];
    let mv = Mv { x: mv.0, y: mv.1 };
    predict_inter(reference, luma, place.0, place.1, size, mv, &mut out);
    out
}

/// One sample of 192 among others of 128: each predicted sample is 128 and the tap that it has for
/// that one. With both fractions it is 128 and a 64th of the product of two taps.
#[test]
fn one_sample_among_equal_ones(rt: HostRuntime) -> Result<(), Fail> {
    let mut reference = Plane::new(rt.alloc(), 16, 16, 128)?;
    reference.set(8, 8, 192);

    let along = block::<64>(&reference, true, (4, 8), 8, (1, 0));
    assert_eq!(rt;
        &along[..8],
        [128, 129, 123, 145, 186, 118, 132, 127].as_slice()
    );
    assert_eq!(rt; &along[8..16], [128; 8].as_slice());

    let down = block::<64>(&reference, true, (8, 4), 8, (0, 2));
    for (y, sample) in [127, 132, 117, 168, 168, 117, 132, 127]
        .into_iter()
        .enumerate()
    {
        assert_eq!(rt; down[8 * y], sample, "at {y}");
        assert_eq!(rt; down[8 * y + 1], 128, "at {y}");
    }

    let both = block::<256>(&reference, true, (0, 0), 16, (1, 1));
    assert_eq!(rt;
        (both[16 * 8 + 8], both[16 * 8 + 5], both[16 * 9 + 9]),
        (181, 129, 130)
    );

    let chroma = block::<64>(&reference, false, (4, 8), 8, (1, 0));
    assert_eq!(rt;
        &chroma[..8],
        [128, 128, 126, 138, 186, 126, 128, 128].as_slice()
    );
    Ok(())
}

/// One sample of 192 among others of 128, predicted at its own place: 128 and a 64th of the product
/// of two taps, rounded. A row for each fraction downwards. First the taps of that place, then, one
/// sample to the right, along rows the taps of the place before.
#[rattlefmt::skip]
const LUMA: [[[u8; 4]; 4]; 2] = [
    [ // 64, 58, 40, 17 by the same
        [192, 186, 168, 145], [186, 181, 164, 143], [168, 164, 153, 139], [145, 143, 139, 133],
    ],
    [ // 0, -10, -11, -5 by 64, 58, 40, 17
        [128, 118, 117, 123], [128, 119, 118, 123], [128, 122, 121, 125], [128, 125, 125, 127],
    ],
];

/// The same of chroma.
#[rattlefmt::skip]
const CHROMA: [[[u8; 8]; 8]; 2] = [
    [ // 64, 58, 54, 46, 36, 28, 16, 10 by the same
        [192, 186, 182, 174, 164, 156, 144, 138], [186, 181, 177, 170, 161, 153, 143, 137],
        [182, 177, 174, 167, 158, 152, 142, 136], [174, 170, 167, 161, 154, 148, 140, 135],
        [164, 161, 158, 154, 148, 144, 137, 134], [156, 153, 152, 148, 144, 140, 135, 132],
        [144, 143, 142, 140, 137, 135, 132, 131], [138, 137, 136, 135, 134, 132, 131, 130],
    ],
    [ // 0, -2, -4, -6, -4, -4, -2, -2 by 64, 58, 54, 46, 36, 28, 16, 10
        [128, 126, 124, 122, 124, 124, 126, 126], [128, 126, 124, 123, 124, 124, 126, 126],
        [128, 126, 125, 123, 125, 125, 126, 126], [128, 127, 125, 124, 125, 125, 127, 127],
        [128, 127, 126, 125, 126, 126, 127, 127], [128, 127, 126, 125, 126, 126, 127, 127],
        [128, 128, 127, 127, 127, 127, 128, 128], [128, 128, 127, 127, 127, 127, 128, 128],
    ],
];

/// Each fraction of luma and of chroma, by two vectors.
#[test]
fn each_fraction(rt: HostRuntime) -> Result<(), Fail> {
    let mut reference = Plane::new(rt.alloc(), 16, 16, 128)?;
    reference.set(8, 8, 192);
    for whole in 0..2 {
        for y in 0..4 {
            for x in 0..4 {
                let mv = ((4 * whole + x) as i16, y as i16);
                let luma = block::<64>(&reference, true, (4, 4), 8, mv);
                assert_eq!(rt; luma[36], LUMA[whole][y][x], "luma {whole} {x} {y}");
            }
        }
        for y in 0..8 {
            for x in 0..8 {
                let mv = ((8 * whole + x) as i16, y as i16);
                let chroma = block::<64>(&reference, false, (4, 4), 8, mv);
                assert_eq!(rt; chroma[36], CHROMA[whole][y][x], "chroma {whole} {x} {y}");
            }
        }
    }
    Ok(())
}

/// The predictions at all fractions from one window are those of each fraction.
#[test]
fn all_fractions(rt: HostRuntime) -> Result<(), Fail> {
    let mut reference = Plane::new(rt.alloc(), 104, 104, 128)?;
    reference.set(3, 3, 255);
    reference.set(9, 4, 0);
    reference.set(10, 17, 200);
    reference.set(33, 34, 70);
    let mut out = vec![in rt.alloc(); 0; 124416]?;
    predict_fractions(reference.samples(), &mut out);
    for right in 0..4usize {
        for below in 0..4usize {
            let mv = (right as i16, below as i16);
            let one = block::<1024>(&reference, true, (3, 3), 32, mv);
            for y in 0..32 {
                let at = 31104 * right + 7776 * below + 96 * y;
                assert_eq!(rt;
                    &out[at..at + 32],
                    &one[32 * y..32 * y + 32],
                    "{right} {below} {y}"
                );
            }
        }
    }
    Ok(())
}

/// A reference of three columns and two rows: outside stands the nearest sample.
#[test]
fn reference_smaller_than_the_block(rt: HostRuntime) -> Result<(), Fail> {
    let mut reference = Plane::new(rt.alloc(), 3, 2, 10)?;
    reference.set(1, 0, 20);
    reference.set(2, 0, 30);
    reference.set(0, 1, 40);
    reference.set(1, 1, 50);
    reference.set(2, 1, 60);

    let before = block::<16>(&reference, true, (0, 0), 4, (-4, -4));
    let rows = [
        10, 10, 20, 30, 10, 10, 20, 30, 40, 40, 50, 60, 40, 40, 50, 60,
    ];
    assert_eq!(rt; before.as_slice(), rows.as_slice());

    let far = block::<16>(&reference, true, (0, 0), 4, (32767, -32768));
    assert_eq!(rt; far.as_slice(), [30; 16].as_slice());
    let far = block::<4096>(
        &reference,
        false,
        (4294967295, 4294967295),
        64,
        (-32768, 32767),
    );
    assert_eq!(rt; far.as_slice(), [60; 4096].as_slice());
    Ok(())
}
