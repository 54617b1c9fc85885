//! Worked values.
ghost use Rattle.std.specs.Prelude.{◌≡◌, ◌^◌, ◌≤◌, All};
ghost use Rattle.hv_forward.specs.Ranges.{AreDifferences};

use super::*;

/// What stands at a place of the coefficients of a block.
fn coefficient_at<const AREA: usize>(residual: &[i16; AREA], log2: u8, place: usize) -> i32
    requires least { 2 ≤ log2 }
    requires greatest { log2 ≤ 5 }
    requires area { AREA ≡ 4 ^ log2 }
    requires most { AREA ≤ 1024 }
    requires range { AreDifferences residual.now }
{
    let mut coefficients = [7; AREA];
    forward(residual, log2, &mut coefficients);
    if place < AREA {
        coefficients[place]
    } else {
        i32::MAX
    }
}

/// The greatest differences of samples have the coefficient 32640, alone.
#[test]
fn greatest_differences(rt: HostRuntime) {
    assert_eq!(rt; coefficient_at(&[255; 16], 2, 0), 32640);
    assert_eq!(rt; coefficient_at(&[255; 16], 2, 15), 0);
    assert_eq!(rt; coefficient_at(&[-255; 64], 3, 0), -32640);
    assert_eq!(rt; coefficient_at(&[-255; 64], 3, 63), 0);
    assert_eq!(rt; coefficient_at(&[-255; 256], 4, 0), -32640);
    assert_eq!(rt; coefficient_at(&[255; 256], 4, 255), 0);
    assert_eq!(rt; coefficient_at(&[255; 1024], 5, 0), 32640);
    assert_eq!(rt; coefficient_at(&[255; 1024], 5, 1023), 0);
}

#[test]
fn levels_of_a_flat_block(rt: HostRuntime) {
    let mut coefficients = [7i32; 64];
    let mut levels = [7i16; 64];
    forward(&[10; 64], 3, &mut coefficients);
    assert_eq!(rt; coefficients[0], 1280);
    assert!(rt; quantise(&coefficients, 3, 32, true, &mut levels));
    assert_eq!(rt; levels[0], 3);
    assert_eq!(rt; levels[63], 0);
}

#[test]
fn extreme_levels(rt: HostRuntime) {
    let mut levels = [0i16; 4];
    assert!(rt; quantise(&[32767, -32768, 7296, -7296], 5, 0, true, &mut levels));
    assert_eq!(rt; levels.as_slice(), [13106, -13107, 2918, -2918].as_slice());
}

/// A coefficient of a unit that isn't intra has the level 1 from five sixths of a step on.
#[test]
fn levels_of_0(rt: HostRuntime) {
    let mut levels = [7i16; 4];
    assert!(rt; !quantise(&[0, 340, -340, 0], 3, 32, false, &mut levels));
    assert_eq!(rt; levels.as_slice(), [0; 4].as_slice());
    assert!(rt; quantise(&[0, 341, -340, 0], 3, 32, false, &mut levels));
    assert_eq!(rt; levels.as_slice(), [0, 1, 0, 0].as_slice());
    let mut eight = [7i16; 8];
    assert!(rt; !quantise(&[340, -340, 0, 0, 0, 0, 0, 0], 3, 32, false, &mut eight));
    assert!(rt; quantise(&[0, 0, 0, 0, 0, 0, 0, -341], 3, 32, false, &mut eight));
    assert_eq!(rt; eight[7], -1);
}
