//! Each public call: on flat pictures, on one with a spike, and on one with a slope.
ghost use Rattle.std.specs.Prelude.{IfOk};
ghost use Rattle.hv_types.specs.Samples.{IsPlane};
ghost use Rattle.hv_types.specs.Video.{IsPicture};

use crate::{apply_sao, choose_sao};
use hv_plan::{Place, SaoComponent, SaoKind, SaoParam};
use hv_types::{NoMemory, Picture, Plane};
use std::alloc::Global;
use std::test::Fail;

/// A picture of 8 columns and rows with one value a component.
fn flat(alloc: Global, luma: u8, cb: u8, cr: u8) -> Result<Picture, NoMemory>
    ensures { IfOk result (λ p. IsPicture 8 8 p) }
{
    Ok(Picture {
        luma: Plane::new(alloc, 8, 8, luma)?,
        cb: Plane::new(alloc, 4, 4, cb)?,
        cr: Plane::new(alloc, 4, 4, cr)?,
    })
}

/// A band whose first offsets are 0.
fn band(position: u8, third: i8, fourth: i8) -> SaoComponent {
    SaoComponent {
        kind: SaoKind::Band { position },
        offsets: [0, 0, third, fourth],
    }
}

/// Luma lies 3 too low in band 2, Cb 4 in band 12, and Cr 5 in band 31.
#[test]
fn flat_pictures_are_raised_by_bands(rt: HostRuntime) -> Result<(), Fail> {
    let deblocked = flat(rt.alloc(), 20, 100, 250)?;
    let input = flat(rt.alloc(), 23, 104, 255)?;
    let mut shown = flat(rt.alloc(), 0, 0, 0)?;
    let place = Place {
        width: 8,
        height: 8,
        index: 0,
    };

    let choice = choose_sao(&deblocked, &input, place, 12);
    apply_sao(&deblocked, &[choice], &mut shown);

    assert_eq!(rt; choice.luma, band(0, 3, 0));
    assert_eq!(rt; choice.cb, band(9, 0, 4));
    assert_eq!(rt; choice.cr, band(28, 0, 5));
    assert_eq!(rt; shown.luma.samples(), input.luma.samples());
    assert_eq!(rt; shown.cb.samples(), input.cb.samples());
    assert_eq!(rt; shown.cr.samples(), input.cr.samples());
    Ok(())
}

/// A plane of 8 columns and rows of 10, but for a column of 12.
fn spiked(alloc: Global) -> Result<Plane, NoMemory>
    ensures { IfOk result (IsPlane 8 8) }
{
    let mut plane = Plane::new(alloc, 8, 8, 10)?;
    for y in 0..8u32 {
        plane.set(2, y, 12);
    }
    Ok(plane)
}

/// A plane of 4 columns and rows of 98, but for two rows of 97.
fn uneven(alloc: Global) -> Result<Plane, NoMemory>
    ensures { IfOk result (IsPlane 4 4) }
{
    let mut plane = Plane::new(alloc, 4, 4, 98)?;
    for x in 0..4u32 {
        plane.set(x, 1, 97);
        plane.set(x, 3, 97);
    }
    Ok(plane)
}

/// The spike of luma has category 4, and what is beside it category 2, whose mean is 0. Cb lies 2.5
/// too high in band 12, which is rounded away from 0.
#[test]
fn a_spike_is_levelled(rt: HostRuntime) -> Result<(), Fail> {
    let deblocked = Picture {
        luma: spiked(rt.alloc())?,
        cb: Plane::new(rt.alloc(), 4, 4, 100)?,
        cr: Plane::new(rt.alloc(), 4, 4, 50)?,
    };
    let input = Picture {
        luma: Plane::new(rt.alloc(), 8, 8, 10)?,
        cb: uneven(rt.alloc())?,
        cr: Plane::new(rt.alloc(), 4, 4, 50)?,
    };
    let mut shown = flat(rt.alloc(), 0, 0, 0)?;
    let place = Place {
        width: 8,
        height: 8,
        index: 0,
    };

    let choice = choose_sao(&deblocked, &input, place, 12);
    apply_sao(&deblocked, &[choice], &mut shown);

    let spike = SaoComponent {
        kind: SaoKind::Edge { class: 0 },
        offsets: [0, 0, 0, -2],
    };
    let wanted = SaoParam {
        luma: spike,
        cb: band(9, 0, -3),
        cr: band(0, 0, 0),
    };
    assert_eq!(rt; choice, wanted);
    assert_eq!(rt; shown.luma.samples(), input.luma.samples());
    assert_eq!(rt; (shown.cb.at(0, 0), shown.cb.at(3, 3)), (97, 97));
    assert_eq!(rt; shown.cr.samples(), input.cr.samples());
    Ok(())
}

/// A plane of 24 columns and 8 rows of 10, but for a row that rises by 8 a column, with these four
/// samples in its bands from the fourth on.
fn sloped(alloc: Global, four: [u8; 4]) -> Result<Plane, NoMemory>
    ensures { IfOk result (IsPlane 24 8) }
{
    let mut plane = Plane::new(alloc, 24, 8, 10)?;
    for x in 0..24u32 {
        plane.set(x, 1, (8 * x) as u8);
    }
    let [a, b, c, d] = four;
    plane.set(3, 1, a);
    plane.set(4, 1, b);
    plane.set(5, 1, c);
    plane.set(6, 1, d);
    Ok(plane)
}

/// A picture whose luma is such a slope; Cb and Cr have one value each.
fn sloped_picture(alloc: Global, four: [u8; 4], cb: u8) -> Result<Picture, NoMemory>
    ensures { IfOk result (λ p. IsPicture 24 8 p) }
{
    Ok(Picture {
        luma: sloped(alloc, four)?,
        cb: Plane::new(alloc, 12, 4, cb)?,
        cr: Plane::new(alloc, 12, 4, 50)?,
    })
}

/// Sixteen columns of luma are done at once, and the last sixteen are again; Cb has fewer.
#[test]
fn bands_overlap_in_24_columns(rt: HostRuntime) -> Result<(), Fail> {
    let deblocked = sloped_picture(rt.alloc(), [24, 32, 40, 48], 100)?;
    let input = sloped_picture(rt.alloc(), [27, 34, 37, 44], 104)?;
    let mut shown = sloped_picture(rt.alloc(), [0, 0, 0, 0], 0)?;
    let place = Place {
        width: 24,
        height: 8,
        index: 0,
    };

    let choice = choose_sao(&deblocked, &input, place, 12);
    apply_sao(&deblocked, &[choice], &mut shown);

    let four = SaoComponent {
        kind: SaoKind::Band { position: 3 },
        offsets: [3, 2, -3, -4],
    };
    assert_eq!(rt; choice.luma, four);
    assert_eq!(rt; shown.luma.samples(), input.luma.samples());
    assert_eq!(rt; shown.cb.samples(), input.cb.samples());
    assert_eq!(rt; shown.cr.samples(), input.cr.samples());
    Ok(())
}
