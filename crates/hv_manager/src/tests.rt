//! What no clause says: that there is room where there is memory, and worked cases.
ghost use Rattle.std.specs.Prelude.{◌≡◌, ◌≤◌, IfOk};
ghost use Rattle.hv_types.specs.Configuration.{most_levels};
ghost use Rattle.hv_manager.specs.Progress.{opening};

use crate::Refs;
use hv_decision::Structure;
use hv_types::NoMemory;
use std::alloc::Global;
use std::test::Fail;

/// The pictures of a group of this count and these levels, of which none is begun.
fn refs_of(alloc: Global, count: u8, levels: u8) -> Result<Refs, NoMemory>
    requires some { 1 ≤ count }
    requires most { count ≤ 64 }
    requires levels_most { levels ≤ most_levels }
    ensures { IfOk result (λ r. r ≡ opening count levels) }
{
    let structure = Structure::of(alloc, count, levels)?;
    Refs::new(alloc, &structure)
}

/// Picture 2 refers to picture 0, and picture 1, which is coded last, to both.
#[test]
fn three_pictures(rt: HostRuntime) -> Result<(), Fail> {
    let mut refs = refs_of(rt.alloc(), 3, 1)?;
    assert_eq!(rt; refs.next(), Some(0));
    refs.begin(0);
    assert_eq!(rt; refs.next(), Some(2));
    refs.begin(2);
    assert_eq!(rt; refs.next(), Some(1));
    refs.begin(1);
    assert_eq!(rt; refs.next(), None);
    assert_eq!(rt;
        (refs.ready(0), refs.ready(2), refs.ready(1)),
        (true, false, false)
    );
    refs.filtered(0);
    assert_eq!(rt; (refs.ready(2), refs.ready(1)), (true, false));
    refs.filtered(2);
    assert!(rt; refs.ready(1));
    refs.filtered(1);
    assert_eq!(rt; (refs.live(0), refs.live(2), refs.live(1)), (3, 2, 1));
    refs.finished(0);
    assert_eq!(rt; (refs.live(0), refs.live(2), refs.live(1)), (2, 2, 1));
    refs.finished(2);
    assert_eq!(rt; (refs.live(0), refs.live(2), refs.live(1)), (1, 1, 1));
    refs.finished(1);
    assert_eq!(rt; (refs.live(0), refs.live(2), refs.live(1)), (0, 0, 0));
    Ok(())
}

/// The pictures 0, 4 and 8 are each named by themselves and four others, 2 and 6 by themselves and
/// two others, and the rest by themselves.
#[test]
fn live_of_ten_pictures(rt: HostRuntime) -> Result<(), Fail> {
    let refs = refs_of(rt.alloc(), 10, 3)?;
    let mut live = Vec::new(rt.alloc());
    for k in 0..10 {
        live.push(refs.live(k))?;
    }
    assert_eq!(rt; live.as_slice(), [5, 1, 3, 1, 5, 1, 3, 1, 5, 1].as_slice());
    Ok(())
}

/// Whichever allocation is refused, the answer is that there was not enough memory.
#[test]
fn answers_want_of_memory(rt: HostRuntime) {
    let _ = refs_of(rt.alloc(), 64, 3);
}
