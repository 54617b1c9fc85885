//! The offsets that were read, where they are valid (7.4.9.3).

ghost use Rattle.std.specs.Prelude.{◌≡◌, ◌<◌, IfOk, IfSome, IsTrue, All};
ghost use Rattle.hv_filter_model.specs.SampleAdaptiveOffset.{IsBetween, offset_at, HaveOneType, IsValidComponent, IsValidParam};
ghost use Rattle.hv_plan.specs.declared.offsets.SaoKind.TheVariants.{Off, Band, Edge};

use hv_plain_units::CodedBlock;
use hv_plan::{SaoComponent, SaoKind, SaoParam};
use std::alloc::{AllocError, Global};

/// The offsets of each block; none where some aren't valid.
pub(crate) fn valid_offsets(
    alloc: Global,
    coded: &[CodedBlock],
) -> Result<Option<Vec<SaoParam>>, AllocError>
    ensures { IfOk result (λ found. IfSome found (λ offsets. All IsValidParam offsets.items)) }
{
    let mut offsets: Vec<SaoParam> = Vec::new(alloc);
    for number in 0..coded.len() {
        let param = coded[number].sao;
        if !is_valid(param) {
            return Ok(None);
        }
        offsets.push(param)?;
    }
    Ok(Some(offsets))
}

/// Whether offsets may be coded.
fn is_valid(param: SaoParam) -> bool
    ensures { IsTrue result → IsValidParam param }
{
    is_valid_component(param.luma)
        && is_valid_component(param.cb)
        && is_valid_component(param.cr)
        && have_one_type(param.cb.kind, param.cr.kind)
}

/// Whether offsets of a component may be coded.
fn is_valid_component(component: SaoComponent) -> bool
    ensures { IsTrue result → IsValidComponent component }
{
    match component.kind {
        SaoKind::Off => is_valid_off(component),
        SaoKind::Band { position } => is_valid_band(component, position),
        SaoKind::Edge { class } => is_valid_edge(component, class),
    }
}

/// Whether no samples are offset.
fn is_valid_off(component: SaoComponent) -> bool
    requires { component.kind ≡ Off }
    ensures { IsTrue result → IsValidComponent component }
{
    if !lies_between(component, 0, 0, 0) || !lies_between(component, 1, 0, 0) {
        return false;
    }
    if !lies_between(component, 2, 0, 0) {
        return false;
    }
    lies_between(component, 3, 0, 0)
}

/// Whether the offsets of bands may be coded.
fn is_valid_band(component: SaoComponent, position: u8) -> bool
    requires { component.kind ≡ Band position }
    ensures { IsTrue result → IsValidComponent component }
{
    if position >= 32 || !lies_between(component, 0, -7, 7) {
        return false;
    }
    if !lies_between(component, 1, -7, 7) || !lies_between(component, 2, -7, 7) {
        return false;
    }
    lies_between(component, 3, -7, 7)
}

/// Whether the offsets of an edge class may be coded.
fn is_valid_edge(component: SaoComponent, class: u8) -> bool
    requires { component.kind ≡ Edge class }
    ensures { IsTrue result → IsValidComponent component }
{
    if class >= 4 || !lies_between(component, 0, 0, 7) {
        return false;
    }
    if !lies_between(component, 1, 0, 7) || !lies_between(component, 2, -7, 0) {
        return false;
    }
    lies_between(component, 3, -7, 0)
}

/// Whether offset `i` lies between two numbers.
fn lies_between(component: SaoComponent, i: usize, least: i8, most: i8) -> bool
    requires { i < 4 }
    ensures { IsTrue result → IsBetween least most (offset_at component i) }
{
    if component.offsets[i] < least {
        return false;
    }
    component.offsets[i] <= most
}

/// Whether two components of chroma have one type and one class.
fn have_one_type(cb: SaoKind, cr: SaoKind) -> bool
    ensures { IsTrue result → HaveOneType cb cr }
{
    match (cb, cr) {
        (SaoKind::Off, SaoKind::Off) => true,
        (SaoKind::Band { .. }, SaoKind::Band { .. }) => true,
        (SaoKind::Edge { class }, SaoKind::Edge { class: other }) => class == other,
        _ => false,
    }
}
