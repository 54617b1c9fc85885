//! The NAL units of a byte stream (Annex B).

use std::alloc::{AllocError, Global};

/// Where a NAL unit stands in a stream: its first byte, and the one behind its last.
#[derive(Clone, Copy)]
pub(crate) struct Span {
    pub(crate) from: usize,
    pub(crate) to: usize,
}

/// The NAL units: each begins behind a start code, and ends before the zeros in front of the next.
pub(crate) fn find_units(alloc: Global, stream: &[u8]) -> Result<Vec<Span>, AllocError> {
    let mut spans: Vec<Span> = Vec::new(alloc);
    let mut begun = None;
    for at in 0..stream.len() {
        if begins_code(stream, at) {
            if let Some(from) = begun {
                let to = end_of(stream, from, at);
                spans.push(Span { from, to })?;
            }
            begun = Some(at.saturating_add(3));
        }
    }
    if let Some(from) = begun {
        let to = end_of(stream, from, stream.len());
        spans.push(Span { from, to })?;
    }
    Ok(spans)
}

/// Whether start_code_prefix_one_3bytes stands here.
fn begins_code(stream: &[u8], at: usize) -> bool {
    at < stream.len()
        && stream.len() - at >= 3
        && stream[at] == 0
        && stream[at + 1] == 0
        && stream[at + 2] == 1
}

/// The end of the unit between these places, without the zeros at its end.
fn end_of(stream: &[u8], from: usize, to: usize) -> usize {
    let mut end = from;
    for at in from..to.min(stream.len()) {
        if stream[at] != 0 {
            end = at + 1;
        }
    }
    end
}
