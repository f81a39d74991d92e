//! Which bytes of an image belong to which part.

ghost use Rattle.std.specs.Prelude.{◌≡◌, ◌+◌, ◌≤◌, IfOk, length};
ghost use Rattle.player_build.specs.Joined.{Follow, zero_span, AreSpansOf};
ghost use Rattle.player_build.specs.Spans.{parts_of_spans};

use crate::image::{PartSpan, SpanList};
use base::{Items, NoMemory};
use image_parts::ALWAYS;
use std::alloc::Global;

/// A zero at a place.
fn zero_span(start: u16) -> PartSpan
    ensures { result ≡ zero_span start }
{
    PartSpan {
        part: ALWAYS,
        start,
        length: 1,
    }
}

/// The spans of a code whose bytes have these parts, each as long as bytes of one part stand one behind the other.
fn code_spans(alloc: Global, code: &[u8]) -> Result<Items<PartSpan>, NoMemory>
    requires { length code.now ≤ 0xD000 }
    ensures follow { IfOk result (λ spans. Follow 0 spans (length code.now)) }
    ensures parts { IfOk result (λ spans. parts_of_spans spans ≡ code.now) }
{
    let mut spans = Items::new(alloc);
    let mut open = PartSpan {
        part: ALWAYS,
        start: 0,
        length: 0,
    };
    for part in code {
        if *part == open.part {
            open.length += 1;
        } else {
            spans.push(open)?;
            open = PartSpan {
                part: *part,
                start: open.start + open.length,
                length: 1,
            };
        }
    }
    spans.push(open)?;
    Ok(spans)
}

/// The spans of an image whose code has these parts: those of the code, and the two zeros among the lists, between which so
/// many rows of the speed table stand.
pub(crate) fn image_spans(alloc: Global, code: &[u8], speeds: u16) -> Result<SpanList, NoMemory>
    requires fits { length code.now ≤ 0xD000 }
    requires speeds { speeds ≤ 255 }
    ensures { IfOk result (AreSpansOf code.now speeds) }
{
    let size = code.len() as u16;
    let mut spans = code_spans(alloc, code)?;
    spans.push(zero_span(size))?;
    spans.push(zero_span(size + 1 + speeds))?;
    Ok(SpanList { spans })
}
