//! The layout that a frame is read in.

ghost use Rattle.std.specs.Prelude.{◌≡◌};
ghost use Rattle.std.specs.Option.{option_copied};
ghost use Rattle.cg_frames.specs.Choosing as spec;

use crate::layout::{LAYOUT_1, Layout};

// The layout that a byte names.
fn named(layouts: &[Layout], byte: u8) -> Option<Layout>
    ensures { result ≡ spec.layout_with_byte layouts.now byte }
{
    layouts.iter().copied().find(|layout| layout.byte == byte)
}

// The one with the longer frames; the first if both are as long.
fn wider(a: Layout, b: Layout) -> Layout
    ensures { result ≡ spec.wider a b }
{
    if a.length < b.length { b } else { a }
}

// The layout with the longest frames; `LAYOUT_1` of no layouts.
fn widest(layouts: &[Layout]) -> Layout
    ensures { result ≡ spec.widest layouts.now }
{
    layouts.iter().copied().reduce(wider).unwrap_or(LAYOUT_1)
}

// The expected layout: the one that the byte after the length names; if it names none, or none has come yet, the one
// with the longest frames.
#[tactic(auto, unfolding(crate::specs::Choosing::expected_layout))]
pub(crate) fn expected_layout(layouts: &[Layout], bytes: &[u8]) -> Layout
    ensures { result ≡ spec.expected_layout layouts.now bytes.now }
{
    bytes
        .get(4)
        .and_then(|byte| named(layouts, *byte))
        .unwrap_or_else(|| widest(layouts))
}
