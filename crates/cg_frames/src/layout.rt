//! The layouts of frames.

/// A layout of frames: its byte, its limits, and whether it has tombstones. The fields of a frame, and their order, are
/// the same in each.
#[derive(Clone, Copy, Debug, PartialEq, Eq)]
pub struct Layout {
    /// The byte that names the layout, after the length.
    pub byte: u8,
    /// The most members of a list; the count has two bytes.
    pub members: usize,
    /// The most bytes of a state's text; its length has two bytes.
    pub text: usize,
    /// The most bytes after the length, which has four bytes.
    pub length: usize,
    /// `true` if a state's length may be that of a tombstone: the key's text was removed, and no text follows.
    pub tombstones: bool,
}

/// The first layout. Its numbers are its own: members of other versions read and write by them, so a change of what
/// messages may hold leaves them unchanged.
pub const LAYOUT_1: Layout = Layout {
    byte: 1,
    members: 256,
    text: 1_024,
    length: 5_000_000,
    tombstones: false,
};

/// The second layout: more members, longer texts and longer frames than in the first.
pub const LAYOUT_2: Layout = Layout {
    byte: 2,
    members: 512,
    text: 4_096,
    length: 40_000_000,
    tombstones: false,
};

/// The third layout: that of the second, with tombstones.
pub const LAYOUT_3: Layout = Layout {
    byte: 3,
    members: 512,
    text: 4_096,
    length: 40_000_000,
    tombstones: true,
};

/// The layout that frames are written in.
pub const WRITTEN: Layout = LAYOUT_3;

/// The layouts that frames are read in, distinguished by their bytes.
pub const LAYOUTS: [Layout; 3] = [LAYOUT_1, LAYOUT_2, LAYOUT_3];
