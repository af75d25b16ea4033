//! The list of a node's cases: their names and their tasks.

use cg_measure::Shape;

/// The task of a case, at tables of its shape if it needs any.
#[derive(Clone, Copy)]
pub(crate) enum Task {
    /// A table is copied: its entries are shared.
    Copied,
    /// A node takes one heartbeat of another.
    Heartbeat,
    /// A node beats.
    Beat,
    /// A node beats a number of times, one after the other.
    OwnBeats(u32),
    /// A node sets one key.
    Set,
    /// A node removes the text that it set.
    Remove,
    /// A node that holds itself alone takes all others, who claim tokens.
    Joins,
    /// A node sets its own `STATUS`, where all claim tokens.
    SetStatus,
    /// A node takes the `STATUS` of another, where all claim tokens.
    TakesStatus,
    /// A node whose windows are full takes this number of heartbeats of each other.
    Beats(u32),
    /// An exchange of two nodes that hold the same, over links in memory.
    Links,
    /// A node handles the frame of a SYN of one that holds the same: from bytes to bytes.
    Handles,
    /// The ACK that brings a whole table is read from a link.
    Receive,
    /// A number of heartbeats, one by one.
    Steps(u32),
    /// The same as records of a history.
    Records(u32),
    /// The same, of which a hundred records are folded whenever two hundred are kept.
    Folded(u32),
    /// A hundred thousand receipts of `callers` callers, who beat in turn, are confirmed: from one to the next, the
    /// number rises by `rise`.
    Confirms { callers: u32, rise: u32 },
    /// A script of a number of nodes and of rounds is played.
    Play(u16, u32),
    /// The actions of such a script are done.
    Act(u16, u32),
}

/// A case: its name (the work, its object, and a tag), its task, and the shape of its tables.
pub(crate) type Case = (&'static str, &'static str, &'static str, Task, Shape);

const SMALLEST: Shape = Shape {
    owners: 256,
    states: 1,
    text: 200,
};

const MIDDLE: Shape = Shape {
    owners: 256,
    states: 16,
    text: 64,
};

/// The greatest shape of an entry.
pub(crate) const LARGEST: Shape = Shape {
    owners: 256,
    states: 16,
    text: 1024,
};

// A full table of such entries.
const WIDE: Shape = Shape {
    owners: 512,
    states: 16,
    text: 64,
};

const ONE_CALLER: Task = Task::Confirms {
    callers: 1,
    rise: 1,
};

const EACH_A_CALLER: Task = Task::Confirms {
    callers: 100_000,
    rise: 1,
};

const CALLER_BY_CALLER: Task = Task::Confirms {
    callers: 250,
    rise: 250,
};

/// All cases: copies of tables and steps of nodes at each shape, at claims of tokens and at full windows, exchanges over
/// links, histories, and scripts of 8 nodes with a hundred thousand lines and of 256 nodes.
pub(crate) const ALL: [Case; 34] = [
    ("table", "copied", "1x200", Task::Copied, SMALLEST),
    ("table", "copied", "16x64", Task::Copied, MIDDLE),
    ("table", "copied", "16x1024", Task::Copied, LARGEST),
    ("node", "heartbeat", "1x200", Task::Heartbeat, SMALLEST),
    ("node", "beat", "1x200", Task::Beat, SMALLEST),
    ("node", "set", "1x200", Task::Set, SMALLEST),
    ("node", "remove", "1x200", Task::Remove, SMALLEST),
    ("node", "heartbeat", "16x64", Task::Heartbeat, MIDDLE),
    ("node", "beat", "16x64", Task::Beat, MIDDLE),
    ("node", "set", "16x64", Task::Set, MIDDLE),
    ("node", "remove", "16x64", Task::Remove, MIDDLE),
    ("node", "heartbeat", "16x1024", Task::Heartbeat, LARGEST),
    ("node", "beat", "16x1024", Task::Beat, LARGEST),
    ("node", "set", "16x1024", Task::Set, LARGEST),
    ("node", "remove", "16x1024", Task::Remove, LARGEST),
    ("node", "joins", "256x16", Task::Joins, SMALLEST),
    ("node", "set_status", "256x16", Task::SetStatus, SMALLEST),
    (
        "node",
        "takes_status",
        "256x16",
        Task::TakesStatus,
        SMALLEST,
    ),
    ("node", "handles_equal_syn", "256x16", Task::Handles, MIDDLE),
    ("1000", "node_beats", "16x64", Task::OwnBeats(1000), MIDDLE),
    ("64", "node_beats_256", "w1000", Task::Beats(64), MIDDLE),
    ("64", "node_beats_512", "w1000", Task::Beats(64), WIDE),
    ("links", "equal", "16x64", Task::Links, MIDDLE),
    ("receive", "whole", "16x1024", Task::Receive, LARGEST),
    (
        "steps",
        "1000_heartbeats",
        "16x1024",
        Task::Steps(1000),
        LARGEST,
    ),
    (
        "records",
        "1000_heartbeats",
        "16x1024",
        Task::Records(1000),
        LARGEST,
    ),
    (
        "records",
        "folded_1000_heartbeats",
        "16x1024",
        Task::Folded(1000),
        LARGEST,
    ),
    ("confirms", "by_number", "1", ONE_CALLER, SMALLEST),
    ("confirms", "by_number", "100000", EACH_A_CALLER, SMALLEST),
    ("confirms", "by_caller", "250", CALLER_BY_CALLER, SMALLEST),
    (
        "script",
        "played",
        "8x100000",
        Task::Play(8, 16656),
        SMALLEST,
    ),
    ("script", "acted", "8x100000", Task::Act(8, 16656), SMALLEST),
    (
        "script",
        "played",
        "256x8296",
        Task::Play(256, 1000),
        SMALLEST,
    ),
    (
        "script",
        "acted",
        "256x8296",
        Task::Act(256, 1000),
        SMALLEST,
    ),
];
