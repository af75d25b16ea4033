//! The list of cases: their names, and the task of each.

use crate::messages::{Brings, Opens, Said};
use cg_measure::{Held, Shape};

/// A task with messages and tables.
#[derive(Clone, Copy)]
pub(crate) enum GossipTask {
    Encode(Said),
    Decode(Said),
    Check(Said),
    /// Makes a SYN of the plain table.
    Open,
    /// Answers a SYN by this table.
    Answer(Held, Opens),
    /// Takes an ACK into this table, and sends an ACK2.
    TakeAck(Held, Brings),
    /// Takes an ACK2 with the deltas of an ACK into this table.
    TakeAck2(Held, Brings),
    /// Runs an exchange that the first table opens with the second.
    Exchange(Held, Held),
}

/// The version by which an entry is asked for what is newer.
#[derive(Clone, Copy)]
pub(crate) enum Above {
    /// The newest, which is that of a state: nothing is newer.
    Newest,
    /// One below it: one state is newer.
    Below,
    /// One below the newest, which is that of the heartbeat: no state is newer.
    Beat,
    /// None: all is newer.
    Zero,
}

/// A task of one member alone: with a ring, with texts, with a window, or with an entry.
#[derive(Clone, Copy)]
pub(crate) enum LocalTask {
    BuildRing,
    /// Moves a ring to one owner's next entry.
    MoveRing,
    /// Finds the places of a thousand tokens on a ring.
    Places,
    /// Finds this number of replicas of each of a thousand tokens.
    Replicas(usize),
    /// Finds three replicas of each of a thousand keys.
    Keys,
    /// Computes a thousand MD5s.
    Digests,
    MakeTexts(Texts),
    /// Makes the texts in buffers, each of which this number of them shares.
    ShareTexts(Texts, usize),
    /// Joins texts one after the other.
    Put(Texts),
    /// Joins texts one after the other, each after seven bytes, as a state has it.
    Head(Texts),
    /// Takes two thousand arrivals at a window.
    Arrivals,
    /// Computes a thousand verdicts of a window.
    Verdicts,
    /// Asks an entry a thousand times for what is newer than this version.
    Aboves(Above),
}

/// A number of texts, each of which is a part that is repeated `times` times.
#[derive(Clone, Copy)]
pub(crate) struct Texts {
    pub(crate) part: &'static str,
    pub(crate) times: usize,
    pub(crate) count: usize,
}

const SHORT: &str = "0123456789012345678901234567890123456789012345678901234567890123";

const LONG: &str =
    "01234567890123456789012345678901234567890123456789012345678901234567890123456789\
01234567890123456789012345678901234567890123456789012345678901234567890123456789\
0123456789012345678901234567890123456789";

// As many texts as 256 endpoints have with one state of 200 bytes, with 16 of 64, and with 16 of 1,024.
const LONG_TEXTS: Texts = Texts {
    part: LONG,
    times: 1,
    count: 256,
};

const SHORT_TEXTS: Texts = Texts {
    part: SHORT,
    times: 1,
    count: 4096,
};

const LONGEST_TEXTS: Texts = Texts {
    part: SHORT,
    times: 16,
    count: 4096,
};

/// The shape of the tables of the first cases.
pub(crate) const SMALL_SHAPE: Shape = Shape {
    owners: 256,
    states: 16,
    text: 64,
};

/// The shape of tables that are full.
pub(crate) const WIDE_SHAPE: Shape = Shape {
    owners: 512,
    states: 16,
    text: 64,
};

/// The shapes of tables, each with its tag.
pub(crate) const SHAPES: [(&str, Shape); 3] = [
    (
        "1x200",
        Shape {
            owners: 256,
            states: 1,
            text: 200,
        },
    ),
    ("16x64", SMALL_SHAPE),
    (
        "16x1024",
        Shape {
            owners: 256,
            states: 16,
            text: 1024,
        },
    ),
];

const SYN: Said = Said::Syn(Opens::Plain);

const BEATS: Said = Said::Ack(Brings::Beats);

const WHOLE: Said = Said::Ack(Brings::Whole);

/// A SYN of 256 digests, and the ACK that brings 256 heartbeats.
pub(crate) const SMALL: [(&str, &str, &str, GossipTask); 7] = [
    ("encode", "syn", "256", GossipTask::Encode(SYN)),
    ("decode", "syn", "256", GossipTask::Decode(SYN)),
    ("check", "syn", "256", GossipTask::Check(SYN)),
    ("encode", "beats", "256", GossipTask::Encode(BEATS)),
    ("decode", "beats", "256", GossipTask::Decode(BEATS)),
    ("check", "beats", "256", GossipTask::Check(BEATS)),
    ("make", "syn", "256", GossipTask::Open),
];

/// The tasks of a round of heartbeats at full tables.
pub(crate) const WIDE: [(&str, &str, GossipTask); 6] = [
    ("encode", "beats", GossipTask::Encode(BEATS)),
    ("decode", "beats", GossipTask::Decode(BEATS)),
    ("check", "beats", GossipTask::Check(BEATS)),
    (
        "take_ack_bytes",
        "beats",
        GossipTask::TakeAck(Held::Plain, Brings::Beats),
    ),
    (
        "take_ack2",
        "beats",
        GossipTask::TakeAck2(Held::Plain, Brings::Beats),
    ),
    (
        "exchange",
        "equal",
        GossipTask::Exchange(Held::Plain, Held::Other),
    ),
];

/// The tasks of a seed node at tables of each shape.
pub(crate) const SHAPED: [(&str, &str, GossipTask); 18] = [
    ("encode", "whole", GossipTask::Encode(WHOLE)),
    ("decode", "whole", GossipTask::Decode(WHOLE)),
    ("check", "whole", GossipTask::Check(WHOLE)),
    (
        "answer_syn_bytes",
        "equal",
        GossipTask::Answer(Held::Other, Opens::Plain),
    ),
    (
        "answer_syn_bytes",
        "beats",
        GossipTask::Answer(Held::Beats, Opens::Plain),
    ),
    (
        "answer_syn_bytes",
        "one",
        GossipTask::Answer(Held::FirstState, Opens::Plain),
    ),
    (
        "answer_syn_bytes",
        "empty",
        GossipTask::Answer(Held::Other, Opens::Nobody),
    ),
    (
        "take_ack_bytes",
        "join",
        GossipTask::TakeAck(Held::Alone, Brings::Whole),
    ),
    (
        "take_ack2",
        "join",
        GossipTask::TakeAck2(Held::Alone, Brings::Whole),
    ),
    (
        "take_ack_bytes",
        "beats",
        GossipTask::TakeAck(Held::Plain, Brings::Beats),
    ),
    (
        "take_ack2",
        "beats",
        GossipTask::TakeAck2(Held::Plain, Brings::Beats),
    ),
    (
        "take_ack_bytes",
        "one",
        GossipTask::TakeAck(Held::Plain, Brings::FirstState),
    ),
    (
        "take_ack2",
        "one",
        GossipTask::TakeAck2(Held::Plain, Brings::FirstState),
    ),
    (
        "take_ack_bytes",
        "single",
        GossipTask::TakeAck(Held::Plain, Brings::Single),
    ),
    (
        "take_ack2",
        "single",
        GossipTask::TakeAck2(Held::Plain, Brings::Single),
    ),
    (
        "exchange",
        "equal",
        GossipTask::Exchange(Held::Plain, Held::Other),
    ),
    (
        "exchange",
        "beats",
        GossipTask::Exchange(Held::EvenBeats, Held::OddBeats),
    ),
    (
        "exchange",
        "join",
        GossipTask::Exchange(Held::Alone, Held::Other),
    ),
];

/// Rings, texts in the library's buffers, windows of silence, and entries.
pub(crate) const LOCAL: [(&str, &str, &str, LocalTask); 25] = [
    ("ring", "build", "256x16", LocalTask::BuildRing),
    ("ring", "moved", "256x16", LocalTask::MoveRing),
    ("1000", "searches", "4096", LocalTask::Places),
    ("1000", "replicas", "rf1", LocalTask::Replicas(1)),
    ("1000", "replicas", "rf3", LocalTask::Replicas(3)),
    ("1000", "keys_to_replicas", "rf3", LocalTask::Keys),
    ("1000", "digests", "md5", LocalTask::Digests),
    ("texts", "made", "256x200", LocalTask::MakeTexts(LONG_TEXTS)),
    (
        "texts",
        "shared",
        "256x200",
        LocalTask::ShareTexts(LONG_TEXTS, 1),
    ),
    ("texts", "put", "256x200", LocalTask::Put(LONG_TEXTS)),
    ("texts", "headed", "256x200", LocalTask::Head(LONG_TEXTS)),
    (
        "texts",
        "made",
        "4096x64",
        LocalTask::MakeTexts(SHORT_TEXTS),
    ),
    (
        "texts",
        "shared",
        "4096x64",
        LocalTask::ShareTexts(SHORT_TEXTS, 16),
    ),
    ("texts", "put", "4096x64", LocalTask::Put(SHORT_TEXTS)),
    ("texts", "headed", "4096x64", LocalTask::Head(SHORT_TEXTS)),
    (
        "texts",
        "made",
        "4096x1024",
        LocalTask::MakeTexts(LONGEST_TEXTS),
    ),
    (
        "texts",
        "shared",
        "4096x1024",
        LocalTask::ShareTexts(LONGEST_TEXTS, 16),
    ),
    ("texts", "put", "4096x1024", LocalTask::Put(LONGEST_TEXTS)),
    (
        "texts",
        "headed",
        "4096x1024",
        LocalTask::Head(LONGEST_TEXTS),
    ),
    ("silence", "2000_arrived", "w1000", LocalTask::Arrivals),
    ("silence", "1000_verdicts", "w1000", LocalTask::Verdicts),
    (
        "1000",
        "aboves_16x64",
        "newest",
        LocalTask::Aboves(Above::Newest),
    ),
    (
        "1000",
        "aboves_16x64",
        "below",
        LocalTask::Aboves(Above::Below),
    ),
    (
        "1000",
        "aboves_16x64",
        "beat",
        LocalTask::Aboves(Above::Beat),
    ),
    (
        "1000",
        "aboves_16x64",
        "zero",
        LocalTask::Aboves(Above::Zero),
    ),
];
