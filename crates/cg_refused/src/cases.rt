//! The cases, and their names.

use crate::boards::{Work, call, enter_and_tell};
use crate::histories::{apply, fold_front};
use crate::nodes::{step, step_full};
use crate::operators::lines;
use crate::samples::{Change, Kind};
use crate::trials::Outcome;
use crate::views::{Call, view};
use crate::worlds::{act, run};
use cg_types::Fault;
use std::alloc::Global;
use std::sync::Wait;

/// A call, and the object that it is made of.
#[derive(Clone, Copy)]
pub(crate) enum Case {
    /// `Node::step` at an event.
    Step(Kind),
    /// `Node::step` at a heartbeat of one of many owners, whose window has a full tail.
    StepFull,
    /// `World::act` of the action in a line.
    Act(&'static str),
    /// `World::run`.
    Run,
    /// `History::apply` of an event.
    Apply(Kind),
    /// `History::fold_front`.
    FoldFront,
    /// A call of a publisher or of a pass.
    View(Call),
    /// A call of a board that does all or nothing.
    Board(Work),
    /// A call that enters an event and tells it.
    Tell(Work),
    /// An operator's lines.
    Lines(Change),
}

/// The cases by their names.
pub(crate) const CASES: [(&str, Case); 43] = [
    ("step_beat", Case::Step(Kind::Beat)),
    ("step_set", Case::Step(Kind::Set)),
    ("step_remove", Case::Step(Kind::Remove)),
    ("step_tick", Case::Step(Kind::Tick)),
    ("step_opening", Case::Step(Kind::Opening)),
    ("step_syn", Case::Step(Kind::Syn)),
    ("step_ack", Case::Step(Kind::Ack)),
    ("step_ack2", Case::Step(Kind::Ack2)),
    ("step_full_window", Case::StepFull),
    ("act_start", Case::Act("start 10.0.0.4:7000 3")),
    ("act_restart", Case::Act("start 10.0.0.1:7000 10")),
    ("act_beat", Case::Act("beat 10.0.0.1:7000")),
    (
        "act_set",
        Case::Act("set 10.0.0.1:7000 2 00000000000000000000000000000040"),
    ),
    ("act_remove", Case::Act("remove 10.0.0.1:7000 2")),
    ("act_tick", Case::Act("tick 10.0.0.1:7000 3000 7 3 5 9")),
    ("act_opening", Case::Act("open 10.0.0.1:7000")),
    (
        "act_deliver_syn",
        Case::Act("deliver 12 10.0.0.1:7000 3000"),
    ),
    (
        "act_deliver_ack",
        Case::Act("deliver 11 10.0.0.1:7000 3000"),
    ),
    (
        "act_deliver_ack2",
        Case::Act("deliver 14 10.0.0.1:7000 3000"),
    ),
    ("run", Case::Run),
    ("apply_beat", Case::Apply(Kind::Beat)),
    ("apply_set", Case::Apply(Kind::Set)),
    ("apply_remove", Case::Apply(Kind::Remove)),
    ("apply_tick", Case::Apply(Kind::Tick)),
    ("apply_opening", Case::Apply(Kind::Opening)),
    ("apply_syn", Case::Apply(Kind::Syn)),
    ("apply_ack", Case::Apply(Kind::Ack)),
    ("apply_ack2", Case::Apply(Kind::Ack2)),
    ("fold_front", Case::FoldFront),
    ("append_all", Case::View(Call::AppendAll)),
    ("publish", Case::View(Call::Publish)),
    ("first_read_takes_none", Case::View(Call::FirstRead)),
    ("second_read_takes_none", Case::View(Call::SecondRead)),
    ("enter", Case::Board(Work::Enter(Change::Set))),
    ("enter_remove", Case::Board(Work::Enter(Change::Remove))),
    ("catch_up", Case::Board(Work::CatchUp)),
    ("fold", Case::Board(Work::Fold)),
    ("submit", Case::Tell(Work::Submit(Change::Set))),
    ("submit_remove", Case::Tell(Work::Submit(Change::Remove))),
    ("gate_event", Case::Tell(Work::Gate(Change::Set))),
    ("gate_remove", Case::Tell(Work::Gate(Change::Remove))),
    ("operate", Case::Lines(Change::Set)),
    ("operate_remove", Case::Lines(Change::Remove)),
];

impl Case {
    /// Makes the call of a twin and of the object. An operator's lines have their texts in place of a twin.
    pub(crate) fn outcome<R: Wait>(self, rt: &R, alloc: Global) -> Result<Outcome, Fault> {
        match self {
            Case::Step(kind) => step(alloc, kind),
            Case::StepFull => step_full(alloc),
            Case::Act(line) => act(alloc, line),
            Case::Run => run(alloc),
            Case::Apply(kind) => apply(alloc, kind),
            Case::FoldFront => fold_front(alloc),
            Case::View(call) => view(rt, alloc, call),
            Case::Board(work) => call(rt, alloc, work),
            Case::Tell(work) => enter_and_tell(rt, alloc, work),
            Case::Lines(change) => lines(rt, alloc, change),
        }
    }
}
