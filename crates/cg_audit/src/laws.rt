//! Laws of one run: the search that finds it by turns, and the headline of the tables at the end of the last lives, each the contract of an empty function.

ghost use Rattle.cg_audit.specs.Laws.{OrdersAreRuns, StuckLivesAreNoRun, HeadsCanNotGo};
ghost use Rattle.cg_audit.specs.RunHeadline.{RunsHaveTheHeadline};
ghost use Rattle.cg_audit.specs.RunWorld.{RunsHaveAWorld};

/// An order that turns find is one run if generations rise.
pub fn orders_are_runs()
    ensures { OrdersAreRuns }
{}

/// No order is one run if turns find none.
pub fn stuck_lives_are_no_run()
    ensures { StuckLivesAreNoRun }
{}

/// None of the next items can go if turns find no order.
///
/// The items gone are in an order as a run has it, and the next item of each endpoint is among the heads. No head can
/// go.
pub fn heads_can_not_go()
    ensures { HeadsCanNotGo }
{}

/// The headline is true of the table at the end of each endpoint's last life, if the lives are one run.
///
/// The table holds of each owner the furthest of the node's own entry and of those to which the deltas led that it took
/// since its start. Each was its owner's own, whole, at one past time. So equal sets give equal tables, and equal
/// digests give equal tables and rings.
pub fn runs_have_the_headline()
    ensures { RunsHaveTheHeadline }
{}

/// The tables at the end of the last lives, if the lives are one run, are those of the world by places after the order:
/// after an action for each of its items, the start of a life or the event of a record.
pub fn runs_have_a_world()
    ensures { RunsHaveAWorld }
{}
