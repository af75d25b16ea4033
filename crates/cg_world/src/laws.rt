//! Laws of the nodes as they run, after every list of actions. Each is the contract of an empty function. Laws of the
//! same actions by places are in `cg_places`, those of exchanges and merges of nodes in hand in `exchanges.rt` and `merging.rt`.

ghost use Rattle.cg_world.specs.Headline.{HeadlineHolds};
ghost use Rattle.cg_world.specs.WorldLaws.{
  DeliveriesAreDone,
  DeliveriesFindRoom,
  EntriesAreWhole,
  EqualDigestsGiveEqualTables,
  EqualSetsGiveEqualTables,
  MergesOfNodesAreTheJoin,
  MessagesAreNumbered,
  NodesSpellPlaces,
  ActionsOneByOne,
  ReachedWorlds,
  RefusalsAgree,
  TablesAreTheJoin,
  TicksAreBeatsAndOpenings,
};
ghost use Rattle.cg_world.specs.SingleActions.{
  NodesHearByDeliveries,
  OneNodeChanges,
  RepliesAreOfSteps,
  SettingsStay,
};
ghost use Rattle.cg_world.specs.Taken.{OutcomesTellWhatIsTaken};
ghost use Rattle.cg_world.specs.WorkedRuns.{WorkedRuns};
ghost use Rattle.cg_world.specs.Exchange.{
  ExchangesEndAtTheJoin,
  ExchangesAreLists,
  TickedExchangesFollowBeats,
  UndisturbedExchangesMerge,
};

// ---- the headline

/// The headline: after any actions each node's table is the join of its own entry and the deltas it took since its
/// start. The join holds of each owner the furthest of these. Each entry was its owner's own, whole, at one past time.
/// So equal sets give equal tables, and equal digests give equal tables and rings. A node's own entry changes by its
/// starts, beats, sets and removals alone, and each delta that it is handed has an outcome.
pub fn headline()
    ensures { HeadlineHolds }
{}

/// Each node's table is the join of its own newest entry and of the entries to which the deltas led that it took since
/// its start. Each entry in it is its owner's whole entry at one past place, and it has no more entries than owners
/// started.
pub fn tables_are_the_join()
    ensures { TablesAreTheJoin }
{}

/// Each entry in a node's table is the whole own entry that its owner had after some of the first actions.
pub fn entries_are_whole()
    ensures { EntriesAreWhole }
{}

/// Nodes that took the same have equal tables and equal rings, in any order and number of deliveries.
pub fn equal_sets_give_equal_tables()
    ensures { EqualSetsGiveEqualTables }
{}

/// Nodes with equal digests have equal tables and equal rings.
pub fn equal_digests_give_equal_tables()
    ensures { EqualDigestsGiveEqualTables }
{}

// ---- merges

/// The merged tables of three nodes spell the join of their places, and hold no more than owners started.
pub fn merges_of_nodes_are_the_join()
    ensures { MergesOfNodesAreTheJoin }
{}

// ---- single actions, and the worlds after them

/// The world after a list of actions and one more is what the last action makes of the world after the list.
pub fn actions_one_by_one()
    ensures { ActionsOneByOne }
{}

/// An action adds at most one message, at the end of those that were sent: the one that the node's reply has.
pub fn messages_are_numbered()
    ensures { MessagesAreNumbered }
{}

/// A tick is a beat and then an opening. It is refused if the beat is, by the same fault, and sends the SYN that an
/// opening sends after the beat.
pub fn ticks_are_beats_and_openings()
    ensures { TicksAreBeatsAndOpenings }
{}

/// The spans that a node took since its start are those that the outcomes in its replies report. A delivery that is
/// done has one outcome for each delta of the message. The node has taken one span more of each whose outcome is no
/// gap. A start forgets all, and nothing else changes it.
pub fn outcomes_tell_what_is_taken()
    ensures { OutcomesTellWhatIsTaken }
{}

/// A local action or a delivery has a reply exactly if it is done, and a start has none. A beat, a set and a removal
/// return the version that they gave. A tick returns the peers that are chosen after its beat, at its time and with its
/// words, and a delivery the outcome of each delta.
pub fn replies_are_of_steps()
    ensures { RepliesAreOfSteps }
{}

/// An action changes no node except the one that it is about.
pub fn one_node_changes()
    ensures { OneNodeChanges }
{}

/// A node that starts has heard of nobody, and its own events leave its windows unchanged. At a delivery each delta
/// that it took is an arrival of its owner at the time of that delivery.
pub fn nodes_hear_by_deliveries()
    ensures { NodesHearByDeliveries }
{}

/// Each node keeps the settings that were given, after any actions.
pub fn settings_stay()
    ensures { SettingsStay }
{}

/// The nodes refuse what the places refuse, by the same fault. They refuse changes by a node whose versions are spent,
/// removals of a key without a text, and starts in a generation that does not rise or of one node too many. They refuse
/// deliveries of messages that were never sent, and local events of a node that does not run, or deliveries to it.
pub fn refusals_agree()
    ensures { RefusalsAgree }
{}

/// A delivery is refused only if there is no such message or no such node. None finds a table full, and none comes from
/// another cluster.
pub fn deliveries_find_room()
    ensures { DeliveriesFindRoom }
{}

/// A delivery is done if its message was sent and the node that it is handed to runs.
pub fn deliveries_are_done()
    ensures { DeliveriesAreDone }
{}

/// The nodes that run hold and have sent what the places of the same actions say, after every list of actions. Refused
/// actions may be in the list. The same nodes run, each table spells its node's places, and each message the one by
/// places of its number. All nodes have the settings and the endpoint that they started with.
pub fn nodes_spell_places()
    ensures { NodesSpellPlaces }
{}

/// The world before any action is reached by some actions, and each action leads from a reached world to a reached one.
pub fn reached_worlds()
    ensures { ReachedWorlds }
{}

/// The first worked exchange runs on nodes with any settings: none of its actions is refused, and each node then holds
/// the other's entry.
pub fn worked_runs()
    ensures { WorkedRuns }
{}

/// An exchange between two nodes that run takes both tables to the merge of what the two held, or past it, unless one
/// restarts meanwhile.
///
/// The merge is that of what the opener held when it opened and the answerer when it answered. One more merge with that
/// changes neither table. Any other actions may come between its messages.
pub fn exchanges_end_at_the_join()
    ensures { ExchangesEndAtTheJoin }
{}

/// An exchange between two nodes that run leaves both with equal tables and rings if nothing is done between its
/// messages.
///
/// Their table is the merge of the two that they held.
pub fn undisturbed_exchanges_merge()
    ensures { UndisturbedExchangesMerge }
{}

/// An exchange between nodes that run is the list of its actions.
pub fn exchanges_are_lists()
    ensures { ExchangesAreLists }
{}

/// An exchange whose SYN a tick sent is the exchange after a beat.
pub fn ticked_exchanges_follow_beats()
    ensures { TickedExchangesFollowBeats }
{}
