//! Laws of places, of messages that spell them, and of a node's step, each the contract of an empty function.

ghost use Rattle.cg_places.specs.Laws.{
  ActionsMakeWorlds,
  DoneActionsKeepLimits,
  EqualSourcesEqualPlaces,
  ExchangesAreDone,
  PlaceExchangesAreLists,
  ExchangesReachTheJoin,
  HistoriesContinue,
  JoinsAreLeast,
  PlacesAreJoins,
  UndisturbedExchangesEqual,
};
ghost use Rattle.cg_places.specs.Spelling.{SpellingStays, TablesFollow};
ghost use Rattle.cg_places.specs.TableLaws.{
  EqualDigestsEqualTables,
  EqualSourcesEqualTables,
  MergesAreJoined,
  TablesAreJoined,
  TablesFindRoom,
};
ghost use Rattle.cg_places.specs.WorkedPlaces.{WorkedPlaces};
ghost use Rattle.cg_places.specs.MessageLaws.{
  Ack2IsTaken,
  AckIsTaken,
  RulesStand,
  SynIsAnswered,
  SynSaysPlaces,
};
ghost use Rattle.cg_places.specs.Step.{StepsAreByPlaces};

/// Each owner's entries are a history, and each place and each message is in it. A node's place of its own entry is the
/// newest, and the owners are those that started.
pub fn actions_make_worlds()
    ensures { ActionsMakeWorlds }
{}

/// Each entry of a history stays at its place, after any action.
pub fn histories_continue()
    ensures { HistoriesContinue }
{}

/// A node's places are the join of its own newest place and of the places to which the spans lead that it took since
/// its start.
pub fn places_are_joins()
    ensures { PlacesAreJoins }
{}

/// Nodes that took the same have the same places.
pub fn equal_sources_equal_places()
    ensures { EqualSourcesEqualPlaces }
{}

/// The join is the least that is at or past all three, in any grouping and order.
pub fn joins_are_least()
    ensures { JoinsAreLeast }
{}

/// An exchange takes both of its nodes to the join of what they held or past it, unless one restarts on the way. Any
/// other actions may come between its messages.
pub fn exchanges_reach_the_join()
    ensures { ExchangesReachTheJoin }
{}

/// An exchange with nothing between its messages leaves both nodes with the same places.
pub fn undisturbed_exchanges_equal()
    ensures { UndisturbedExchangesEqual }
{}

/// An exchange is the list of its actions.
pub fn exchanges_are_lists()
    ensures { PlaceExchangesAreLists }
{}

/// An exchange is done if its refused actions are left out: none of its own steps is refused.
pub fn exchanges_are_done()
    ensures { ExchangesAreDone }
{}

/// Owners are few and versions below their limit if no action was refused.
pub fn done_actions_keep_limits()
    ensures { DoneActionsKeepLimits }
{}

/// Tables and messages go on to spell what they spelled if histories go on.
pub fn spelling_stays()
    ensures { SpellingStays }
{}

/// Tables that spell the places of all nodes follow each change of the world.
pub fn tables_follow()
    ensures { TablesFollow }
{}

/// A table that spells a node's places is the join of its own newest entry and the deltas it took since its start. It
/// holds of each owner the furthest of these. Each entry in it is whole, and it has no more entries than owners have
/// started.
pub fn tables_are_joined()
    ensures { TablesAreJoined }
{}

/// Nodes that took the same have equal tables and equal rings.
pub fn equal_sources_equal_tables()
    ensures { EqualSourcesEqualTables }
{}

/// Nodes with equal digests have equal tables and equal rings.
pub fn equal_digests_equal_tables()
    ensures { EqualDigestsEqualTables }
{}

/// The merged tables of three nodes spell the join of their places.
pub fn merges_are_joined()
    ensures { MergesAreJoined }
{}

/// No delivery and no merge finds a table full while owners are few: no table holds more owners than have started.
pub fn tables_find_room()
    ensures { TablesFindRoom }
{}

/// An exchange, a stale delta after a restart, and the messages that then rebuild the entry, as worked by hand.
pub fn worked_places()
    ensures { WorkedPlaces }
{}

/// The SYN of a table gives the places of the table.
pub fn syn_says_places()
    ensures { SynSaysPlaces }
{}

/// Within a cluster each SYN is answered by an ACK that requests and sends, owner by owner, the spans between the two
/// places.
pub fn syn_is_answered()
    ensures { SynIsAnswered }
{}

/// An ACK that is taken moves the holder, owner by owner, as the spans that it spells do. The ACK2 sends the spans from
/// the places that the requests name to the holder's new places.
pub fn ack_is_taken()
    ensures { AckIsTaken }
{}

/// An ACK2 that is taken moves the holder, owner by owner, as the spans that it spells do.
pub fn ack2_is_taken()
    ensures { Ack2IsTaken }
{}

/// The requests, spans and grants that the rules give by places lie in the owner's history.
pub fn rules_stand()
    ensures { RulesStand }
{}

/// A node's step is its step by places, if its table spells its places and the message it is handed was sent. Both are
/// of one world: the message says one that was sent there. The new table spells the node's places after the step. The
/// message that it sends says the one that is sent by places, and the outcome of each delta is that of the span. The
/// node has settings of its own, and there may be any number of endpoints.
pub fn steps_are_by_places()
    ensures { StepsAreByPlaces }
{}
