//! What holds of the state of each coherent log.
ghost use Rattle.qs_restart_state.specs.Alike.{EachFindsSame, EachReadsLikeItself, EachStateReadsAlike, EachStaysAlike};
ghost use Rattle.qs_restart_state.specs.Open.{EachOpenIsKept, EachStateOpensSame};
ghost use Rattle.qs_restart_state.specs.StateRow.{RowState};
ghost use Rattle.qs_restart_state.specs.States.{EachStateIsCoherent, EachStateSays};
ghost use Rattle.qs_restart_state.specs.Taken.{EachMayTake};

/// The state of a log says the contents that it was made of, the votes in doubt and the Commits to be told that the log says, and of no other
/// transaction that it was committed.
pub fn states_say()
    ensures { EachStateSays }
{}

/// The state of a log is coherent where the log is.
pub fn states_are_coherent()
    ensures { EachStateIsCoherent }
{}

/// The state of a log reads like the log, and like all that the log reads like; a log reads like itself.
pub fn states_read_alike()
    ensures alike { EachStateReadsAlike }
    ensures itself { EachReadsLikeItself }
{}

/// A log that reads like another goes on to do so as both get further records, where these neither vote on nor commit what is over.
pub fn what_reads_alike_goes_on()
    ensures { EachStaysAlike }
{}

/// A restart finds the same votes in doubt and the same Commits to be told in logs that read alike.
pub fn restarts_find_the_same()
    ensures { EachFindsSame }
{}

/// The same transactions are not ended in the state and in the log, so the log keeps the same bytes for them.
pub fn same_transactions_are_open()
    ensures kept { EachOpenIsKept }
    ensures same { EachStateOpensSame }
{}

/// What a checkpoint needs of a log holds of each coherent one: each vote stands once, each Commit that waits has a list, and a vote has a Commit behind it
/// exactly where its transaction was committed.
pub fn logs_may_be_taken()
    ensures { EachMayTake }
{}

/// The state of a log with a transaction of each kind, record by record, in its order.
pub fn a_state_by_records()
    ensures { RowState }
{}
