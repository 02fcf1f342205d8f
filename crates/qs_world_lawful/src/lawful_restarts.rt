//! What a restart finds in the log of a node, the first step after it, and restarts of other nodes.
ghost use Rattle.std.specs.Prelude.{◌≡◌, ℕ, true, None, List, nat_lt};
ghost use Rattle.qs_book_machine.specs.Book.{BookValue};
ghost use Rattle.qs_book_machine.specs.Nodes.{NodeValue};
ghost use Rattle.qs_book_machine.specs.Restart.{broken_restart, votes_once};
ghost use Rattle.qs_record.specs.declared.record.Record.{Record};
ghost use Rattle.qs_restart.specs.Recovery.{recovery};
ghost use Rattle.qs_base.specs.declared.identifiers.NodeNo.{NodeNo};
ghost use Rattle.qs_node_step.specs.Restarts.{begin_incarnation, peer_restarted};
ghost use Rattle.qs_node_step.specs.State.{Work};
ghost use Rattle.qs_world_lawful.specs.Entering.{HoldsWork};
ghost use Rattle.qs_world_lawful.specs.Logs.{found_votes, HoldsStopped};

/// A restart into a later incarnation that finds what the log says is lawful, where the log of the node that stopped says what
/// the machine has on record, and votes of a step that was cut off.
pub fn restart_is_lawful()
    ensures { (here : ℕ) (book : BookValue) (state : NodeValue) (records : List Record) (inc : ℕ) → nat_lt state.inc inc ≡ true → HoldsStopped here book state (recovery records) → broken_restart here book state inc (found_votes (recovery records)) (recovery records).committed ≡ None }
{}

/// A log says each member's vote for a transaction once.
pub fn votes_are_found_once()
    ensures { (log : List Record) → votes_once (found_votes (recovery log)) ≡ true }
{}

/// The first step of an incarnation: of what was found in the log, commits are told and aborts learnt, and the home of what is in
/// doubt is asked. In a later step nothing is done.
pub fn first_step_is_lawful()
    ensures { (stamp : ℕ) (before : BookValue) (work : Work) → HoldsWork stamp before work → HoldsWork stamp before (begin_incarnation work) }
{}

/// Another node restarted: what waits here of its dead incarnation is marked, and of each transaction that has to do with it a cause
/// is noted, its home is asked, or an outcome is told again.
pub fn peer_restart_is_lawful()
    ensures { (stamp : ℕ) (before : BookValue) (peer : NodeNo) (old new_inc : ℕ) (work : Work) → HoldsWork stamp before work → HoldsWork stamp before (peer_restarted peer old new_inc work) }
{}
