//! What a server's laws and the reference machine have to do with one another.
ghost use Rattle.std.specs.Prelude.{◌≡◌, ℕ, ◌+◌, List, true, false, Some};
ghost use Rattle.qs_base.specs.declared.identifiers.Outcome.{Outcome};
ghost use Rattle.qs_base.specs.declared.identifiers.Tid.{Tid};
ghost use Rattle.qs_ops.specs.Members.{class_of, is_two_phase};
ghost use Rattle.qs_ops.specs.declared.operation.Op.{Op};
ghost use Rattle.qs_ops.specs.declared.reply.Reply.{Reply};
ghost use Rattle.qs_ops.specs.declared.vote.Notice.TheVariants as notices;
ghost use Rattle.qs_ops.specs.declared.vote.Vote.{Vote};
ghost use Rattle.qs_book_journal.specs.declared.entry.Found.{Found};
ghost use Rattle.qs_book_machine.specs.Book.{server_serve, vote_node, learn_node, end_node, tick_node};
ghost use Rattle.qs_book_machine.specs.Clauses.{is_server_reply, is_server_vote};
ghost use Rattle.qs_book_machine.specs.Nodes.{NodeValue, extra_of, keep_of};
ghost use Rattle.qs_ops.specs.Server.{ServerValue, number_of, reply_of, after_serving, vote_of, after_vote, after_notice, is_logged, cleared};
ghost use Rattle.qs_ops.specs.declared.server.ServerKind.TheVariants as kinds;
ghost use Rattle.qs_ops.specs.Timers.{ticked};
ghost use Rattle.qs_book_machine.specs.Restart.{restarted_node};
ghost use Rattle.qs_book_machine.specs.declared.state.Reopened.{Reopened};
ghost use Rattle.qs_book_laws.specs.Standing.{StandsFor, StandsAs, notice_of, commits_of, kept_of, with_commits, keep_each};

/// A server that keeps the laws of its trait, and holds what the machine has in its table, replies and votes as the machine
/// wants it, where it is told the room of its log and the bytes that a vote takes besides its Prepare record; and it holds
/// what the machine has after each of these, after it was told the outcome or the ending, and after a tick. After a restart
/// it holds what the machine has where it was cleared, if no log keeps its votes; else where its contents are those of before
/// with the changes of each Commit that was found, and it keeps each vote that is pending again.
pub fn servers_go_by_the_rules()
    ensures reply { (node : NodeValue) (server : ServerValue) (tid : Tid) (op : Op) (reply : Reply) → StandsFor node server → reply_of server tid op ≡ Some reply → is_server_reply node (number_of server.kind) tid op reply ≡ true }
    ensures vote { (node : NodeValue) (server : ServerValue) (tid : Tid) (free : ℕ) → StandsFor node server → is_two_phase (class_of (number_of server.kind)) ≡ true → is_server_vote node (number_of server.kind) tid (vote_of server tid free (41 + extra_of node.format + keep_of node.format)) ≡ true }
    ensures served { (node : NodeValue) (server : ServerValue) (tid : Tid) (op : Op) (reply : Reply) → StandsFor node server → StandsAs server.kind (server_serve (number_of server.kind) tid op reply node) (after_serving server tid op reply) }
    ensures voted { (node : NodeValue) (server : ServerValue) (tid : Tid) (ballot : Vote) (covers count : ℕ) → is_two_phase (class_of (number_of server.kind)) ≡ true → StandsFor node server → StandsAs server.kind (vote_node count false tid (number_of server.kind) ballot covers node) (after_vote server tid ballot) }
    ensures learnt { (node : NodeValue) (server : ServerValue) (tid : Tid) (outcome : Outcome) → StandsFor node server → StandsAs server.kind (learn_node outcome tid (number_of server.kind) node) (after_notice server tid (notice_of outcome)) }
    ensures ended { (node : NodeValue) (server : ServerValue) (tid : Tid) → server.kind ≡ kinds.Timers → StandsFor node server → StandsAs kinds.Timers (end_node tid node) (after_notice server tid notices.Ending) }
    ensures ticked { (node : NodeValue) (server : ServerValue) (stamp : ℕ) → server.kind ≡ kinds.Timers → StandsFor node server → StandsAs kinds.Timers (tick_node stamp node) (record server { timers = ticked server.timers }) }
    ensures cleared { (left : Reopened) (pend : List Found) (done : List Tid) (node : NodeValue) (server : ServerValue) → is_logged server.kind ≡ false → StandsAs server.kind (restarted_node left pend done node) (cleared server) }
    ensures kept { (left : Reopened) (pend : List Found) (done : List Tid) (node : NodeValue) (server : ServerValue) → is_logged server.kind ≡ true → StandsFor node server → StandsAs server.kind (restarted_node left pend done node) (keep_each (with_commits server (commits_of server.kind left)) (kept_of server.kind left)) }
{}
