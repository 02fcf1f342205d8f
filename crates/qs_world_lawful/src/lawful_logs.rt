//! What the log of a node says of the machine, and what the node knows of its log, through the rules of a step.
ghost use Rattle.std.specs.Prelude.{◌≡◌, ◌==◌, ℕ, None, Some, List, slice_get, nat_lt, true, false};
ghost use Rattle.qs_base.specs.declared.identifiers.ClientNo.{ClientNo};
ghost use Rattle.qs_base.specs.declared.identifiers.Member.{Member};
ghost use Rattle.qs_base.specs.declared.identifiers.NodeNo.{NodeNo};
ghost use Rattle.qs_base.specs.declared.identifiers.ServerNo.{ServerNo};
ghost use Rattle.qs_base.specs.declared.identifiers.Tid.{Tid};
ghost use Rattle.qs_book_journal.specs.declared.entry.Act.{Act};
ghost use Rattle.qs_book_journal.specs.declared.entry.Act.TheVariants as acts;
ghost use Rattle.qs_book_journal.specs.declared.entry.CrashCause.{CrashCause};
ghost use Rattle.qs_book_journal.specs.declared.entry.Entry.{Entry};
ghost use Rattle.qs_book_journal.specs.declared.script_line.Command.{Command};
ghost use Rattle.qs_book_laws.specs.Laws.{IsCoherent};
ghost use Rattle.qs_book_machine.specs.Book.{BookValue};
ghost use Rattle.qs_book_machine.specs.Clauses.{is_crash};
ghost use Rattle.qs_book_machine.specs.Lawful.{IsLawful, book_after, broken, effect};
ghost use Rattle.qs_book_machine.specs.Nodes.{NodeValue};
ghost use Rattle.qs_book_machine.specs.Opening.{opening};
ghost use Rattle.qs_book_machine.specs.Restart.{broken_restart};
ghost use Rattle.qs_book_machine.specs.declared.opened.Opened.{Opened};
ghost use Rattle.qs_ops.specs.declared.operation.Op.{Op};
ghost use Rattle.qs_ops.specs.declared.reply.Reply.{Reply};
ghost use Rattle.qs_ops.specs.declared.vote.Vote.{Vote};
ghost use Rattle.qs_record.specs.declared.record.Record.{Record};
ghost use Rattle.qs_node_step.specs.Answering.{inquiry_came};
ghost use Rattle.qs_node_step.specs.Asking.{ask_came, closer_came};
ghost use Rattle.qs_node_step.specs.Borrowing.{borrower_command};
ghost use Rattle.qs_node_step.specs.Requests.{reply_came};
ghost use Rattle.qs_node_step.specs.Serving.{request_came, serve_all};
ghost use Rattle.qs_node_step.specs.State as state;
ghost use Rattle.qs_node_step.specs.State.{Work, part_of};
ghost use Rattle.qs_restart.specs.Recovery.{recovery};
ghost use Rattle.qs_node_step.specs.Step.{after_step, effects_of};
ghost use Rattle.qs_node_step.specs.Voting.{vote_with};
ghost use Rattle.qs_node_step.specs.declared.event.Event.{Event};
ghost use Rattle.qs_tm.specs.declared.manager.Manager.{Manager};
ghost use Rattle.qs_tm.specs.declared.participant.Participant.{Participant};
ghost use Rattle.qs_world.specs.Moves.{log_after, waiting_after};
ghost use Rattle.qs_world.specs.Posting.{entry_of, entries_of};
ghost use Rattle.qs_world.specs.World.{Host};
ghost use Rattle.qs_world_lawful.specs.Holds.{Holds};
ghost use Rattle.qs_world_lawful.specs.Logged.{HoldsHost, IsTrueEvent, KeepsLogs};
ghost use Rattle.qs_world_lawful.specs.Logs.{found_votes, HoldsStopped};
ghost use Rattle.qs_world_lawful.specs.SayingSteps.{EachLearntSays, EachStepSays};
ghost use Rattle.qs_world_lawful.specs.Saying.{EachCommitEnters, EachCommitIsSaid, EachCommitSays, EachEndKeepsSaid, EachEndSays, EachKeepsSaid, EachLearnerIsHeld, EachLearningEnters, EachMadeIsSaid, EachPendingIsHeld, EachPlainEnters, EachQuietSays, EachVoteEnters, EachVoteIsSaid, EachVoteOnce, EachVoteSays};

/// A server votes: a vote that it can commit stands in the log with its Prepare, of every other vote the log says nothing.
pub fn vote_keeps_the_log()
    ensures { (opened : List Opened) (history : List Entry) → IsCoherent opened → IsLawful (opening opened) history → (stamp : ℕ) (disk waiting : List Record) (tid : Tid) (server : ServerNo) (work : Work) (part : Participant) → part_of tid work ≡ Some part → part.outcome ≡ None → (ballot : Vote) → KeepsLogs stamp (book_after (opening opened) history) disk waiting work (vote_with tid server ballot work) }
{}

/// Requests that come, those that are served, replies, questions and their answers, and what borrowers command make no record,
/// and leave what is held of the log.
pub fn requests_keep_the_log()
    ensures comes { (opened : List Opened) (history : List Entry) → IsCoherent opened → IsLawful (opening opened) history → (stamp : ℕ) (disk waiting : List Record) (work : Work) (peer : NodeNo) (tid : Tid) (label : List ℕ) (member : Member) (number : ℕ) (op : Op) → KeepsLogs stamp (book_after (opening opened) history) disk waiting work (request_came peer tid label member number op work) }
    ensures served { (opened : List Opened) (history : List Entry) → IsCoherent opened → IsLawful (opening opened) history → (stamp : ℕ) (disk waiting : List Record) (work : Work) → KeepsLogs stamp (book_after (opening opened) history) disk waiting work (serve_all work) }
    ensures replied { (opened : List Opened) (history : List Entry) → IsCoherent opened → IsLawful (opening opened) history → (stamp : ℕ) (disk waiting : List Record) (work : Work) (tid : Tid) (member : Member) (number : ℕ) (reply : Reply) → KeepsLogs stamp (book_after (opening opened) history) disk waiting work (reply_came tid member number reply work) }
    ensures asked { (opened : List Opened) (history : List Entry) → IsCoherent opened → IsLawful (opening opened) history → (stamp : ℕ) (disk waiting : List Record) (work : Work) (peer : NodeNo) (tid : Tid) → KeepsLogs stamp (book_after (opening opened) history) disk waiting work (ask_came peer tid work) }
    ensures counted { (opened : List Opened) (history : List Entry) → IsCoherent opened → IsLawful (opening opened) history → (stamp : ℕ) (disk waiting : List Record) (work : Work) (peer : NodeNo) (tid : Tid) (up_to : ℕ) (told : List NodeNo) → KeepsLogs stamp (book_after (opening opened) history) disk waiting work (closer_came peer tid up_to told work) }
    ensures inquired { (opened : List Opened) (history : List Entry) → IsCoherent opened → IsLawful (opening opened) history → (stamp : ℕ) (disk waiting : List Record) (work : Work) (peer : NodeNo) (tid : Tid) → KeepsLogs stamp (book_after (opening opened) history) disk waiting work (inquiry_came peer tid work) }
    ensures borrowed { (opened : List Opened) (history : List Entry) → IsCoherent opened → IsLawful (opening opened) history → (stamp : ℕ) (disk waiting : List Record) (work : Work) (client : ClientNo) (tid : Tid) (command : Command) → KeepsLogs stamp (book_after (opening opened) history) disk waiting work (borrower_command client tid command work) }
{}

/// A whole step keeps what is held of the log of its node, on the disk and with the records that wait for the next force: what is on
/// record stands open in the log or is committed there, or is aborted; each Commit is of a committed transaction; and the node knows
/// what is in doubt. Its entries are lawful, and a Tell that comes says the outcome that the machine has.
pub fn step_keeps_the_log()
    ensures { (opened : List Opened) (history : List Entry) → IsCoherent opened → IsLawful (opening opened) history → (stamp : ℕ) (host : Host) (event : Event) (free : ℕ) → IsTrueEvent (book_after (opening opened) history) event → HoldsHost host.node.setting.node.0 (book_after (opening opened) history) host.node.manager host.log host.waiting → IsLawful (book_after (opening opened) history) (entries_of host.node.setting.node.0 stamp (effects_of host.node event free).entries) → HoldsHost host.node.setting.node.0 (book_after (book_after (opening opened) history) (entries_of host.node.setting.node.0 stamp (effects_of host.node event free).entries)) (after_step host.node event free).manager (log_after host (effects_of host.node event free)) (waiting_after host (effects_of host.node event free)) }
{}

/// A node stops after a whole step, or in one whose batch is lost. What is held of its log stays so while it is down; what its log on the
/// disk says is what a restart may find; and a restart that finds it, into a later incarnation, is lawful.
pub fn stopped_node_may_restart()
    ensures stopped { (opened : List Opened) (history : List Entry) → IsCoherent opened → IsLawful (opening opened) history → (n : ℕ) (manager : Manager) (disk waiting : List Record) → HoldsHost n (book_after (opening opened) history) manager disk waiting → (stamp : ℕ) (cause : CrashCause) → broken (book_after (opening opened) history) (entry_of n stamp (acts.Crash cause)) ≡ None → HoldsHost n (effect (book_after (opening opened) history) (entry_of n stamp (acts.Crash cause))) manager disk waiting }
    ensures found { (opened : List Opened) (history : List Entry) → IsCoherent opened → IsLawful (opening opened) history → (n : ℕ) (manager : Manager) (disk waiting : List Record) → (h : HoldsHost n (book_after (opening opened) history) manager disk waiting) → HoldsStopped n (book_after (opening opened) history) h.state (recovery disk) }
    ensures restarted { (opened : List Opened) (history : List Entry) → IsCoherent opened → IsLawful (opening opened) history → (n : ℕ) (manager : Manager) (disk waiting : List Record) → HoldsHost n (book_after (opening opened) history) manager disk waiting → (state : NodeValue) → slice_get (book_after (opening opened) history).nodes n ≡ Some state → (inc : ℕ) → nat_lt state.inc inc ≡ true → broken_restart n (book_after (opening opened) history) state inc (found_votes (recovery disk)) (recovery disk).committed ≡ None }
{}

/// What a log says of contents and changes goes on by entries of its node and the record beside them: by entries that touch neither
/// committed contents nor what is on record; by an end of a transaction's records; by a vote and its Prepare, where the log has no
/// Commit of the transaction; and by a transaction that all servers of the node learn to be committed, and its Commit, where what
/// the log has of it is in doubt.
pub fn log_says_what_is_entered()
    ensures stays { EachKeepsSaid }
    ensures ended { EachEndKeepsSaid }
    ensures voted { EachVoteIsSaid }
    ensures committed { EachCommitIsSaid }
    ensures whole { EachMadeIsSaid }
    ensures once { EachVoteOnce }
{}

/// So it does, in a run, by each entry that puts nothing on record and takes nothing off; as a vote of changes that are pending is
/// entered with its Prepare; and as the servers that are still to learn it learn that a transaction is committed, with its Commit, or
/// with none where the log has nothing in doubt of it. What a node has pending is so, and those that its node has still to tell are they,
/// where the machine holds what the node has; so the rule by which a server votes recoverable leaves what the log says as the machine
/// has it, and so do rules that make no record, or the end of a transaction's records, and rules that make a Commit.
pub fn log_says_votes_and_commits()
    ensures plain { EachPlainEnters }
    ensures voted { EachVoteEnters }
    ensures committed { EachCommitEnters }
    ensures learnt { EachLearningEnters }
    ensures pending { EachPendingIsHeld }
    ensures learners { EachLearnerIsHeld }
    ensures rule { EachVoteSays }
    ensures quiet { EachQuietSays }
    ensures ends { EachEndSays }
    ensures commits { EachCommitSays }
{}

/// A whole step leaves what the log of its node says of contents and changes as the machine has it, with the records that wait for the next
/// force and on the disk: committed files and notes are what its Commits leave, what is on record is what its Prepares have, and what is in
/// doubt at its home is not committed. Where servers learn that a transaction is committed and a log has nothing in doubt of it, that log
/// needs no Commit. A commit that is told is of a home of the run, and where the node waits for the outcome of a vote, its log has the vote
/// in doubt.
pub fn step_says_contents()
    ensures learnt { EachLearntSays }
    ensures step { EachStepSays }
{}

/// What another node does, a crash and a restart of it too, leaves what is held of the log of a node.
pub fn others_keep_the_log()
    ensures { (opened : List Opened) (history : List Entry) → IsCoherent opened → IsLawful (opening opened) history → (stamp m n : ℕ) → (m == n) ≡ false → (manager : Manager) (disk waiting : List Record) (act : Act) → broken (book_after (opening opened) history) (entry_of m stamp act) ≡ None → HoldsHost n (book_after (opening opened) history) manager disk waiting → HoldsHost n (effect (book_after (opening opened) history) (entry_of m stamp act)) manager disk waiting }
{}

/// Where the machine holds what a node has, a crash of it is lawful, of a cause that a crash may have.
pub fn crash_is_lawful()
    ensures { (stamp : ℕ) (book : BookValue) (node : state.NodeValue) → Holds stamp book node → (cause : CrashCause) → is_crash cause ≡ true → broken book (entry_of node.setting.node.0 stamp (acts.Crash cause)) ≡ None }
{}
