//! How a node decides and learns, each rule as a whole: its entries are lawful, and the machine after them holds what the node has.
ghost use Rattle.std.specs.Prelude.{◌≡◌, ◌&&◌, ℕ, true, false, None, Some, Option, is_some, slice_get, List};
ghost use Rattle.std.specs.BTreeMap.{is_at};
ghost use Rattle.std.specs.List.{list_any};
ghost use Rattle.std.specs.Map.{lookup};
ghost use Rattle.qs_base.specs.Order.{tid_cmp};
ghost use Rattle.qs_base.specs.declared.identifiers.ClientNo.{ClientNo};
ghost use Rattle.qs_book_laws.proofs.Rising.{IsRising};
ghost use Rattle.qs_base.specs.declared.identifiers.Member.{Member};
ghost use Rattle.qs_base.specs.declared.identifiers.NodeNo.{NodeNo};
ghost use Rattle.qs_base.specs.declared.identifiers.Outcome.{Outcome};
ghost use Rattle.qs_base.specs.declared.identifiers.Outcome.TheVariants as outcomes;
ghost use Rattle.qs_base.specs.declared.identifiers.Tid.{Tid};
ghost use Rattle.qs_ops.specs.declared.answer.Cause.{Cause};
ghost use Rattle.qs_ops.specs.declared.answer.Cause.TheVariants as causes;
ghost use Rattle.qs_ops.specs.declared.reply.Reply.{Reply};
ghost use Rattle.qs_book_journal.specs.declared.entry.Act.TheVariants as acts;
ghost use Rattle.qs_book_journal.specs.declared.script_line.Command.TheVariants as commands;
ghost use Rattle.qs_book_journal.specs.declared.script_line.ScriptLine.{ScriptLine};
ghost use Rattle.qs_book_machine.specs.Book.{BookValue, find_transaction};
ghost use Rattle.qs_book_machine.specs.Clauses.{is_cause, is_fresh};
ghost use Rattle.qs_book_machine.specs.Lawful.{broken};
ghost use Rattle.qs_book_machine.specs.Transaction.{TransactionValue, is_open, is_outcome, is_unanimous};
ghost use Rattle.qs_tm.specs.Manager as tm;
ghost use Rattle.qs_tm.specs.Participant.{is_answered_by, is_by_files};
ghost use Rattle.qs_tm.specs.declared.participant.Outstanding.{Outstanding};
ghost use Rattle.qs_tm.specs.declared.participant.Participant.{Participant};
ghost use Rattle.qs_node_step.specs.Commands.{begin_command, open_command};
ghost use Rattle.qs_node_step.specs.Deciding.{decide, give_notices};
ghost use Rattle.qs_node_step.specs.Requests.{reply_came};
ghost use Rattle.qs_node_step.specs.Serving.{label_at};
ghost use Rattle.qs_node_step.specs.State.{Work, client_cmp};
ghost use Rattle.qs_node_step.specs.declared.state.OpenCommand.{OpenCommand};
ghost use Rattle.qs_node_kept.specs.declared.kept.KeptLabel.{KeptLabel};
ghost use Rattle.qs_node_step.specs.Telling.{learn, tell_came, told_came};
ghost use Rattle.qs_node_step.specs.Answering.{inquiry_came, was_committed};
ghost use Rattle.qs_node_step.specs.Asking.{refusal_came};
ghost use Rattle.qs_world.specs.Posting.{entry_of};
ghost use Rattle.qs_world_lawful.specs.Entering.{HoldsWork, IsAborted, book_at};

/// The servers of a node that knows the outcome get their notices: endings first where it is aborted, then each that is to learn
/// it learns it, in order of classes.
pub fn notices_are_lawful()
    ensures { (stamp : ℕ) (before : BookValue) (work : Work) (tid : Tid) (outcome : Outcome) (part : Participant) → HoldsWork stamp before work → tm.part_of tid work.node.manager ≡ Some part → part.outcome ≡ Some outcome → HoldsWork stamp before (give_notices tid outcome work) }
{}

/// A home decides what it has not decided: the record, the entry, what it keeps for the owner, the notices, and the messages.
/// The decision itself is to break no clause of its own.
pub fn deciding_is_lawful()
    ensures { (stamp : ℕ) (before : BookValue) (work : Work) (tid : Tid) (outcome : Outcome) (part : Participant) (tx : TransactionValue) → HoldsWork stamp before work → tm.part_of tid work.node.manager ≡ Some part → find_transaction (book_at stamp before work) tid ≡ Some tx → part.outcome ≡ None → (cause : Option Cause) → is_open tx.cell ≡ true → ((client : ClientNo) → tx.owner ≡ Some client → is_some (slice_get (book_at stamp before work).owners client.0) ≡ true) → broken (book_at stamp before work) (entry_of work.node.setting.node.0 stamp (acts.Decide tid outcome cause)) ≡ None → HoldsWork stamp before (decide tid outcome cause work) }
{}

/// A node that is told the outcome that the cell has takes it in: its servers get their notices, and a Prepare is ended.
pub fn taking_in_is_lawful()
    ensures { (stamp : ℕ) (before : BookValue) (work : Work) (tid : Tid) (outcome : Outcome) (part : Participant) (tx : TransactionValue) → HoldsWork stamp before work → tm.part_of tid work.node.manager ≡ Some part → find_transaction (book_at stamp before work) tid ≡ Some tx → part.outcome ≡ None → is_outcome outcome tx.cell ≡ true → HoldsWork stamp before (learn tid outcome part work) }
{}

/// A reply comes: its request waits no longer, and the client that waits for it is answered. No note of files waits for it.
pub fn reply_is_lawful()
    ensures { (stamp : ℕ) (before : BookValue) (work : Work) (tid : Tid) (member : Member) (number : ℕ) (reply : Reply) (part : Participant) (tx : TransactionValue) → HoldsWork stamp before work → tm.part_of tid work.node.manager ≡ Some part → find_transaction (book_at stamp before work) tid ≡ Some tx → list_any (λ (r : Outstanding). is_answered_by member number r && is_by_files r) part.waiting ≡ false → HoldsWork stamp before (reply_came tid member number reply work) }
{}

/// A client commands that a transaction begins under a fresh label, and is answered, whether the log has room or not.
pub fn begin_command_is_lawful()
    ensures { (stamp : ℕ) (before : BookValue) (work : Work) (line : ScriptLine) → HoldsWork stamp before work → line.command ≡ commands.Begin → lookup (is_at (client_cmp line.client)) work.node.commands ≡ Some (record { line = line; issued = None }) → is_fresh (book_at stamp before work).labels line.label ≡ true → HoldsWork stamp before (begin_command line work) }
{}

/// A home commits a transaction that is unanimous.
pub fn commit_is_lawful()
    ensures { (stamp : ℕ) (before : BookValue) (work : Work) (tid : Tid) (part : Participant) (tx : TransactionValue) (h : HoldsWork stamp before work) → tm.part_of tid work.node.manager ≡ Some part → find_transaction (book_at stamp before work) tid ≡ Some tx → tid.home ≡ work.node.setting.node → tid.inc ≡ work.node.setting.inc → part.outcome ≡ None → ((client : ClientNo) → tx.owner ≡ Some client → is_some (slice_get (book_at stamp before work).owners client.0) ≡ true) → is_unanimous tx ≡ true → HoldsWork stamp before (decide tid outcomes.Commit None work) }
{}

/// A home aborts a transaction for a cause that the machine finds.
pub fn abort_is_lawful()
    ensures { (stamp : ℕ) (before : BookValue) (work : Work) (tid : Tid) (part : Participant) (tx : TransactionValue) (h : HoldsWork stamp before work) → tm.part_of tid work.node.manager ≡ Some part → find_transaction (book_at stamp before work) tid ≡ Some tx → tid.home ≡ work.node.setting.node → tid.inc ≡ work.node.setting.inc → part.outcome ≡ None → ((client : ClientNo) → tx.owner ≡ Some client → is_some (slice_get (book_at stamp before work).owners client.0) ≡ true) → (cause : Cause) → is_cause h.holds.state (book_at stamp before work).nodes tid tx stamp cause ≡ true → HoldsWork stamp before (decide tid outcomes.Abort (Some cause) work) }
{}

/// A home aborts what it is asked to abort, where commit was not asked for.
pub fn asked_abort_is_lawful()
    ensures { (stamp : ℕ) (before : BookValue) (work : Work) (tid : Tid) (part : Participant) (tx : TransactionValue) (h : HoldsWork stamp before work) → tm.part_of tid work.node.manager ≡ Some part → find_transaction (book_at stamp before work) tid ≡ Some tx → tid.home ≡ work.node.setting.node → tid.inc ≡ work.node.setting.inc → part.outcome ≡ None → ((client : ClientNo) → tx.owner ≡ Some client → is_some (slice_get (book_at stamp before work).owners client.0) ≡ true) → part.asked ≡ false → HoldsWork stamp before (decide tid outcomes.Abort (Some causes.Asked) work) }
{}

/// The owner commands commit of a transaction that began here since the node started: its home asks for it, once, where it is
/// undecided.
pub fn commit_command_is_lawful()
    ensures { (stamp : ℕ) (before : BookValue) (work : Work) → HoldsWork stamp before work → (client : ClientNo) (command : OpenCommand) → lookup (is_at (client_cmp client)) work.node.commands ≡ Some command → (begun : KeptLabel) → label_at command.line.label work.node ≡ Some begun → (tid : Tid) → begun.tid ≡ Some tid → begun.owner ≡ Some client → tid.home ≡ work.node.setting.node → tid.inc ≡ work.node.setting.inc → command.line.command ≡ commands.Commit → command.issued ≡ None → HoldsWork stamp before (open_command client tid commands.Commit work) }
{}

/// The owner commands abort of a transaction that began here since the node started: it is aborted, where it is undecided.
pub fn abort_command_is_lawful()
    ensures { (stamp : ℕ) (before : BookValue) (work : Work) → HoldsWork stamp before work → (client : ClientNo) (command : OpenCommand) → lookup (is_at (client_cmp client)) work.node.commands ≡ Some command → (begun : KeptLabel) → label_at command.line.label work.node ≡ Some begun → (tid : Tid) → begun.tid ≡ Some tid → begun.owner ≡ Some client → tid.home ≡ work.node.setting.node → tid.inc ≡ work.node.setting.inc → command.line.command ≡ commands.Abort → HoldsWork stamp before (open_command client tid commands.Abort work) }
{}

/// A cause comes why a transaction cannot be committed: it is kept where the transaction is undecided, and passed on to its home
/// where nothing is known of it.
pub fn refusal_is_lawful()
    ensures { (stamp : ℕ) (before : BookValue) (work : Work) → HoldsWork stamp before work → (tid : Tid) (cause : Cause) → HoldsWork stamp before (refusal_came tid cause work) }
{}

/// A node asks the home for an outcome: it is told what is known or kept, is to be told once it is decided, or is told abort. What
/// is unknown here and not committed is aborted in the machine.
pub fn inquiry_is_lawful()
    ensures { (stamp : ℕ) (before : BookValue) (work : Work) → HoldsWork stamp before work → (tid : Tid) (peer : NodeNo) → (tm.part_of tid work.node.manager ≡ None → was_committed tid work.node ≡ false → IsAborted stamp before work tid) → HoldsWork stamp before (inquiry_came peer tid work) }
{}

/// A node is told the outcome that the cell has: it takes it in, or keeps an abort of which it knew nothing, and says so.
pub fn tell_is_lawful()
    ensures { (stamp : ℕ) (before : BookValue) (work : Work) → HoldsWork stamp before work → (tid : Tid) (peer : NodeNo) (outcome : Outcome) (tx : TransactionValue) → find_transaction (book_at stamp before work) tid ≡ Some tx → is_outcome outcome tx.cell ≡ true → HoldsWork stamp before (tell_came peer tid outcome work) }
{}

/// A node took in what its home told it. Of a commit that is noted, and all is forgotten once each node did that was to be told;
/// of an abort those that it names are told too. What is unknown here is aborted in the machine, and the node keeps each
/// transaction once.
pub fn told_is_lawful()
    ensures { (stamp : ℕ) (before : BookValue) (tid : Tid) (peer : NodeNo) (further : List NodeNo) (work : Work) → HoldsWork stamp before work → (tm.part_of tid work.node.manager ≡ None → IsAborted stamp before work tid) → IsRising tid_cmp work.node.manager.known → HoldsWork stamp before (told_came peer tid further work) }
{}
