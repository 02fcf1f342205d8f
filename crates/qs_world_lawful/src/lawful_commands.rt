//! What clients command of their own node, each command as a whole: its entries are lawful, and the machine after them holds what
//! the node has then.
ghost use Rattle.std.specs.Prelude.{◌≡◌, ◌≢◌, ◌&&◌, not, nat_lt, ℕ, true, false, None, Some};
ghost use Rattle.std.specs.BTreeMap.{is_at};
ghost use Rattle.std.specs.List.{list_any};
ghost use Rattle.std.specs.Map.{lookup};
ghost use Rattle.qs_base.specs.declared.identifiers.ClientNo.{ClientNo};
ghost use Rattle.qs_base.specs.declared.identifiers.Member.{Member};
ghost use Rattle.qs_base.specs.declared.identifiers.Outcome.TheVariants as outcomes;
ghost use Rattle.qs_base.specs.declared.identifiers.Tid.{Tid};
ghost use Rattle.qs_ipc.specs.Queue.{is_for};
ghost use Rattle.qs_book_journal.specs.declared.script_line.Command.TheVariants as commands;
ghost use Rattle.qs_book_journal.specs.declared.script_line.ScriptLine.{ScriptLine};
ghost use Rattle.qs_node_kept.specs.Loans.{last_taken};
ghost use Rattle.qs_node_kept.specs.declared.kept.KeptLabel.{KeptLabel};
ghost use Rattle.qs_node_kept.specs.declared.kept.Lent.{Lent};
ghost use Rattle.qs_world_lawful.specs.Entering.{HoldsWork, book_at};
ghost use Rattle.qs_world_lawful.specs.Face.{face_of, is_loan_here};
ghost use Rattle.qs_world_lawful.specs.Holds.{IsAsking, IsBehind};
ghost use Rattle.qs_book_machine.specs.Book.{BookValue, find_transaction};
ghost use Rattle.qs_book_machine.specs.Clauses.{is_fresh};
ghost use Rattle.qs_book_machine.specs.Transaction.{TransactionValue, is_commit};
ghost use Rattle.qs_ops.specs.declared.operation.Op.{Op};
ghost use Rattle.qs_node_step.specs.Answering.{kept_outcome};
ghost use Rattle.qs_node_step.specs.Borrowing.{is_void, loan_command, take_command};
ghost use Rattle.qs_node_step.specs.Commands.{request_command};
ghost use Rattle.qs_node_step.specs.Serving.{label_at};
ghost use Rattle.qs_node_step.specs.State.{Work, client_cmp};
ghost use Rattle.qs_node_step.specs.Step.{command_came, is_owner, wait_on, with_command};
ghost use Rattle.qs_node_step.specs.declared.state.OpenCommand.{OpenCommand};
ghost use Rattle.qs_tm.specs.Manager as tm;
ghost use Rattle.qs_tm.specs.declared.participant.Participant.{Participant};

/// A client that does not wait for a commit takes its first loan that no take has taken, where there is one, and is answered.
pub fn take_command_is_lawful()
    ensures { (stamp : ℕ) (before : BookValue) (work : Work) → HoldsWork stamp before work → (client : ClientNo) (tid : Tid) → ((t : Tid) → IsAsking work.node t client → ⊥) → HoldsWork stamp before (take_command client tid work) }
{}

/// A client that does not wait for a commit gives back its present loan, and is answered: that it is done, that the loan is given
/// back already, or that it is worth nothing any more.
pub fn yield_command_is_lawful()
    ensures { (stamp : ℕ) (before : BookValue) (work : Work) → HoldsWork stamp before work → (client : ClientNo) (tid : Tid) → ((t : Tid) → IsAsking work.node t client → ⊥) → nat_lt client.0 224 ≡ true → HoldsWork stamp before (loan_command client tid commands.Yield work) }
{}

/// The owner commands a request to a server of its node, of a transaction that began here since the node started and whose
/// outcome the node does not know: it is issued, where there is one more number.
pub fn owners_request_is_lawful()
    ensures { (stamp : ℕ) (before : BookValue) (work : Work) → HoldsWork stamp before work → (client : ClientNo) (command : OpenCommand) → lookup (is_at (client_cmp client)) work.node.commands ≡ Some command → (command.line.command ≡ commands.Commit → ⊥) → (tid : Tid) (member : Member) (op : Op) → member.node ≡ work.node.setting.node → is_for member.server op ≡ true → (part : Participant) → tm.part_of tid work.node.manager ≡ Some part → (begun : KeptLabel) → label_at command.line.label work.node ≡ Some begun → begun.tid ≡ Some tid → begun.owner ≡ Some client → tid.home ≡ work.node.setting.node → tid.inc ≡ work.node.setting.inc → part.outcome ≡ None → HoldsWork stamp before (request_command client tid member op work) }
{}

/// A client that holds a loan commands a request to a server of its node, where the node knows no abort and the cell is not
/// committed: it is issued, where there is one more number.
pub fn borrowers_request_is_lawful()
    ensures { (stamp : ℕ) (before : BookValue) (work : Work) → HoldsWork stamp before work → (client : ClientNo) (command : OpenCommand) → lookup (is_at (client_cmp client)) work.node.commands ≡ Some command → (command.line.command ≡ commands.Commit → ⊥) → (tid : Tid) (member : Member) (op : Op) → member.node ≡ work.node.setting.node → is_for member.server op ≡ true → (part : Participant) → tm.part_of tid work.node.manager ≡ Some part → (tx : TransactionValue) → find_transaction (book_at stamp before work) tid ≡ Some tx → nat_lt client.0 224 ≡ true → list_any (λ (loan : Lent). is_loan_here client work.node.setting.inc loan && not loan.yielded) (face_of work.node tid).loans ≡ true → part.outcome ≢ Some outcomes.Abort → is_commit tx.cell ≡ false → HoldsWork stamp before (request_command client tid member op work) }
{}

/// The command comes to begin a transaction under a fresh label, of a client that has none open and whose line is above those that
/// were answered; it is obeyed at once.
pub fn coming_begin_is_lawful()
    ensures { (stamp : ℕ) (before : BookValue) (work : Work) → HoldsWork stamp before work → (line : ScriptLine) → lookup (is_at (client_cmp line.client)) work.node.commands ≡ None → IsBehind (book_at stamp before work) line.client line.line → line.command ≡ commands.Begin → is_fresh (book_at stamp before work).labels line.label ≡ true → HoldsWork stamp before (command_came line work) }
{}

/// The owner's command comes to commit what began here since the node started: it is asked for, once, where it is undecided, and the
/// owner is answered where the outcome is kept.
pub fn coming_commit_is_lawful()
    ensures { (stamp : ℕ) (before : BookValue) (work : Work) → HoldsWork stamp before work → (line : ScriptLine) → lookup (is_at (client_cmp line.client)) work.node.commands ≡ None → IsBehind (book_at stamp before work) line.client line.line → (begun : KeptLabel) → label_at line.label work.node ≡ Some begun → (tid : Tid) → begun.tid ≡ Some tid → begun.owner ≡ Some line.client → tid.home ≡ work.node.setting.node → tid.inc ≡ work.node.setting.inc → line.command ≡ commands.Commit → HoldsWork stamp before (command_came line work) }
{}

/// The owner's command comes to abort what began here since the node started: it is aborted where it is undecided, and the owner is
/// answered where the outcome is kept.
pub fn coming_abort_is_lawful()
    ensures { (stamp : ℕ) (before : BookValue) (work : Work) → HoldsWork stamp before work → (line : ScriptLine) → lookup (is_at (client_cmp line.client)) work.node.commands ≡ None → IsBehind (book_at stamp before work) line.client line.line → (begun : KeptLabel) → label_at line.label work.node ≡ Some begun → (tid : Tid) → begun.tid ≡ Some tid → begun.owner ≡ Some line.client → tid.home ≡ work.node.setting.node → tid.inc ≡ work.node.setting.inc → line.command ≡ commands.Abort → HoldsWork stamp before (command_came line work) }
{}

/// The owner's command comes for a request to a server of its node, of what began here since the node started. Where no outcome
/// is kept, the transaction is undecided here, and the request is issued; else the owner is told that it ended.
pub fn coming_request_is_lawful()
    ensures { (stamp : ℕ) (before : BookValue) (work : Work) → HoldsWork stamp before work → (line : ScriptLine) → lookup (is_at (client_cmp line.client)) work.node.commands ≡ None → IsBehind (book_at stamp before work) line.client line.line → (begun : KeptLabel) → label_at line.label work.node ≡ Some begun → (tid : Tid) → begun.tid ≡ Some tid → begun.owner ≡ Some line.client → tid.home ≡ work.node.setting.node → tid.inc ≡ work.node.setting.inc → (member : Member) (op : Op) → line.command ≡ commands.Request member op → member.node ≡ work.node.setting.node → is_for member.server op ≡ true → (kept_outcome tid work.node ≡ None → (part : Participant) × (tm.part_of tid work.node.manager ≡ Some part) × (part.outcome ≡ None)) → HoldsWork stamp before (command_came line work) }
{}

/// A command that stayed open is looked at again. Its owner's transaction began since the node started, and a borrower's request
/// that was not issued is lawful to issue where its loan stands.
pub fn waiting_command_is_lawful()
    ensures { (stamp : ℕ) (before : BookValue) (work : Work) → HoldsWork stamp before work → (client : ClientNo) → nat_lt client.0 224 ≡ true → ((command : OpenCommand) (begun : KeptLabel) (tid : Tid) → lookup (is_at (client_cmp client)) work.node.commands ≡ Some command → label_at command.line.label work.node ≡ Some begun → begun.tid ≡ Some tid → begun.owner ≡ Some client → tid.inc ≡ work.node.setting.inc) → ((command : OpenCommand) (begun : KeptLabel) (tid : Tid) (member : Member) (op : Op) (last : Lent) → lookup (is_at (client_cmp client)) work.node.commands ≡ Some command → label_at command.line.label work.node ≡ Some begun → begun.tid ≡ Some tid → command.issued ≡ None → command.line.command ≡ commands.Request member op → last_taken client tid work.node.kept.now.loans ≡ Some last → last.yielded ≡ false → is_void tid last work.node ≡ false → HoldsWork stamp before (request_command client tid member op work)) → HoldsWork stamp before (wait_on work client) }
{}

/// A command comes of a client that does not own the transaction, and is obeyed. It begins none, and a request of it is lawful to
/// issue where its loan stands.
pub fn coming_of_borrower_is_lawful()
    ensures { (stamp : ℕ) (before : BookValue) (work : Work) → HoldsWork stamp before work → (line : ScriptLine) → lookup (is_at (client_cmp line.client)) work.node.commands ≡ None → IsBehind (book_at stamp before work) line.client line.line → (begun : KeptLabel) → label_at line.label work.node ≡ Some begun → (tid : Tid) → begun.tid ≡ Some tid → is_owner line.client begun.owner ≡ false → nat_lt line.client.0 224 ≡ true → ((member : Member) (op : Op) (last : Lent) → line.command ≡ commands.Request member op → last_taken line.client tid work.node.kept.now.loans ≡ Some last → last.yielded ≡ false → is_void tid last work.node ≡ false → HoldsWork stamp before (request_command line.client tid member op (with_command line work))) → (line.command ≡ commands.Begin → ⊥) → HoldsWork stamp before (command_came line work) }
{}

/// A command comes of a client that does not own the transaction, and is obeyed: its requests go to servers of its node, of a
/// transaction that is known here and not committed.
pub fn coming_of_borrower_here_is_lawful()
    ensures { (stamp : ℕ) (before : BookValue) (work : Work) → HoldsWork stamp before work → (line : ScriptLine) → lookup (is_at (client_cmp line.client)) work.node.commands ≡ None → IsBehind (book_at stamp before work) line.client line.line → (begun : KeptLabel) → label_at line.label work.node ≡ Some begun → (tid : Tid) → begun.tid ≡ Some tid → is_owner line.client begun.owner ≡ false → nat_lt line.client.0 224 ≡ true → ((member : Member) (op : Op) → line.command ≡ commands.Request member op → (member.node ≡ work.node.setting.node) × (is_for member.server op ≡ true)) → (part : Participant) → tm.part_of tid work.node.manager ≡ Some part → (tx : TransactionValue) → find_transaction (book_at stamp before work) tid ≡ Some tx → is_commit tx.cell ≡ false → (line.command ≡ commands.Begin → ⊥) → HoldsWork stamp before (command_came line work) }
{}

/// A command comes under a label that the node has not met: it waits.
pub fn coming_unmet_is_lawful()
    ensures { (stamp : ℕ) (before : BookValue) (work : Work) → HoldsWork stamp before work → (line : ScriptLine) → lookup (is_at (client_cmp line.client)) work.node.commands ≡ None → IsBehind (book_at stamp before work) line.client line.line → (line.command ≡ commands.Begin → ⊥) → label_at line.label work.node ≡ None → HoldsWork stamp before (command_came line work) }
{}

/// A command comes under the label of a begin that was refused: the client that was refused is told so, another's command waits.
pub fn coming_refused_is_lawful()
    ensures { (stamp : ℕ) (before : BookValue) (work : Work) → HoldsWork stamp before work → (line : ScriptLine) → lookup (is_at (client_cmp line.client)) work.node.commands ≡ None → IsBehind (book_at stamp before work) line.client line.line → (line.command ≡ commands.Begin → ⊥) → (begun : KeptLabel) → label_at line.label work.node ≡ Some begun → begun.tid ≡ None → HoldsWork stamp before (command_came line work) }
{}
