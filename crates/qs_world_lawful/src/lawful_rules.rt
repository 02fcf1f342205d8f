//! Rules of a node's step, each as a whole: its entries are lawful, and the machine after them holds what the node has then.
ghost use Rattle.std.specs.Prelude.{◌≡◌, ◌≢◌, ◌&&◌, ◌==◌, ◌≤◌, ◌<◌, ◌++◌, ◌∷◌, [], length, not, nat_lt, ℕ, ◌+◌, true, false, None, Some, Option, slice_get, List};
ghost use Rattle.qs_base.specs.declared.identifiers.ClientNo.{ClientNo};
ghost use Rattle.qs_base.specs.declared.identifiers.NodeNo.{NodeNo};
ghost use Rattle.qs_base.specs.declared.identifiers.Tid.{Tid};
ghost use Rattle.std.specs.List.{list_any};
ghost use Rattle.qs_base.specs.declared.identifiers.Outcome.TheVariants as outcomes;
ghost use Rattle.qs_ipc.specs.Queue.{is_for};
ghost use Rattle.qs_node_kept.specs.declared.kept.Lent.{Lent};
ghost use Rattle.qs_node_servers.specs.Servers.{client_server};
ghost use Rattle.qs_ops.specs.declared.answer.Answer.{Answer};
ghost use Rattle.qs_ops.specs.declared.operation.Op.{Op};
ghost use Rattle.qs_book_journal.specs.declared.entry.Act.TheVariants as acts;
ghost use Rattle.qs_book_machine.specs.Book.{BookValue, find_transaction};
ghost use Rattle.qs_book_machine.specs.Clauses.{is_fresh, is_known};
ghost use Rattle.qs_book_machine.specs.Lawful.{broken};
ghost use Rattle.qs_book_machine.specs.Transaction.{TransactionValue, is_commit};
ghost use Rattle.qs_book_machine.specs.declared.state.Owner.{Owner};
ghost use Rattle.qs_packet.specs.declared.message.Message.{Message};
ghost use Rattle.qs_record.specs.declared.record.Record.{Record};
ghost use Rattle.qs_tm.specs.Manager as tm;
ghost use Rattle.qs_tm.specs.declared.participant.Outstanding.{Outstanding};
ghost use Rattle.qs_tm.specs.declared.participant.Participant.{Participant};
ghost use Rattle.qs_engage.specs.Engage.{last_number, peer_of};
ghost use Rattle.qs_node_step.specs.Asking.{closer_came};
ghost use Rattle.qs_node_step.specs.Voting.{change_count, issue_note};
ghost use Rattle.qs_tm.specs.Participant.{awaits_note, has_noted, is_undecided};
ghost use Rattle.qs_node_step.specs.Bringing.{answer, enter, log, member_here, send};
ghost use Rattle.qs_node_step.specs.Commands.{ask};
ghost use Rattle.qs_node_step.specs.Requests.{issue_away, issue_here, local_count};
ghost use Rattle.qs_node_step.specs.Serving.{put_label, request_came};
ghost use Rattle.qs_node_step.specs.State.{Work, with_manager, client_cmp};
ghost use Rattle.qs_world.specs.Posting.{entry_of};
ghost use Rattle.qs_world_lawful.specs.Face.{face_of, is_loan_here, waiting_at};
ghost use Rattle.qs_world_lawful.specs.Waits.{IsWithin, standing_ops, waiting_ops};
ghost use Rattle.qs_base.specs.declared.identifiers.Member.{Member};
ghost use Rattle.qs_world_lawful.specs.Entering.{HoldsWork, book_at};
ghost use Rattle.qs_world_lawful.specs.Holds.{IsAsking, IsBehind};
ghost use Rattle.std.specs.BTreeMap.{is_at};
ghost use Rattle.std.specs.Map.{lookup};
ghost use Rattle.qs_book_journal.specs.declared.script_line.ScriptLine.{ScriptLine};
ghost use Rattle.qs_node_step.specs.Step.{with_command};
ghost use Rattle.qs_node_kept.specs.declared.kept.KeptLabel.{KeptLabel};

/// A client begins a transaction under a fresh label.
pub fn begin_is_lawful()
    ensures { (stamp : ℕ) (before : BookValue) (work : Work) (label : List ℕ) (client : ClientNo) → HoldsWork stamp before work → is_fresh (book_at stamp before work).labels label ≡ true → HoldsWork stamp before (enter (acts.Begin (tm.next_tid work.node.manager) label client) (put_label (record { label = label; tid = Some (tm.next_tid work.node.manager); owner = Some client }) (with_manager (tm.begin client) work))) }
{}

/// A client is answered what it may be told, where it does not wait for a commit.
pub fn answer_is_lawful()
    ensures { (stamp : ℕ) (before : BookValue) (work : Work) (client : ClientNo) (said : Answer) → HoldsWork stamp before work → ((owner : Owner) → slice_get (book_at stamp before work).owners client.0 ≡ Some owner → is_known owner said ≡ true) → ((t : Tid) → IsAsking work.node t client → ⊥) → HoldsWork stamp before (answer client said work) }
{}

/// The owner asks for commit, once, at the home, and waits for the outcome.
pub fn ask_is_lawful()
    ensures { (stamp : ℕ) (before : BookValue) (work : Work) (tid : Tid) (part : Participant) (tx : TransactionValue) → HoldsWork stamp before work → tm.part_of tid work.node.manager ≡ Some part → find_transaction (book_at stamp before work) tid ≡ Some tx → ((client : ClientNo) → tx.owner ≡ Some client → IsAsking work.node tid client) → tid.home ≡ work.node.setting.node → tid.inc ≡ work.node.setting.inc → part.asked ≡ false → part.outcome ≡ None → HoldsWork stamp before (ask tid part work) }
{}

/// A request goes to a server of the node itself: its entry is lawful where it breaks no clause of its own.
pub fn issue_here_is_lawful()
    ensures { (stamp : ℕ) (before : BookValue) (work : Work) (tid : Tid) (outstanding : Outstanding) (op : Op) (part : Participant) (tx : TransactionValue) → HoldsWork stamp before work → tm.part_of tid work.node.manager ≡ Some part → find_transaction (book_at stamp before work) tid ≡ Some tx → outstanding.member.node ≡ work.node.setting.node → outstanding.number ≡ local_count tid work.node + 1 → is_for outstanding.member.server op ≡ true → broken (book_at stamp before work) (entry_of work.node.setting.node.0 stamp (acts.Issue tid (member_here work outstanding.issuer) outstanding.member outstanding.number op)) ≡ None → HoldsWork stamp before (issue_here tid outstanding op work) }
{}

/// Another node of the run answers for what was sent to it, and no more: that is counted, where the transaction is undecided here.
pub fn counting_is_lawful()
    ensures { (stamp : ℕ) (before : BookValue) (work : Work) → HoldsWork stamp before work → (peer : NodeNo) (tid : Tid) (up_to : ℕ) (told : List NodeNo) → (peer.0 == work.node.setting.node.0) ≡ false → nat_lt peer.0 work.node.setting.nodes ≡ true → ((part : Participant) → tm.part_of tid work.node.manager ≡ Some part → is_undecided part ≡ true → up_to ≤ (peer_of part.engage peer).sent) → HoldsWork stamp before (closer_came peer tid up_to told work) }
{}

/// A request goes to a server of another node, and whoever was asked asks on: whether it crosses the transaction there or not, its
/// entry is lawful where it breaks no clause of its own. The node's count for that node has room.
pub fn issue_away_is_lawful()
    ensures { (stamp : ℕ) (before : BookValue) (work : Work) (tid : Tid) (outstanding : Outstanding) (op : Op) (part : Participant) (tx : TransactionValue) → HoldsWork stamp before work → tm.part_of tid work.node.manager ≡ Some part → find_transaction (book_at stamp before work) tid ≡ Some tx → outstanding.member.node.0 ≢ work.node.setting.node.0 → ((peer_of part.engage outstanding.member.node).sent == last_number) ≡ false → outstanding.member.node.0 < length part.engage.peers → broken (book_at stamp before work) (entry_of work.node.setting.node.0 stamp (acts.Issue tid (member_here work outstanding.issuer) outstanding.member outstanding.number op)) ≡ None → HoldsWork stamp before (issue_away tid outstanding op work) }
{}

/// The owner issues a request to a server of another node of the run, where commit was not asked for and no outcome is known.
pub fn owner_issue_away_is_lawful()
    ensures { (stamp : ℕ) (before : BookValue) (work : Work) (tid : Tid) (outstanding : Outstanding) (op : Op) (part : Participant) (tx : TransactionValue) → HoldsWork stamp before work → tm.part_of tid work.node.manager ≡ Some part → find_transaction (book_at stamp before work) tid ≡ Some tx → outstanding.member.node.0 ≢ work.node.setting.node.0 → ((peer_of part.engage outstanding.member.node).sent == last_number) ≡ false → outstanding.member.node.0 < length part.engage.peers → (client : ClientNo) → outstanding.issuer ≡ client_server client → outstanding.number ≡ (peer_of part.engage outstanding.member.node).sent + 1 → is_for outstanding.member.server op ≡ true → nat_lt outstanding.member.node.0 work.node.setting.nodes ≡ true → tx.owner ≡ Some client → tid.home ≡ work.node.setting.node → tid.inc ≡ work.node.setting.inc → part.asked ≡ false → part.outcome ≡ None → HoldsWork stamp before (issue_away tid outstanding op work) }
{}

/// Files issue a note of the changes that they have pending, to audit here or of another node of the run, once commit is asked for:
/// none with that count was served, and files wait for none.
pub fn note_issue_is_lawful()
    ensures { (stamp : ℕ) (before : BookValue) (work : Work) → HoldsWork stamp before work → (tid : Tid) (part : Participant) (tx : TransactionValue) → tm.part_of tid work.node.manager ≡ Some part → find_transaction (book_at stamp before work) tid ≡ Some tx → part.asked ≡ true → is_commit tx.cell ≡ false → nat_lt 0 (change_count tid work.node) ≡ true → has_noted (change_count tid work.node) part ≡ false → awaits_note part ≡ false → (to : NodeNo) → nat_lt to.0 work.node.setting.nodes ≡ true → to.0 < length part.engage.peers → HoldsWork stamp before (issue_note tid (Some to) work) }
{}

/// A request comes from another node, of what is not committed: its transaction is met, its label and its sender are noted, and it
/// waits at its server, where it stands behind what waits there.
pub fn request_is_taken_in()
    ensures { (stamp : ℕ) (before : BookValue) (work : Work) (tid : Tid) (tx : TransactionValue) → find_transaction (book_at stamp before work) tid ≡ Some tx → is_commit tx.cell ≡ false → HoldsWork stamp before work → (peer : NodeNo) (label : List ℕ) (member : Member) (number : ℕ) (op : Op) → IsWithin (waiting_ops (record { link = record { from = peer; to = work.node.setting.node }; number = number }) (waiting_at work.node tid member.server) ++ op ∷ []) (standing_ops tx (record { link = record { from = peer; to = work.node.setting.node }; number = number }) work.node.setting.node member.server) → HoldsWork stamp before (request_came peer tid label member number op work) }
{}

/// A message leaves all that is held.
pub fn send_leaves_all()
    ensures { (stamp : ℕ) (before : BookValue) (work : Work) (to : NodeNo) (message : Message) → HoldsWork stamp before work → HoldsWork stamp before (send to message work) }
{}

/// A record that is appended to the log leaves all that is held.
pub fn log_leaves_all()
    ensures { (stamp : ℕ) (before : BookValue) (work : Work) (rec : Record) → HoldsWork stamp before work → HoldsWork stamp before (log rec work) }
{}

/// A command of a client that has none comes, and its line is above those that were answered.
pub fn command_leaves_all()
    ensures { (stamp : ℕ) (before : BookValue) (work : Work) → HoldsWork stamp before work → (line : ScriptLine) → lookup (is_at (client_cmp line.client)) work.node.commands ≡ None → IsBehind (book_at stamp before work) line.client line.line → HoldsWork stamp before (with_command line work) }
{}

/// A label is kept that no client here owns with a transaction.
pub fn label_leaves_all()
    ensures { (stamp : ℕ) (before : BookValue) (work : Work) → HoldsWork stamp before work → (b : KeptLabel) → ((t : Tid) (c : ClientNo) → b.tid ≡ Some t → b.owner ≡ Some c → ⊥) → HoldsWork stamp before (put_label b work) }
{}

/// The owner issues a request to a server of its node, where commit was not asked for and no outcome is known.
pub fn owner_issue_is_lawful()
    ensures { (stamp : ℕ) (before : BookValue) (work : Work) (tid : Tid) (outstanding : Outstanding) (op : Op) (part : Participant) (tx : TransactionValue) → HoldsWork stamp before work → tm.part_of tid work.node.manager ≡ Some part → find_transaction (book_at stamp before work) tid ≡ Some tx → (client : ClientNo) → outstanding.issuer ≡ client_server client → outstanding.member.node ≡ work.node.setting.node → outstanding.number ≡ local_count tid work.node + 1 → is_for outstanding.member.server op ≡ true → nat_lt work.node.setting.node.0 work.node.setting.nodes ≡ true → tx.owner ≡ Some client → tid.home ≡ work.node.setting.node → tid.inc ≡ work.node.setting.inc → part.asked ≡ false → part.outcome ≡ None → HoldsWork stamp before (issue_here tid outstanding op work) }
{}

/// A client that holds a loan issues a request to a server of its node, where it knows no abort and the cell is not committed.
pub fn borrower_issue_is_lawful()
    ensures { (stamp : ℕ) (before : BookValue) (work : Work) (tid : Tid) (outstanding : Outstanding) (op : Op) (part : Participant) (tx : TransactionValue) → HoldsWork stamp before work → tm.part_of tid work.node.manager ≡ Some part → find_transaction (book_at stamp before work) tid ≡ Some tx → (client : ClientNo) → outstanding.issuer ≡ client_server client → outstanding.member.node ≡ work.node.setting.node → outstanding.number ≡ local_count tid work.node + 1 → is_for outstanding.member.server op ≡ true → nat_lt work.node.setting.node.0 work.node.setting.nodes ≡ true → nat_lt client.0 224 ≡ true → list_any (λ (loan : Lent). is_loan_here client work.node.setting.inc loan && not loan.yielded) (face_of work.node tid).loans ≡ true → part.outcome ≢ Some outcomes.Abort → is_commit tx.cell ≡ false → HoldsWork stamp before (issue_here tid outstanding op work) }
{}
