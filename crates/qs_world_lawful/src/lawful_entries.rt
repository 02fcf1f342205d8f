//! When an entry of a node is a lawful step, clause by clause.
ghost use Rattle.std.specs.Prelude.{◌≡◌, ◌≢◌, ℕ, ◌==◌, ◌≤◌, ◌&&◌, true, false, None, Some, Option, is_some, not, slice_get, nat_lt, List};
ghost use Rattle.std.specs.List.{list_any};
ghost use Rattle.qs_base.specs.declared.identifiers.ClientNo.{ClientNo};
ghost use Rattle.qs_base.specs.declared.identifiers.Member.{Member};
ghost use Rattle.qs_base.specs.declared.identifiers.NodeNo.{NodeNo};
ghost use Rattle.qs_base.specs.declared.identifiers.Outcome.{Outcome};
ghost use Rattle.qs_base.specs.declared.identifiers.Outcome.TheVariants as outcomes;
ghost use Rattle.qs_base.specs.declared.identifiers.ServerNo.{ServerNo};
ghost use Rattle.qs_base.specs.declared.identifiers.Tid.{Tid};
ghost use Rattle.qs_ops.specs.Members.{class_of, is_two_phase, learns_outcome};
ghost use Rattle.qs_ops.specs.declared.answer.Answer.{Answer};
ghost use Rattle.qs_ops.specs.declared.operation.Op.{Op};
ghost use Rattle.qs_ops.specs.declared.reply.Reply.{Reply};
ghost use Rattle.qs_ops.specs.declared.vote.Vote.{Vote};
ghost use Rattle.qs_book_journal.specs.declared.entry.Act.TheVariants as acts;
ghost use Rattle.qs_book_machine.specs.Book.{BookValue, find_transaction};
ghost use Rattle.qs_book_machine.specs.Clauses.{is_for, is_fresh, is_known, is_reply, is_vote, waits_for, earlier_servers};
ghost use Rattle.qs_book_machine.specs.Lawful.{broken};
ghost use Rattle.qs_book_machine.specs.Transaction.{TransactionValue, is_commit, standing_request};
ghost use Rattle.qs_book_machine.specs.declared.state.Owner.{Owner};
ghost use Rattle.qs_book_machine.specs.declared.transaction.Request.{Request};
ghost use Rattle.qs_engage.specs.Engage.{peer_of};
ghost use Rattle.qs_tm.specs.Manager as tm;
ghost use Rattle.qs_tm.specs.Members as rules;
ghost use Rattle.qs_tm.specs.Participant.{member_of};
ghost use Rattle.qs_tm.specs.declared.participant.Participant.{Participant};
ghost use Rattle.qs_node_servers.specs.Servers.{client_server};
ghost use Rattle.qs_node_step.specs.State.{NodeValue};
ghost use Rattle.qs_node_kept.specs.declared.kept.Lent.{Lent};
ghost use Rattle.qs_world.specs.Posting.{entry_of};
ghost use Rattle.qs_world_lawful.specs.Face.{face_of, part_in, at_server, is_loan_here};
ghost use Rattle.qs_world_lawful.specs.Holds.{Holds, is_kept};
ghost use Rattle.qs_world_lawful.specs.Issues.{next_to};

/// Where the machine holds what a node has, these entries of the node are lawful steps: it begins its next transaction under a
/// fresh label; time passes; a home that was not asked and knows no outcome is asked for commit; a peer's answer is counted
/// for requests that went to it; a request that stands is served with a reply by the rules where no outcome is known; a
/// server whose vote is due votes by the rules; a server that is to learn learns the outcome that its node knows, once those
/// before it have; and a client is told what it may be told.
pub fn entries_are_lawful()
    ensures begins { (stamp : ℕ) (book : BookValue) (node : NodeValue) → Holds stamp book node → (label : List ℕ) (client : ClientNo) → is_fresh book.labels label ≡ true → broken book (entry_of node.setting.node.0 stamp (acts.Begin (tm.next_tid node.manager) label client)) ≡ None }
    ensures ticks { (stamp : ℕ) (book : BookValue) (node : NodeValue) → Holds stamp book node → broken book (entry_of node.setting.node.0 stamp acts.Tick) ≡ None }
    ensures asks { (stamp : ℕ) (book : BookValue) (node : NodeValue) → Holds stamp book node → (tid : Tid) (tx : TransactionValue) → find_transaction book tid ≡ Some tx → (part : Participant) → tm.part_of tid node.manager ≡ Some part → tid.home ≡ node.setting.node → tid.inc ≡ node.setting.inc → part.asked ≡ false → part.outcome ≡ None → broken book (entry_of node.setting.node.0 stamp (acts.Ask tid)) ≡ None }
    ensures counts { (stamp : ℕ) (book : BookValue) (node : NodeValue) → Holds stamp book node → (tid : Tid) (tx : TransactionValue) → find_transaction book tid ≡ Some tx → (peer : NodeNo) (up_to : ℕ) → is_some (tm.part_of tid node.manager) ≡ true → (peer.0 == node.setting.node.0) ≡ false → nat_lt peer.0 node.setting.nodes ≡ true → up_to ≤ (peer_of (part_in (face_of node tid)).engage peer).sent → broken book (entry_of node.setting.node.0 stamp (acts.Counted tid peer up_to)) ≡ None }
    ensures serves { (stamp : ℕ) (book : BookValue) (node : NodeValue) → (h : Holds stamp book node) → (tid : Tid) (tx : TransactionValue) → find_transaction book tid ≡ Some tx → (member : Member) (from : NodeNo) (number : ℕ) (reply : Reply) (request : Request) → member.node ≡ node.setting.node → standing_request tx (record { link = record { from = from; to = member.node }; number = number }) member ≡ Some request → is_reply node.setting.node.0 h.state book.transactions tid tx member request.op reply ≡ true → (part_in (face_of node tid)).outcome ≡ None → broken book (entry_of node.setting.node.0 stamp (acts.Serve tid member from number reply)) ≡ None }
    ensures votes { (stamp : ℕ) (book : BookValue) (node : NodeValue) → (h : Holds stamp book node) → (tid : Tid) (tx : TransactionValue) → find_transaction book tid ≡ Some tx → (server : ServerNo) (ballot : Vote) → is_kept server ≡ true → is_two_phase (class_of server.0) ≡ true → (part_in (face_of node tid)).asked ≡ true → is_commit tx.cell ≡ false → rules.is_covering (member_of (part_in (face_of node tid)) server) ≡ false → is_vote h.state tid tx (at_server node.setting.node server) ballot ≡ true → broken book (entry_of node.setting.node.0 stamp (acts.Vote tid (at_server node.setting.node server) ballot (member_of (part_in (face_of node tid)) server).served)) ≡ None }
    ensures learns { (stamp : ℕ) (book : BookValue) (node : NodeValue) → (h : Holds stamp book node) → (tid : Tid) (tx : TransactionValue) → find_transaction book tid ≡ Some tx → (server : ServerNo) (outcome : Outcome) → is_kept server ≡ true → is_some (tm.part_of tid node.manager) ≡ true → (part_in (face_of node tid)).outcome ≡ Some outcome → learns_outcome (class_of server.0) ≡ true → rules.is_to_learn (class_of server.0) (member_of (part_in (face_of node tid)) server) ≡ true → list_any (waits_for tx (at_server node.setting.node server) h.state.inc) (earlier_servers (class_of server.0)) ≡ false → broken book (entry_of node.setting.node.0 stamp (acts.Learn tid (at_server node.setting.node server) outcome)) ≡ None }
    ensures answers { (stamp : ℕ) (book : BookValue) (node : NodeValue) → Holds stamp book node → (client : ClientNo) (line : ℕ) (said : Answer) (owner : Owner) → slice_get book.owners client.0 ≡ Some owner → nat_lt owner.line line ≡ true → is_known owner said ≡ true → broken book (entry_of node.setting.node.0 stamp (acts.Answer client line said)) ≡ None }
{}

/// A request of a client that may issue it is a lawful step: the owner's, before it asks for commit and before the decision,
/// and a borrower's with a loan of this incarnation that stands, where its node does not know abort.
pub fn requests_are_lawful()
    ensures owner { (stamp : ℕ) (book : BookValue) (node : NodeValue) → Holds stamp book node → (tid : Tid) (tx : TransactionValue) → find_transaction book tid ≡ Some tx → (client : ClientNo) (member : Member) (op : Op) (part : Participant) → tm.part_of tid node.manager ≡ Some part → tx.owner ≡ Some client → tid.home ≡ node.setting.node → tid.inc ≡ node.setting.inc → part.asked ≡ false → part.outcome ≡ None → is_for op member ≡ true → nat_lt member.node.0 node.setting.nodes ≡ true → broken book (entry_of node.setting.node.0 stamp (acts.Issue tid (at_server node.setting.node (client_server client)) member (next_to node tid member.node) op)) ≡ None }
    ensures borrower { (stamp : ℕ) (book : BookValue) (node : NodeValue) → Holds stamp book node → (tid : Tid) (tx : TransactionValue) → find_transaction book tid ≡ Some tx → (client : ClientNo) (member : Member) (op : Op) → nat_lt client.0 224 ≡ true → list_any (λ (loan : Lent). is_loan_here client node.setting.inc loan && not loan.yielded) (face_of node tid).loans ≡ true → (part_in (face_of node tid)).outcome ≢ Some outcomes.Abort → is_commit tx.cell ≡ false → is_for op member ≡ true → nat_lt member.node.0 node.setting.nodes ≡ true → broken book (entry_of node.setting.node.0 stamp (acts.Issue tid (at_server node.setting.node (client_server client)) member (next_to node tid member.node) op)) ≡ None }
{}
