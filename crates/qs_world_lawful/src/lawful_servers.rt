//! Rules of a node's servers, each as a whole: its entry is lawful, and the machine after it holds what the node has then.
ghost use Rattle.std.specs.Prelude.{◌≡◌, ◌≤◌, ◌&&◌, ◌||◌, ◌==◌, ℕ, ◌∷◌, suc, true, false, None, Some, Option, is_some, length, slice_get, nat_lt, List, if◌then◌else◌};
ghost use Rattle.std.specs.List.{filter, list_any};
ghost use Rattle.qs_base.specs.declared.identifiers.ClientNo.{ClientNo};
ghost use Rattle.qs_base.specs.declared.identifiers.Outcome.{Outcome};
ghost use Rattle.qs_base.specs.declared.identifiers.ServerNo.{ServerNo};
ghost use Rattle.qs_base.specs.declared.identifiers.Tid.{Tid};
ghost use Rattle.qs_engage.specs.Engage.{last_number};
ghost use Rattle.qs_engage.specs.Nodes.{same_node};
ghost use Rattle.qs_ipc.specs.Ipc as ipc;
ghost use Rattle.qs_ipc.specs.declared.delivery.Delivery.{Delivery};
ghost use Rattle.qs_ops.specs.Members.{class_of, is_two_phase, learns_outcome};
ghost use Rattle.qs_ops.specs.Server.{changes_in, after_serving, after_vote, after_notice, reply_of, vote_of};
ghost use Rattle.qs_ops.specs.Timers.{ticked};
ghost use Rattle.qs_ops.specs.declared.answer.Cause.{Cause};
ghost use Rattle.qs_ops.specs.declared.reply.Reply.{Reply};
ghost use Rattle.qs_ops.specs.declared.vote.Notice.TheVariants as notices;
ghost use Rattle.qs_ops.specs.declared.vote.Vote.{Vote};
ghost use Rattle.qs_book_journal.specs.declared.entry.Act.TheVariants as acts;
ghost use Rattle.qs_book_machine.specs.Book.{BookValue, find_transaction, is_done};
ghost use Rattle.qs_book_machine.specs.Clauses.{note_text, is_reply, is_vote};
ghost use Rattle.qs_book_machine.specs.Lawful.{broken};
ghost use Rattle.qs_book_machine.specs.Transaction.{TransactionValue, is_commit, standing_request, part_of, served_in, voted, learnt, ended, requests_at, is_standing, has_note, is_open, is_abort, is_loan_due, borrower};
ghost use Rattle.qs_book_machine.specs.declared.transaction.Request.{Request};
ghost use Rattle.qs_record.specs.declared.record.Record.{Record};
ghost use Rattle.qs_tm.specs.Manager as tm;
ghost use Rattle.qs_tm.specs.Members as rules;
ghost use Rattle.qs_tm.specs.Participant.{member_of, has_noted, awaits_note, is_answered_by, is_by_files};
ghost use Rattle.qs_tm.specs.declared.participant.Outstanding.{Outstanding};
ghost use Rattle.qs_tm.specs.declared.participant.Participant.{Participant};
ghost use Rattle.qs_node_kept.specs.Loans.{last_taken, give_back};
ghost use Rattle.qs_node_step.specs.Bringing.{enter, log_if};
ghost use Rattle.qs_node_step.specs.Deciding.{end_member, keep_outcome, learn_member, notice_of};
ghost use Rattle.qs_node_servers.specs.Servers.{is_client, server_at, timers_no, with_server};
ghost use Rattle.qs_node_step.specs.Serving.{enter_serve, lent_to, make_loan, reply_here, serve_next};
ghost use Rattle.qs_node_step.specs.State.{Work, with_kept, with_manager, with_queues, change_server};
ghost use Rattle.qs_node_step.specs.Voting.{enter_vote, served_count, vote_frame, vote_with};
ghost use Rattle.qs_node_kept.specs.declared.kept.Lent.{Lent};
ghost use Rattle.qs_world.specs.Posting.{entry_of};
ghost use Rattle.qs_ipc.specs.Queue.{is_for};
ghost use Rattle.qs_ops.specs.Servers.{files_no};
ghost use Rattle.qs_world_lawful.specs.Entering.{HoldsWork, book_at};
ghost use Rattle.qs_world_lawful.specs.Face.{waiting_at, at_server, is_numbered};
ghost use Rattle.qs_world_lawful.specs.Holds.{is_kept};
ghost use Rattle.qs_world_lawful.specs.Waits.{IsWithin, standing_ops, waiting_ops};
ghost use Rattle.std.specs.Prelude.{◌⊎◌};

/// A request that waits first leaves its queue.
pub fn next_leaves_all()
    ensures { (stamp : ℕ) (before : BookValue) (work : Work) → HoldsWork stamp before work → (server : ServerNo) → HoldsWork stamp before (with_queues (ipc.after_next server) work) }
{}

/// A member serves a request: where its entry breaks no clause of its own, one request more stands than waits, its count has
/// room, files have as many changes pending as the machine counts, and a note that was served is one that files wait for.
pub fn serve_is_lawful()
    ensures { (stamp : ℕ) (before : BookValue) (work : Work) (server : ServerNo) (delivery : Delivery) (reply : Reply) (part : Participant) (tx : TransactionValue) → HoldsWork stamp before work → tm.part_of delivery.tid work.node.manager ≡ Some part → find_transaction (book_at stamp before work) delivery.tid ≡ Some tx → (is_kept server ≡ true → ((member_of part server).served == last_number) ≡ false) → IsWithin (delivery.op ∷ waiting_ops (record { link = record { from = delivery.from; to = work.node.setting.node }; number = delivery.number }) (waiting_at work.node delivery.tid server)) (standing_ops tx (record { link = record { from = delivery.from; to = work.node.setting.node }; number = delivery.number }) work.node.setting.node server) → (part_of (served_in (record { link = record { from = delivery.from; to = work.node.setting.node }; number = delivery.number }) (at_server work.node.setting.node server) work.node.setting.inc stamp (is_done reply) tx) (at_server work.node.setting.node rules.files_no) work.node.setting.inc).pending ≡ length (changes_in (if is_client server then work.node.servers else with_server server (λ value. after_serving value delivery.tid delivery.op reply) work.node.servers).files delivery.tid) → ((count : ℕ) → 1 ≤ count → has_note (served_in (record { link = record { from = delivery.from; to = work.node.setting.node }; number = delivery.number }) (at_server work.node.setting.node server) work.node.setting.inc stamp (is_done reply) tx) (record { node = work.node.setting.node; inc = work.node.setting.inc; text = note_text delivery.tid work.node.setting.node.0 count }) ≡ true → (has_noted count part ≡ true) ⊎ (awaits_note part ≡ true)) → broken (book_at stamp before work) (entry_of work.node.setting.node.0 stamp (acts.Serve delivery.tid (at_server work.node.setting.node server) delivery.from delivery.number reply)) ≡ None → HoldsWork stamp before (enter_serve server delivery reply work) }
{}

/// A loan is made where the client was asked to take it in this step.
pub fn loan_is_lawful()
    ensures { (stamp : ℕ) (before : BookValue) (work : Work) (tid : Tid) (client : ClientNo) (tx : TransactionValue) → HoldsWork stamp before work → find_transaction (book_at stamp before work) tid ≡ Some tx → nat_lt client.0 224 ≡ true → is_loan_due tx (borrower client work.node.setting.node) work.node.setting.inc stamp ≡ true → HoldsWork stamp before (make_loan tid (Some client) work) }
{}

/// The last loan that a client took, in this incarnation, is given back.
pub fn give_back_is_lawful()
    ensures { (stamp : ℕ) (before : BookValue) (work : Work) (tid : Tid) (client : ClientNo) (tx : TransactionValue) → HoldsWork stamp before work → find_transaction (book_at stamp before work) tid ≡ Some tx → nat_lt client.0 224 ≡ true → (last : Lent) → last_taken client tid work.node.kept.now.loans ≡ Some last → last.yielded ≡ false → (last.inc == work.node.setting.inc) ≡ true → HoldsWork stamp before (enter (acts.Yield tid client) (with_kept (λ kept. record kept { loans = give_back client tid kept.loans }) work)) }
{}

/// A server that served something since its last vote votes: where its entry breaks no clause of its own, and files have as many
/// changes pending as the machine counts.
pub fn vote_is_lawful()
    ensures { (stamp : ℕ) (before : BookValue) (work : Work) (tid : Tid) (server : ServerNo) (ballot : Vote) (part : Participant) (tx : TransactionValue) → HoldsWork stamp before work → tm.part_of tid work.node.manager ≡ Some part → find_transaction (book_at stamp before work) tid ≡ Some tx → is_kept server ≡ true → is_two_phase (class_of server.0) ≡ true → rules.is_covering (member_of part server) ≡ false → (part_of (voted (at_server work.node.setting.node server) work.node.setting.inc ballot tx) (at_server work.node.setting.node rules.files_no) work.node.setting.inc).pending ≡ length (changes_in (with_server server (λ value. after_vote value tid ballot) work.node.servers).files tid) → broken (book_at stamp before work) (entry_of work.node.setting.node.0 stamp (acts.Vote tid (at_server work.node.setting.node server) ballot (served_count tid server work))) ≡ None → HoldsWork stamp before (enter_vote tid server ballot work) }
{}

/// A server that is to learn the outcome that its node knows learns it.
pub fn learn_is_lawful()
    ensures { (stamp : ℕ) (before : BookValue) (work : Work) (tid : Tid) (server : ServerNo) (part : Participant) (tx : TransactionValue) → HoldsWork stamp before work → tm.part_of tid work.node.manager ≡ Some part → find_transaction (book_at stamp before work) tid ≡ Some tx → is_kept server ≡ true → (outcome : Outcome) → part.outcome ≡ Some outcome → learns_outcome (class_of server.0) ≡ true → rules.is_to_learn (class_of server.0) (member_of part server) ≡ true → (part_of (learnt (at_server work.node.setting.node server) work.node.setting.inc outcome tx) (at_server work.node.setting.node rules.files_no) work.node.setting.inc).pending ≡ length (changes_in (with_server server (λ value. after_notice value tid (notice_of outcome)) work.node.servers).files tid) → broken (book_at stamp before work) (entry_of work.node.setting.node.0 stamp (acts.Learn tid (at_server work.node.setting.node server) outcome)) ≡ None → HoldsWork stamp before (learn_member tid outcome work server) }
{}

/// An immediate server that holds something is told that the transaction ends, once commit is asked for or it is aborted.
pub fn ending_is_lawful()
    ensures { (stamp : ℕ) (before : BookValue) (work : Work) (tid : Tid) (server : ServerNo) (part : Participant) (tx : TransactionValue) → HoldsWork stamp before work → tm.part_of tid work.node.manager ≡ Some part → find_transaction (book_at stamp before work) tid ≡ Some tx → is_kept server ≡ true → rules.is_immediate (class_of server.0) ≡ true → (member_of part server).fresh ≡ true → (part_of (ended (at_server work.node.setting.node server) work.node.setting.inc tx) (at_server work.node.setting.node rules.files_no) work.node.setting.inc).pending ≡ length (changes_in (with_server server (λ value. after_notice value tid notices.Ending) work.node.servers).files tid) → (is_some tx.asked || is_abort tx.cell) ≡ true → HoldsWork stamp before (end_member tid work server) }
{}

/// A home decides what it has not decided, and keeps the outcome for the owner.
pub fn decision_is_lawful()
    ensures { (stamp : ℕ) (before : BookValue) (work : Work) (tid : Tid) (outcome : Outcome) (cause : Option Cause) (rec : Option Record) (part : Participant) (tx : TransactionValue) → HoldsWork stamp before work → tm.part_of tid work.node.manager ≡ Some part → find_transaction (book_at stamp before work) tid ≡ Some tx → part.outcome ≡ None → is_open tx.cell ≡ true → ((client : ClientNo) → tx.owner ≡ Some client → is_some (slice_get (book_at stamp before work).owners client.0) ≡ true) → broken (book_at stamp before work) (entry_of work.node.setting.node.0 stamp (acts.Decide tid outcome cause)) ≡ None → HoldsWork stamp before (enter (acts.Decide tid outcome cause) (keep_outcome tid outcome cause (log_if rec (with_manager (tm.decide tid outcome) work)))) }
{}

/// Time passes.
pub fn tick_is_lawful()
    ensures { (stamp : ℕ) (before : BookValue) (work : Work) → HoldsWork stamp before work → HoldsWork stamp before (with_manager tm.tick (change_server timers_no (λ value. record value { timers = ticked value.timers }) (enter acts.Tick work))) }
{}

/// A member serves a request with its server's reply, and a client that takes a loan makes it at once. One request more stands
/// than waits, the member's count has room, and a note that was served is one that files wait for.
pub fn serving_is_lawful()
    ensures { (stamp : ℕ) (before : BookValue) (work : Work) (server : ServerNo) (delivery : Delivery) (reply : Reply) (part : Participant) (tx : TransactionValue) → HoldsWork stamp before work → tm.part_of delivery.tid work.node.manager ≡ Some part → find_transaction (book_at stamp before work) delivery.tid ≡ Some tx → (is_kept server ≡ true → ((member_of part server).served == last_number) ≡ false) → IsWithin (delivery.op ∷ waiting_ops (record { link = record { from = delivery.from; to = work.node.setting.node }; number = delivery.number }) (waiting_at work.node delivery.tid server)) (standing_ops tx (record { link = record { from = delivery.from; to = work.node.setting.node }; number = delivery.number }) work.node.setting.node server) → ((count : ℕ) → 1 ≤ count → has_note (served_in (record { link = record { from = delivery.from; to = work.node.setting.node }; number = delivery.number }) (at_server work.node.setting.node server) work.node.setting.inc stamp (is_done reply) tx) (record { node = work.node.setting.node; inc = work.node.setting.inc; text = note_text delivery.tid work.node.setting.node.0 count }) ≡ true → (has_noted count part ≡ true) ⊎ (awaits_note part ≡ true)) → is_for server delivery.op ≡ true → ((server.0 == files_no) ≡ true → reply_of work.node.servers.files delivery.tid delivery.op ≡ Some reply) → broken (book_at stamp before work) (entry_of work.node.setting.node.0 stamp (acts.Serve delivery.tid (at_server work.node.setting.node server) delivery.from delivery.number reply)) ≡ None → HoldsWork stamp before (make_loan delivery.tid (lent_to delivery.op) (enter_serve server delivery reply work)) }
{}

/// A server that served something since its last vote votes, and the changes of a recoverable vote go to the log.
pub fn voting_is_lawful()
    ensures { (stamp : ℕ) (before : BookValue) (work : Work) (tid : Tid) (server : ServerNo) (ballot : Vote) (part : Participant) (tx : TransactionValue) → HoldsWork stamp before work → tm.part_of tid work.node.manager ≡ Some part → find_transaction (book_at stamp before work) tid ≡ Some tx → is_kept server ≡ true → is_two_phase (class_of server.0) ≡ true → rules.is_covering (member_of part server) ≡ false → broken (book_at stamp before work) (entry_of work.node.setting.node.0 stamp (acts.Vote tid (at_server work.node.setting.node server) ballot (served_count tid server work))) ≡ None → HoldsWork stamp before (vote_with tid server ballot work) }
{}

/// A server of a transaction for which commit is asked, and that is not committed, votes by the rules of its kind.
pub fn voting_by_rules_is_lawful()
    ensures { (stamp : ℕ) (before : BookValue) (work : Work) (tid : Tid) (part : Participant) (tx : TransactionValue) (h : HoldsWork stamp before work) → tm.part_of tid work.node.manager ≡ Some part → find_transaction (book_at stamp before work) tid ≡ Some tx → (server : ServerNo) (ballot : Vote) → is_kept server ≡ true → is_two_phase (class_of server.0) ≡ true → part.asked ≡ true → is_commit tx.cell ≡ false → rules.is_covering (member_of part server) ≡ false → is_vote h.holds.state tid tx (at_server work.node.setting.node server) ballot ≡ true → HoldsWork stamp before (vote_with tid server ballot work) }
{}

/// A server votes as what it holds says, once commit is asked for: its vote is right by what both hold of it. Names vote against
/// the least name that is taken; where a hidden transaction has it, the machine has it in doubt.
pub fn own_vote_is_lawful()
    ensures { (stamp : ℕ) (before : BookValue) (work : Work) (tid : Tid) (part : Participant) (tx : TransactionValue) → HoldsWork stamp before work → tm.part_of tid work.node.manager ≡ Some part → find_transaction (book_at stamp before work) tid ≡ Some tx → (server : ServerNo) → is_kept server ≡ true → is_two_phase (class_of server.0) ≡ true → part.asked ≡ true → is_commit tx.cell ≡ false → rules.is_covering (member_of part server) ≡ false → HoldsWork stamp before (vote_with tid server (vote_of (server_at work.node.servers server) tid work.room (vote_frame work)) work) }
{}

/// A member serves a request that stands there by the rules of its kind, where its node knows no outcome.
pub fn serving_by_rules_is_lawful()
    ensures { (stamp : ℕ) (before : BookValue) (work : Work) (server : ServerNo) (delivery : Delivery) (reply : Reply) (part : Participant) (tx : TransactionValue) → (h : HoldsWork stamp before work) → tm.part_of delivery.tid work.node.manager ≡ Some part → find_transaction (book_at stamp before work) delivery.tid ≡ Some tx → part.outcome ≡ None → (is_kept server ≡ true → ((member_of part server).served == last_number) ≡ false) → IsWithin (delivery.op ∷ waiting_ops (record { link = record { from = delivery.from; to = work.node.setting.node }; number = delivery.number }) (waiting_at work.node delivery.tid server)) (standing_ops tx (record { link = record { from = delivery.from; to = work.node.setting.node }; number = delivery.number }) work.node.setting.node server) → ((count : ℕ) → 1 ≤ count → has_note (served_in (record { link = record { from = delivery.from; to = work.node.setting.node }; number = delivery.number }) (at_server work.node.setting.node server) work.node.setting.inc stamp (is_done reply) tx) (record { node = work.node.setting.node; inc = work.node.setting.inc; text = note_text delivery.tid work.node.setting.node.0 count }) ≡ true → (has_noted count part ≡ true) ⊎ (awaits_note part ≡ true)) → is_for server delivery.op ≡ true → ((server.0 == files_no) ≡ true → reply_of work.node.servers.files delivery.tid delivery.op ≡ Some reply) → (request : Request) → standing_request tx (record { link = record { from = delivery.from; to = work.node.setting.node }; number = delivery.number }) (at_server work.node.setting.node server) ≡ Some request → is_reply work.node.setting.node.0 h.holds.state (book_at stamp before work).transactions delivery.tid tx (at_server work.node.setting.node server) request.op reply ≡ true → HoldsWork stamp before (make_loan delivery.tid (lent_to delivery.op) (enter_serve server delivery reply work)) }
{}

/// What waits first at a server leaves its queue, and is served with its loan and its reply, or dropped where its transaction is not
/// undecided here: its reply is right by what both hold of its server. The member's count has room, a note that was served is one
/// that files wait for, and no note of files waits for a reply here.
pub fn serve_next_is_lawful()
    ensures { (stamp : ℕ) (before : BookValue) (work : Work) → HoldsWork stamp before work → (server : ServerNo) → ((delivery : Delivery) (part : Participant) → ipc.next server work.node.queues ≡ Some delivery → tm.part_of delivery.tid work.node.manager ≡ Some part → is_kept server ≡ true → ((member_of part server).served == last_number) ≡ false) → ((delivery : Delivery) (reply : Reply) (part : Participant) (tx : TransactionValue) → ipc.next server work.node.queues ≡ Some delivery → tm.part_of delivery.tid work.node.manager ≡ Some part → find_transaction (book_at stamp before work) delivery.tid ≡ Some tx → reply_here server delivery.tid delivery.op work.node ≡ Some reply → (count : ℕ) → 1 ≤ count → has_note (served_in (record { link = record { from = delivery.from; to = work.node.setting.node }; number = delivery.number }) (at_server work.node.setting.node server) work.node.setting.inc stamp (is_done reply) tx) (record { node = work.node.setting.node; inc = work.node.setting.inc; text = note_text delivery.tid work.node.setting.node.0 count }) ≡ true → (has_noted count part ≡ true) ⊎ (awaits_note part ≡ true)) → ((delivery : Delivery) (part : Participant) → ipc.next server work.node.queues ≡ Some delivery → tm.part_of delivery.tid work.node.manager ≡ Some part → same_node delivery.from work.node.setting.node ≡ true → list_any (λ (r : Outstanding). is_answered_by (at_server work.node.setting.node server) delivery.number r && is_by_files r) part.waiting ≡ false) → HoldsWork stamp before (serve_next work server) }
{}
