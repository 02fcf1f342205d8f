//! What holds of every lawful history of the reference machine, from logs as nodes leave them.
ghost use Rattle.std.specs.Prelude.{◌≡◌, ℕ, true, false, None, Some, is_some, slice_get, List, [], ◌∷◌, ◌++◌, length, nat_lt};
ghost use Rattle.qs_base.specs.declared.identifiers.ClientNo.{ClientNo};
ghost use Rattle.qs_base.specs.declared.identifiers.Member.{Member};
ghost use Rattle.qs_base.specs.declared.identifiers.Outcome.{Outcome};
ghost use Rattle.qs_base.specs.declared.identifiers.Outcome.TheVariants as outcomes;
ghost use Rattle.qs_base.specs.declared.identifiers.Tid.{Tid};
ghost use Rattle.qs_ops.specs.declared.answer.Answer.{Answer};
ghost use Rattle.qs_ops.specs.declared.vote.Vote.TheVariants as votes;
ghost use Rattle.qs_book_journal.specs.declared.entry.Act.TheVariants as acts;
ghost use Rattle.qs_book_journal.specs.declared.entry.Entry.{Entry};
ghost use Rattle.qs_book_journal.specs.declared.entry.Found.{Found};
ghost use Rattle.qs_book_machine.specs.Transaction.{cell_of};
ghost use Rattle.qs_book_machine.specs.declared.transaction.Cell.{Cell};
ghost use Rattle.qs_book_machine.specs.declared.transaction.Cell.TheVariants as cells;
ghost use Rattle.qs_book_machine.specs.Book.{BookValue, find_transaction, cell_of_transaction, pending_in, inc_at};
ghost use Rattle.qs_book_machine.specs.Lawful.{IsLawful, broken, book_after, effect};
ghost use Rattle.qs_book_machine.specs.Nodes.{NodeValue, changes_of};
ghost use Rattle.qs_book_machine.specs.Opening.{opening};
ghost use Rattle.qs_book_machine.specs.Restart.{record_at, is_among};
ghost use Rattle.qs_book_machine.specs.declared.opened.Opened.{Opened};
ghost use Rattle.qs_book_laws.specs.Durable.{IsDurable};
ghost use Rattle.qs_book_laws.specs.Served.{held_at, crossed_at, changes_served, keeps_contents, IsHolding, NeverVotes, HasApplied, IsLogged, PendsAgain, CommitsOnce};
ghost use Rattle.qs_book_laws.specs.Unanimity.{IsUnanimous};
ghost use Rattle.qs_book_laws.specs.Learning.{EachLearnsAll, EachPendingLearns, EachPendsAsRecorded};
ghost use Rattle.qs_book_laws.specs.Laws.{IsCoherent, IsCommitted, IsDecided, IsTrueAnswer, TakesCommitted, LeavesCommitted, may_take};

/// A transaction has one outcome: its cell, once decided, never changes; every member learns the outcome that the cell
/// has; no two members learn different ones; and a client is told of a commit or an abort only where a transaction of its
/// own has that outcome, with that cause.
pub fn one_outcome()
    ensures decided { (opened : List Opened) (entries more : List Entry) (tid : Tid) (cell : Cell) → IsCoherent opened → IsLawful (opening opened) entries → IsLawful (book_after (opening opened) entries) more → IsDecided (book_after (opening opened) entries) tid cell → IsDecided (book_after (opening opened) (entries ++ more)) tid cell }
    ensures learnt { (opened : List Opened) (before after : List Entry) (entry : Entry) (tid : Tid) (member : Member) (outcome : Outcome) → IsLawful (opening opened) (before ++ (entry ∷ after)) → entry.act ≡ acts.Learn tid member outcome → IsDecided (book_after (opening opened) before) tid (cell_of outcome) }
    ensures agreed { (opened : List Opened) (before between after : List Entry) (first second : Entry) (tid : Tid) (member other : Member) (outcome last : Outcome) → IsCoherent opened → IsLawful (opening opened) (before ++ (first ∷ (between ++ (second ∷ after)))) → first.act ≡ acts.Learn tid member outcome → second.act ≡ acts.Learn tid other last → outcome ≡ last }
    ensures answered { (opened : List Opened) (before after : List Entry) (entry : Entry) (client : ClientNo) (line : ℕ) (answer : Answer) → IsCoherent opened → IsLawful (opening opened) (before ++ (entry ∷ after)) → entry.act ≡ acts.Answer client line answer → IsTrueAnswer (book_after (opening opened) before) client answer }
{}

/// Nothing of a transaction that isn't committed gets into committed contents: an entry changes the committed files and
/// notes of a node by changes that its servers had pending or on record, all of transactions whose cell is commit then, one
/// after the other. Only a member that learns commit, and a restart, change them at all.
pub fn nothing_of_an_aborted_transaction()
    ensures taken { (opened : List Opened) (before after : List Entry) (entry : Entry) (n : ℕ) (was now : NodeValue) → IsCoherent opened → IsLawful (opening opened) (before ++ (entry ∷ after)) → slice_get (book_after (opening opened) before).nodes n ≡ Some was → slice_get (effect (book_after (opening opened) before) entry).nodes n ≡ Some now → TakesCommitted (effect (book_after (opening opened) before) entry) was now }
    ensures left { (opened : List Opened) (before after : List Entry) (entry : Entry) (n : ℕ) (was now : NodeValue) → IsCoherent opened → IsLawful (opening opened) (before ++ (entry ∷ after)) → may_take entry.act ≡ false → slice_get (book_after (opening opened) before).nodes n ≡ Some was → slice_get (effect (book_after (opening opened) before) entry).nodes n ≡ Some now → LeavesCommitted was now }
{}

/// Files and audit keep each change that they served until they let go of it. What a member has pending of a transaction that
/// isn't crossed there is, after any lawful history, what it had before, followed by each change that it served with `Done`
/// since, in order, until it votes read-only, learns the outcome, or its node restarts. It votes read-only only where it has nothing
/// pending; a vote that it can commit puts all that is pending on record; and as it learns commit, it applies all of it, in
/// order and once.
pub fn served_changes_are_kept()
    ensures held { (book : BookValue) (entries : List Entry) (tid : Tid) (member : Member) → keeps_contents member.server.0 ≡ true → IsLawful book entries → IsHolding book tid member entries → held_at (book_after book entries) tid member ≡ held_at book tid member ++ changes_served book tid member entries }
    ensures let_go { (book : BookValue) (entry : Entry) (tid : Tid) (member : Member) (covers : ℕ) → keeps_contents member.server.0 ≡ true → broken book entry ≡ None → crossed_at book tid member ≡ false → entry.act ≡ acts.Vote tid member votes.ReadOnly covers → held_at book tid member ≡ [] }
    ensures voted { (book : BookValue) (entry : Entry) (tid : Tid) (member : Member) (covers : ℕ) → broken book entry ≡ None → entry.act ≡ acts.Vote tid member votes.Recoverable covers → record_at member.node.0 (effect book entry) tid member.server.0 ≡ Some (record { changes = held_at book tid member; covers = covers; pending = pending_in (find_transaction book tid) member (inc_at book entry.node) }) }
    ensures applied { (book : BookValue) (entry : Entry) (tid : Tid) (member : Member) (was now : NodeValue) → keeps_contents member.server.0 ≡ true → broken book entry ≡ None → entry.act ≡ acts.Learn tid member outcomes.Commit → slice_get book.nodes member.node.0 ≡ Some was → slice_get (effect book entry).nodes member.node.0 ≡ Some now → HasApplied member.server.0 (held_at book tid member) was now }
{}

/// A restart loses nothing that is on record of a committed transaction. It reads what files and audit had on record, or, where
/// it finds a vote that was not told, what was pending as the node stopped. Where it finds the transaction's Commit, it commits
/// these changes, once, in order; else, where the transaction isn't crossed there, they stay on record, and are pending again.
pub fn a_restart_keeps_what_is_on_record()
    ensures logged { (book : BookValue) (entry : Entry) (inc : ℕ) (pend : List Found) (done : List Tid) (tid : Tid) (member : Member) → broken book entry ≡ None → entry.act ≡ acts.Restart inc pend done → entry.node.0 ≡ member.node.0 → IsLogged book pend tid member }
    ensures pending { (book : BookValue) (entry : Entry) (inc : ℕ) (pend : List Found) (done : List Tid) (tid : Tid) (member : Member) → keeps_contents member.server.0 ≡ true → broken book entry ≡ None → entry.act ≡ acts.Restart inc pend done → entry.node.0 ≡ member.node.0 → IsCommitted book tid → crossed_at book tid member ≡ false → is_some (record_at member.node.0 book tid member.server.0) ≡ true → is_among done tid ≡ false → PendsAgain book (effect book entry) pend tid member }
    ensures committed { (book : BookValue) (entry : Entry) (inc : ℕ) (pend : List Found) (done : List Tid) (tid : Tid) (member : Member) (was now : NodeValue) → keeps_contents member.server.0 ≡ true → broken book entry ≡ None → entry.act ≡ acts.Restart inc pend done → entry.node.0 ≡ member.node.0 → is_some (record_at member.node.0 book tid member.server.0) ≡ true → is_among done tid ≡ true → slice_get book.nodes member.node.0 ≡ Some was → slice_get (effect book entry).nodes member.node.0 ≡ Some now → CommitsOnce book pend tid member was now }
{}

/// Where a member voted that it can commit, and neither voted again, let go nor restarted since, then as its transaction's
/// commit is decided, what it has on record is all that it has pending.
pub fn a_commit_covers_what_was_served()
    ensures { (opened : List Opened) (before between after : List Entry) (vote decision : Entry) (tid : Tid) (member : Member) (covers : ℕ) → IsCoherent opened → keeps_contents member.server.0 ≡ true → IsLawful (opening opened) (before ++ (vote ∷ (between ++ (decision ∷ after)))) → vote.act ≡ acts.Vote tid member votes.Recoverable covers → decision.act ≡ acts.Decide tid outcomes.Commit None → IsHolding (book_after (opening opened) before) tid member (vote ∷ between) → NeverVotes tid member between → changes_of (record_at member.node.0 (book_after (opening opened) (before ++ (vote ∷ between))) tid member.server.0) ≡ held_at (book_after (opening opened) (before ++ (vote ∷ between))) tid member }
{}

/// What is committed lasts. As an entry makes the cell of a transaction commit, files and audit of each node of the run have
/// all changes that they served for it pending and on record. They keep them so, through crashes and restarts, until an entry
/// applies them, in order: the member learns commit, or its node restarts and finds the Commit. From there on nothing of the
/// transaction is pending there, or on record, so that nothing applies them again.
pub fn committed_changes_are_durable()
    ensures { (opened : List Opened) (before after : List Entry) (entry : Entry) (tid : Tid) (member : Member) → IsCoherent opened → keeps_contents member.server.0 ≡ true → nat_lt member.node.0 (length opened) ≡ true → IsLawful (opening opened) (before ++ (entry ∷ after)) → cell_of_transaction (find_transaction (book_after (opening opened) before) tid) ≡ Some cells.Open → IsCommitted (effect (book_after (opening opened) before) entry) tid → IsDurable (book_after (opening opened) before) tid member (changes_served (opening opened) tid member before) (entry ∷ after) }
{}

/// A commit is unanimous. As it is decided, at its home or by a restart of its home that finds the Commit: commit was asked
/// for; each request was served, none crossing another; each that a two-phase member served stands before a vote of it for
/// commit in the same life of its node; no member ever voted against commit; and each loan was made and given back.
pub fn a_commit_is_unanimous()
    ensures decided { (opened : List Opened) (before after : List Entry) (entry : Entry) (tid : Tid) → IsCoherent opened → IsLawful (opening opened) (before ++ (entry ∷ after)) → entry.act ≡ acts.Decide tid outcomes.Commit None → IsUnanimous tid before }
    ensures committed { (opened : List Opened) (before after : List Entry) (entry : Entry) (tid : Tid) → IsCoherent opened → IsLawful (opening opened) (before ++ (entry ∷ after)) → cell_of_transaction (find_transaction (book_after (opening opened) before) tid) ≡ Some cells.Open → IsCommitted (effect (book_after (opening opened) before) entry) tid → IsUnanimous tid before }
{}

/// What is committed is learnt. Of a committed transaction files and audit of a node have pending just what is on record of it there: all of
/// it, or nothing any more. And what they have pending of a transaction that is not aborted, and is not crossed there, they have still to
/// learn the end of, in the last incarnation of their node. So where each of them that may learn it learns commit, they commit all that was on
/// record, once, and nothing of it is left on record.
pub fn what_is_pending_is_to_be_learnt()
    ensures recorded { EachPendsAsRecorded }
    ensures learns { EachPendingLearns }
    ensures learnt { EachLearnsAll }
{}
