//! What holds of the end of transactions at a node, and of its restart.
ghost use Rattle.std.specs.Prelude.{◌≡◌, ℕ, true, false, None, Some, slice_get, List, ◌∷◌, ◌++◌};
ghost use Rattle.qs_base.specs.declared.identifiers.Member.{Member};
ghost use Rattle.qs_base.specs.declared.identifiers.NodeNo.{NodeNo};
ghost use Rattle.qs_base.specs.declared.identifiers.Outcome.{Outcome};
ghost use Rattle.qs_base.specs.declared.identifiers.Tid.{Tid};
ghost use Rattle.qs_ops.specs.Members.{class_of};
ghost use Rattle.qs_ops.specs.declared.reply.Reply.{Reply};
ghost use Rattle.qs_book_journal.specs.declared.entry.Act.TheVariants as acts;
ghost use Rattle.qs_book_journal.specs.declared.entry.Entry.{Entry};
ghost use Rattle.qs_book_journal.specs.declared.entry.Found.{Found};
ghost use Rattle.qs_book_machine.specs.Book.{BookValue, find_transaction};
ghost use Rattle.qs_book_machine.specs.Clauses.{is_gone_cause};
ghost use Rattle.qs_book_machine.specs.Lawful.{IsLawful, broken, book_after, effect};
ghost use Rattle.qs_book_machine.specs.Nodes.{NodeValue};
ghost use Rattle.qs_book_machine.specs.Opening.{opening};
ghost use Rattle.qs_book_machine.specs.declared.opened.Opened.{Opened};
ghost use Rattle.qs_book_laws.specs.Endings.{is_learner, learns_before, BeginsEmpty};
ghost use Rattle.qs_book_machine.specs.Transaction.{TransactionValue};
ghost use Rattle.qs_book_laws.specs.Gone.{IsGone};
ghost use Rattle.qs_book_laws.specs.Laws.{IsCoherent};
ghost use Rattle.qs_book_laws.specs.Lives.{IsOneLife};

/// Once a server has learnt the outcome of a transaction, abort or commit, no member at its node serves anything of the
/// transaction until the node restarts.
pub fn nothing_is_served_after_an_outcome()
    ensures { (opened : List Opened) (before between after : List Entry) (first second : Entry) (tid : Tid) (member other : Member) (outcome : Outcome) (from : NodeNo) (number : ℕ) (reply : Reply) → IsCoherent opened → IsLawful (opening opened) (before ++ (first ∷ (between ++ (second ∷ after)))) → is_learner member.server.0 ≡ true → first.act ≡ acts.Learn tid member outcome → IsOneLife member.node between → second.act ≡ acts.Serve tid other from number reply → other.node ≡ member.node → ⊥ }
{}

/// The servers of a node learn an outcome in order: those that vote before windows, and these before scratch. Once one has
/// learnt it, none that comes before it learns it any more until the node restarts.
pub fn servers_learn_in_order()
    ensures { (opened : List Opened) (before between after : List Entry) (first second : Entry) (tid : Tid) (member other : Member) (outcome last : Outcome) → IsCoherent opened → IsLawful (opening opened) (before ++ (first ∷ (between ++ (second ∷ after)))) → is_learner member.server.0 ≡ true → is_learner other.server.0 ≡ true → other.node ≡ member.node → first.act ≡ acts.Learn tid member outcome → IsOneLife member.node between → second.act ≡ acts.Learn tid other last → learns_before (class_of other.server.0) (class_of member.server.0) ≡ false }
{}

/// As a node restarts, its names, windows, scratch and timers are empty: they have no contents, and nothing of any transaction.
pub fn volatile_servers_begin_empty()
    ensures { (book : BookValue) (entry : Entry) (inc : ℕ) (pend : List Found) (done : List Tid) (node : NodeValue) → broken book entry ≡ None → entry.act ≡ acts.Restart inc pend done → slice_get (effect book entry).nodes entry.node.0 ≡ Some node → BeginsEmpty node }
{}

/// A transaction may be aborted because a node is gone, in an incarnation of its, exactly where the node ran in that incarnation
/// in this run, and at some moment of the history when it had restarted into a later one a request of the transaction to it
/// stood open: of files, or of a client that had no answer since, or not counted by its node in the life in which it issued it.
pub fn gone_is_a_request_that_stood_open()
    ensures only { (opened : List Opened) (history : List Entry) (tid : Tid) (node : NodeNo) (gone : ℕ) (tx : TransactionValue) (peer : NodeValue) → IsCoherent opened → IsLawful (opening opened) history → find_transaction (book_after (opening opened) history) tid ≡ Some tx → slice_get (book_after (opening opened) history).nodes node.0 ≡ Some peer → is_gone_cause (Some peer) tx node gone ≡ true → IsGone (opening opened) history tid node gone }
    ensures whenever { (opened : List Opened) (history : List Entry) (tid : Tid) (node : NodeNo) (gone : ℕ) (tx : TransactionValue) (peer : NodeValue) → IsCoherent opened → IsLawful (opening opened) history → find_transaction (book_after (opening opened) history) tid ≡ Some tx → slice_get (book_after (opening opened) history).nodes node.0 ≡ Some peer → IsGone (opening opened) history tid node gone → is_gone_cause (Some peer) tx node gone ≡ true }
{}
