//! How a node serves, settles and answers, and its whole step: what is held goes on through each, with what each rule is given.
ghost use Rattle.std.specs.Prelude.{◌≡◌, ℕ, true, false, None, Some};
ghost use Rattle.qs_base.specs.declared.identifiers.ClientNo.{ClientNo};
ghost use Rattle.qs_base.specs.declared.identifiers.Member.{Member};
ghost use Rattle.qs_base.specs.declared.identifiers.NodeNo.{NodeNo};
ghost use Rattle.qs_base.specs.declared.identifiers.Tid.{Tid};
ghost use Rattle.qs_ipc.specs.Ipc as ipc;
ghost use Rattle.qs_book_journal.specs.declared.script_line.ScriptLine.{ScriptLine};
ghost use Rattle.qs_world_walk.specs.Walked.{AtEach};
ghost use Rattle.qs_world_lawful.specs.Entering.{HoldsWork};
ghost use Rattle.qs_world_lawful.specs.Given.{MayForget, MayPass, MayReply, MayServe, MaySettle};
ghost use Rattle.qs_world_lawful.specs.GivenStep.{MayBeAsked, MayCommand, MayHappen, MayStep, MayWait};
ghost use Rattle.qs_world_lawful.specs.Holds.{Holds};
ghost use Rattle.qs_book_machine.specs.Book.{BookValue};
ghost use Rattle.qs_book_machine.specs.Lawful.{IsLawful, book_after};
ghost use Rattle.qs_ops.specs.declared.reply.Reply.{Reply};
ghost use Rattle.qs_node_step.specs.Asking.{ask_came};
ghost use Rattle.qs_node_step.specs.Requests.{reply_came};
ghost use Rattle.qs_node_step.specs.Serving.{serve_all, serve_next};
ghost use Rattle.qs_node_step.specs.Settling.{due_tids, forget_rule, settle, settle_tid};
ghost use Rattle.qs_node_step.specs.State.{NodeValue, Work};
ghost use Rattle.qs_node_step.specs.Step.{after_step, answer_waiting, command_came, effects_of, happen, step_work, wait_on, waiting_clients};
ghost use Rattle.qs_node_step.specs.Voting.{vote_pass};
ghost use Rattle.qs_node_step.specs.declared.event.Event.{Event};
ghost use Rattle.qs_tm.specs.Manager as tm;
ghost use Rattle.qs_tm.specs.Participant.{awaits_note, is_forgotten};
ghost use Rattle.qs_tm.specs.declared.participant.Participant.{Participant};
ghost use Rattle.qs_world.specs.Posting.{entries_of};

/// A reply comes to a request of a client, which is answered, or to a note of files, which is noted. Each note that was served stays
/// noted, or waited for.
pub fn any_reply_is_lawful()
    ensures { (stamp : ℕ) (before : BookValue) (work : Work) → HoldsWork stamp before work → (tid : Tid) (member : Member) (number : ℕ) (reply : Reply) → MayReply stamp before work tid member number → HoldsWork stamp before (reply_came tid member number reply work) }
{}

/// All that waits is served, each request with the reply that its server gives it.
pub fn serving_all_is_lawful()
    ensures { (stamp : ℕ) (before : BookValue) (work : Work) → HoldsWork stamp before work → AtEach (MayServe stamp before) serve_next work (ipc.turns work.node.queues) → HoldsWork stamp before (serve_all work) }
{}

/// A node is asked by the one that it answers to, once, and asks on, where commit was asked for at the home.
pub fn asking_on_is_lawful()
    ensures { (stamp : ℕ) (before : BookValue) (work : Work) → HoldsWork stamp before work → (peer : NodeNo) (tid : Tid) → MayBeAsked stamp before work tid → HoldsWork stamp before (ask_came peer tid work) }
{}

/// The vote pass of a transaction that is asked for commit, while files wait for no note: timers are told that it ends, files issue the
/// note that they owe or vote, and each other server votes whose vote is due. Nothing is committed meanwhile.
pub fn vote_pass_is_lawful()
    ensures { (stamp : ℕ) (before : BookValue) (work : Work) (tid : Tid) (part : Participant) → HoldsWork stamp before work → tm.part_of tid work.node.manager ≡ Some part → part.asked ≡ true → awaits_note part ≡ false → MayPass stamp before work tid part → HoldsWork stamp before (vote_pass tid work) }
{}

/// A node that only read of a transaction forgets it, where the machine has nothing due of it there.
pub fn forgetting_is_lawful()
    ensures { (stamp : ℕ) (before : BookValue) (work : Work) (tid : Tid) (part : Participant) → HoldsWork stamp before work → tm.part_of tid work.node.manager ≡ Some part → part.outcome ≡ None → (is_forgotten part ≡ true → MayForget stamp before work tid) → HoldsWork stamp before (forget_rule tid part work) }
{}

/// A transaction is settled: its pass is made where it is due; where it is ready its home commits it, or aborts it for want of room, and
/// another node answers its superior; causes go on, and at the home the first aborts it; what only read is forgotten.
pub fn settling_is_lawful()
    ensures { (stamp : ℕ) (before : BookValue) (work : Work) (tid : Tid) → HoldsWork stamp before work → MaySettle stamp before work tid → HoldsWork stamp before (settle_tid work tid) }
{}

/// A node settles each transaction to which something may be due, in order.
pub fn settle_is_lawful()
    ensures { (stamp : ℕ) (before : BookValue) (work : Work) → HoldsWork stamp before work → AtEach (MaySettle stamp before) settle_tid work (due_tids work) → HoldsWork stamp before (settle work) }
{}

/// Whatever a client commands, to servers here or of other nodes, is obeyed as it comes.
pub fn any_command_is_lawful()
    ensures { (stamp : ℕ) (before : BookValue) (work : Work) → HoldsWork stamp before work → (line : ScriptLine) → MayCommand stamp before work line → HoldsWork stamp before (command_came line work) }
{}

/// The commands that stayed open are looked at again, one after the other.
pub fn answering_is_lawful()
    ensures { (stamp : ℕ) (before : BookValue) (work : Work) → HoldsWork stamp before work → AtEach (MayWait stamp before) wait_on work (waiting_clients work) → HoldsWork stamp before (answer_waiting work) }
{}

/// What comes to a node is done: a command, a message, that what waits is served, another node's restart, or that time passes, with the
/// transactions that are too old.
pub fn event_is_lawful()
    ensures { (stamp : ℕ) (before : BookValue) (work : Work) → HoldsWork stamp before work → (event : Event) → MayHappen stamp before event work → HoldsWork stamp before (happen event work) }
{}

/// A whole step: from what is held of a node as the event comes, the entries of the step are lawful in their order, and the machine
/// after them holds what the node is then. What the step is given beside is `MayStep`. The node's setting stays.
pub fn step_is_lawful()
    ensures work { (stamp : ℕ) (book : BookValue) (node : NodeValue) (event : Event) (free : ℕ) → Holds stamp book node → MayStep stamp book node event free → HoldsWork stamp book (step_work node event free) }
    ensures entries { (stamp : ℕ) (book : BookValue) (node : NodeValue) (event : Event) (free : ℕ) → Holds stamp book node → MayStep stamp book node event free → IsLawful book (entries_of node.setting.node.0 stamp (effects_of node event free).entries) × Holds stamp (book_after book (entries_of node.setting.node.0 stamp (effects_of node event free).entries)) (after_step node event free) }
    ensures setting { (node : NodeValue) (event : Event) (free : ℕ) → (after_step node event free).setting ≡ node.setting }
{}
