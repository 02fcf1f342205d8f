//! What a step is given: from what stands at each of its stages, and from what the agreement protocol gives.
ghost use Rattle.std.specs.Prelude.{◌≡◌, ◌<◌, ℕ, true, false, List, length, None, Option, Some, nat_lt};
ghost use Rattle.qs_base.specs.declared.identifiers.Member.{Member};
ghost use Rattle.qs_base.specs.declared.identifiers.ServerNo.{ServerNo};
ghost use Rattle.qs_base.specs.declared.identifiers.Tid.{Tid};
ghost use Rattle.qs_world_lawful.specs.Agreed.{AgreementGives, AgreesMessage, AreLentUndone, IsIdle, IsUndone};
ghost use Rattle.qs_world_lawful.specs.BesideStep.{HasCountRoom};
ghost use Rattle.qs_world_lawful.specs.Coming.{ComesLine, ComesMessage, ComesTo};
ghost use Rattle.qs_world_lawful.specs.WorldGives.{WorldGives};
ghost use Rattle.qs_world_lawful.specs.GivenStep.{MayCome, MayCommand, MayStep, MayWait, tick_work};
ghost use Rattle.qs_world_lawful.specs.StandingOn.{KeepsBeside, StepBeside};
ghost use Rattle.qs_world_lawful.specs.StepStands.{StepStands};
ghost use Rattle.qs_node_step.specs.declared.event.Event.{Event};
ghost use Rattle.qs_base.specs.declared.identifiers.ClientNo.{ClientNo};
ghost use Rattle.qs_base.specs.declared.identifiers.NodeNo.{NodeNo};
ghost use Rattle.qs_book_journal.specs.declared.script_line.ScriptLine.{ScriptLine};
ghost use Rattle.qs_packet.specs.declared.message.Message.{Message};
ghost use Rattle.qs_world.specs.Moves.{Source, client_count, event_of};
ghost use Rattle.qs_world.specs.Openings.{IsOpening, is_line, labels_begun};
ghost use Rattle.qs_world.specs.Posting.{next_line, next_parcel, post_all};
ghost use Rattle.qs_world.specs.World.{Opening, Parcel, World};
ghost use Rattle.std.specs.List.{list_all};
ghost use Rattle.qs_world_lawful.specs.NodeFacts.{AreHomed, FitsEvent, HasNodeFacts, IsSetIn};
ghost use Rattle.std.specs.Global.{Global};
ghost use Rattle.qs_node_kept.specs.declared.kept.Kept.{Kept};
ghost use Rattle.qs_restart.specs.declared.recovered.Recovered.{Recovered};
ghost use Rattle.qs_node_step.specs.Opening.{opened_node};
ghost use Rattle.qs_node_step.specs.declared.setting.Setting.{Setting};
ghost use Rattle.qs_ops.specs.declared.operation.Op.{Op};
ghost use Rattle.qs_node_step.specs.Restarts.{begin_incarnation, peer_restarted};
ghost use Rattle.qs_node_step.specs.Serving.{serve_next};
ghost use Rattle.qs_node_step.specs.Step.{abort_old, after_step, command_came, message_came, wait_on};
ghost use Rattle.qs_ipc.specs.Queue.{is_for};
ghost use Rattle.qs_book_journal.specs.declared.script_line.Command.TheVariants as commands;
ghost use Rattle.qs_world_lawful.specs.Parcels.{FitsChannels, HoldsChannels, HoldsWay, IsParcel, IsSaid};
ghost use Rattle.qs_session_channels.specs.Channels.{Channels, Move, moved};
ghost use Rattle.qs_world_lawful.specs.Logs.{Every};
ghost use Rattle.qs_node_step.specs.declared.event.Sending.{Sending};
ghost use Rattle.qs_world_lawful.specs.Scripts.{HoldsClient};
ghost use Rattle.qs_world_lawful.specs.Beside.{IsTrueCause};
ghost use Rattle.qs_world_lawful.specs.Entering.{book_at, entries_so_far};
ghost use Rattle.qs_book_journal.specs.declared.entry.Entry.{Entry};
ghost use Rattle.qs_book_laws.specs.Laws.{IsCoherent};
ghost use Rattle.qs_book_machine.specs.Lawful.{IsLawful, book_after};
ghost use Rattle.qs_book_machine.specs.Opening.{opening};
ghost use Rattle.qs_book_machine.specs.declared.opened.Opened.{Opened};
ghost use Rattle.qs_world_lawful.specs.Given.{HasCause, IsUncommitted, MayCommit, MayDecide, MayForget, MayPass, MayReply, MayServe, MaySettle};
ghost use Rattle.qs_world_lawful.specs.Standing.{CanCount, HoldsHomes, KeepsStanding, Stands, StandsBy};
ghost use Rattle.qs_node_step.specs.Settling.{forget_rule, pass_rule, ready_rule, refuse_rule, settle_tid, try};
ghost use Rattle.qs_book_machine.specs.Book.{BookValue, find_transaction};
ghost use Rattle.qs_book_machine.specs.Transaction.{TransactionValue, is_unanimous};
ghost use Rattle.qs_engage.specs.Nodes.{listed};
ghost use Rattle.qs_ops.specs.declared.answer.Cause.{Cause};
ghost use Rattle.qs_node_step.specs.State.{NodeValue, Work, here, work_on};
ghost use Rattle.qs_tm.specs.Manager as tm;
ghost use Rattle.qs_tm.specs.Participant.{is_forgotten};
ghost use Rattle.qs_tm.specs.declared.participant.Participant.{Participant};

/// What a rule of settling is given stands before it: what its home has not committed the machine has not; a home decides what it began
/// since it started; each cause that is kept the machine finds too; what is unanimous is committed, or its Commit finds no room; and of
/// what is forgotten the machine has nothing due.
pub fn settling_is_given()
    ensures undone { (stamp : ℕ) (before : BookValue) (size : ℕ) (nodes : ℕ → NodeValue) (n : ℕ) (work : Work) → StandsBy stamp before size nodes n work → (tid : Tid) → IsUndone size nodes n work tid → IsUncommitted stamp before work tid }
    ensures decides { (stamp : ℕ) (before : BookValue) (size : ℕ) (nodes : ℕ → NodeValue) (n : ℕ) (work : Work) → StandsBy stamp before size nodes n work → (tid : Tid) (part : Participant) → tm.part_of tid work.node.manager ≡ Some part → part.engage.home ≡ true → part.outcome ≡ None → MayDecide stamp before work tid }
    ensures causes { (stamp : ℕ) (before : BookValue) (size : ℕ) (nodes : ℕ → NodeValue) (n : ℕ) (work : Work) → StandsBy stamp before size nodes n work → (tid : Tid) (part : Participant) → tm.part_of tid work.node.manager ≡ Some part → (cause : Cause) → IsTrueCause (book_at stamp before work) tid cause → HasCause stamp before work tid cause }
    ensures passes { (stamp : ℕ) (before : BookValue) (size : ℕ) (nodes : ℕ → NodeValue) (n : ℕ) (work : Work) → StandsBy stamp before size nodes n work → (tid : Tid) (part : Participant) → tm.part_of tid work.node.manager ≡ Some part → IsUndone size nodes n work tid → MayPass stamp before work tid part }
    ensures commits { (stamp : ℕ) (before : BookValue) (size : ℕ) (nodes : ℕ → NodeValue) (n : ℕ) (work : Work) → Stands stamp before size nodes n work → (tid : Tid) (part : Participant) → tm.part_of tid work.node.manager ≡ Some part → part.engage.home ≡ true → part.outcome ≡ None → ((tx : TransactionValue) → find_transaction (book_at stamp before work) tid ≡ Some tx → is_unanimous tx ≡ true) → length (listed part.told) < work.node.setting.nodes → MayCommit stamp before work tid }
    ensures forgets { (stamp : ℕ) (before : BookValue) (size : ℕ) (nodes : ℕ → NodeValue) (n : ℕ) (work : Work) → Stands stamp before size nodes n work → (tid : Tid) (part : Participant) → tm.part_of tid work.node.manager ≡ Some part → part.engage.home ≡ false → is_forgotten part ≡ true → IsIdle part → MayForget stamp before work tid }
{}

/// Each transaction is settled with what it is given, and what stands goes on.
pub fn settling_is_given_whole()
    ensures may { (stamp : ℕ) (before : BookValue) (size : ℕ) (nodes : ℕ → NodeValue) (n : ℕ) → KeepsStanding stamp before size nodes n → (work : Work) (tid : Tid) → Stands stamp before size nodes n work → AgreementGives stamp before size nodes n work tid → HasCountRoom work tid → MaySettle stamp before work tid }
    ensures stands { (stamp : ℕ) (before : BookValue) (size : ℕ) (nodes : ℕ → NodeValue) (n : ℕ) → KeepsStanding stamp before size nodes n → (work : Work) (tid : Tid) → Stands stamp before size nodes n work → AgreementGives stamp before size nodes n work tid → HasCountRoom work tid → Stands stamp before size nodes n (settle_tid work tid) }
{}

/// Serving is given that what is served of notes is waited for, and a reply comes to who waits for it.
pub fn serving_is_given()
    ensures serves { (stamp : ℕ) (before : BookValue) (size : ℕ) (nodes : ℕ → NodeValue) (n : ℕ) (work : Work) → Stands stamp before size nodes n work → (server : ServerNo) → CanCount work server → MayServe stamp before work server }
    ensures replies { (stamp : ℕ) (before : BookValue) (size : ℕ) (nodes : ℕ → NodeValue) (n : ℕ) (work : Work) → Stands stamp before size nodes n work → (tid : Tid) (member : Member) (number : ℕ) → MayReply stamp before work tid member number }
{}

/// Commands are given what they need, as they come and while they wait; and so are messages.
pub fn coming_is_given()
    ensures waits { (stamp : ℕ) (before : BookValue) (size : ℕ) (nodes : ℕ → NodeValue) (n : ℕ) (work : Work) → StandsBy stamp before size nodes n work → AreLentUndone size nodes n work → (client : ClientNo) → nat_lt client.0 client_count ≡ true → MayWait stamp before work client }
    ensures commands { (stamp : ℕ) (before : BookValue) (size : ℕ) (nodes : ℕ → NodeValue) (n : ℕ) (work : Work) → StandsBy stamp before size nodes n work → AreLentUndone size nodes n work → (line : ScriptLine) → ComesLine (book_at stamp before work) work.node line → MayCommand stamp before work line }
    ensures messages { (stamp : ℕ) (before : BookValue) (size : ℕ) (nodes : ℕ → NodeValue) (n : ℕ) (work : Work) → Stands stamp before size nodes n work → (peer : NodeNo) (message : Message) → ComesMessage (book_at stamp before work) work.node peer message → AgreesMessage size nodes n work peer message → MayCome stamp before work peer message }
{}

/// A whole step is given all that it needs by what stands as its event comes, by where the event comes from, and by what the agreement
/// protocol gives at each stage.
pub fn step_is_given()
    ensures { (stamp : ℕ) (before : BookValue) (size : ℕ) (nodes : ℕ → NodeValue) (n : ℕ) (node : NodeValue) (event : Event) (free : ℕ) → StepStands stamp before size nodes n node event free → MayStep stamp before node event free }
{}

/// What comes from the world comes as it is given: the next line of a script, and the next message of a channel.
pub fn world_gives_what_comes()
    ensures lines { (o : Opening) (book : BookValue) (world : World) (k n : ℕ) → HoldsClient o book world k → nat_lt k client_count ≡ true → nat_lt n world.size ≡ true → world.channels.up n ≡ true → (world.clients k).at ≡ n → (world.hosts n).node.setting.nodes ≡ world.size → list_all (is_line world.size k (labels_begun (o.clients k).1)) (o.clients k).1 ≡ true → (line : ScriptLine) → next_line (world.clients k) ≡ Some line → ComesLine book (world.hosts n).node line }
    ensures messages { (book : BookValue) (world : World) (n m : ℕ) → HoldsChannels book world.size world.channels → HoldsWay book world.channels m n (world.hosts n).node → (world.hosts n).node.setting.node.0 ≡ n → (world.hosts n).node.setting.nodes ≡ world.size → (parcel : Parcel) → next_parcel world n m ≡ Some parcel → ComesMessage book (world.hosts n).node (record { 0 = m }) parcel.message }
{}

/// What holds of a node by itself holds on at each stage of a step: through the first step of an incarnation, what comes, each rule of
/// settling, and commands that stayed open.
pub fn stages_keep_the_facts()
    ensures begins { (work : Work) → HasNodeFacts work.node → HasNodeFacts (begin_incarnation work).node }
    ensures messages { (peer : NodeNo) (message : Message) (work : Work) → HasNodeFacts work.node → HasNodeFacts (message_came peer message work).node }
    ensures commands { (line : ScriptLine) (work : Work) → nat_lt line.client.0 client_count ≡ true → ((member : Member) (op : Op) → line.command ≡ commands.Request member op → (is_for member.server op ≡ true) × (nat_lt member.node.0 work.node.setting.nodes ≡ true)) → HasNodeFacts work.node → HasNodeFacts (command_came line work).node }
    ensures serves { (work : Work) (server : ServerNo) → HasNodeFacts work.node → HasNodeFacts (serve_next work server).node }
    ensures restarts { (peer : NodeNo) (old new : ℕ) (work : Work) → HasNodeFacts work.node → HasNodeFacts (peer_restarted peer old new work).node }
    ensures ticks { (work : Work) → HasNodeFacts work.node → HasNodeFacts (tick_work work).node }
    ensures olds { (work : Work) (age : ℕ) (tid : Tid) → work.node.setting.age ≡ Some age → HasNodeFacts work.node → HasNodeFacts (abort_old age work tid).node }
    ensures passes { (work : Work) (tid : Tid) → HasNodeFacts work.node → HasNodeFacts (try tid pass_rule work).node }
    ensures readies { (work : Work) (tid : Tid) → HasNodeFacts work.node → HasNodeFacts (try tid ready_rule work).node }
    ensures refuses { (work : Work) (tid : Tid) → HasNodeFacts work.node → HasNodeFacts (try tid refuse_rule work).node }
    ensures forgets { (work : Work) (tid : Tid) → HasNodeFacts work.node → HasNodeFacts (try tid forget_rule work).node }
    ensures waits { (work : Work) (client : ClientNo) → HasNodeFacts work.node → HasNodeFacts (wait_on work client).node }
{}

/// What holds of a node by itself holds as each incarnation begins, with what its log says and what was kept for its clients, and after
/// each whole step, where a command that comes fits the run.
pub fn nodes_have_the_facts()
    ensures opened { (alloc : Global) (setting : Setting) (found : Recovered) (kept : Kept) → IsSetIn setting → AreHomed setting.node kept → HasNodeFacts (opened_node alloc setting found kept) }
    ensures stepped { (node : NodeValue) (event : Event) (free : ℕ) → FitsEvent node.setting event → HasNodeFacts node → HasNodeFacts (after_step node event free) }
{}

/// What a node enters decides nothing that began elsewhere: so what the machine has committed, the other homes have, at each stage of a step.
pub fn homes_have_what_is_committed()
    ensures { (stamp : ℕ) (before : BookValue) (size : ℕ) (nodes : ℕ → NodeValue) (n : ℕ) (work : Work) → (here work).0 ≡ n → IsLawful before (entries_so_far stamp work) → HoldsHomes before size nodes n → HoldsHomes (book_at stamp before work) size nodes n }
{}

/// So a whole step is given all that it needs by the node's own facts before it, by what the homes have committed, and, of its rules, by
/// what they keep beside the node alone.
pub fn step_is_given_beside()
    ensures rules { (stamp : ℕ) (before : BookValue) (size : ℕ) (nodes : ℕ → NodeValue) (n : ℕ) → HoldsHomes before size nodes n → KeepsBeside stamp before size nodes n → KeepsStanding stamp before size nodes n }
    ensures step { (stamp : ℕ) (before : BookValue) (size : ℕ) (nodes : ℕ → NodeValue) (n : ℕ) (node : NodeValue) (event : Event) (free : ℕ) → StepBeside stamp before size nodes n node event free → MayStep stamp before node event free }
{}

/// What a message says is so for good, through every lawful history: that commit was asked for, an outcome, a cause, an abort that names
/// nodes.
pub fn what_is_said_stays()
    ensures { (opened : List Opened) (history more : List Entry) → IsCoherent opened → IsLawful (opening opened) history → IsLawful (book_after (opening opened) history) more → (message : Message) → IsSaid (book_after (opening opened) history) message → IsSaid (book_after (book_after (opening opened) history) more) message }
{}

/// What channels hold is so after each thing that happens to them, and after what a step sends, where that is so; and once the machine
/// went on.
pub fn channels_hold_what_is_so()
    ensures moved { (book : BookValue) (size : ℕ) (move : Move Parcel) (c : Channels Parcel) → FitsChannels book size move c → HoldsChannels book size c → HoldsChannels book size (moved move c) }
    ensures posted { (book : BookValue) (size n stamp : ℕ) (sendings : List Sending) (c : Channels Parcel) → Every (λ (sending : Sending). IsParcel book size n sending.to.0 (record { stamp = stamp; message = sending.message })) sendings → HoldsChannels book size c → HoldsChannels book size (post_all n stamp sendings c) }
    ensures later { (opened : List Opened) (history more : List Entry) → IsCoherent opened → IsLawful (opening opened) history → IsLawful (book_after (opening opened) history) more → (size : ℕ) (c : Channels Parcel) → HoldsChannels (book_after (opening opened) history) size c → HoldsChannels (book_after (book_after (opening opened) history) more) size c }
{}

/// Whatever event comes to a node of a world, it comes as it is given, by what the world holds of scripts and channels.
pub fn world_gives_events()
    ensures { (o : Opening) (book : BookValue) (world : World) (n stamp free : ℕ) → IsOpening o → (source : Source) → WorldGives o book world n free source → (event : Event) → event_of world n stamp source ≡ Some event → ComesTo book event (work_on (world.hosts n).node free) }
{}
