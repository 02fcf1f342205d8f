//! The top call.
ghost use Rattle.std.specs.Prelude.{◌≡◌, ◌≢◌, ◌↔◌, ◌≤◌, ◌⊎◌, ◌^◌, ⊤, ℕ, List, Ok, Err, None, Some, length, IfOk, IfErr};
ghost use Rattle.std.specs.Io.KnownBytes.{Appends};
ghost use Rattle.qs_base.specs.Causes.{Rose};
ghost use Rattle.qs_base.specs.declared.identifiers.NodeNo.{NodeNo};
ghost use Rattle.qs_log.specs.Image.{IsDamaged};
ghost use Rattle.qs_gen.specs.Load.{load_script};
ghost use Rattle.qs_io.specs.Streams.{TakesAtMost, GivesPart};
ghost use Rattle.qs_text_history.specs.Journal.{IsFault};
ghost use Rattle.qs_text_script.specs.Script.{script_of};
ghost use Rattle.qs_text_script.specs.Words.{form_of};
ghost use Rattle.qs_text_script.specs.declared.reading.ScriptFailed.TheVariants.{Fault};
ghost use Rattle.qs_book_script.specs.declared.status.ScriptFault.{ScriptFault};
ghost use Rattle.qs_top.specs.Asking.{asked_by, nodes_of};
ghost use Rattle.qs_top.specs.Disks.{AreOnlyTouched, AreOthers, AtNode, OfThese, StayCoherent, StayRoomy};
ghost use Rattle.qs_top.specs.Inner.Giving.{IsGiven, IsGivenOf, IsNoScript, IsTextFault};
ghost use Rattle.qs_top.specs.Ran.{RanByRounds};
ghost use Rattle.qs_top.specs.Run.{HasLawful, IsNotBegun, IsNothing, IsRefused, IsShort, IsWhole, LeaveAll};
ghost use Rattle.qs_top.specs.Statuses.{IfNot, IsEnd, IsPastScript, IsOfRun, Gives, Tells};
ghost use Rattle.qs_top.specs.Texts.{HasText, OfScript, ReadWhole};
ghost use Rattle.qs_top.specs.Verdict.{IsUnlawfulText, IsVerdict, IsOfCheck};

use crate::asking::{Asked, asked_by};
use crate::checking::check_source;
use crate::nodes::run_over_nodes;
use crate::outcome::Run;
use crate::whole::RunMade;
use qs_base::{Bytes, List};
use qs_disk::Disk;
use qs_gen::load_script;
use qs_io::{ReadFault, Sink, Source, give_all, read_text};
use qs_text::{Script, ScriptFailed, Shown, Status, read_script};
use qs_world_left::{
    disks_are_read, refused_runs_leave_standing_disks, runs_follow_runs, runs_leave_standing_disks,
    touched_disks_stay_coherent,
};
use qs_world_nodes::{nodes_have_openings, rounds_are_lawful, rounds_are_runs_of_the_world};
use qs_world_opening::scripts_fit;
use qs_world_rooms::{roomy_disks_are_read, runs_leave_room};
use std::alloc::Global;
use std::thread::Threads;

/// The most bytes that a script may have.
const SCRIPT_LIMIT: usize = 1_048_576;

/// A run that ended before it made an entry.
fn ended(alloc: Global, status: Status) -> Run
    ensures status { result.status ≡ status }
    ensures nothing { IsNothing result.journal result.trace }
{
    Run {
        status,
        journal: List::new(alloc),
        trace: List::new(alloc),
    }
}

/// The script of a run of so many nodes that the source holds; else the status of a run without one.
fn script_from<S: Source>(alloc: Global, source: &mut S, nodes: u8) -> Result<Script, Status>
    ensures read { IfOk result (λ script. ReadWhole 1048576 (S.left source.old) (S.left source.new) (λ text. script_of nodes text ≡ Ok script)) }
    ensures fault { (line : ℕ) (fault : ScriptFault) → result ≡ Err (Status.Script line fault)
        → ReadWhole 1048576 (S.left source.old) (S.left source.new) (λ text. script_of nodes text ≡ Err (Fault line fault)) }
    ensures rose { result ≡ Err Status.ReadFault → Rose (S.faults source.old) (S.faults source.new) }
    ensures none { IfErr result IsNoScript }
    ensures bound { TakesAtMost 1048577 (S.left source.old) (S.left source.new) }
{
    let text = match read_text(alloc, source, SCRIPT_LIMIT) {
        Ok(text) => text,
        Err(ReadFault::Failed) => return Err(Status::ReadFault),
        Err(ReadFault::NoMemory) => return Err(Status::NoMemory),
    };
    script_in(alloc, text.as_slice(), nodes)
}

/// The script of a run of so many nodes that a text is; else the status of a run without one.
fn script_in(alloc: Global, text: &[u8], nodes: u8) -> Result<Script, Status>
    ensures read { IfOk result (λ script. script_of nodes text.now ≡ Ok script) }
    ensures fault { (line : ℕ) (fault : ScriptFault) → result ≡ Err (Status.Script line fault) → script_of nodes text.now ≡ Err (Fault line fault) }
    ensures none { IfErr result IsTextFault }
{
    match read_script(alloc, text, nodes) {
        Ok(script) => Ok(script),
        Err(ScriptFailed::Fault { line, fault }) => Err(Status::Script { line, fault }),
        Err(ScriptFailed::NoMemory) => Err(Status::NoMemory),
    }
}

/// The load script of a seed, as one of a run of so many nodes; else the status of a run without one.
fn script_of_load(alloc: Global, seed: u64, nodes: u8) -> Result<Script, Status>
    ensures read { IfOk result (λ script. script_of nodes (load_script seed) ≡ Ok script) }
    ensures fault { (line : ℕ) (fault : ScriptFault) → result ≡ Err (Status.Script line fault) → script_of nodes (load_script seed) ≡ Err (Fault line fault) }
    ensures none { IfErr result IsTextFault }
{
    let Ok(text) = load_script(alloc, seed) else {
        return Err(Status::NoMemory);
    };
    script_in(alloc, text.as_slice(), nodes)
}

/// The script of a run of so many nodes of which this is shown: a load's is made from its seed, and any other is what the source
/// holds; else the status of a run without one.
fn script_for<S: Source>(
    alloc: Global,
    source: &mut S,
    nodes: u8,
    shown: Shown,
) -> Result<Script, Status>
    ensures read { IfOk result (λ script. HasText shown (S.left source.old) (S.left source.new) (λ text. script_of nodes text ≡ Ok script)) }
    ensures fault { (line : ℕ) (fault : ScriptFault) → result ≡ Err (Status.Script line fault)
        → HasText shown (S.left source.old) (S.left source.new) (λ text. script_of nodes text ≡ Err (Fault line fault)) }
    ensures rose { result ≡ Err Status.ReadFault → Rose (S.faults source.old) (S.faults source.new) }
    ensures none { IfErr result IsNoScript }
    ensures bound { TakesAtMost 1048577 (S.left source.old) (S.left source.new) }
    ensures untaken { (seed : ℕ) → shown ≡ Shown.Load seed → S.left source.new ≡ S.left source.old }
{
    match shown {
        Shown::Load { seed } => script_of_load(alloc, seed, nodes),
        Shown::Output => script_from(alloc, source, nodes),
        Shown::Journal => script_from(alloc, source, nodes),
    }
}

/// The output goes to the sink, where there is any. The status stands, but where the sink fails.
fn give_output<K: Sink>(sink: &mut K, output: Option<Bytes>, status: Status) -> Status
    ensures { IsGivenOf K.faults K.given sink.old sink.new output status result }
{
    match output {
        None => status,
        Some(bytes) => match give_all(sink, bytes.as_slice()) {
            Ok(()) => status,
            Err(_) => Status::WriteFault,
        },
    }
}

/// Gives what a run is to give.
fn give<K: Sink>(sink: &mut K, made: RunMade) -> Run
    ensures { IsGiven K.faults K.given sink.old sink.new made result }
{
    let RunMade {
        status,
        journal,
        trace,
        output,
    } = made;
    let status = give_output(sink, output, status);
    Run {
        status,
        journal,
        trace,
    }
}

/// Runs a script, that of a load or one that is read from the source, on so many nodes over the logs of the first disks, in rounds whose orders are
/// drawn from the seed, and gives what is to be shown of it to the sink. `run` calls it for the forms `run` and `load`.
///
/// What `run` promises of these forms is promised here by the rounds and visits that the nodes made, so that who wants to know what a seed determines finds it: the nodes
/// begin over the disks, make their rounds, and tell what they did, which is a run of the world over packets; a status is that of how the rounds ended. There is at least
/// one node, and at most 8 are; there are at least 8 disks. The statuses and when they come are those of `run`.
pub fn run_script<S: Source, K: Sink, D: Disk>(
    alloc: Global,
    nodes: u8,
    seed: u64,
    shown: Shown,
    source: &mut S,
    sink: &mut K,
    disks: &mut Vec<D>,
) -> Run
    requires some { 1 ≤ nodes }
    requires few { nodes ≤ 8 }
    requires disks { 8 ≤ length disks.old.items }

    // The journal is lawful, and each status has its cause.
    ensures lawful { HasLawful D.told D.state nodes result.journal disks.old.items disks.new.items }
    ensures ran { result.status ≢ Status.Usage }
    ensures read_fault { result.status ≡ Status.ReadFault → Rose (S.faults source.old) (S.faults source.new) }
    ensures write_fault { result.status ≡ Status.WriteFault → Rose (K.faults sink.old) (K.faults sink.new) }
    ensures disk_fault { (node : NodeNo) → result.status ≡ Status.DiskFault node
        → AtNode nodes node (λ disk after. Rose (D.fault_count disk) (D.fault_count after)) disks.old.items disks.new.items }
    ensures damaged { (node : NodeNo) (at : ℕ) → result.status ≡ Status.Damaged node at
        → AtNode nodes node (λ disk after. D.told → IsDamaged (2 ^ 61) (D.state disk).content at) disks.old.items disks.new.items }
    ensures script { (line : ℕ) (fault : ScriptFault) → result.status ≡ Status.Script line fault
        → HasText shown (S.left source.old) (S.left source.new) (λ text. script_of nodes text ≡ Err (Fault line fault)) }
    ensures past_script { IsPastScript result.status
        → HasText shown (S.left source.old) (S.left source.new) (OfScript nodes (λ script. ⊤)) }

    // By which rounds and visits it came to its status. The nodes made rounds over the links between them; the journal and the trace are those of all of them, merged by stamp
    // and node, and the trace is of a run of the world over packets.
    ensures by_rounds { RanByRounds D.told D.state D.fault_count D.byte_count seed nodes shown (S.left source.old) (S.left source.new) (K.given sink.old) (K.given sink.new) result disks.old.items disks.new.items }

    // Else nothing is given, and nothing told; and what was taken of the source.
    ensures silent { IfNot (Gives result.status) (K.given sink.new ≡ K.given sink.old) }
    ensures empty { IfNot (Tells result.status) (IsNothing result.journal result.trace) }
    ensures bound { TakesAtMost 1048577 (S.left source.old) (S.left source.new) }
    ensures untaken { (seed : ℕ) → shown ≡ Shown.Load seed → S.left source.new ≡ S.left source.old }
    ensures built { IsOfRun result.status }

    // What is left on the disks.
    ensures others { AreOthers nodes disks.old.items disks.new.items }
    ensures left { OfThese nodes (LeaveAll D.told D.state nodes result.status) disks.old.items disks.new.items }
    ensures coherent { OfThese nodes (StayCoherent D.told D.state) disks.old.items disks.new.items }
    ensures roomy { OfThese nodes (StayRoomy D.told D.state D.byte_count) disks.old.items disks.new.items }
{
    let script = match script_for(alloc, source, nodes, shown) {
        Ok(script) => script,
        Err(status) => return ended(alloc, status),
    };
    scripts_fit();
    nodes_have_openings::<D>();
    rounds_are_runs_of_the_world::<D>();
    rounds_are_lawful::<D>();
    disks_are_read();
    runs_follow_runs::<D>();
    runs_leave_standing_disks::<D>();
    refused_runs_leave_standing_disks::<D>();
    touched_disks_stay_coherent();
    roomy_disks_are_read();
    runs_leave_room::<D>();
    let made = run_over_nodes(alloc, disks, nodes, &script, seed, shown);
    give(sink, made)
}

/// What the words ask for. They are those after the program's name: `run N --serial SEED`, N from 1 to 8, with `--journal` or
/// without, in any order behind `run`; `check`; or `load SEED`. A form that is not carried out yet is `Usage`.
///
/// `run` reads a script from the source, opens the logs of the first N disks in order and raises their incarnations, and runs
/// the script on N nodes over them, in rounds whose orders are drawn from the seed. It judges its own journal, and gives the
/// output to the sink: whole on `Finished` and `Unfinished`, a front of it on `WriteFault`, and else nothing. At most 1,048,577
/// bytes are taken of the source. The other disks are not used. There are at least 8 disks.
///
/// A script with a fault is told the first one. `ReadFault`, `WriteFault` and `DiskFault` come only where the count of faults of
/// the source, the sink or the disk rose in this call; `Damaged` only where a slot or a batch of the disk that was handed in is
/// damaged at that byte. A run of which nothing is told at `DiskFault` is one whose log was not opened: that of a node that began
/// is told. `Unfinished` comes only after a quiet round or with all rounds spent, and tells who waits by the journal. `Unlawful`
/// comes only where the run's own journal does not conform to the script: the line is that of the entry in the history, and the
/// clause 0 for a rule of the script.
///
/// `load` runs the load script of the seed on four nodes, as `run 4 --serial SEED` would, and gives one line in place of the output: how
/// many commands it has, how many of its transactions committed and aborted, and the digest of that output. Nothing is taken of the source.
///
/// `check` reads a history from the source and judges it: where it is lawful, `lawful E` and a line feed go to the sink, E the
/// number of its entries, and else nothing. At most 67,108,865 bytes are taken of the source. No disk is opened, and the journal
/// is empty.
///
/// All clauses but `by_rounds` say what becomes of a run, whatever made it. That one passes on what `run_script` promises: by which rounds and visits of the nodes it
/// came to that.
pub fn run<R: Threads + Sync, S: Source, K: Sink, D: Disk>(
    _rt: &R,
    alloc: Global,
    words: &[String],
    source: &mut S,
    sink: &mut K,
    disks: &mut Vec<D>,
) -> Run
    requires disks { 8 ≤ length disks.old.items }

    // The journal is a lawful run of the machine with one outcome cell for each transaction, from what the logs of the first
    // disks held, one for each node, whatever the status.
    ensures lawful { HasLawful D.told D.state (nodes_of (asked_by (form_of words.now))) result.journal disks.old.items disks.new.items }

    // Each status has its cause.
    ensures usage { (result.status ≡ Status.Usage) ↔ (asked_by (form_of words.now) ≡ None) }
    ensures read_fault { result.status ≡ Status.ReadFault → Rose (S.faults source.old) (S.faults source.new) }
    ensures write_fault { result.status ≡ Status.WriteFault → Rose (K.faults sink.old) (K.faults sink.new) }
    ensures disk_fault { (node : NodeNo) → result.status ≡ Status.DiskFault node
        → AtNode (nodes_of (asked_by (form_of words.now))) node (λ disk after. Rose (D.fault_count disk) (D.fault_count after)) disks.old.items disks.new.items }
    ensures damaged { (node : NodeNo) (at : ℕ) → result.status ≡ Status.Damaged node at
        → AtNode (nodes_of (asked_by (form_of words.now))) node (λ disk after. D.told → IsDamaged (2 ^ 61) (D.state disk).content at) disks.old.items disks.new.items }

    // Of a run. A script fault is the first of the text, and a disk is opened for a script alone; that of a load is made from its seed, and
    // nothing is taken of the source.
    ensures script { (nodes seed : ℕ) (shown : Shown) → asked_by (form_of words.now) ≡ Some (Asked.Serial nodes seed shown)
        → (line : ℕ) (fault : ScriptFault) → result.status ≡ Status.Script line fault
        → HasText shown (S.left source.old) (S.left source.new) (λ text. script_of nodes text ≡ Err (Fault line fault)) }
    ensures past_script { (nodes seed : ℕ) (shown : Shown) → asked_by (form_of words.now) ≡ Some (Asked.Serial nodes seed shown) → IsPastScript result.status
        → HasText shown (S.left source.old) (S.left source.new) (OfScript nodes (λ script. ⊤)) }

    // A run that ended: its journal conforms to the script, the status is that of who waits by the journal and of whether all work was done, and what is to be shown was given
    // whole; at a write fault a part of it was. Where the logs were coherent, whatever a power cut leaves of the disks stands for the machine: a restart over it is lawful, and takes up
    // what the machine has committed and on record.
    ensures ended { (nodes seed : ℕ) (shown : Shown) → asked_by (form_of words.now) ≡ Some (Asked.Serial nodes seed shown) → IsEnd result.status
        → HasText shown (S.left source.old) (S.left source.new) (OfScript nodes (λ script. OfThese nodes
        (IsWhole D.told D.state nodes script shown (λ status. result.status ≡ status) (Appends (K.given sink.old) (K.given sink.new)) result.journal result.trace)
        disks.old.items disks.new.items)) }
    ensures cut_off { (nodes seed : ℕ) (shown : Shown) → asked_by (form_of words.now) ≡ Some (Asked.Serial nodes seed shown) → result.status ≡ Status.WriteFault
        → HasText shown (S.left source.old) (S.left source.new) (OfScript nodes (λ script. OfThese nodes
        (IsWhole D.told D.state nodes script shown IsEnd (GivesPart (K.given sink.old) (K.given sink.new)) result.journal result.trace)
        disks.old.items disks.new.items)) }

    // Where a disk failed as its node was started again, the journal is what the nodes had made, and conforms; where it failed as the log was
    // opened nothing is told, and each disk was changed at most by the raise of its log's incarnation. Where the judge refuses what the
    // nodes made, the line and the clause are told; where the logs were coherent each entry is lawful, and it is for a rule of the script.
    ensures cut_short { (nodes seed : ℕ) (shown : Shown) → asked_by (form_of words.now) ≡ Some (Asked.Serial nodes seed shown)
        → (node : NodeNo) → result.status ≡ Status.DiskFault node
        → HasText shown (S.left source.old) (S.left source.new) (OfScript nodes (λ script. OfThese nodes
        (λ firsts afters. IsNotBegun D.told D.state result.journal result.trace firsts afters
        ⊎ IsShort D.told D.state nodes script result.journal result.trace firsts afters)
        disks.old.items disks.new.items)) }
    ensures refused { (nodes seed : ℕ) (shown : Shown) → asked_by (form_of words.now) ≡ Some (Asked.Serial nodes seed shown)
        → (line clause : ℕ) → result.status ≡ Status.Unlawful line clause
        → HasText shown (S.left source.old) (S.left source.new) (OfScript nodes (λ script. OfThese nodes
        (IsRefused D.told D.state nodes script line clause) disks.old.items disks.new.items)) }

    // Where memory was refused before all nodes began, each disk was changed at most by the raise; else the script was read.
    ensures out_of_memory { (nodes seed : ℕ) (shown : Shown) → asked_by (form_of words.now) ≡ Some (Asked.Serial nodes seed shown) → result.status ≡ Status.NoMemory
        → OfThese nodes (AreOnlyTouched D.told D.state) disks.old.items disks.new.items
        ⊎ HasText shown (S.left source.old) (S.left source.new) (OfScript nodes (λ script. ⊤)) }

    // Else nothing is given, and nothing told.
    ensures silent { IfNot (Gives result.status) (K.given sink.new ≡ K.given sink.old) }
    ensures empty { IfNot (Tells result.status) (IsNothing result.journal result.trace) }

    // What was taken of the source: nothing on Usage and by a load, and never more than the limit and one byte.
    ensures unread { result.status ≡ Status.Usage → S.left source.new ≡ S.left source.old }
    ensures unread_load { (nodes seed at : ℕ) → asked_by (form_of words.now) ≡ Some (Asked.Serial nodes seed (Shown.Load at)) → S.left source.new ≡ S.left source.old }
    ensures bound { asked_by (form_of words.now) ≢ Some Asked.Check → TakesAtMost 1048577 (S.left source.old) (S.left source.new) }
    ensures built { asked_by (form_of words.now) ≢ Some Asked.Check → IsOfRun result.status }

    // The disks, whatever the status: each is as it was where none was opened; changed at most by the raise of its log, at each moment, where a
    // log was not opened; and else each image of it has a log that goes on from what its log held. Disks of no node of the run are as they were.
    ensures others { AreOthers (nodes_of (asked_by (form_of words.now))) disks.old.items disks.new.items }
    ensures left { (nodes seed : ℕ) (shown : Shown) → asked_by (form_of words.now) ≡ Some (Asked.Serial nodes seed shown)
        → OfThese nodes (LeaveAll D.told D.state nodes result.status) disks.old.items disks.new.items }

    // Runs follow one another, whatever the status: where the logs were coherent they are so again, and where each had room for all that is
    // kept there, each has room again.
    ensures coherent { (nodes seed : ℕ) (shown : Shown) → asked_by (form_of words.now) ≡ Some (Asked.Serial nodes seed shown)
        → OfThese nodes (StayCoherent D.told D.state) disks.old.items disks.new.items }
    ensures roomy { (nodes seed : ℕ) (shown : Shown) → asked_by (form_of words.now) ≡ Some (Asked.Serial nodes seed shown)
        → OfThese nodes (StayRoomy D.told D.state D.byte_count) disks.old.items disks.new.items }

    // By which rounds and visits a run came to that, so that a seed determines it: what `run_script` promises of the same. Whoever wants to know no more than what
    // becomes of a run need not read what this rests on.
    ensures by_rounds { (nodes seed : ℕ) (shown : Shown) → asked_by (form_of words.now) ≡ Some (Asked.Serial nodes seed shown)
        → RanByRounds D.told D.state D.fault_count D.byte_count seed nodes shown (S.left source.old) (S.left source.new) (K.given sink.old) (K.given sink.new) result disks.old.items disks.new.items }

    // Of a check: the text that was read is a history, and the verdict on it is what was given; no disk is opened.
    ensures unlawful { asked_by (form_of words.now) ≡ Some Asked.Check → (line clause : ℕ) → result.status ≡ Status.Unlawful line clause
        → ReadWhole 67108864 (S.left source.old) (S.left source.new) (λ text. IsUnlawfulText text line clause) }
    ensures journal { (line : ℕ) → result.status ≡ Status.Journal line
        → ReadWhole 67108864 (S.left source.old) (S.left source.new) (λ text. IsFault text line) }
    ensures checked { asked_by (form_of words.now) ≡ Some Asked.Check → result.status ≡ Status.Finished
        → ReadWhole 67108864 (S.left source.old) (S.left source.new)
        (λ text. IsVerdict text (Appends (K.given sink.old) (K.given sink.new))) }
    ensures check_cut_off { asked_by (form_of words.now) ≡ Some Asked.Check → result.status ≡ Status.WriteFault
        → ReadWhole 67108864 (S.left source.old) (S.left source.new)
        (λ text. IsVerdict text (GivesPart (K.given sink.old) (K.given sink.new))) }
    ensures check_built { asked_by (form_of words.now) ≡ Some Asked.Check → IsOfCheck result.status }
    ensures check_bound { asked_by (form_of words.now) ≡ Some Asked.Check → TakesAtMost 67108865 (S.left source.old) (S.left source.new) }
    ensures check_nothing { asked_by (form_of words.now) ≡ Some Asked.Check → IsNothing result.journal result.trace }
    ensures check_disks { asked_by (form_of words.now) ≡ Some Asked.Check → disks.new.items ≡ disks.old.items }
{
    match asked_by(words) {
        Some(Asked::Serial { nodes, seed, shown }) => run_script(
            alloc, nodes, seed, shown, source, sink, disks,
        ),
        Some(Asked::Check) => ended(alloc, check_source(alloc, source, sink)),
        None => ended(alloc, Status::Usage),
    }
}
