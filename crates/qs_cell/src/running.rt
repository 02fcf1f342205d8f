//! A node that is up: its events.
ghost use Rattle.std.specs.Prelude.{◌≡◌, ◌↔◌, ℕ, ◌+◌, ◌-◌, ◌<◌, ◌^◌, true, None, Err, map, length, All, OnOk, IfOk};
ghost use Rattle.qs_disk.specs.Moments.{Keeps};
ghost use Rattle.qs_disk.specs.Fuse.{FusedValue};
ghost use Rattle.qs_node_host.specs.Host.{IsOldOrAfter, worked_node, effects_at};
ghost use Rattle.qs_node_host.specs.Roomy.{HasRoomyLog, IsRoomyHost};
ghost use Rattle.qs_node_host.specs.Spelled.{AreSpelled};
ghost use Rattle.qs_node_host.specs.declared.fault.HostFault.TheVariants as faults;
ghost use Rattle.qs_book_journal.specs.declared.entry.CrashCause.TheVariants as causes;
ghost use Rattle.qs_log.specs.Log.{Stands};
ghost use Rattle.qs_packet.specs.Grammar.{IsPacket};
ghost use Rattle.qs_book_machine.specs.Clauses.{is_crash};
ghost use Rattle.qs_cell_chronicle.specs.Chronicle.{HasRoom, noted};
ghost use Rattle.qs_cell_chronicle.specs.Carried.{seen, answered};
ghost use Rattle.qs_cell_chronicle.specs.Occasions.{taken, event_of, did_of};
ghost use Rattle.qs_cell_chronicle.specs.Points.{after_entries};
ghost use Rattle.qs_slot.specs.Slot.{SayTheSame};
ghost use Rattle.qs_base.specs.declared.memory.GrowFault.TheVariants.{Last};
ghost use Rattle.qs_cell_peers.specs.Sessions.{LacksNumber, SessionsValue};
ghost use Rattle.qs_cell_peers.specs.Steps.{Sends};
ghost use Rattle.qs_cell.specs.Asides.{IsAsideOutcome, aside_outcome};
ghost use Rattle.qs_cell.specs.Cell.{begun, ordered, why_not, may_make, ticks, unsent_cause, fault_cause, out_of, IsOutcome, IfStands, StandsAfter};
ghost use Rattle.qs_cell.specs.Outcomes.{stopped_of, outcome_of};
ghost use Rattle.qs_cell.specs.Roomy.{ComesNew, IsRoomyOutcome};
ghost use Rattle.qs_cell.specs.Within.{HasBegun, HasCrashed, IsWorkedOut, HasStepped, running_with};
ghost use Rattle.qs_cell.specs.declared.running.Fate.TheVariants as fates;

use crate::stopped::Stopped;
use qs_base::{ClientNo, GrowFault, List, NoMemory, Stamp};
use qs_base_map::Map;
use qs_book_journal::{Act, CrashCause};
use qs_cell_chronicle::{
    Carried, HeldCommand, LAST_STAMP, Occasion, answer_all, any_stops_after, any_stops_before,
    is_replaced, pass, spend, take_in_hand,
};
use qs_cell_peers::Sessions;
use qs_disk::{Disk, Fused};
use qs_node_host::{Host, HostFault};
use qs_node_kept::Keeping;
use qs_node_step::{ClientAnswer, Did, Effects};
use qs_ops::Server;
use qs_packet::Packet;

/// A server can count as many requests of a transaction.
const LAST_NUMBER: u64 = 4_294_967_295;

/// A node that is up, over the log of a disk behind a fuse, and what its cell carries.
#[derive(Drop)]
pub struct Running<D: Disk, F: Server, X: Server> {
    pub host: Host<Fused<D>, F, X>,
    /// The sessions of its incarnation with the other nodes.
    pub sessions: Sessions,
    pub carried: Carried,
}

/// How an event left a node.
#[derive(Drop)]
pub enum Fate {
    /// The step stands whole, and these answers go out.
    Whole { answers: List<ClientAnswer> },
    /// The step stands whole, these answers go out, and a line of the script stopped the node right behind it.
    Followed { answers: List<ClientAnswer> },
    /// A crash stands in place of the event.
    Replaced { cause: CrashCause },
    /// A crash cut the step off; whether it did as the log had no room for a record, which counts as a want of memory.
    CutOff { cause: CrashCause, is_full: bool },
}

impl<D: Disk, F: Server, X: Server> Running<D, F, X> {
    /// An event: it takes its number and the next stamp, past that of a packet that it brings. Then, in this order: the last stamp or a line `crash` stops the
    /// node in place of it; what waits at the servers does, where not all of it can be counted; a line `before` does,
    /// where the whole step would make the entry that it names; a message that finds no number does; the force is cut
    /// off; the step stands, and its packets are in the trace; a line `after` stops the node behind it.
    ///
    /// Memory that is refused stops the node as well, and so does a step with a record or a message that has no spelling,
    /// in place of the event, and a log with no room for a record, which over a roomy host never comes. Room for a crash
    /// is to be made before. Where the node is stopped only `into_stopped` is to be called.
    pub fn event(&mut self, occasion: Occasion) -> Fate
        requires stands { D.told → Stands self.old.host.log (D.state self.old.host.log.disk.disk) }
        requires room { HasRoom 1 1 self.old.carried.chronicle }
        ensures outcome { IsOutcome D.fault_count (D.byte_count self.old.host.log.disk.disk) occasion self.old (outcome_of result self.new) }
        ensures stands { D.told → IfStands (outcome_of result self.new) (λ disk. StandsAfter (out_of (D.byte_count self.old.host.log.disk.disk) occasion self.old) self.old.host.log disk (D.state disk.disk)) }

        // At each moment each image has the records of before the step, or those of after it, and slots that say the same.
        ensures header { D.told → Keeps (SayTheSame (D.state self.old.host.log.disk.disk).content) (D.state self.old.host.log.disk.disk) (D.state self.new.host.log.disk.disk) }
        ensures moments { D.told → Keeps (IsOldOrAfter (out_of (D.byte_count self.old.host.log.disk.disk) occasion self.old) self.old.host.log)
            (D.state self.old.host.log.disk.disk) (D.state self.new.host.log.disk.disk) }
        ensures size { D.byte_count self.new.host.log.disk.disk ≡ D.byte_count self.old.host.log.disk.disk }

        // Over a roomy host it leaves one, or a node that is not stopped for a full log; and so does each image.
        ensures rooms { (keep : ℕ) → IsRoomyHost keep (D.byte_count self.old.host.log.disk.disk) self.old.host
            → ComesNew (D.byte_count self.old.host.log.disk.disk) occasion self.old
            → IsRoomyOutcome keep (D.byte_count self.old.host.log.disk.disk) (outcome_of result self.new) }
        ensures left { D.told → (keep : ℕ) → IsRoomyHost keep (D.byte_count self.old.host.log.disk.disk) self.old.host
            → ComesNew (D.byte_count self.old.host.log.disk.disk) occasion self.old
            → Keeps (HasRoomyLog keep (D.byte_count self.old.host.log.disk.disk)) (D.state self.old.host.log.disk.disk) (D.state self.new.host.log.disk.disk) }
    {
        match begin(&mut self.carried, &occasion) {
            Ok(None) => worked_out(
                &mut self.host,
                &mut self.sessions,
                &mut self.carried,
                occasion,
            ),
            Ok(Some(cause)) => replaced(&mut self.carried, occasion, cause),
            Err(NoMemory) => replaced(&mut self.carried, occasion, CrashCause::Memory),
        }
    }

    /// A packet that changes its session at most, which has taken it in: an event, which takes its number and the next stamp past the
    /// packet's. The last stamp, or a line `crash`, stops the node in place of it; then the cause is answered, and only
    /// `into_stopped` is to be called. Else the step stands, and nothing comes of it. It takes no memory; room for a crash is to
    /// be made before.
    pub fn set_aside(&mut self, packet: Packet) -> Option<CrashCause>
        requires room { HasRoom 1 1 self.old.carried.chronicle }
        ensures outcome { IsAsideOutcome packet self.old (aside_outcome result self.new) }
        ensures host { self.new.host ≡ self.old.host }
    {
        let stamp = packet.stamp;
        let chronicle = &mut self.carried.chronicle;
        let is_last = chronicle.is_last_past(stamp);
        let number = chronicle.number();
        chronicle.next_stamp_past(stamp);
        let cause = why_not(is_last, is_replaced(number, &self.carried.crashes));
        match cause {
            None => chronicle.note_none(Did::Packet { packet }),
            Some(cause) => chronicle.note_crash(Did::Packet { packet }, cause),
        }
        cause
    }

    /// What is left of it where it stops. It takes no memory.
    pub fn into_stopped(self, cause: CrashCause, is_full: bool) -> Stopped<D>
        ensures { result ≡ stopped_of cause is_full self }
    {
        let Running { host, carried, .. } = self;
        let (disk, kept, _) = host.into_parts();
        Stopped {
            disk,
            kept,
            cause,
            is_full,
            carried,
        }
    }
}

/// A crash stands in place of the event. It takes no memory.
fn replaced(carried: &mut Carried, occasion: Occasion, cause: CrashCause) -> Fate
    requires room { HasRoom 1 1 carried.old.chronicle }
    ensures crashed { HasCrashed (did_of occasion) cause carried.old carried.new }
    ensures fate { result ≡ fates.Replaced cause }
{
    carried.chronicle.note_crash(occasion.into_did(), cause);
    Fate::Replaced { cause }
}

/// The event takes its number and its stamp, and the command is in hand. It answers why the event is not to be made: the
/// stamp stood at its last value, or a line names the number.
fn begin(carried: &mut Carried, occasion: &Occasion) -> Result<Option<CrashCause>, NoMemory>
    ensures told { carried.new.chronicle.told ≡ begun occasion.now carried.old.chronicle.told }
    ensures ok { OnOk result (HasBegun occasion.now carried.old carried.new) }
    ensures crashes { carried.new.crashes ≡ carried.old.crashes }
    ensures setting { carried.new.setting ≡ carried.old.setting }
    ensures room { HasRoom carried.old.chronicle.entries carried.old.chronicle.steps carried.new.chronicle }
    ensures cause { IfOk result (λ cause. cause ≡ ordered occasion.now (seen carried.old)) }
{
    let other = occasion.stamp();
    let is_last = carried.chronicle.is_last_past(other);
    let number = carried.chronicle.number();
    carried.chronicle.next_stamp_past(other);
    take(&mut carried.commands, occasion, carried.setting.inc)?;
    Ok(why_not(is_last, is_replaced(number, &carried.crashes)))
}

/// Why an event is not to be made.
fn why_not(is_last: bool, is_replaced: bool) -> Option<CrashCause>
    ensures { result ≡ why_not is_last is_replaced }
{
    if is_last {
        return Some(CrashCause::Last { value: LAST_STAMP });
    }
    if is_replaced {
        return Some(CrashCause::Plan);
    }
    None
}

fn take(
    commands: &mut Map<ClientNo, HeldCommand>,
    occasion: &Occasion,
    inc: u64,
) -> Result<(), NoMemory>
    ensures ok { OnOk result (commands.new ≡ taken occasion.now inc commands.old) }
{
    match occasion {
        Occasion::Command { line } => take_in_hand(commands, line, inc),
        Occasion::Queues
        | Occasion::Clock
        | Occasion::Message { .. }
        | Occasion::Restarted { .. } => Ok(()),
    }
}

/// What the event brings about is worked out, unless a count would rise past its last value; a line of the script may
/// stop the node in place of it. Its messages go over the sessions before anything is done with the log, so that a step
/// sends all or nothing. The visit puts them to the links once the step stands.
fn worked_out<D: Disk, F: Server, X: Server>(
    host: &mut Host<Fused<D>, F, X>,
    sessions: &mut Sessions,
    carried: &mut Carried,
    occasion: Occasion,
) -> Fate
    requires stands { D.told → Stands host.old.log (D.state host.old.log.disk.disk) }
    requires room { HasRoom 1 1 carried.old.chronicle }
    ensures outcome { (old : Running D F X) → host.old ≡ old.host → sessions.old ≡ old.sessions → HasBegun occasion old.carried carried.old → ordered occasion (seen old.carried) ≡ None
        → IsOutcome D.fault_count (D.byte_count host.old.log.disk.disk) occasion old (outcome_of result (running_with host.new sessions.new carried.new)) }
    ensures stands { D.told → IfStands (outcome_of result (running_with {F = F} {X = X} host.new sessions.new carried.new)) (λ disk. StandsAfter (effects_at (D.byte_count host.old.log.disk.disk) host.old (event_of occasion)) host.old.log disk (D.state disk.disk)) }
    ensures moments { D.told → Keeps (IsOldOrAfter (effects_at (D.byte_count host.old.log.disk.disk) host.old (event_of occasion)) host.old.log)
        (D.state host.old.log.disk.disk) (D.state host.new.log.disk.disk) }
    ensures header { D.told → Keeps (SayTheSame (D.state host.old.log.disk.disk).content) (D.state host.old.log.disk.disk) (D.state host.new.log.disk.disk) }
    ensures size { D.byte_count host.new.log.disk.disk ≡ D.byte_count host.old.log.disk.disk }
{
    if !may_make(host, &occasion) {
        return replaced(carried, occasion, CrashCause::Last { value: LAST_NUMBER });
    }
    let Ok(out) = work_out(host, &occasion) else {
        return replaced(carried, occasion, CrashCause::Memory);
    };
    if any_stops_before(
        host.kept(),
        out.entries.as_slice(),
        carried.points.as_slice(),
    ) {
        spend(&mut carried.points, host.kept(), out.entries.as_slice());
        drop(out);
        return replaced(carried, occasion, CrashCause::Plan);
    }
    let put = match send(sessions, carried.chronicle.stamp(), &occasion, &out) {
        Ok(put) => put,
        Err(fault) => {
            drop(out);
            return replaced(carried, occasion, cause_of(fault));
        },
    };
    if carried
        .chronicle
        .make_room(out.entries.len() + 1, 2)
        .is_err()
    {
        drop(out);
        drop(put);
        return replaced(carried, occasion, CrashCause::Memory);
    }
    carried_out(host, carried, occasion, out, put)
}

/// What the step sends; the sessions tick where time passes.
fn send(
    sessions: &mut Sessions,
    stamp: Stamp,
    occasion: &Occasion,
    out: &Effects,
) -> Result<List<Packet>, GrowFault>
    requires spelled { AreSpelled out.now }
    requires stamp { stamp < 2 ^ 62 }
    ensures sent { IfOk result (λ put. Sends (ticks occasion.now) stamp out.now.messages sessions.old put sessions.new) }
    ensures numbered { OnOk result (LacksNumber sessions.old out.now.messages → ⊥) }
    ensures last { (value : ℕ) → result ≡ Err (Last value) → (value ≡ 2 ^ 62 - 1) × LacksNumber sessions.old out.now.messages }
{
    sessions.send_step(
        out.messages.as_slice(),
        stamp,
        matches!(occasion, Occasion::Clock),
    )
}

/// Why a node stops whose sessions could not send.
fn cause_of(fault: GrowFault) -> CrashCause
    ensures { result ≡ unsent_cause fault }
{
    match fault {
        GrowFault::Last { value } => CrashCause::Last { value },
        GrowFault::NoMemory => CrashCause::Memory,
    }
}

/// Whether no count would rise past its last value: what waits is served where all of it can be counted.
fn may_make<D: Disk, F: Server, X: Server>(host: &Host<Fused<D>, F, X>, occasion: &Occasion) -> bool
    ensures { result ≡ may_make host.now.node occasion.now }
{
    match occasion {
        Occasion::Queues => host.may_serve(),
        Occasion::Command { .. }
        | Occasion::Clock
        | Occasion::Message { .. }
        | Occasion::Restarted { .. } => true,
    }
}

/// What the event brings about.
fn work_out<D: Disk, F: Server, X: Server>(
    host: &mut Host<Fused<D>, F, X>,
    occasion: &Occasion,
) -> Result<Effects, NoMemory>
    ensures spelled { IfOk result AreSpelled }
    ensures effects { IfOk result (λ out. out ≡ effects_at (D.byte_count host.old.log.disk.disk) host.old (event_of occasion.now)) }
    ensures node { OnOk result (host.new.node ≡ worked_node (D.byte_count host.old.log.disk.disk) host.old (event_of occasion.now)) }
    ensures log { host.new.log ≡ host.old.log }
    ensures saved { host.new.node.kept.saved ≡ host.old.node.kept.saved }
{
    let event = occasion.event()?;
    host.work_out(event)
}

/// The step is done with the log, and stands, or is cut off.
fn carried_out<D: Disk, F: Server, X: Server>(
    host: &mut Host<Fused<D>, F, X>,
    carried: &mut Carried,
    occasion: Occasion,
    out: Effects,
    put: List<Packet>,
) -> Fate
    requires spelled { AreSpelled out }
    requires put { All IsPacket put }
    requires stands { D.told → Stands host.old.log (D.state host.old.log.disk.disk) }
    requires room { HasRoom (length out.entries + 1) 2 carried.old.chronicle }
    ensures outcome { (size : ℕ) (old : Running D F X) (sessions : SessionsValue) → size ≡ D.byte_count host.old.log.disk.disk
        → IsWorkedOut size occasion old host.old sessions carried.old out put
        → IsOutcome D.fault_count size occasion old (outcome_of result (running_with host.new sessions carried.new)) }
    ensures stands { D.told → (sessions : SessionsValue) → IfStands (outcome_of result (running_with {F = F} {X = X} host.new sessions carried.new)) (λ disk. StandsAfter out host.old.log disk (D.state disk.disk)) }
    ensures moments { D.told → Keeps (IsOldOrAfter out host.old.log) (D.state host.old.log.disk.disk) (D.state host.new.log.disk.disk) }
    ensures header { D.told → Keeps (SayTheSame (D.state host.old.log.disk.disk).content) (D.state host.old.log.disk.disk) (D.state host.new.log.disk.disk) }
    ensures size { D.byte_count host.new.log.disk.disk ≡ D.byte_count host.old.log.disk.disk }
{
    let trips = host.disk().trips();
    let own = host.disk().own_faults();
    match host.carry_out(&out) {
        Ok(()) => whole(host, carried, occasion, out, put),
        Err(why) => {
            drop(out);
            drop(put);
            let cause = cut_cause(why, host.disk(), trips, own);
            cut_off(carried, occasion, cause, is_full(why))
        }
    }
}

/// A crash cut the step off. It takes no memory.
fn cut_off(carried: &mut Carried, occasion: Occasion, cause: CrashCause, is_full: bool) -> Fate
    requires room { HasRoom 1 1 carried.old.chronicle }
    ensures crashed { HasCrashed (did_of occasion) cause carried.old carried.new }
    ensures fate { result ≡ fates.CutOff cause is_full }
{
    carried.chronicle.note_crash(occasion.into_did(), cause);
    Fate::CutOff { cause, is_full }
}

/// Whether the log had no room for a record.
fn is_full(why: HostFault) -> bool
    ensures { (result ≡ true) ↔ (why ≡ faults.NoRoom) }
{
    matches!(why, HostFault::NoRoom)
}

/// Why a step was cut off, whose disk had these counts before. A log with no room counts as a want of memory.
fn cut_cause<D: Disk>(why: HostFault, disk: &Fused<D>, trips: u64, own: u64) -> CrashCause
    ensures memory { why ≡ faults.NoMemory → result ≡ causes.Memory }
    ensures full { why ≡ faults.NoRoom → result ≡ causes.Memory }
    ensures fault { why ≡ faults.Disk → (before : FusedValue D) → before.fuse.trips ≡ trips → D.fault_count before.disk ≡ own
        → result ≡ fault_cause D.fault_count before disk.now }
{
    match why {
        HostFault::NoMemory | HostFault::NoRoom => CrashCause::Memory,
        HostFault::Disk => fault_cause(disk, trips, own),
    }
}

/// Why a call of the disk failed, whose counts were these before.
fn fault_cause<D: Disk>(disk: &Fused<D>, trips: u64, own: u64) -> CrashCause
    ensures { (before : FusedValue D) → before.fuse.trips ≡ trips → D.fault_count before.disk ≡ own → result ≡ fault_cause D.fault_count before disk.now }
{
    let now = disk.own_faults();
    if trips == disk.trips() && has_risen(own, now) {
        CrashCause::Disk { from: own, to: now }
    } else {
        CrashCause::Plan
    }
}

/// Whether a count of faults has risen, or stands at its last value.
fn has_risen(before: u64, now: u64) -> bool
    ensures { result ≡ is_crash (causes.Disk before now) }
{
    before < now || (before == u64::MAX && now == u64::MAX)
}

/// The step stands; a line of the script may stop the node right behind it.
fn whole<D: Disk, F: Server, X: Server>(
    host: &Host<Fused<D>, F, X>,
    carried: &mut Carried,
    occasion: Occasion,
    out: Effects,
    put: List<Packet>,
) -> Fate
    requires put { All IsPacket put }
    requires room { HasRoom (length out.entries + 1) 2 carried.old.chronicle }
    ensures outcome { (size : ℕ) (old : Running D F X) (sessions : SessionsValue) → HasStepped size occasion old host.now sessions carried.old out put
        → IsOutcome D.fault_count size occasion old (outcome_of result (running_with host.now sessions carried.new)) }
{
    let Effects {
        records,
        messages,
        answers,
        entries,
        ..
    } = out;
    drop(records);
    drop(messages);
    let kept = host.kept();
    let stops = any_stops_after(kept, entries.as_slice(), carried.points.as_slice());
    note(carried, kept, occasion, answers.as_slice(), put, entries);
    if stops {
        carried.chronicle.next_stamp();
        carried.chronicle.note_crash(Did::Nothing, CrashCause::Plan);
        return Fate::Followed { answers };
    }
    Fate::Whole { answers }
}

/// What is carried takes a whole step in.
fn note(
    carried: &mut Carried,
    kept: &Keeping,
    occasion: Occasion,
    answers: &[ClientAnswer],
    put: List<Packet>,
    entries: List<Act>,
)
    requires put { All IsPacket put }
    requires room { HasRoom (length entries + 1) 2 carried.old.chronicle }
    ensures told { carried.new.chronicle.told ≡ noted (did_of occasion) put entries None carried.old.chronicle.told }
    ensures room { HasRoom 1 1 carried.new.chronicle }
    ensures commands { carried.new.commands ≡ answered answers.now carried.old.commands }
    ensures crashes { carried.new.crashes ≡ carried.old.crashes }
    ensures points { carried.new.points.items ≡ map (after_entries kept.now.now.labels entries) carried.old.points.items }
    ensures setting { carried.new.setting ≡ carried.old.setting }
{
    pass(&mut carried.points, kept, entries.as_slice());
    answer_all(&mut carried.commands, answers);
    carried.chronicle.note(occasion.into_did(), put, entries);
}
