//! The places of a run's disks, one behind another: a node begins over the disk of each, and once all have made their rounds it leaves
//! its disk there.
ghost use Rattle.std.specs.Prelude.{◌≡◌, ◌≤◌, ◌<◌, ◌+◌, ◌∷◌, [], length, vec_capacity, OnErr, OnOk, IfErr};
ghost use Rattle.qs_world_serial.specs.Behind.{AreAllLinks, CameOf, HasJoined, HasLeft, HasNotJoined, IsMadeOf, IsTellMore, TellsMore, all_links, not_begun};
ghost use Rattle.qs_world_sites.specs.Seats.{turns_of};

use crate::rounds::rounds_of;
use crate::serial::{SerialRun, SiteTold};
use core::mem;
use qs_base::{List, NoMemory, NodeNo};
use qs_book_journal::Entry;
use qs_book_machine::Opened;
use qs_book_script::Script;
use qs_cell::CellOpen;
use qs_cell_peers::Links;
use qs_disk::{Disk, Fused};
use qs_log::OpenFault;
use qs_node_step::Step;
use qs_world_rounds::{Actors, start_at};
use qs_world_sites::{Sites, Turn};
use std::alloc::Global;

/// What a run is made with, beside its script.
#[derive(Clone, Copy)]
pub struct Course {
    pub alloc: Global,
    pub seed: u64,
    /// How many nodes it has.
    pub nodes: u8,
}

/// The sites that have begun, and what the others are to begin with.
pub struct Seating<D: Disk> {
    /// By the numbers of their nodes, with room for all.
    pub sites: Vec<Actors<D>>,
    /// Of the nodes that have not begun, by number.
    pub links: Vec<Links>,
    /// The order of all actors.
    pub turns: Vec<Turn>,
}

/// What the node over the disk of a place is given, and leaves: with the places behind it, and what the run came to.
struct Rest<'s, 'p, D: Disk> {
    course: Course,
    script: &'s Script,
    seating: Seating<D>,
    run: SerialRun,
    // (last, and moved out last: the proof does not know else what became of them)
    places: &'p mut [D],
}

/// The nodes that have not begun do so over the disks of these places, one after the other, and then all make their rounds.
#[cycle(behind)]
pub fn over_places<D: Disk>(
    course: Course,
    script: &Script,
    seating: &mut Seating<D>,
    places: &mut [D],
) -> SerialRun
    requires few { course.nodes ≤ 8 }
    requires links { AreAllLinks script.now.faults course.nodes (all_links seating.old.sites.items seating.old.links.items) }
    requires turns { seating.old.turns.items ≡ turns_of course.nodes script.now.seats }
    requires each { length seating.old.links.items ≡ length places.old }
    requires room { length seating.old.sites.items + length places.old ≤ vec_capacity seating.old.sites }
    ensures { CameOf D.told D.state D.fault_count D.byte_count course script.now result seating.old.sites.items seating.new.sites.items places.old places.new }
{
    match places.split_first_mut() {
        None => make_rounds(course, script, seating),
        Some((place, places)) => over_place(course, script, seating, place, places),
    }
}

/// The next node begins over the disk of a place, and then those behind it; the disk is in its place again then.
#[cycle(behind)]
fn over_place<D: Disk>(
    course: Course,
    script: &Script,
    seating: &mut Seating<D>,
    place: &mut D,
    places: &mut [D],
) -> SerialRun
    requires few { course.nodes ≤ 8 }
    requires links { AreAllLinks script.now.faults course.nodes (all_links seating.old.sites.items seating.old.links.items) }
    requires turns { seating.old.turns.items ≡ turns_of course.nodes script.now.seats }
    requires each { length seating.old.links.items ≡ length places.old + 1 }
    requires room { length seating.old.sites.items + (length places.old + 1) ≤ vec_capacity seating.old.sites }
    ensures { CameOf D.told D.state D.fault_count D.byte_count course script.now result seating.old.sites.items seating.new.sites.items (place.old ∷ places.old) (place.new ∷ places.new) }
{
    let own = mem::replace(seating, nobody(course.alloc));
    let mut rest = Rest {
        course,
        script,
        seating: own,
        run: SerialRun::NoMemory,
        places,
    };
    let _rest = mem::replace_with(place, &mut rest, over_disk);
    let Rest {
        course: _,
        script: _,
        seating: own,
        run,
        places: _places,
    } = rest;
    let none = mem::replace(seating, own);
    let Seating {
        sites,
        links: _links,
        turns: _turns,
    } = none;
    sites.destroy_empty();
    run
}

/// Stands in for the sites while they are passed on.
fn nobody<D: Disk>(alloc: Global) -> Seating<D>
    ensures { result.sites.items ≡ [] }
{
    Seating {
        sites: Vec::new(alloc),
        links: Vec::new(alloc),
        turns: Vec::new(alloc),
    }
}

/// The next node begins over this disk, and then those behind it; the disk is handed back.
#[cycle(behind)]
fn over_disk<'a, 's, 'p, D: Disk>(
    disk: D,
    rest: &'a mut Rest<'s, 'p, D>,
) -> (D, &'a mut Rest<'s, 'p, D>)
    requires few { rest.old.course.nodes ≤ 8 }
    requires links { AreAllLinks rest.old.script.now.faults rest.old.course.nodes (all_links rest.old.seating.sites.items rest.old.seating.links.items) }
    requires turns { rest.old.seating.turns.items ≡ turns_of rest.old.course.nodes rest.old.script.now.seats }
    requires each { length rest.old.seating.links.items ≡ length rest.old.places.now + 1 }
    requires room { length rest.old.seating.sites.items + (length rest.old.places.now + 1) ≤ vec_capacity rest.old.seating.sites }
    ensures name { result.1.ghost_name ≡ rest.entry.ghost_name }
    ensures places { result.1.now.places.ghost_name ≡ rest.old.places.ghost_name }
    ensures came { CameOf D.told D.state D.fault_count D.byte_count rest.old.course rest.old.script.now result.1.now.run rest.old.seating.sites.items result.1.now.seating.sites.items (disk ∷ rest.old.places.now) (result.0 ∷ result.1.now.places.now) }
{
    let node = NodeNo(rest.seating.sites.len() as u8);
    match join(rest.course, rest.script, &mut rest.seating, disk) {
        Err(CellOpen { disk, why }) => {
            rest.run = not_begun(node, why);
            (disk.into_inner(), rest)
        }
        Ok(()) => {
            let run = over_places(rest.course, rest.script, &mut rest.seating, rest.places);
            let (disk, run) = left_by(&mut rest.seating, run);
            rest.run = run;
            (disk, rest)
        }
    }
}

/// The next node begins over the disk, and its site is put behind the others. Where its log is not opened the disk is handed back, as
/// of `start_at`, and the sites are as they were.
fn join<D: Disk>(
    course: Course,
    script: &Script,
    seating: &mut Seating<D>,
    disk: D,
) -> Result<(), CellOpen<D>>
    requires few { course.nodes ≤ 8 }
    requires links { AreAllLinks script.now.faults course.nodes (all_links seating.old.sites.items seating.old.links.items) }
    requires some { 1 ≤ length seating.old.links.items }
    requires room { length seating.old.sites.items < vec_capacity seating.old.sites }
    ensures joined { OnOk result (HasJoined D.told D.state D.fault_count D.byte_count course script.now seating.old.sites.items seating.new.sites.items seating.old.links.items seating.new.links.items disk) }
    ensures room { OnOk result (vec_capacity seating.new.sites ≡ vec_capacity seating.old.sites) }
    ensures turns { seating.new.turns ≡ seating.old.turns }
    ensures not_joined { IfErr result (λ back. HasNotJoined D.told D.state D.fault_count D.byte_count back.why disk back.disk.disk) }
    ensures kept { OnErr result (seating.new.sites.items ≡ seating.old.sites.items) }
{
    let node = NodeNo(seating.sites.len() as u8);
    let own = seating.links.remove(0);
    match start_at(
        course.alloc,
        script,
        course.nodes,
        node,
        own,
        Fused::new(disk),
    ) {
        Ok(site) => {
            seating.sites.push_reserved(site);
            Ok(())
        }
        Err(back) => Err(back),
    }
}

/// What a run came to of whose node the log was not opened.
fn not_begun(node: NodeNo, why: OpenFault) -> SerialRun
    ensures { result ≡ not_begun node why }
{
    match why {
        OpenFault::NoMemory => SerialRun::NoMemory,
        OpenFault::DiskFailed => SerialRun::NotOpened { node, why },
        OpenFault::Damaged { .. } => SerialRun::NotOpened { node, why },
    }
}

/// All have begun, and make their rounds.
fn make_rounds<D: Disk>(course: Course, script: &Script, seating: &mut Seating<D>) -> SerialRun
    requires links { AreAllLinks script.now.faults course.nodes (all_links seating.old.sites.items seating.old.links.items) }
    requires turns { seating.old.turns.items ≡ turns_of course.nodes script.now.seats }
    requires all { length seating.old.links.items ≡ 0 }
    ensures { CameOf D.told D.state D.fault_count D.byte_count course script.now result seating.old.sites.items seating.new.sites.items [] [] }
{
    let turns = mem::replace(&mut seating.turns, Vec::new(course.alloc));
    let sites = mem::replace(&mut seating.sites, Vec::new(course.alloc));
    let mut sites = Sites::new(sites, turns);
    let ending = rounds_of(course.alloc, script, course.seed, &mut sites);
    let none = mem::replace(&mut seating.sites, sites.into_sites());
    none.destroy_empty();
    SerialRun::Ended {
        ending,
        tells: Ok(List::new(course.alloc)),
    }
}

/// The last site leaves its disk, and what is told of it.
fn left_by<D: Disk>(seating: &mut Seating<D>, run: SerialRun) -> (D, SerialRun)
    requires { 1 ≤ length seating.old.sites.items }
    ensures { HasLeft D.told D.state seating.old.sites.items seating.new.sites.items run result.1 result.0 }
{
    let Some(site) = seating.sites.pop() else {
        unreachable!()
    };
    let node = site.into_node();
    let opened = node.opened();
    let (disk, journal, trace) = node.into_parts();
    let run = with_told(run, opened, journal, trace);
    (disk.into_inner(), run)
}

/// What is told of a node stands before what is told of those behind it, where the rounds ended.
fn with_told(
    run: SerialRun,
    opened: Result<Opened, NoMemory>,
    journal: List<Entry>,
    trace: List<Step>,
) -> SerialRun
    ensures { TellsMore (IsMadeOf opened journal trace) run result }
{
    match run {
        SerialRun::NotOpened { node, why } => SerialRun::NotOpened { node, why },
        SerialRun::NoMemory => SerialRun::NoMemory,
        SerialRun::Ended { ending, tells } => SerialRun::Ended {
            ending,
            tells: tell_more(tells, opened, journal, trace),
        },
    }
}

/// `NoMemory` comes where memory was refused, also before.
fn tell_more(
    tells: Result<List<SiteTold>, NoMemory>,
    opened: Result<Opened, NoMemory>,
    journal: List<Entry>,
    trace: List<Step>,
) -> Result<List<SiteTold>, NoMemory>
    ensures { IsTellMore (IsMadeOf opened journal trace) tells result }
{
    let mut tells = tells?.into_vec();
    let opened = opened?;
    tells.insert(
        0,
        SiteTold {
            opened,
            journal,
            trace,
        },
    )?;
    Ok(List::from_vec(tells))
}
