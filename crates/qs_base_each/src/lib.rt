//! A call for each of many, side by side: in threads, by halves, where threads can be made.
#![tactic(auto)]

ghost use Rattle.std.specs.Prelude.{length, All, OnOk, ◌<◌, Ok};
ghost use Rattle.std.specs.List.{AllZip};
ghost use Rattle.std.specs.Thread.{IsSync, IsSend};
ghost use Rattle.qs_base_each.specs.Calls.{Accepts, Changes, ChangesTo};

use qs_base::NoMemory;
use std::sync::atomic::{AtomicBool, Ordering};
use std::thread::{self, Threads, join_mut};

/// Calls `f` once at each of them, each in a thread of its own where one can be made, and returns once all calls have. Where it succeeds each call did, and each has what a call leaves
/// of it.
///
/// # Errors
/// [`NoMemory`] where a call gives it. The others were called all the same: each, also that one, has what a call leaves of it.
pub fn each<R: Threads + Sync, T: Send, F: Fn(&mut T) -> Result<(), NoMemory> + Sync>(
    rt: &R,
    f: &F,
    all: &mut [T],
) -> Result<(), NoMemory>
    requires { All (Accepts F.Fn f.now) all.old }
    ensures whole { OnOk result (AllZip (ChangesTo F.Fn f.now (Ok tt)) all.old all.new) }
    ensures each { AllZip (Changes F.Fn f.now) all.old all.new }
{
    halves(rt, f, all)
}

/// Calls `f` at each, by halves down to one.
#[cycle(halves)]
fn halves<R: Threads + Sync, T: Send, F: Fn(&mut T) -> Result<(), NoMemory> + Sync>(
    rt: &R,
    f: &F,
    all: &mut [T],
) -> Result<(), NoMemory>
    requires { All (Accepts F.Fn f.now) all.old }
    ensures whole { OnOk result (AllZip (ChangesTo F.Fn f.now (Ok tt)) all.old all.new) }
    ensures each { AllZip (Changes F.Fn f.now) all.old all.new }
{
    if all.len() < 2 {
        return alone(f, all);
    }
    let (front, back) = all.split_at_mut(all.len() / 2);
    both(rt, f, front, back)
}

/// Calls `f` at the one that there is, or at none.
fn alone<T, F: Fn(&mut T) -> Result<(), NoMemory>>(f: &F, all: &mut [T]) -> Result<(), NoMemory>
    requires few { length all.old < 2 }
    requires accepts { All (Accepts F.Fn f.now) all.old }
    ensures whole { OnOk result (AllZip (ChangesTo F.Fn f.now (Ok tt)) all.old all.new) }
    ensures each { AllZip (Changes F.Fn f.now) all.old all.new }
{
    match all.split_first_mut() {
        None => Ok(()),
        Some((one, _none)) => at_one(f, one),
    }
}

/// Calls `f` at this one.
fn at_one<T, F: Fn(&mut T) -> Result<(), NoMemory>>(f: &F, one: &mut T) -> Result<(), NoMemory>
    requires { Accepts F.Fn f.now one.old }
    ensures { ChangesTo F.Fn f.now result one.old one.new }
{
    f(one)
}

/// Calls `f` at each of both halves, the halves side by side.
#[cycle(halves)]
fn both<R: Threads + Sync, T: Send, F: Fn(&mut T) -> Result<(), NoMemory> + Sync>(
    rt: &R,
    f: &F,
    front: &mut [T],
    back: &mut [T],
) -> Result<(), NoMemory>
    requires front { All (Accepts F.Fn f.now) front.old }
    requires back { All (Accepts F.Fn f.now) back.old }
    ensures whole { OnOk result (AllZip (ChangesTo F.Fn f.now (Ok tt)) front.old front.new × AllZip (ChangesTo F.Fn f.now (Ok tt)) back.old back.new) }
    ensures front { AllZip (Changes F.Fn f.now) front.old front.new }
    ensures back { AllZip (Changes F.Fn f.now) back.old back.new }
{
    let mut first = || -> Result<(), NoMemory>
        requires { IsSync R.row × IsSync F.row × IsSend T.row × All (Accepts F.Fn f.now) front.now }
        ensures whole { OnOk result (AllZip (ChangesTo F.Fn f.entry.now (Ok tt)) front.entry.now front.exit.now) }
        ensures each { AllZip (Changes F.Fn f.entry.now) front.entry.now front.exit.now }
    { halves(rt, f, front) };
    let mut second = || -> Result<(), NoMemory>
        requires { IsSync R.row × IsSync F.row × IsSend T.row × All (Accepts F.Fn f.now) back.now }
        ensures whole { OnOk result (AllZip (ChangesTo F.Fn f.entry.now (Ok tt)) back.entry.now back.exit.now) }
        ensures each { AllZip (Changes F.Fn f.entry.now) back.entry.now back.exit.now }
    { halves(rt, f, back) };
    let (a, b) = join_mut(rt, &mut first, &mut second);
    a?;
    b
}

/// Where two calls wait for each other, for so many turns and no longer.
#[derive(Drop)]
struct Meeting {
    here: [AtomicBool; 2],
}

impl Meeting {
    /// For how many turns a call waits: some seconds.
    const TURNS: u32 = 10_000_000;

    /// Whether the other call came meanwhile: it is to be the first one or the second.
    fn meets_other(&self, is_first: bool) -> bool {
        let (mine, other) = if is_first { (0, 1) } else { (1, 0) };
        self.here[mine].store(true, Ordering::SeqCst);
        for _turn in 0..Self::TURNS {
            if self.here[other].load(Ordering::SeqCst) {
                return true;
            }
            thread::yield_now();
        }
        false
    }
}

/// Two calls that wait for each other meet, so they go side by side.
#[test]
fn calls_go_side_by_side(rt: HostRuntime) {
    let meeting = Meeting {
        here: [AtomicBool::new(false), AtomicBool::new(false)],
    };
    let meet = |number: &mut u32| {
        if meeting.meets_other(*number == 0) {
            *number = 7;
        }
        Ok(())
    };
    let mut numbers: [u32; 2] = [0, 1];
    assert!(rt; each(&rt, &meet, &mut numbers).is_ok());
    assert!(rt; numbers == [7, 7]);
}

/// Each of seven numbers is raised, and where one call is refused the others are.
#[test]
fn all_are_called(rt: HostRuntime) {
    for refused in [7, 0, 3, 6] {
        let raise = |number: &mut u32| {
            if *number == refused {
                return Err(NoMemory);
            }
            *number = number.wrapping_add(10);
            Ok(())
        };
        let mut numbers: [u32; 7] = [0, 1, 2, 3, 4, 5, 6];
        let came = each(&rt, &raise, &mut numbers);
        assert!(rt; came.is_ok() == (refused == 7));
        for (at, number) in numbers.iter().enumerate() {
            let was = at as u32;
            assert!(rt;
                *number
                    == if was == refused {
                        was
                    } else {
                        was.wrapping_add(10)
                    }
            );
        }
    }
}
