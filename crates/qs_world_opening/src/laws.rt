//! Scripts that are read fit, and logs stay coherent.
ghost use Rattle.std.specs.Prelude.{ℕ, List, [], replicate};
ghost use Rattle.std.specs.Global.{Global};
ghost use Rattle.qs_record.specs.declared.record.Record.{Record};
ghost use Rattle.qs_book_script.specs.declared.script.Script.{Script};
ghost use Rattle.qs_world.specs.World.{Opening};
ghost use Rattle.qs_world_opening.specs.Coherent.{AreCoherentLogs, IsCoherentImage};
ghost use Rattle.qs_world_opening.specs.CourseScripts.{ScriptIsOf};
ghost use Rattle.qs_world_opening.specs.Scripts.{BeginsCoherent, MayBegin, ScriptFits, StayCoherent};

use qs_log_batch::counted_once;

/// Each script that is read fits: its lines rise, each is of a client that sits at a node of the run, each request goes to the
/// server whose operation it is, at a node of the run, each label is begun once, and nobody takes a loan of what it began.
pub fn scripts_fit()
    ensures { (nodes : ℕ) (text : List ℕ) (script : Script) → ScriptFits nodes text script }
{}

/// Each script that is read is that of its run: the course of a journal begins with each client at its node and with its lines, and with the quotas and the
/// audit node that the nodes have; no node has an age limit; and a client ends what it began, gives back what it took, and lends to a client at that one's node.
pub fn scripts_are_of_their_runs()
    ensures { (nodes : ℕ) (text : List ℕ) (script : Script) → ScriptIsOf nodes text script }
{}

/// What a run may begin with is what fits, over logs that are coherent.
pub fn what_fits_may_begin()
    ensures begins { (o : Opening) → MayBegin o }
    ensures coherent { (alloc : Global) (o : Opening) → BeginsCoherent alloc o }
{}

/// Logs that are coherent stay so as the incarnations of their nodes grow, and empty logs are coherent.
pub fn logs_stay_coherent()
    ensures later { (alloc : Global) (size : ℕ) (incs later : ℕ → ℕ) (logs : ℕ → List Record) → StayCoherent alloc size incs later logs }
    ensures empty { (alloc : Global) (size : ℕ) (incs : ℕ → ℕ) → AreCoherentLogs alloc size incs (λ n. []) }
{}

/// What a disk of zeros has for a log is empty, and so coherent: a first run may begin over it.
pub fn fresh_disks_are_coherent()
    ensures { (alloc : Global) (size : ℕ) → IsCoherentImage alloc (replicate size 0) }
{
    counted_once();
    logs_stay_coherent();
}
