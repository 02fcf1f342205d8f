//! Histories of the machine: what stands in it at every time, whatever its nodes have.
ghost use Rattle.qs_world_lawful.specs.AsideLaws.{EachHoldsIssued, EachKeepsOthers, EachKeepsOthersBeside, EachStepKeepsOtherNodes};
ghost use Rattle.qs_world_lawful.specs.LastingLaws.{EachLasts, EachRunLasts};

/// After every lawful history that opens from coherent logs, which name transactions by their numbers from 1, nothing is kept of
/// incarnations that are to come, what is open at its home began in the home's present incarnation, what a log had committed at the opening
/// is committed, and what stands at a member stands there once, where it is not crossed there. The logs with which a run may begin are such.
pub fn histories_last()
    ensures always { EachLasts }
    ensures runs { EachRunLasts }
{}

/// The entries that a node makes in a step, where they are lawful, leave all that is held of every other node, whether it runs or not: what it has
/// of each transaction, its servers, where a request crosses a transaction there too, its log, and what is kept for clients. Of a node that runs
/// each note that its files issued is noted or waited for, and no client is answered elsewhere that has a command in hand there; where a node
/// is down what is unanimous, and open at it, stays unanimous, which the agreement protocol is to give.
pub fn steps_leave_other_nodes()
    ensures entries { EachKeepsOthers }
    ensures world { EachStepKeepsOtherNodes }
{}

/// And they leave what the machine has beside a node that runs, of notes, causes, ages and owners, where each transaction that one of them begins
/// has an owner; and from that each note that its files issued is noted or waited for.
pub fn steps_leave_what_stands_beside()
    ensures leaves { EachKeepsOthersBeside }
    ensures issued { EachHoldsIssued }
{}
