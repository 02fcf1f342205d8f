//! What the step did for each transaction so far.
ghost use Rattle.std.specs.Prelude.{◌≡◌, OnOk, true};
ghost use Rattle.qs_node_step.specs.State.{doings_of, with_doings};

use qs_base::{NoMemory, Tid};
use qs_node_servers::Servers;
use qs_node_step::{Doings, Work};
use qs_ops::Server;

const NOTHING: Doings = Doings {
    asked: false,
    served: false,
    voted: false,
    yielded: false,
    prepared: false,
};

/// What the step did for the transaction so far.
pub fn doings_of<F: Server, X: Server>(work: &Work<Servers<F, X>>, tid: Tid) -> Doings
    ensures { result ≡ doings_of tid work.now }
{
    match work.doings.get(&tid) {
        Some(doings) => *doings,
        None => NOTHING,
    }
}

/// The owner asked for commit.
pub fn note_asked<F: Server, X: Server>(
    work: &mut Work<Servers<F, X>>,
    tid: Tid,
) -> Result<(), NoMemory>
    ensures ok { OnOk result (work.new ≡ with_doings tid (λ doings. record doings { asked = true }) work.old) }
    ensures saved { work.new.node.kept.saved ≡ work.old.node.kept.saved }
{
    let doings = doings_of(work, tid);
    work.doings.put(
        tid,
        Doings {
            asked: true,
            ..doings
        },
    )
}

/// A member served a request.
pub fn note_served<F: Server, X: Server>(
    work: &mut Work<Servers<F, X>>,
    tid: Tid,
) -> Result<(), NoMemory>
    ensures ok { OnOk result (work.new ≡ with_doings tid (λ doings. record doings { served = true }) work.old) }
    ensures saved { work.new.node.kept.saved ≡ work.old.node.kept.saved }
{
    let doings = doings_of(work, tid);
    work.doings.put(
        tid,
        Doings {
            served: true,
            ..doings
        },
    )
}

/// A member voted.
pub fn note_voted<F: Server, X: Server>(
    work: &mut Work<Servers<F, X>>,
    tid: Tid,
) -> Result<(), NoMemory>
    ensures ok { OnOk result (work.new ≡ with_doings tid (λ doings. record doings { voted = true }) work.old) }
    ensures saved { work.new.node.kept.saved ≡ work.old.node.kept.saved }
{
    let doings = doings_of(work, tid);
    work.doings.put(
        tid,
        Doings {
            voted: true,
            ..doings
        },
    )
}

/// A loan was given back.
pub fn note_yielded<F: Server, X: Server>(
    work: &mut Work<Servers<F, X>>,
    tid: Tid,
) -> Result<(), NoMemory>
    ensures ok { OnOk result (work.new ≡ with_doings tid (λ doings. record doings { yielded = true }) work.old) }
    ensures saved { work.new.node.kept.saved ≡ work.old.node.kept.saved }
{
    let doings = doings_of(work, tid);
    work.doings.put(
        tid,
        Doings {
            yielded: true,
            ..doings
        },
    )
}

/// A Prepare was appended.
pub fn note_prepared<F: Server, X: Server>(
    work: &mut Work<Servers<F, X>>,
    tid: Tid,
) -> Result<(), NoMemory>
    ensures ok { OnOk result (work.new ≡ with_doings tid (λ doings. record doings { prepared = true }) work.old) }
    ensures saved { work.new.node.kept.saved ≡ work.old.node.kept.saved }
{
    let doings = doings_of(work, tid);
    work.doings.put(
        tid,
        Doings {
            prepared: true,
            ..doings
        },
    )
}
