//! What entries do to what the clients may be told.
ghost use Rattle.std.specs.Prelude.{◌≡◌, ◌++◌, ◌∷◌, [], OnOk, slice_get};
ghost use Rattle.std.specs.Option.{option_copied};
ghost use Rattle.qs_book_machine.specs.Book.{changed_at, told, told_owner, waiting_of};

use qs_base::{ClientNo, Copied, List, NoMemory, Outcome};
use qs_book_machine::{Asking, Owner};
use qs_ops::Cause;
use std::alloc::Global;
use std::mem;

/// That client waits for the answer to a request.
pub fn wait(owners: &mut Vec<Owner>, client: usize, asking: Asking) -> Result<(), NoMemory>
    ensures { OnOk result (owners.new.items ≡ changed_at client (λ owner. record owner { waiting = owner.waiting ++ asking ∷ [] }) owners.old.items) }
{
    if client < owners.len() {
        let owner = &mut owners[client];
        owner.waiting.push(asking)?;
    }
    Ok(())
}

/// That client was answered up to this line, and waits no more; what it waited for.
pub fn answer(alloc: Global, owners: &mut Vec<Owner>, client: ClientNo, line: u32) -> List<Asking>
    ensures waiting { result ≡ waiting_of (slice_get owners.old.items client.0) }
    ensures owners { owners.new.items ≡ changed_at client.0 (λ owner. record owner { line = line; waiting = [] }) owners.old.items }
{
    let place = usize::from(client.0);
    if place >= owners.len() {
        return List::new(alloc);
    }
    let owner = &mut owners[place];
    owner.line = line;
    mem::replace(&mut owner.waiting, List::new(alloc))
}

/// The owner of a decided transaction, if it has one, may be told the outcome.
pub fn tell(
    owners: &mut Vec<Owner>,
    client: Option<ClientNo>,
    outcome: Outcome,
    cause: Option<&Cause>,
) -> Result<(), NoMemory>
    ensures { OnOk result (owners.new.items ≡ told_owner client outcome (option_copied cause.entry) owners.old.items) }
{
    match client {
        Some(client) => tell_one(owners, client, outcome, cause),
        None => Ok(()),
    }
}

fn tell_one(
    owners: &mut Vec<Owner>,
    client: ClientNo,
    outcome: Outcome,
    cause: Option<&Cause>,
) -> Result<(), NoMemory>
    ensures { OnOk result (owners.new.items ≡ changed_at client.0 (told outcome (option_copied cause.entry)) owners.old.items) }
{
    let place = usize::from(client.0);
    if place < owners.len() {
        learn(&mut owners[place], outcome, cause)?;
    }
    Ok(())
}

fn learn(owner: &mut Owner, outcome: Outcome, cause: Option<&Cause>) -> Result<(), NoMemory>
    ensures { OnOk result (owner.new ≡ told outcome (option_copied cause.entry) owner.old) }
{
    match (outcome, cause) {
        (Outcome::Commit, _) => owner.committed = true,
        (Outcome::Abort, Some(cause)) => owner.causes.add(cause.copy()?)?,
        (Outcome::Abort, None) => {}
    }
    Ok(())
}
