//! What entries make of the clients, which stand by number.
ghost use Rattle.std.specs.Prelude.{◌≡◌, OnOk};
ghost use Rattle.qs_book_machine.specs.Book.{changed_at};
ghost use Rattle.qs_book_conformance.specs.Effects.{with_borrowing, lent_in, gave_back, answered};
ghost use Rattle.qs_book_conformance.specs.declared.values.CommandMade.TheVariants as makes;

use crate::client::ClientCourse;
use qs_base::{ClientNo, NoMemory, Tid};
use qs_book::Book;
use qs_book_conformance::CommandMade;
use qs_ops::Answer;

/// The first command of the client has made this.
pub fn make(clients: &mut Vec<ClientCourse>, client: ClientNo, made: CommandMade)
    ensures { clients.new.items ≡ changed_at client.0 (λ state. record state { made = made }) clients.old.items }
{
    let place = usize::from(client.0);
    if place < clients.len() {
        clients[place].make(made);
    }
}

/// A loan of the transaction is made to the client in this incarnation of its node.
pub fn lend(
    clients: &mut Vec<ClientCourse>,
    client: ClientNo,
    tid: Tid,
    inc: u64,
) -> Result<(), NoMemory>
    ensures { OnOk result (clients.new.items ≡ changed_at client.0 (with_borrowing tid (lent_in inc)) clients.old.items) }
{
    let place = usize::from(client.0);
    if place < clients.len() {
        clients[place].lend(tid, inc)?;
    }
    Ok(())
}

/// The client gives its present loan of the transaction back.
pub fn give_back(
    clients: &mut Vec<ClientCourse>,
    client: ClientNo,
    tid: Tid,
) -> Result<(), NoMemory>
    ensures { OnOk result (clients.new.items ≡ changed_at client.0 (λ state. record (with_borrowing tid gave_back state) { made = makes.GaveBack }) clients.old.items) }
{
    let place = usize::from(client.0);
    if place < clients.len() {
        clients[place].give_back(tid)?;
    }
    Ok(())
}

/// The first command of the client is answered.
pub fn answer(
    book: &Book,
    clients: &mut Vec<ClientCourse>,
    client: ClientNo,
    answer: &Answer,
) -> Result<(), NoMemory>
    ensures { OnOk result (clients.new.items ≡ changed_at client.0 (answered book.now answer.now) clients.old.items) }
{
    let place = usize::from(client.0);
    if place < clients.len() {
        clients[place].answer(book, answer)?;
    }
    Ok(())
}
