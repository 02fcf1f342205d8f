//! What the reference machine says of a transaction that it may not know.
ghost use Rattle.std.specs.Prelude.{◌≡◌, IfOk};
ghost use Rattle.qs_book_machine.specs.Book.{find_transaction, owner_of};
ghost use Rattle.qs_book_conformance.specs.Effects.{label_of};
ghost use Rattle.qs_book_conformance.specs.Rules.{client_of};

use qs_base::{Bytes, ClientNo, Copied, NoMemory, ServerNo, Tid};
use qs_book::Book;
use qs_ops::servers::FIRST_CLIENT;

/// The client that a server number stands for.
pub fn client_of(server: ServerNo) -> ClientNo
    ensures { result ≡ client_of server.0 }
{
    ClientNo(server.0.saturating_sub(FIRST_CLIENT.0))
}

/// The owner of a transaction, where it has one.
pub fn owner_of(book: &Book, tid: Tid) -> Option<ClientNo>
    ensures { result ≡ owner_of (find_transaction book.now tid) }
{
    match book.transaction(tid) {
        Some(tx) => tx.owner(),
        None => None,
    }
}

/// The label of a transaction, where it is known and has one. The only error is a refusal of memory.
pub fn label_of(book: &Book, tid: Tid) -> Result<Option<Bytes>, NoMemory>
    ensures { IfOk result (λ label. label ≡ label_of (find_transaction book.now tid)) }
{
    match book.transaction(tid) {
        Some(tx) => match tx.label() {
            Some(label) => Ok(Some(label.copy()?)),
            None => Ok(None),
        },
        None => Ok(None),
    }
}
