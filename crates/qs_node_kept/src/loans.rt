//! Loans to clients, and how they are taken and given back.
ghost use Rattle.std.specs.Prelude.{◌≡◌, OnOk, OnErr};
ghost use Rattle.std.specs.List.{position};
ghost use Rattle.qs_node_kept.specs.Loans.{is_loan_of, is_taken, is_untaken, first_untaken, take_first, last_taken, give_back, is_standing_loan};
ghost use Rattle.qs_node_kept.specs.Places.{Takes, Yields, later_taken};

use crate::kept::Lent;
use crate::ledger::Ledger;
use qs_base::{ClientNo, NoMemory, Tid};

fn is_loan_of(client: ClientNo, tid: Tid, loan: &Lent) -> bool
    ensures { result ≡ is_loan_of client tid loan.now }
{
    loan.client == client && loan.tid == tid
}

fn is_taken(client: ClientNo, tid: Tid, loan: &Lent) -> bool
    ensures { result ≡ is_taken client tid loan.now }
{
    is_loan_of(client, tid, loan) && loan.taken
}

fn is_untaken(client: ClientNo, tid: Tid, loan: &Lent) -> bool
    ensures { result ≡ is_untaken client tid loan.now }
{
    is_loan_of(client, tid, loan) && !loan.taken
}

/// Whether it is a loan of that incarnation that was not given back.
pub(crate) fn is_standing_loan(tid: Tid, inc: u64, loan: &Lent) -> bool
    ensures { result ≡ is_standing_loan tid inc loan.now }
{
    tid == loan.tid && (!loan.yielded && loan.inc == inc)
}

fn untaken_place(loans: &[Lent], client: ClientNo, tid: Tid) -> Option<usize>
    ensures { result ≡ position (is_untaken client tid) loans.now }
{
    loans.iter().position(|loan| is_untaken(client, tid, loan))
}

/// The first loan that no take has taken, with its place.
fn untaken_at(loans: &[Lent], client: ClientNo, tid: Tid) -> Option<(usize, Lent)>
    ensures { Takes client tid loans.now result }
{
    match untaken_place(loans, client, tid) {
        Some(place) => Some((place, loans[place])),
        None => None,
    }
}

/// The first loan that no take has taken.
pub(crate) fn first_untaken(loans: &[Lent], client: ClientNo, tid: Tid) -> Option<Lent>
    ensures { result ≡ first_untaken client tid loans.now }
{
    match untaken_at(loans, client, tid) {
        Some((_, loan)) => Some(loan),
        None => None,
    }
}

/// It is taken. After a refusal all is as it was.
pub(crate) fn take_first(
    loans: &mut Ledger<Lent>,
    client: ClientNo,
    tid: Tid,
) -> Result<(), NoMemory>
    ensures ok { OnOk result (loans.new ≡ record loans.old { now = take_first client tid loans.old.now }) }
    ensures err { OnErr result (loans.new ≡ loans.old) }
{
    match untaken_at(loans.items(), client, tid) {
        Some((place, loan)) => loans.set(
            place,
            Lent {
                taken: true,
                ..loan
            },
        ),
        None => Ok(()),
    }
}

/// The last loan that was taken, with its place.
fn taken_at(loans: &[Lent], client: ClientNo, tid: Tid) -> Option<(usize, Lent)>
    ensures { Yields client tid loans.now result }
{
    let mut last = None;
    for place in 0..loans.len() {
        last = later_taken(last, client, tid, place, loans[place]);
    }
    last
}

fn later_taken(
    last: Option<(usize, Lent)>,
    client: ClientNo,
    tid: Tid,
    place: usize,
    loan: Lent,
) -> Option<(usize, Lent)>
    ensures { result ≡ later_taken client tid last place loan }
{
    if is_taken(client, tid, &loan) {
        Some((place, loan))
    } else {
        last
    }
}

/// The last loan that was taken.
pub(crate) fn last_taken(loans: &[Lent], client: ClientNo, tid: Tid) -> Option<Lent>
    ensures { result ≡ last_taken client tid loans.now }
{
    match taken_at(loans, client, tid) {
        Some((_, loan)) => Some(loan),
        None => None,
    }
}

/// It is given back. After a refusal all is as it was.
pub(crate) fn give_back(
    loans: &mut Ledger<Lent>,
    client: ClientNo,
    tid: Tid,
) -> Result<(), NoMemory>
    ensures ok { OnOk result (loans.new ≡ record loans.old { now = give_back client tid loans.old.now }) }
    ensures err { OnErr result (loans.new ≡ loans.old) }
{
    match taken_at(loans.items(), client, tid) {
        Some((place, loan)) => loans.set(
            place,
            Lent {
                yielded: true,
                ..loan
            },
        ),
        None => Ok(()),
    }
}
