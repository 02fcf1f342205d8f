//! The identifiers and members that words spell.
ghost use Rattle.std.specs.Prelude.{◌≡◌, ℕ, Option, Some, None, option_map, take, drop};
ghost use Rattle.qs_book_script.specs.Numbers.{below};
ghost use Rattle.qs_text_history.specs.Inner.Words.{tid_of, tid_with, server_of, borrower_of, borrower_with, part_of, part_with, member_of, member_with, found_of, found_in, found_with, is_done, done_of};

use crate::words::{after, before, is, u8_of, u32_of, u64_of};
use qs_base::{Member, NodeNo, ServerNo, Tid};
use qs_book_journal::Found;
use qs_ops::servers::{AUDIT, EXTRA, FILES, FIRST_CLIENT, NAMES, SCRATCH, TIMERS, WINDOWS};

/// The identifier `home.inc.seq` that the word is.
#[tactic(auto, unfolding(crate::specs::Inner::Words::tid_of))]
pub fn tid_of(word: &[u8]) -> Option<Tid>
    ensures { result ≡ tid_of word.now }
{
    let rest = after(word, b'.');
    tid_with(
        u8_of(before(word, b'.')),
        u64_of(before(rest, b'.')),
        u32_of(after(rest, b'.')),
    )
}

/// The identifier of these numbers.
fn tid_with(home: Option<u8>, inc: Option<u64>, seq: Option<u32>) -> Option<Tid>
    ensures { result ≡ tid_with home inc seq }
{
    Some(Tid {
        home: NodeNo(home?),
        inc: inc?,
        seq: seq?,
    })
}

/// The member `SERVER@NODE` that the word is.
#[tactic(auto, unfolding(crate::specs::Inner::Words::member_of))]
pub fn member_of(word: &[u8]) -> Option<Member>
    ensures { result ≡ member_of word.now }
{
    member_with(part_of(before(word, b'@')), u8_of(after(word, b'@')))
}

/// The member of this server number at this node.
pub fn member_with(server: Option<u8>, node: Option<u8>) -> Option<Member>
    ensures { result ≡ member_with server node }
{
    let server = server?;
    let node = node?;
    Some(Member {
        node: NodeNo(node),
        server: ServerNo(server),
    })
}

/// The number of the server or of the client as borrower that the word names.
#[tactic(auto, unfolding(crate::specs::Inner::Words::part_of))]
fn part_of(word: &[u8]) -> Option<u8>
    ensures { result ≡ part_of word.now }
{
    part_with(server_of(word), borrower_of(word))
}

/// The server, or else the borrower.
fn part_with(server: Option<u8>, borrower: Option<u8>) -> Option<u8>
    ensures { result ≡ part_with server borrower }
{
    match server {
        Some(server) => Some(server),
        None => borrower,
    }
}

/// The number of the server that the word names.
#[tactic(auto, unfolding(crate::specs::Inner::Words::server_of))]
pub fn server_of(word: &[u8]) -> Option<u8>
    ensures { result ≡ server_of word.now }
{
    if is(word, "files") {
        Some(FILES.0)
    } else if is(word, "audit") {
        Some(AUDIT.0)
    } else if is(word, "names") {
        Some(NAMES.0)
    } else if is(word, "timers") {
        Some(TIMERS.0)
    } else if is(word, "windows") {
        Some(WINDOWS.0)
    } else if is(word, "scratch") {
        Some(SCRATCH.0)
    } else if is(word, "extra") {
        Some(EXTRA.0)
    } else {
        None
    }
}

/// The number of the client as borrower that the word `clientK` names.
fn borrower_of(word: &[u8]) -> Option<u8>
    ensures { result ≡ borrower_of word.now }
{
    if is(front(word), "client") {
        borrower_with(u8_of(behind(word)))
    } else {
        None
    }
}

/// The borrower's number of a client.
fn borrower_with(client: Option<u8>) -> Option<u8>
    ensures { result ≡ borrower_with (below 224 client) }
{
    let client = client?;
    if client <= u8::MAX - FIRST_CLIENT.0 {
        Some(client + FIRST_CLIENT.0)
    } else {
        None
    }
}

/// How many bytes `client` has.
const CLIENT: usize = 6;

/// The first six bytes of the word, or all.
fn front(word: &[u8]) -> &[u8]
    ensures { result.now ≡ take 6 word.now }
{
    let (front, _) = word.split_at(word.len().min(CLIENT));
    front
}

/// What stands behind the first six bytes of the word.
fn behind(word: &[u8]) -> &[u8]
    ensures { result.now ≡ drop 6 word.now }
{
    let (_, rest) = word.split_at(word.len().min(CLIENT));
    rest
}

/// The Prepare `pend:TID:SERVER:COVERS` that the word is.
#[tactic(auto, unfolding(crate::specs::Inner::Words::found_of))]
pub fn found_of(word: &[u8]) -> Option<Found>
    ensures { result ≡ found_of word.now }
{
    if is(before(word, b':'), "pend") {
        found_in(after(word, b':'))
    } else {
        None
    }
}

/// The Prepare `TID:SERVER:COVERS` that the word is.
fn found_in(word: &[u8]) -> Option<Found>
    ensures { result ≡ found_in word.now }
{
    let rest = after(word, b':');
    found_with(
        tid_of(before(word, b':')),
        u8_of(before(rest, b':')),
        u32_of(after(rest, b':')),
    )
}

/// The Prepare of these.
fn found_with(tid: Option<Tid>, server: Option<u8>, covers: Option<u32>) -> Option<Found>
    ensures { result ≡ found_with tid server covers }
{
    let tid = tid?;
    let server = server?;
    let covers = covers?;
    Some(Found {
        tid,
        server: ServerNo(server),
        covers,
    })
}

/// Whether the word begins with `done:`.
#[tactic(auto, unfolding(crate::specs::Inner::Words::is_done))]
pub fn is_done(word: &[u8]) -> bool
    ensures { result ≡ is_done word.now }
{
    is(before(word, b':'), "done")
}

/// The transaction that the word `done:TID` names.
#[tactic(auto, unfolding(crate::specs::Inner::Words::done_of))]
pub fn done_of(word: &[u8]) -> Option<Tid>
    ensures { result ≡ done_of word.now }
{
    if is_done(word) {
        tid_of(after(word, b':'))
    } else {
        None
    }
}
