//! What a request changes of what was sent and of what is open towards a node.
ghost use Rattle.std.specs.Prelude.{◌≡◌, IfOk};
ghost use Rattle.qs_book_machine.specs.Transaction.{is_by_files, is_by_client, sent_more, reached_by, note_of, with_counted, heard_by, with_reached};

use qs_base::{Copied, NoMemory};
use qs_book_machine::{Noted, Peer, Request, Sent};
use qs_ops::Op;
use qs_ops::servers::{FILES, FIRST_CLIENT};

/// Nothing was ever open towards the node.
pub const NO_PEER: Peer = Peer {
    waiting: 0,
    reached: 0,
};

/// The peer's answer is counted up to that number, where it was sent in this incarnation. A count
/// never falls.
pub fn with_counted(sent: Sent, inc: u64, up_to: u32) -> Sent
    ensures { result ≡ with_counted inc up_to sent }
{
    if sent.inc == inc && sent.counted < up_to {
        Sent {
            counted: up_to,
            ..sent
        }
    } else {
        sent
    }
}

/// The peer is in that incarnation with what was seen open.
pub fn with_reached(peer: Peer, inc: u64) -> Peer
    ensures { result ≡ with_reached inc peer }
{
    Peer {
        reached: inc,
        ..peer
    }
}

/// A client that sent a request to the peer, in this incarnation of its, got an answer.
pub fn heard_by(peer: Peer, inc: u64) -> Peer
    ensures { result ≡ heard_by inc peer }
{
    Peer {
        waiting: peer.waiting.saturating_sub(1),
        reached: inc,
    }
}

/// What was sent once the request was sent too. Want of memory stands for a count at its end.
pub fn sent_more(request: &Request, before: Option<Sent>) -> Result<Sent, NoMemory>
    ensures { IfOk result (λ sent. sent ≡ sent_more request.now before) }
{
    let by_files = is_by_files(request);
    match before {
        Some(sent) if sent.inc == request.inc => Ok(Sent {
            count: sent.count.checked_add(1).ok_or(NoMemory)?,
            by_files: sent.by_files || by_files,
            ..sent
        }),
        Some(sent) => Ok(Sent {
            inc: request.inc,
            count: 1,
            counted: 0,
            lost: sent.lost || sent.counted < sent.count,
            by_files: sent.by_files || by_files,
        }),
        None => Ok(Sent {
            inc: request.inc,
            count: 1,
            counted: 0,
            lost: false,
            by_files,
        }),
    }
}

/// What is open towards a node, in that incarnation, once the request went to it. Want of memory
/// stands for a count at its end.
pub fn reached_by(request: &Request, inc: u64, peer: Peer) -> Result<Peer, NoMemory>
    ensures { IfOk result (λ next. next ≡ reached_by request.now inc peer) }
{
    let waiting = if is_by_client(request) {
        peer.waiting.checked_add(1).ok_or(NoMemory)?
    } else {
        peer.waiting
    };
    Ok(Peer {
        waiting,
        reached: inc,
    })
}

/// The audit note that is noted once the request is served; `None` for another request, or one that
/// files did not issue.
pub fn note_of(request: &Request) -> Result<Option<Noted>, NoMemory>
    ensures { IfOk result (λ note. note ≡ note_of request.now) }
{
    match &request.op {
        Op::Note { text } if is_by_files(request) => Ok(Some(Noted {
            node: request.issuer.node,
            inc: request.inc,
            text: text.copy()?,
        })),
        _ => Ok(None),
    }
}

fn is_by_files(request: &Request) -> bool
    ensures { result ≡ is_by_files request.now }
{
    request.issuer.server == FILES
}

fn is_by_client(request: &Request) -> bool
    ensures { result ≡ is_by_client request.now }
{
    FIRST_CLIENT.0 <= request.issuer.server.0
}
