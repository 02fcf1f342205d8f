//! Requests of a transaction: issued, and served.
ghost use Rattle.std.specs.Prelude.{◌≡◌, ◌++◌, ◌∷◌, [], OnOk, OnErr, IfOk, if◌then◌else◌};
ghost use Rattle.std.specs.Option.{option_copied};
ghost use Rattle.std.specs.List.{find};
ghost use Rattle.std.specs.BTreeMap.{insert_entry, is_at};
ghost use Rattle.qs_book_machine.specs.Transaction.{requests_in, life_cmp, node_cmp, request_cmp, crossed_by, crossed_from, is_standing, with_note_of, changed_value, mark_served};

use crate::part::serving_part;
use crate::requests::Requests;
use crate::sending::{note_of, reached_by, sent_more};
use crate::transaction::Transaction;
use qs_base::{Member, NoMemory, NodeNo};
use qs_book_machine::{Life, Link, Noted, Part, Peer, Request, RequestNo, Sent};
use qs_ops::class_of;
use std::alloc::Global;
use std::collections::btree_map::Entry;
use std::collections::{BTreeMap, BTreeSet};

impl Transaction {
    ghost use Rattle.qs_book_machine.specs.Transaction.{issued, served_in, with_request, sent_more, sent_on, reached_by, peer_of};

    /// The issue of a request on a link under a number, at that place in the history; the member's
    /// node is in incarnation `peer_inc`. After a refusal, which comes for want of memory or a count
    /// at its end, all is as it was.
    pub fn issue(
        &mut self,
        at: RequestNo,
        request: Request,
        peer_inc: u64,
        place: u64,
    ) -> Result<(), NoMemory>
        ensures ok { OnOk result (self.new ≡ issued at request peer_inc place self.old) }
        ensures err { OnErr result (self.new ≡ self.old) }
    {
        match self.towards(at.link, &request, peer_inc) {
            Ok((sent, peer)) => self.put_request(at, request, sent, peer, place),
            Err(refused) => {
                drop(request);
                Err(refused)
            }
        }
    }

    /// What is sent on the link, and what is open towards its end, in that incarnation, once the
    /// request went over it. Want of memory stands for a count at its end.
    fn towards(
        &self,
        link: Link,
        request: &Request,
        peer_inc: u64,
    ) -> Result<(Sent, Peer), NoMemory>
        ensures sent { IfOk result (λ next. next.0 ≡ sent_more request.now (sent_on self.now link)) }
        ensures peer { IfOk result (λ next. next.1 ≡ reached_by request.now peer_inc (peer_of self.now link.to)) }
    {
        let sent = sent_more(request, self.sent.get(&link).copied())?;
        let peer = reached_by(request, peer_inc, self.peer(link.to))?;
        Ok((sent, peer))
    }

    /// The request stands under its number, with that sent on its link and that open towards its
    /// member's node. After a refusal all is as it was.
    fn put_request(
        &mut self,
        at: RequestNo,
        request: Request,
        sent: Sent,
        peer: Peer,
        place: u64,
    ) -> Result<(), NoMemory>
        ensures ok { OnOk result (self.new ≡ with_request at request sent peer place self.old) }
        ensures err { OnErr result (self.new ≡ self.old) }
    {
        match self.sent.entry(at.link) {
            Err(refused) => {
                drop(request);
                return Err(NoMemory::from(refused));
            }
            Ok(Entry::Vacant(link)) => {
                file_towards(
                    self.alloc,
                    &mut self.peers,
                    &mut self.requests,
                    &mut self.crossed,
                    at,
                    request,
                    peer,
                    place,
                )?;
                link.insert(sent);
            }
            Ok(Entry::Occupied(mut link)) => {
                file_towards(
                    self.alloc,
                    &mut self.peers,
                    &mut self.requests,
                    &mut self.crossed,
                    at,
                    request,
                    peer,
                    place,
                )?;
                link.insert(sent);
            }
        }
        Ok(())
    }

    /// The member serves, in that incarnation and the step of that stamp, the earliest standing
    /// request of that number; with `done` one more change of a server is pending. After a refusal,
    /// which comes for want of memory or a count at its end, all is as it was.
    pub fn serve(
        &mut self,
        at: RequestNo,
        member: Member,
        inc: u64,
        stamp: u64,
        done: bool,
    ) -> Result<(), NoMemory>
        ensures ok { OnOk result (self.new ≡ served_in at member inc stamp done self.old) }
        ensures err { OnErr result (self.new ≡ self.old) }
    {
        let before = self.part(member, inc);
        let part = serving_part(before, class_of(member.server), stamp, done)?;
        let request = standing_in(&self.requests, at, member);
        put_part(
            &mut self.parts,
            Life { member, inc },
            part,
            &mut self.noted,
            request,
        )?;
        mark(&mut self.requests, at, member);
        Ok(())
    }
}

/// The earliest standing request of that number to that member.
fn standing_in(
    requests: &BTreeMap<RequestNo, Requests>,
    at: RequestNo,
    member: Member,
) -> Option<&Request>
    ensures { option_copied result ≡ find (is_standing member) (requests_in requests.now.entries at) }
{
    requests.get(&at)?.standing(member)
}

/// The earliest standing request of that number to that member is served.
fn mark(requests: &mut BTreeMap<RequestNo, Requests>, at: RequestNo, member: Member)
    ensures { requests.new.entries ≡ changed_value (is_at (request_cmp at)) (mark_served member) requests.old.entries }
{
    if let Some(list) = requests.get_mut(&at) {
        list.serve(member);
    }
}

/// Puts a part, and notes what files asked for with the request. After a refusal both are as they
/// were.
fn put_part(
    parts: &mut BTreeMap<Life, Part>,
    life: Life,
    part: Part,
    noted: &mut BTreeSet<Noted>,
    request: Option<&Request>,
) -> Result<(), NoMemory>
    ensures parts { OnOk result (parts.new.entries ≡ insert_entry life_cmp parts.old.entries life part) }
    ensures noted { OnOk result (noted.new.keys ≡ with_note_of (option_copied request.entry) noted.old.keys) }
    ensures parts_err { OnErr result (parts.new.entries ≡ parts.old.entries) }
    ensures noted_err { OnErr result (noted.new.keys ≡ noted.old.keys) }
{
    match parts.entry(life)? {
        Entry::Vacant(place) => {
            keep_note(noted, request)?;
            place.insert(part);
        }
        Entry::Occupied(mut place) => {
            keep_note(noted, request)?;
            place.insert(part);
        }
    }
    Ok(())
}

/// Notes what files asked for with the request. After a refusal the notes are as they were.
fn keep_note(noted: &mut BTreeSet<Noted>, request: Option<&Request>) -> Result<(), NoMemory>
    ensures ok { OnOk result (noted.new.keys ≡ with_note_of (option_copied request.entry) noted.old.keys) }
    ensures err { OnErr result (noted.new.keys ≡ noted.old.keys) }
{
    let Some(request) = request else {
        return Ok(());
    };
    if let Some(note) = note_of(request)? {
        noted.insert(note)?;
    }
    Ok(())
}

/// The request stands under its number, with that open towards its member's node, and crosses its
/// member, from that place on, where an earlier one to it stands there. After a refusal all three are
/// as they were.
fn file_towards(
    alloc: Global,
    peers: &mut BTreeMap<NodeNo, Peer>,
    requests: &mut BTreeMap<RequestNo, Requests>,
    crossed: &mut BTreeMap<Member, u64>,
    at: RequestNo,
    request: Request,
    peer: Peer,
    place: u64,
) -> Result<(), NoMemory>
    ensures peers { OnOk result (peers.new.entries ≡ insert_entry node_cmp peers.old.entries at.link.to peer) }
    ensures requests { OnOk result (requests.new.entries ≡ insert_entry request_cmp requests.old.entries at (requests_in requests.old.entries at ++ request ∷ [])) }
    ensures crossed { OnOk result (crossed.new.entries ≡ crossed_by (find (is_standing request.member) (requests_in requests.old.entries at)) place request.member crossed.old.entries) }
    ensures peers_err { OnErr result (peers.new.entries ≡ peers.old.entries) }
    ensures requests_err { OnErr result (requests.new.entries ≡ requests.old.entries) }
    ensures crossed_err { OnErr result (crossed.new.entries ≡ crossed.old.entries) }
{
    match peers.entry(at.link.to) {
        Err(refused) => {
            drop(request);
            return Err(NoMemory::from(refused));
        }
        Ok(Entry::Vacant(towards)) => {
            file(alloc, requests, crossed, at, request, place)?;
            towards.insert(peer);
        }
        Ok(Entry::Occupied(mut towards)) => {
            file(alloc, requests, crossed, at, request, place)?;
            towards.insert(peer);
        }
    }
    Ok(())
}

/// The request stands under its number, and crosses its member, from that place on, where an earlier
/// one to it stands there. After a refusal both are as they were.
fn file(
    alloc: Global,
    requests: &mut BTreeMap<RequestNo, Requests>,
    crossed: &mut BTreeMap<Member, u64>,
    at: RequestNo,
    request: Request,
    place: u64,
) -> Result<(), NoMemory>
    ensures requests { OnOk result (requests.new.entries ≡ insert_entry request_cmp requests.old.entries at (requests_in requests.old.entries at ++ request ∷ [])) }
    ensures crossed { OnOk result (crossed.new.entries ≡ crossed_by (find (is_standing request.member) (requests_in requests.old.entries at)) place request.member crossed.old.entries) }
    ensures requests_err { OnErr result (requests.new.entries ≡ requests.old.entries) }
    ensures crossed_err { OnErr result (crossed.new.entries ≡ crossed.old.entries) }
{
    match requests.get_mut(&at) {
        Some(list) => follow(list, crossed, request, place),
        None => {
            requests.insert(at, Requests::one(alloc, request)?)?;
            Ok(())
        }
    }
}

/// The request follows those of its number, and crosses its member, from that place on, where an
/// earlier one to it stands. After a refusal both are as they were.
fn follow(
    list: &mut Requests,
    crossed: &mut BTreeMap<Member, u64>,
    request: Request,
    place: u64,
) -> Result<(), NoMemory>
    ensures list { OnOk result (list.new ≡ list.old ++ request ∷ []) }
    ensures crossed { OnOk result (crossed.new.entries ≡ crossed_by (find (is_standing request.member) list.old) place request.member crossed.old.entries) }
    ensures list_err { OnErr result (list.new ≡ list.old) }
    ensures crossed_err { OnErr result (crossed.new.entries ≡ crossed.old.entries) }
{
    let member = request.member;
    let before = list.len();
    let crosses = list.standing(member).is_some();
    list.push(request)?;
    if cross(crossed, crosses, place, member).is_err() {
        list.truncate(before);
        return Err(NoMemory);
    }
    Ok(())
}

/// The member is crossed from that place on, or from an earlier one, if it `crosses`. After a refusal
/// the members are as they were.
fn cross(
    crossed: &mut BTreeMap<Member, u64>,
    crosses: bool,
    place: u64,
    member: Member,
) -> Result<(), NoMemory>
    ensures ok { OnOk result (crossed.new.entries ≡ (if crosses then crossed_from place member crossed.old.entries else crossed.old.entries)) }
    ensures err { OnErr result (crossed.new.entries ≡ crossed.old.entries) }
{
    if crosses && !crossed.contains_key(&member) {
        crossed.insert(member, place)?;
    }
    Ok(())
}
