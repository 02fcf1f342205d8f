//! What a lawful step does, act by act.
ghost use Rattle.std.specs.Prelude.{◌≡◌, OnOk, fold, slice_get};
ghost use Rattle.std.specs.BTreeMap.{insert_entry};
ghost use Rattle.qs_base.specs.Order.{bytes_cmp};
ghost use Rattle.qs_book_machine.specs.Transaction.{served_in};
ghost use Rattle.std.specs.Option.{option_copied};
ghost use Rattle.qs_book_machine.specs.Book.{is_done, hear};

use super::{Book, nodes, owners, transactions};
use crate::clauses::borrower_at;
use qs_base::{Bytes, ClientNo, Copied, Member, NoMemory, NodeNo, Outcome, Stamp, Tid};
use qs_book_journal::{Act, copied_cause};
use qs_book_machine::{Asking, Link, Request, RequestNo};
use qs_book_transactions::Transaction;
use qs_ops::servers::FIRST_CLIENT;
use qs_ops::{Cause, Op, Reply, Vote};
use std::collections::BTreeMap;

impl Book {
    ghost use Rattle.qs_book_machine.specs.Book.{find_transaction, inc_at, ticks_at, begin, with_waiting, with_crossing, issue, serve, vote, decide, learn, answer, crossed_in, pending_in, serve_node, with_node, with_transaction, loan, give_back, count, end};
    ghost use Rattle.qs_book_machine.specs.Clauses.{borrower_at};
    ghost use Rattle.qs_book_machine.specs.Lawful.{effect_act, effect_told};

    fn begin(
        &mut self,
        here: NodeNo,
        tid: Tid,
        label: &Bytes,
        client: ClientNo,
    ) -> Result<(), NoMemory>
        ensures { OnOk result (self.new ≡ begin here.0 tid label.now client self.old) }
    {
        let ticks = self.ticks_at(here);
        let own_label = label.copy()?;
        put_label(&mut self.labels, label.copy()?, tid)?;
        let tx = Transaction::begun(self.alloc, own_label, client, ticks);
        transactions::put(&mut self.transactions, tid, tx)?;
        nodes::begin(&mut self.nodes, here, tid.seq);
        Ok(())
    }

    /// How many ticks the node made in its incarnation.
    fn ticks_at(&self, here: NodeNo) -> u64
        ensures { result ≡ ticks_at (slice_get self.now.nodes here.0) }
    {
        match self.nodes.get(usize::from(here.0)) {
            Some(node) => node.timers().ticks(),
            None => 0,
        }
    }

    /// The request of a client waits for its answer.
    fn wait(&mut self, tid: Tid, issuer: Member, member: Member) -> Result<(), NoMemory>
        ensures { OnOk result (self.new ≡ with_waiting tid issuer member self.old) }
    {
        if issuer.server.0 >= FIRST_CLIENT.0 {
            let asking = Asking {
                tid,
                node: member.node,
            };
            owners::wait(
                &mut self.owners,
                usize::from(issuer.server.0 - FIRST_CLIENT.0),
                asking,
            )?;
        }
        Ok(())
    }

    fn cross(&mut self, crossed: bool, tid: Tid, member: Member) -> Result<(), NoMemory>
        ensures { OnOk result (self.new ≡ with_crossing crossed tid member self.old) }
    {
        if crossed {
            nodes::cross(&mut self.nodes, tid, member)?;
        }
        Ok(())
    }

    fn issue(
        &mut self,
        here: NodeNo,
        tid: Tid,
        issuer: Member,
        member: Member,
        number: u32,
        op: &Op,
    ) -> Result<(), NoMemory>
        ensures { OnOk result (self.new ≡ issue here.0 tid issuer member number op.now self.old) }
    {
        let link = Link {
            from: here,
            to: member.node,
        };
        let at = RequestNo { link, number };
        let request = Request {
            issuer,
            member,
            op: op.copy()?,
            inc: self.inc_at(here),
            served: false,
        };
        let peer_inc = self.inc_at(member.node);
        let crossed = transactions::issue(
            &mut self.transactions,
            tid,
            at,
            request,
            peer_inc,
            self.place,
        )?;
        self.wait(tid, issuer, member)?;
        self.cross(crossed, tid, member)
    }

    fn serve(
        &mut self,
        here: NodeNo,
        tid: Tid,
        member: Member,
        from: NodeNo,
        number: u32,
        stamp: Stamp,
        reply: &Reply,
    ) -> Result<(), NoMemory>
        ensures { OnOk result (self.new ≡ serve here.0 tid member from number stamp reply.now self.old) }
    {
        let link = Link {
            from,
            to: member.node,
        };
        let at = RequestNo { link, number };
        self.serve_at(here, at, tid, member, stamp, reply)
    }

    /// What a serve does at its node and to its transaction.
    #[tactic(auto, using(crate::proofs::Serving::served_unknown))]
    fn serve_at(
        &mut self,
        here: NodeNo,
        at: RequestNo,
        tid: Tid,
        member: Member,
        stamp: Stamp,
        reply: &Reply,
    ) -> Result<(), NoMemory>
        ensures { OnOk result (self.new ≡ with_transaction tid (served_in at member (inc_at self.old here) stamp (is_done reply.now)) (with_node here.0 (serve_node (find_transaction self.old tid) at tid member reply.now) self.old)) }
    {
        let inc = self.inc_at(here);
        let Some(tx) = self.transactions.get_mut(&tid) else {
            return Ok(());
        };
        nodes::serve(
            self.alloc,
            &mut self.nodes,
            here,
            tx,
            at,
            tid,
            member,
            reply,
        )?;
        tx.serve(at, member, inc, stamp, is_done(reply))
    }

    pub(crate) fn is_crossed(&self, tid: Tid, member: Member) -> bool
        ensures { result ≡ crossed_in (find_transaction self.now tid) member }
    {
        match self.transaction(tid) {
            Some(tx) => tx.is_crossed(member),
            None => false,
        }
    }

    /// How many changes the member has pending in that incarnation.
    pub(crate) fn pending_in(&self, tid: Tid, member: Member, inc: u64) -> u64
        ensures { result ≡ pending_in (find_transaction self.now tid) member inc }
    {
        match self.transaction(tid) {
            Some(tx) => tx.part(member, inc).pending,
            None => 0,
        }
    }

    fn vote(
        &mut self,
        here: NodeNo,
        tid: Tid,
        member: Member,
        ballot: &Vote,
        covers: u32,
    ) -> Result<(), NoMemory>
        ensures { OnOk result (self.new ≡ vote here.0 tid member ballot.now covers self.old) }
    {
        let inc = self.inc_at(here);
        let before = transactions::vote(&mut self.transactions, tid, member, inc, ballot)?;
        nodes::vote(
            &mut self.nodes,
            here,
            before.pending,
            before.crossed,
            tid,
            member.server,
            ballot,
            covers,
        )
    }

    pub(crate) fn decide(
        &mut self,
        tid: Tid,
        outcome: Outcome,
        cause: Option<&Cause>,
    ) -> Result<(), NoMemory>
        ensures { OnOk result (self.new ≡ decide tid outcome (option_copied cause.entry) self.old) }
    {
        let Some(tx) = self.transactions.get_mut(&tid) else {
            return Ok(());
        };
        owners::tell(&mut self.owners, tx.owner(), outcome, cause)?;
        tx.decide(self.place, outcome, copied_cause(cause)?);
        Ok(())
    }

    fn learn(
        &mut self,
        here: NodeNo,
        tid: Tid,
        member: Member,
        outcome: Outcome,
    ) -> Result<(), NoMemory>
        ensures { OnOk result (self.new ≡ learn here.0 tid member outcome self.old) }
    {
        let inc = self.inc_at(here);
        nodes::learn(&mut self.nodes, here, outcome, tid, member.server)?;
        transactions::learn(&mut self.transactions, tid, member, inc, outcome)
    }

    fn hear_one(&mut self, asking: &Asking)
        ensures { self.new ≡ hear self.old asking.now }
    {
        let inc = self.inc_at(asking.node);
        transactions::hear(&mut self.transactions, asking.tid, asking.node, inc);
    }

    fn answer(&mut self, client: ClientNo, line: u32)
        ensures { self.new ≡ answer client line self.old }
    {
        let waiting = owners::answer(self.alloc, &mut self.owners, client, line);
        hear_all(self, waiting.as_slice());
    }

    fn loan(&mut self, here: NodeNo, tid: Tid, client: ClientNo) -> Result<(), NoMemory>
        ensures { OnOk result (self.new ≡ loan here.0 tid client self.old) }
    {
        let inc = self.inc_at(here);
        match borrower_at(client, here) {
            Some(member) => transactions::lend(&mut self.transactions, tid, member, inc),
            None => Ok(()),
        }
    }

    fn give_back(&mut self, here: NodeNo, tid: Tid, client: ClientNo) -> Result<(), NoMemory>
        ensures { OnOk result (self.new ≡ give_back here.0 tid client self.old) }
    {
        let inc = self.inc_at(here);
        match borrower_at(client, here) {
            Some(member) => transactions::give_back(&mut self.transactions, tid, member, inc),
            None => Ok(()),
        }
    }

    fn count(&mut self, here: NodeNo, tid: Tid, peer: NodeNo, up_to: u32)
        ensures { self.new ≡ count here.0 tid peer up_to self.old }
    {
        let link = Link {
            from: here,
            to: peer,
        };
        let (inc, peer_inc) = (self.inc_at(here), self.inc_at(peer));
        transactions::count(&mut self.transactions, tid, link, inc, up_to, peer_inc);
    }

    fn end(&mut self, here: NodeNo, tid: Tid, member: Member)
        ensures { self.new ≡ end here.0 tid member self.old }
    {
        let inc = self.inc_at(here);
        nodes::end(&mut self.nodes, here, tid);
        transactions::end(&mut self.transactions, tid, member, inc);
    }

    /// Takes in what happened at a node, in a step of this stamp.
    pub(crate) fn take_act(&mut self, stamp: Stamp, here: NodeNo, act: &Act) -> Result<(), NoMemory>
        ensures { OnOk result (self.new ≡ effect_act stamp here.0 act.now self.old) }
    {
        match act {
            Act::Begin { tid, label, client } => self.begin(here, *tid, label, *client),
            Act::Issue {
                tid,
                issuer,
                member,
                number,
                op,
            } => self.issue(here, *tid, *issuer, *member, *number, op),
            Act::Serve {
                tid,
                member,
                from,
                number,
                reply,
            } => self.serve(here, *tid, *member, *from, *number, stamp, reply),
            Act::Vote {
                tid,
                member,
                vote,
                covers,
            } => self.vote(here, *tid, *member, vote, *covers),
            Act::Decide {
                tid,
                outcome,
                cause,
            } => self.decide(*tid, *outcome, cause.as_ref()),
            Act::Learn {
                tid,
                member,
                outcome,
            } => self.learn(here, *tid, *member, *outcome),
            Act::Loan { tid, client } => self.loan(here, *tid, *client),
            Act::Yield { tid, client } => self.give_back(here, *tid, *client),
            Act::Tick => nodes::tick(&mut self.nodes, here, stamp),
            Act::Restart { inc, pend, done } => {
                self.restart(here, *inc, pend.as_slice(), done.as_slice())
            }
            _ => self.take_told(here, act),
        }
    }

    /// Takes in an act that only tells what happened.
    fn take_told(&mut self, here: NodeNo, act: &Act) -> Result<(), NoMemory>
        ensures { OnOk result (self.new ≡ effect_told here.0 act.now self.old) }
    {
        match act {
            Act::Ask { tid } => transactions::ask(&mut self.transactions, *tid, self.place),
            Act::Counted { tid, peer, up_to } => self.count(here, *tid, *peer, *up_to),
            Act::Ending { tid, member } => self.end(here, *tid, *member),
            Act::Answer { client, line, .. } => self.answer(*client, *line),
            Act::Crash { .. } => nodes::crash(&mut self.nodes, here, self.place),
            _ => {}
        }
        Ok(())
    }
}

/// The requests that a client waits for are answered.
fn hear_all(book: &mut Book, waiting: &[Asking])
    ensures { book.new ≡ fold hear book.old waiting.now }
{
    for asking in waiting {
        book.hear_one(asking);
    }
}

fn put_label(labels: &mut BTreeMap<Bytes, Tid>, label: Bytes, tid: Tid) -> Result<(), NoMemory>
    ensures { OnOk result (labels.new.entries ≡ insert_entry bytes_cmp labels.old.entries label tid) }
{
    labels.insert(label, tid)?;
    Ok(())
}

fn is_done(reply: &Reply) -> bool
    ensures { result ≡ is_done reply.now }
{
    match reply {
        Reply::Done => true,
        _ => false,
    }
}
