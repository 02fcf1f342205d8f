//! What an entry makes of the course, but for the reference machine.
ghost use Rattle.std.specs.Prelude.{◌≡◌, ◌++◌, ◌∷◌, [], OnOk};
ghost use Rattle.std.specs.BTreeMap.{is_at};
ghost use Rattle.qs_book_machine.specs.Transaction.{changed_value};
ghost use Rattle.qs_book_conformance.specs.Course.{sought_cmp};

use super::Course;
use crate::clients::{answer, give_back, lend, make};
use crate::looking::{client_of, label_of, owner_of};
use crate::nodes::{pass_before, stand_after, step, stop};
use qs_base::{Bytes, ClientNo, Copied, List, Member, NoMemory, NodeNo, Outcome, Stamp, Tid};
use qs_book_conformance::{CommandMade, Deed, Mark, Sought};
use qs_book_journal::{Act, CrashCause};
use qs_ops::servers::FIRST_CLIENT;
use qs_ops::{Cause, Reply};
use std::collections::BTreeMap;

/// A serve gave this reply. It is kept where a client's request is sought.
fn add_reply(
    replies: &mut BTreeMap<Sought, List<Reply>>,
    sought: Sought,
    reply: &Reply,
) -> Result<(), NoMemory>
    ensures { OnOk result (replies.new.entries ≡ changed_value (is_at (sought_cmp sought)) (λ replies. replies ++ reply.now ∷ []) replies.old.entries) }
{
    if let Some(replies) = replies.get_mut(&sought) {
        replies.push(reply.copy()?)?;
    }
    Ok(())
}

impl Course {
    ghost use Rattle.qs_book_conformance.specs.Crashes.{stopped};
    ghost use Rattle.qs_book_conformance.specs.Effects.{owner_of_makes, sought_by, issued, past_before, past_after, past_label, past, stamped, client_effect, line_effect, with_node};

    // ---- clients

    /// The first command of the transaction's owner has made this.
    fn make_of_owner(&mut self, tid: Tid, made: CommandMade)
        ensures { self.new ≡ owner_of_makes tid made self.old }
    {
        if let Some(owner) = owner_of(&self.book, tid) {
            make(&mut self.clients, owner, made);
        }
    }

    /// The client waits for the reply to this request.
    fn seek(&mut self, client: ClientNo, sought: Sought) -> Result<(), NoMemory>
        ensures { OnOk result (self.new ≡ sought_by client sought self.old) }
    {
        make(&mut self.clients, client, CommandMade::Issued { sought });
        self.replies.insert(sought, List::new(self.alloc))?;
        Ok(())
    }

    fn issue(
        &mut self,
        here: NodeNo,
        tid: Tid,
        issuer: Member,
        member: Member,
        number: u32,
    ) -> Result<(), NoMemory>
        ensures { OnOk result (self.new ≡ issued here.0 tid issuer member number self.old) }
    {
        if issuer.server.0 < FIRST_CLIENT.0 {
            return Ok(());
        }
        let sought = Sought {
            tid,
            member,
            from: here,
            number,
        };
        self.seek(client_of(issuer.server), sought)
    }

    /// What the act does to the clients.
    pub fn client_effect(&mut self, here: NodeNo, act: &Act) -> Result<(), NoMemory>
        ensures { OnOk result (self.new ≡ client_effect here.0 act.now self.old) }
    {
        match act {
            Act::Begin { client, .. } => make(&mut self.clients, *client, CommandMade::Begun),
            Act::Issue {
                tid,
                issuer,
                member,
                number,
                ..
            } => self.issue(here, *tid, *issuer, *member, *number)?,
            Act::Ask { tid } => self.make_of_owner(*tid, CommandMade::Asked),
            Act::Decide {
                tid,
                outcome: Outcome::Abort,
                cause: Some(Cause::Asked),
            } => self.make_of_owner(*tid, CommandMade::Aborted),
            Act::Serve {
                tid,
                member,
                from,
                number,
                reply,
            } => {
                let sought = Sought {
                    tid: *tid,
                    member: *member,
                    from: *from,
                    number: *number,
                };
                add_reply(&mut self.replies, sought, reply)?;
            }
            Act::Answer {
                client,
                answer: told,
                ..
            } => answer(&self.book, &mut self.clients, *client, told)?,
            Act::Loan { tid, client } => {
                lend(&mut self.clients, *client, *tid, self.book.inc_at(here))?;
            }
            Act::Yield { tid, client } => give_back(&mut self.clients, *client, *tid)?,
            _ => {}
        }
        Ok(())
    }

    // ---- fault lines

    fn past_before(&mut self, here: NodeNo, deed: Deed, label: Bytes)
        ensures { self.new ≡ past_before here.0 deed label self.old }
    {
        let mark = Mark {
            node: here,
            after: false,
            deed,
            label,
        };
        if self.marks.remove(&mark).is_some() {
            pass_before(&mut self.nodes, here);
        }
    }

    fn past_after(&mut self, here: NodeNo, deed: Deed, label: Bytes)
        ensures { self.new ≡ past_after here.0 deed label self.old }
    {
        let mark = Mark {
            node: here,
            after: true,
            deed,
            label,
        };
        if self.marks.remove(&mark).is_some() {
            stand_after(&mut self.nodes, here);
        }
    }

    fn past_label(&mut self, here: NodeNo, deed: Deed, label: Option<Bytes>) -> Result<(), NoMemory>
        ensures { OnOk result (self.new ≡ past_label here.0 deed label self.old) }
    {
        if let Some(label) = label {
            self.past_before(here, deed, label.copy()?);
            self.past_after(here, deed, label);
        }
        Ok(())
    }

    /// The node made an entry of this kind for the transaction. Most scripts have no line that looks for one.
    #[tactic(auto, using(crate::proofs::Unmarked::past_unmarked))]
    fn past(&mut self, here: NodeNo, deed: Deed, tid: Tid) -> Result<(), NoMemory>
        ensures { OnOk result (self.new ≡ past here.0 deed tid self.old) }
    {
        if self.marks.is_empty() {
            return Ok(());
        }
        let label = label_of(&self.book, tid)?;
        self.past_label(here, deed, label)
    }

    fn stamp(&mut self, stamp: Stamp, here: NodeNo)
        ensures { self.new ≡ stamped stamp here.0 self.old }
    {
        step(&mut self.nodes, here, stamp);
    }

    fn crash(&mut self, stamp: Stamp, here: NodeNo, cause: CrashCause) -> Result<(), NoMemory>
        ensures { OnOk result (self.new ≡ stamped stamp here.0 (with_node here.0 (stopped stamp cause) self.old)) }
    {
        stop(&mut self.nodes, here, stamp, cause)?;
        self.stamp(stamp, here);
        Ok(())
    }

    /// What the act does to the fault lines.
    pub fn line_effect(&mut self, stamp: Stamp, here: NodeNo, act: &Act) -> Result<(), NoMemory>
        ensures { OnOk result (self.new ≡ line_effect stamp here.0 act.now self.old) }
    {
        if let Act::Crash { cause } = act {
            return self.crash(stamp, here, *cause);
        }
        self.stamp(stamp, here);
        match act {
            Act::Serve { tid, .. } => self.past(here, Deed::Serve, *tid),
            Act::Vote { tid, .. } => self.past(here, Deed::Vote, *tid),
            Act::Decide { tid, .. } => self.past(here, Deed::Decide, *tid),
            Act::Learn { tid, .. } => self.past(here, Deed::Learn, *tid),
            _ => Ok(()),
        }
    }
}
