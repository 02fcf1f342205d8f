//! The file server.
ghost use Rattle.std.specs.Prelude.{◌≡◌, ◌++◌, true, false, Some, IfOk, nat_le, nat_lt, if◌then◌else◌};
ghost use Rattle.qs_ops.specs.Files.{text_reply};
ghost use Rattle.qs_ops.specs.Server.{files_vote};
ghost use Rattle.qs_ops.specs.Table.{no_table, holder, free_reply, share_of, reply_to, size_reply, del_reply, text_at, text_or_empty, view_contents};
ghost use Rattle.qs_ops.specs.Timers.{no_timers};
ghost use Rattle.qs_ops.specs.declared.reply.Reply.TheVariants as replies;
ghost use Rattle.qs_ops.specs.declared.server.ServerKind.TheVariants as kinds;
ghost use Rattle.qs_ops.specs.declared.operation.Op.TheVariants as ops;
ghost use Rattle.qs_files.specs.Held.{is_file_op, is_get};

use crate::holdings::Holdings;
use qs_base::{Bytes, Class, NoMemory, Tid};
use qs_files_contents::Look;
use qs_ops::{Changes, Notice, Op, Reason, Reply, Server, Vote};
use std::alloc::Global;

/// How many bytes a file has at most.
const FILE_BYTES: usize = 65_536;

/// The file server of a node. What a transaction changes is committed with it, and until then no
/// other may read or change it, nor change what it read.
#[derive(Drop)]
pub struct Files {
    holdings: Holdings,
    /// How many bytes all files together may have.
    quota: u64,
}

impl Files {
    /// No files, which together may have `quota` bytes. It takes no memory.
    pub fn new(alloc: Global, quota: u64) -> Files
        ensures holdings { result.holdings ≡ no_table }
        ensures quota { result.quota ≡ quota }
    {
        Files {
            holdings: Holdings::new(alloc),
            quota,
        }
    }

    /// Who keeps the transaction from an operation that looks at no file.
    fn holder(&self, tid: Tid, op: &Op) -> Option<Tid>
        requires { is_get op.now ≡ false }
        ensures { result ≡ holder self.now.holdings tid op.now }
    {
        match op {
            Op::Put { name, .. } | Op::Append { name, .. } | Op::Del { name } => {
                self.holdings.holder(tid, name)
            }
            _ => None,
        }
    }

    /// The reply to an operation of its own.
    fn reply(&self, tid: Tid, op: &Op) -> Result<Reply, NoMemory>
        requires { is_file_op op.now ≡ true }
        ensures { IfOk result (λ reply. reply_to self.now.holdings tid op.now ≡ Some reply) }
    {
        if self.holdings.is_full(tid) {
            return Ok(Reply::TooMany);
        }
        if let Op::Get { name } = op {
            return self.get_reply(tid, name);
        }
        if let Some(holder) = self.holder(tid, op) {
            return Ok(Reply::Busy { holder });
        }
        self.free_reply(tid, op)
    }

    /// The reply to a look at a file, where as many operations were not served yet as may be.
    fn get_reply(&self, tid: Tid, name: &Bytes) -> Result<Reply, NoMemory>
        requires { nat_le 1024 (share_of self.now.holdings tid).operations ≡ false }
        ensures { IfOk result (λ reply. reply_to self.now.holdings tid (ops.Get name.now) ≡ Some reply) }
    {
        match self.holdings.look(tid, name)? {
            Look::Held { by } => Ok(Reply::Busy { holder: by }),
            Look::Free { text } => Ok(text_reply(text)),
        }
    }

    /// The reply where nothing refuses an operation that looks at no file.
    fn free_reply(&self, tid: Tid, op: &Op) -> Result<Reply, NoMemory>
        requires own { is_file_op op.now ≡ true }
        requires other { is_get op.now ≡ false }
        ensures { IfOk result (λ reply. free_reply self.now.holdings tid op.now ≡ Some reply) }
    {
        match op {
            Op::Put { text, .. } => Ok(size_reply(text.len())),
            Op::Append { name, text } => self.append_reply(tid, name, text),
            Op::Del { name } => Ok(self.del_reply(tid, name)),
            _ => Ok(Reply::Names {
                list: self.holdings.names(tid)?,
            }),
        }
    }

    /// The reply to an append. A count of bytes past its end is a refusal of memory.
    fn append_reply(&self, tid: Tid, name: &Bytes, text: &Bytes) -> Result<Reply, NoMemory>
        ensures { IfOk result (λ reply. reply ≡ size_reply (text_or_empty (view_contents self.now.holdings tid) name.now ++ text.now)) }
    {
        let before = self.holdings.length(tid, name).ok_or(NoMemory)?;
        let bytes = before.checked_add(text.len()).ok_or(NoMemory)?;
        Ok(size_reply(bytes))
    }

    /// The reply to a removal.
    fn del_reply(&self, tid: Tid, name: &Bytes) -> Reply
        ensures { result ≡ del_reply (text_at self.now.holdings tid name.now) }
    {
        if self.holdings.has_file(tid, name) {
            Reply::Done
        } else {
            Reply::Absent
        }
    }

    /// The vote where something is pending.
    fn changes_vote(&self, tid: Tid, free: u64, frame: u64) -> Result<Vote, NoMemory>
        ensures { IfOk result (λ ballot. ballot ≡ files_vote self.now.quota self.now.holdings tid free frame) }
    {
        let bytes = self.holdings.view_bytes(tid)?;
        if self.quota < bytes {
            let reason = Reason::Quota {
                bytes,
                limit: self.quota,
            };
            return Ok(Vote::Abort { reason });
        }
        self.holdings.vote_in_room(tid, free, frame)
    }
}

impl Server for Files {
    ghost state = { λ files. record { kind = kinds.Files files.quota; table = files.holdings; timers = no_timers } };

    fn class(&self) -> Class {
        Class::Recoverable
    }

    fn serve(&mut self, tid: Tid, op: &Op) -> Result<Reply, NoMemory> {
        let reply = self.reply(tid, op)?;
        self.holdings.serve(tid, op, &reply)?;
        Ok(reply)
    }

    fn vote(&mut self, tid: Tid, free: u64, frame: u64) -> Result<Vote, NoMemory> {
        if !self.holdings.has_changes(tid) {
            self.holdings.release(tid);
            return Ok(Vote::ReadOnly);
        }
        let ballot = self.changes_vote(tid, free, frame)?;
        if let Vote::Abort { .. } = ballot {
            self.holdings.set_vote(tid, false)?;
        }
        Ok(ballot)
    }

    fn note(&mut self, tid: Tid, notice: Notice) {
        match notice {
            Notice::Commit => self.holdings.commit(tid),
            Notice::Abort => self.holdings.release(tid),
            Notice::Ending => {}
        }
    }

    fn changes(&self, tid: Tid) -> Result<Changes, NoMemory> {
        self.holdings.changes(tid)
    }

    fn keep(&mut self, tid: Tid, changes: &Changes) -> Result<(), NoMemory> {
        self.holdings.keep(tid, changes)
    }

    fn contents(&self) -> Result<Changes, NoMemory> {
        self.holdings.contents()
    }

    fn holds(&self) -> bool {
        self.holdings.any_holds()
    }

    fn clear(&mut self) {
        self.holdings.clear();
    }
}

/// The reply to a change that leaves a file of so many bytes.
fn size_reply(bytes: usize) -> Reply
    ensures { result ≡ (if nat_lt 65536 bytes then replies.TooLong else replies.Done) }
{
    if bytes > FILE_BYTES {
        Reply::TooLong
    } else {
        Reply::Done
    }
}

/// The reply that tells the text.
fn text_reply(text: Option<Bytes>) -> Reply
    ensures { result ≡ text_reply text }
{
    match text {
        Some(text) => Reply::Value { text },
        None => Reply::Absent,
    }
}
