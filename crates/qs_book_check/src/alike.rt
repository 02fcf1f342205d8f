//! Tests for equal operations, and for the answer that a reply makes.
ghost use Rattle.std.specs.Prelude.{◌≡◌};
ghost use Rattle.qs_book_conformance.specs.Alike.{same_op, is_answer_of};

use qs_ops::{Answer, Op, Reply};

/// Whether two operations are the same.
pub fn same_op(op: &Op, other: &Op) -> bool
    ensures { result ≡ same_op op.now other.now }
{
    match (op, other) {
        (Op::Put { name, text }, Op::Put { name: n, text: t }) => {
            name.as_slice() == n.as_slice() && text.as_slice() == t.as_slice()
        }
        (Op::Append { name, text }, Op::Append { name: n, text: t }) => {
            name.as_slice() == n.as_slice() && text.as_slice() == t.as_slice()
        }
        (Op::Del { name }, Op::Del { name: n }) => name.as_slice() == n.as_slice(),
        (Op::Get { name }, Op::Get { name: n }) => name.as_slice() == n.as_slice(),
        (Op::Listing, Op::Listing) => true,
        (Op::Note { text }, Op::Note { text: t }) => text.as_slice() == t.as_slice(),
        (Op::Notes, Op::Notes) => true,
        (Op::Bind { name, text }, Op::Bind { name: n, text: t }) => {
            name.as_slice() == n.as_slice() && text.as_slice() == t.as_slice()
        }
        (Op::Find { name }, Op::Find { name: n }) => name.as_slice() == n.as_slice(),
        (Op::Timer { name, ticks }, Op::Timer { name: n, ticks: t }) => {
            name.as_slice() == n.as_slice() && *ticks == *t
        }
        (Op::Left { name }, Op::Left { name: n }) => name.as_slice() == n.as_slice(),
        (Op::Window { name, text }, Op::Window { name: n, text: t }) => {
            name.as_slice() == n.as_slice() && text.as_slice() == t.as_slice()
        }
        (Op::Title { name }, Op::Title { name: n }) => name.as_slice() == n.as_slice(),
        (Op::Keep { name, text }, Op::Keep { name: n, text: t }) => {
            name.as_slice() == n.as_slice() && text.as_slice() == t.as_slice()
        }
        (Op::Fetch { name }, Op::Fetch { name: n }) => name.as_slice() == n.as_slice(),
        (Op::Lend { client }, Op::Lend { client: c }) => client.0 == c.0,
        (Op::Extra { code, text }, Op::Extra { code: c, text: t }) => {
            *code == *c && text.as_slice() == t.as_slice()
        }
        _ => false,
    }
}

/// Whether a request that was served with this reply has this answer.
pub fn is_answer_of(answer: &Answer, reply: &Reply) -> bool
    ensures { result ≡ is_answer_of answer.now reply.now }
{
    match (answer, reply) {
        (Answer::Done, Reply::Done) => true,
        (Answer::Value { text }, Reply::Value { text: t }) => text.as_slice() == t.as_slice(),
        (Answer::Left { ticks }, Reply::Left { ticks: t }) => *ticks == *t,
        (Answer::Names { list }, Reply::Names { list: l }) => *list == *l,
        (Answer::Notes { list }, Reply::Notes { list: l }) => *list == *l,
        (Answer::Busy { holder }, Reply::Busy { holder: h }) => *holder == *h,
        (Answer::Absent, Reply::Absent) => true,
        (Answer::TooMany, Reply::TooMany) => true,
        (Answer::TooLong, Reply::TooLong) => true,
        _ => false,
    }
}
