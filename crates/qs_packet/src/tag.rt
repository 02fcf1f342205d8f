//! The first byte of each message, reply, cause and reason.

pub(crate) const HELLO: u8 = 0;

pub(crate) const REQUEST: u8 = 1;

pub(crate) const ANSWERED: u8 = 2;

pub(crate) const ASK_VOTE: u8 = 3;

pub(crate) const COVERED: u8 = 4;

pub(crate) const VOTED_YES: u8 = 5;

pub(crate) const VOTED_ABORT: u8 = 6;

pub(crate) const TELL: u8 = 7;

pub(crate) const TOLD: u8 = 8;

pub(crate) const INQUIRE: u8 = 9;

/// Of a reply.
pub(crate) const DONE: u8 = 1;

pub(crate) const VALUE: u8 = 2;

pub(crate) const LEFT: u8 = 3;

pub(crate) const NAMES: u8 = 4;

pub(crate) const NOTES: u8 = 5;

pub(crate) const BUSY: u8 = 6;

pub(crate) const ABSENT: u8 = 7;

pub(crate) const TOO_MANY: u8 = 8;

pub(crate) const TOO_LONG: u8 = 9;

/// Of a cause.
pub(crate) const ASKED: u8 = 1;

pub(crate) const VOTED: u8 = 2;

pub(crate) const GONE: u8 = 3;

pub(crate) const HOME: u8 = 4;

pub(crate) const ROOM: u8 = 5;

pub(crate) const OLD: u8 = 6;

/// Of a reason.
pub(crate) const QUOTA: u8 = 1;

pub(crate) const LOG_ROOM: u8 = 2;

pub(crate) const TAKEN: u8 = 3;

pub(crate) const CODE: u8 = 4;

/// Of an outcome.
pub(crate) const ABORT: u8 = 0;

pub(crate) const COMMIT: u8 = 1;
