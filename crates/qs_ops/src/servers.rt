//! The servers of a node by number, as identifiers, logs and histories have them.

use qs_base::ServerNo;

pub const FILES: ServerNo = ServerNo(0);

pub const AUDIT: ServerNo = ServerNo(1);

pub const NAMES: ServerNo = ServerNo(2);

pub const TIMERS: ServerNo = ServerNo(3);

pub const WINDOWS: ServerNo = ServerNo(4);

pub const SCRATCH: ServerNo = ServerNo(5);
/// The further server.
pub const EXTRA: ServerNo = ServerNo(6);
/// Client k as a member of a transaction that was lent to it has this number and k.
pub const FIRST_CLIENT: ServerNo = ServerNo(32);
