//! The other nodes of the run, by number.
ghost use Rattle.std.specs.Prelude.{◌≡◌, ◌+◌};
ghost use Rattle.qs_cell_peers.specs.Peers.{comes_to, is_peer, place};

use qs_base::NodeNo;
use qs_packet::Packet;

/// Whether a number is that of another node, where there are so many others.
pub(crate) fn is_other(others: usize, me: NodeNo, number: usize) -> bool
    ensures { result ≡ is_peer (others + 1) me.0 number }
{
    number <= others && number != usize::from(me.0)
}

/// The place of another node among the others, by number.
pub(crate) fn place_of(me: NodeNo, number: usize) -> usize
    ensures { result ≡ place me.0 number }
{
    if number < usize::from(me.0) {
        number
    } else {
        number.saturating_sub(1)
    }
}

/// Whether a packet comes from another node to this one.
pub(crate) fn comes(others: usize, me: NodeNo, packet: &Packet) -> bool
    ensures { result ≡ comes_to (others + 1) me.0 packet.now }
{
    packet.to.0 == me.0 && is_other(others, me, usize::from(packet.from.0))
}
