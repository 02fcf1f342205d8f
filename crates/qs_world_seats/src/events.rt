//! What a cell does goes on in the world.
ghost use Rattle.std.specs.Prelude.{ℕ, List};
ghost use Rattle.qs_cell.specs.declared.running.Running.{Running};
ghost use Rattle.qs_cell.specs.declared.stopped.Stopped.{Stopped};
ghost use Rattle.qs_cell_chronicle.specs.declared.occasion.Occasion.{Occasion};
ghost use Rattle.qs_cell_peers.specs.Sessions.{SessionsValue};
ghost use Rattle.qs_node_step.specs.declared.event.ClientAnswer.{ClientAnswer};
ghost use Rattle.qs_packet.specs.declared.packet.Packet.{Packet};
ghost use Rattle.qs_world.specs.World.{Opening};
ghost use Rattle.qs_world_packets.specs.PacketWorld.{PacketWorld};
ghost use Rattle.qs_world_seats.specs.Events.{AsideGoesOn, AsideReplacedGoesOn, CutGoesOn, FollowedGoesOn, ReplacedGoesOn, WholeGoesOn};

use qs_disk::Disk;
use qs_ops::Server;

/// Where a cell's node is up in the world, each outcome of an event leads on to a world that shows the cell after it, and what the cell tells then is of
/// a local run there: a whole step; a step, and a stop behind it; a stop in place of it; and a step that is cut off, with its batch kept or lost.
pub fn events_go_on_in_the_world<D: Disk, F: Server, X: Server>()
    ensures whole { (o : Opening) (n size : ℕ) (occasion : Occasion) (sessions : SessionsValue) (old new : Running D F X) (said : List ClientAnswer) (world : PacketWorld) → WholeGoesOn o n size occasion sessions old new said world }
    ensures followed { (o : Opening) (n size : ℕ) (occasion : Occasion) (sessions : SessionsValue) (old : Running D F X) (new : Stopped D) (said : List ClientAnswer) (world : PacketWorld) → FollowedGoesOn o n size occasion sessions old new said world }
    ensures replaced { (o : Opening) (n size : ℕ) (occasion : Occasion) (sessions : SessionsValue) (old : Running D F X) (new : Stopped D) (world : PacketWorld) → ReplacedGoesOn o n size occasion sessions old new world }
    ensures cut { (o : Opening) (n : ℕ) (own : D → ℕ) (size : ℕ) (occasion : Occasion) (sessions : SessionsValue) (old : Running D F X) (new : Stopped D) (world : PacketWorld) → CutGoesOn o n own size occasion sessions old new world }
{}

/// And so does a packet that changes its session at most: the node takes it, or meets the peer whose first packet it is; or a crash stands in place of it.
pub fn packets_aside_go_on_in_the_world<D: Disk, F: Server, X: Server>()
    ensures aside { (o : Opening) (n : ℕ) (packet : Packet) (sessions : SessionsValue) (old new : Running D F X) (world : PacketWorld) → AsideGoesOn o n packet sessions old new world }
    ensures replaced { (o : Opening) (n : ℕ) (packet : Packet) (sessions : SessionsValue) (old : Running D F X) (new : Stopped D) (world : PacketWorld) → AsideReplacedGoesOn o n packet sessions old new world }
{}
