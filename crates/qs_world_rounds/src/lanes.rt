//! What stands in the lanes between the node and its clients is carried to their ends.
ghost use Rattle.std.specs.Prelude.{◌≡◌, length, OnOk};
ghost use Rattle.qs_cell.specs.Joined.{StayJoined};
ghost use Rattle.qs_world_rounds.specs.Lanes.{IsJoined, AllJoined};
ghost use Rattle.qs_world_rounds.specs.Rounds.{CarriesAll, CarriesBoth, IsSameStart};

use qs_base::NoMemory;
use qs_cell::NodeCell;
use qs_client::ClientCell;
use qs_disk::Disk;

/// What stands in the lanes between the node and these clients is carried into the inboxes of its receivers. After `NoMemory`,
/// which comes where memory was refused, a front was carried, and nothing is lost.
pub fn carry_all<D: Disk>(
    node: &mut NodeCell<D>,
    clients: &mut Vec<ClientCell>,
) -> Result<(), NoMemory>
    requires each { AllJoined node.old.seat.ends clients.old.items }
    ensures carries { OnOk result (CarriesAll node.old node.new clients.old.items clients.new.items) }
    ensures each { AllJoined node.new.seat.ends clients.new.items }
    ensures count { length clients.new.items ≡ length clients.old.items }
    ensures node { node.new.seat.node ≡ node.old.seat.node }
    ensures links { node.new.links ≡ node.old.links }
    ensures start { IsSameStart node.old node.new }
{
    carry_each(node, clients.as_mut_slice())
}

fn carry_each<D: Disk>(node: &mut NodeCell<D>, clients: &mut [ClientCell]) -> Result<(), NoMemory>
    requires each { AllJoined node.old.seat.ends clients.old }
    ensures carries { OnOk result (CarriesAll node.old node.new clients.old clients.new) }
    ensures each { AllJoined node.new.seat.ends clients.new }
    ensures joined { StayJoined node.old.seat.ends node.new.seat.ends }
    ensures node { node.new.seat.node ≡ node.old.seat.node }
    ensures links { node.new.links ≡ node.old.links }
    ensures start { IsSameStart node.old node.new }
{
    match clients.split_first_mut() {
        None => Ok(()),
        Some((client, clients)) => {
            carry_both(node, client)?;
            carry_each(node, clients)
        }
    }
}

/// What stands in the two lanes between the node and the client is carried.
fn carry_both<D: Disk>(node: &mut NodeCell<D>, client: &mut ClientCell) -> Result<(), NoMemory>
    requires { IsJoined node.old.seat.ends client.old }
    ensures carries { OnOk result (CarriesBoth node.old node.new client.old client.new) }
    ensures here { IsJoined node.new.seat.ends client.new }
    ensures joined { StayJoined node.old.seat.ends node.new.seat.ends }
    ensures node { node.new.seat.node ≡ node.old.seat.node }
    ensures links { node.new.links ≡ node.old.links }
    ensures start { IsSameStart node.old node.new }
{
    let number = client.client();
    node.carry_commands(number, client.commands())?;
    node.carry_answers(number, client.answers())?;
    Ok(())
}
