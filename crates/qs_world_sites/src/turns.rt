//! The order of the actors of a run.
ghost use Rattle.std.specs.Prelude.{◌≡◌, ◌≤◌, ◌++◌, length, IfOk, OnOk};
ghost use Rattle.std.specs.List.{find};
ghost use Rattle.std.specs.Option.{option_copied};
ghost use Rattle.qs_world_rounds.specs.Seats.{seated_below};
ghost use Rattle.qs_world_sites.specs.Seats.{is_seat_of, turn_at, turns_of};

use crate::turn::Turn;
use qs_base::{ClientNo, NoMemory, NodeNo};
use qs_book_script::Seat;
use qs_world_rounds::sits_at;
use std::alloc::Global;

/// No client of a script has a number as great as this.
const CLIENT_COUNT: u8 = 32;

/// The order of the actors of a run: the nodes by number, and then the clients that have a seat, by number. The only error is a
/// refusal of memory.
pub fn turns_of(alloc: Global, nodes: u8, seats: &[Seat]) -> Result<Vec<Turn>, NoMemory>
    ensures { IfOk result (λ turns. turns.items ≡ turns_of nodes seats.now) }
{
    let mut turns = Vec::new(alloc);
    for node in 0..nodes {
        turns.push(Turn {
            site: usize::from(node),
            place: 0,
        })?;
    }
    for client in 0..CLIENT_COUNT {
        add_turn(&mut turns, seats, ClientNo(client))?;
    }
    Ok(turns)
}

/// The client has its turn, if it has a seat.
fn add_turn(turns: &mut Vec<Turn>, seats: &[Seat], client: ClientNo) -> Result<(), NoMemory>
    ensures { OnOk result (turns.new.items ≡ turns.old.items ++ turn_at client (find (is_seat_of client) seats.now) seats.now) }
{
    match find_seat(seats, client) {
        None => Ok(()),
        Some(seat) => {
            turns.push(Turn {
                site: usize::from(seat.node.0),
                place: count_before(seats, seat.node, client) + 1,
            })?;
            Ok(())
        }
    }
}

fn find_seat(seats: &[Seat], client: ClientNo) -> Option<&Seat>
    ensures { option_copied result ≡ find (is_seat_of client) seats.now }
{
    seats.iter().find(|seat| seat.client == client)
}

/// How many clients with lower numbers have a seat at the node.
fn count_before(seats: &[Seat], node: NodeNo, client: ClientNo) -> usize
    ensures count { result ≡ length (seated_below node seats.now client.0) }
    ensures few { result ≤ client.0 }
{
    let mut count = 0;
    for number in 0..client.0 {
        if sits_at(seats, node, ClientNo(number)) {
            count += 1;
        }
    }
    count
}
