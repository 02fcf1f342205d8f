//! The clients of a node, in a world of one node.
ghost use Rattle.std.specs.Prelude.{ℕ, List, Option};
ghost use Rattle.qs_base.specs.declared.identifiers.ClientNo.{ClientNo};
ghost use Rattle.qs_cell_chronicle.specs.Carried.{Commands};
ghost use Rattle.qs_client.specs.declared.cell.ClientCell.{ClientCell};
ghost use Rattle.qs_book_journal.specs.declared.script_line.ScriptLine.{ScriptLine};
ghost use Rattle.qs_link.specs.declared.ends.NodeEnds.{NodeEnds};
ghost use Rattle.qs_world_one.specs.Clients.{Place};
ghost use Rattle.qs_world_one.specs.Showing.{AnswersGo, CommandComes, CommandHanded, RiseHands, StopHandsBack};
ghost use Rattle.qs_world_one.specs.Turns.{AnswersCarried, ClientTurns, CommandsCarried};
ghost use Rattle.qs_node_step.specs.declared.event.ClientAnswer.{ClientAnswer};
ghost use Rattle.qs_world.specs.World.{Client};

/// As lanes are carried and as a client has its turn, the world's client shows where its line stands, and stays as it is.
pub fn clients_stay_shown()
    ensures commands { (inc : ℕ) (now : Option ℕ) (p : Place) (shown : Client) → CommandsCarried inc now p shown }
    ensures answers { (inc : ℕ) (now : Option ℕ) (p : Place) (shown : Client) → AnswersCarried inc now p shown }
    ensures turns { (inc : ℕ) (now : Option ℕ) (p : Place) (shown : Client) → ClientTurns inc now p shown }
{}

/// A command that is due is the next that the world's client hands over. As it comes, as answers go out, and as the node stops and starts again, the
/// world's clients go on so that each shows where its line stands.
pub fn clients_go_on()
    ensures handed { (inc : ℕ) (commands : Commands) (ends : List NodeEnds) (clients : ℕ → Client) (line : ScriptLine) (client : ClientCell) → CommandHanded inc commands ends clients line client }
    ensures comes { (inc : ℕ) (commands : Commands) (ends : List NodeEnds) (clients : ℕ → Client) (line : ScriptLine) (from : ClientNo) (client : ClientCell) → CommandComes inc commands ends clients line from client }
    ensures answers { (inc : ℕ) (now : Option ℕ) (commands : Commands) (ends : List NodeEnds) (clients : ℕ → Client) (said : List ClientAnswer) (client : ClientCell) → AnswersGo inc now commands ends clients said client }
    ensures stops { (inc : ℕ) (now : Option ℕ) (commands : Commands) (ends : List NodeEnds) (clients : ℕ → Client) (client : ClientCell) → StopHandsBack inc now commands ends clients client }
    ensures rises { (inc : ℕ) (commands : Commands) (ends : List NodeEnds) (clients : ℕ → Client) (client : ClientCell) → RiseHands inc commands ends clients client }
{}
