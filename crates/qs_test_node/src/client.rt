//! A script of two lines: in acts, and in visits.
ghost use Rattle.std.specs.Prelude.{◌≡◌, IfOk};
ghost use Rattle.qs_link.specs.Lane.{IsLane};

use qs_base::{Bytes, ClientNo, List, NoMemory};
use qs_book_journal::{Command, LineAnswer, ScriptLine};
use qs_client::{ClientCell, ClientEnds};
use qs_link::{Draw, Feed, carry, lane};
use qs_ops::Answer;
use std::alloc::Global;
use std::test::Fail;

/// The other ends of a client's lanes.
#[derive(Drop)]
struct Node {
    commands: Draw<ScriptLine>,
    answers: Feed<LineAnswer>,
}

impl Node {
    fn takes(&mut self) -> Option<u32> {
        let line = self.commands.take()?;
        let number = line.line;
        drop(line);
        Some(number)
    }

    fn answer(&mut self, line: u32) {
        let answer = Answer::Done;
        drop(self.answers.put(LineAnswer { line, answer }));
        self.answers.push_all();
    }
}

fn line_of(line: u32, label: Bytes, command: Command) -> ScriptLine {
    ScriptLine {
        client: ClientNo(0),
        line,
        label,
        command,
    }
}

// A begin at line 2 and a commit at line 3.
fn lines(alloc: Global) -> Result<List<ScriptLine>, NoMemory> {
    let mut lines = List::new(alloc);
    let label = Bytes::from_slice(alloc, b"a")?;
    lines.push(line_of(2, label, Command::Begin))?;
    let label = Bytes::from_slice(alloc, b"a")?;
    lines.push(line_of(3, label, Command::Commit))?;
    Ok(lines)
}

fn lanes(alloc: Global) -> Result<(ClientEnds, Node), NoMemory>
    ensures commands { IfOk result (λ ends. IsLane ends.0.commands ends.1.commands) }
    ensures answers { IfOk result (λ ends. IsLane ends.1.answers ends.0.answers) }
{
    let (commands, to_node) = lane(alloc)?;
    let (from_node, answers) = lane(alloc)?;
    let node = Node {
        commands: to_node,
        answers: from_node,
    };
    Ok((ClientEnds { commands, answers }, node))
}

// Clients may be handed to threads.
fn goes_to_a_thread<T: Send>(_value: &T) {}

fn acts(client: &mut ClientCell, node: &mut Node) -> Result<bool, NoMemory>
    requires { client.old.acts ≡ 0 }
{
    let has_sent = client.act()?;
    let has_come = node.takes() == Some(2);
    node.answer(2);
    Ok(has_sent && has_come && client.act()? && client.at() == Some(3))
}

#[test]
fn an_act_sends_and_an_act_takes(rt: HostRuntime) -> Result<(), Fail> {
    let lines = lines(rt.alloc())?;
    let (ends, mut node) = lanes(rt.alloc())?;
    let mut client = ClientCell::new(ClientNo(0), lines, ends);
    goes_to_a_thread(&client);
    let is_right = acts(&mut client, &mut node);
    drop(client);
    drop(node);
    assert!(rt; is_right?);
    Ok(())
}

fn visits(client: &mut ClientCell, node: &mut Node) -> Result<bool, NoMemory> {
    let has_sent = client.visit()?;
    let has_come = node.takes().is_some();
    node.answer(2);
    Ok(has_sent && !has_come && !client.visit()? && client.at() == Some(2))
}

#[test]
fn a_visit_leaves_the_rings_alone(rt: HostRuntime) -> Result<(), Fail> {
    let lines = lines(rt.alloc())?;
    let (ends, mut node) = lanes(rt.alloc())?;
    let mut client = ClientCell::new(ClientNo(0), lines, ends);
    let is_right = visits(&mut client, &mut node);
    drop(client);
    drop(node);
    assert!(rt; is_right?);
    Ok(())
}

// The answer to line 2 is carried, and the visit takes it and sends line 3.
fn visits_on(client: &mut ClientCell, node: &mut Node) -> Result<bool, NoMemory>
    requires commands { IsLane client.old.commands node.old.commands }
    requires answers { IsLane node.old.answers client.old.answers }
{
    let has_sent = client.visit()?;
    let answer = Answer::Done;
    drop(node.answers.put(LineAnswer { line: 2, answer }));
    let is_answered = carry(&mut node.answers, client.answers())? == 1;
    let has_gone_on = client.visit()? && client.at() == Some(3);
    let has_come = carry(client.commands(), &mut node.commands)? == 2;
    Ok(has_sent && is_answered && has_gone_on && has_come)
}

#[test]
fn a_visit_takes_and_sends(rt: HostRuntime) -> Result<(), Fail> {
    let lines = lines(rt.alloc())?;
    let (ends, mut node) = lanes(rt.alloc())?;
    let mut client = ClientCell::new(ClientNo(0), lines, ends);
    let is_right = visits_on(&mut client, &mut node);
    drop(client);
    drop(node);
    assert!(rt; is_right?);
    Ok(())
}
