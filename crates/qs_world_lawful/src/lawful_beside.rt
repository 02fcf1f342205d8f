//! What the machine has beside a node goes on through a whole step, and what the step sends is so.
ghost use Rattle.std.specs.Prelude.{◌≡◌, ℕ, length};
ghost use Rattle.qs_book_machine.specs.Book.{BookValue};
ghost use Rattle.qs_node_step.specs.State.{NodeValue};
ghost use Rattle.qs_node_step.specs.declared.event.Event.{Event};
ghost use Rattle.qs_world_lawful.specs.Amid.{InRun};
ghost use Rattle.qs_world_lawful.specs.GivenStep.{MayStep};
ghost use Rattle.qs_world_lawful.specs.StandingOn.{KeepsBeside};
ghost use Rattle.qs_world_lawful.specs.StepKeeps.{StepKeeps};
ghost use Rattle.qs_world_lawful.specs.StepOn.{StepOn};

/// Each rule of settling, serving, and what waits keep what the machine has beside the node.
pub fn rules_keep_what_is_beside()
    ensures { (stamp : ℕ) (before : BookValue) → InRun before → (size : ℕ) (nodes : ℕ → NodeValue) (n : ℕ) → KeepsBeside stamp before size nodes n }
{}

/// So a whole step is given all that it needs.
pub fn whole_step_is_given()
    ensures { (stamp : ℕ) (before : BookValue) (size : ℕ) (nodes : ℕ → NodeValue) (n : ℕ) (node : NodeValue) (event : Event) (free : ℕ) → StepOn stamp before size nodes n node event free → MayStep stamp before node event free }
{}

/// Its entries are lawful; all that is held of the node before it, beside what the log says of contents, is held of it after it; and each
/// message that it sends says what is so in the machine then, and goes between two nodes of the run: so channels hold what is so, as they
/// did before it.
pub fn whole_step_is_kept()
    ensures { (stamp : ℕ) (before : BookValue) (size : ℕ) (nodes : ℕ → NodeValue) (n : ℕ) (node : NodeValue) (event : Event) (free : ℕ) → StepOn stamp before size nodes n node event free → length before.nodes ≡ size → StepKeeps stamp before size nodes n node event free }
{}
