//! What holds of sessions and of the channels that they make, over every run of the network.
ghost use Rattle.std.specs.Prelude.{◌≡◌, ◌≢◌, ◌↔◌, ◌≤◌, ℕ, Bool, true, false, List, []};
ghost use Rattle.qs_session_channels.specs.End.{End, Packet, Answer, answer, Answers, fresh, received, tick_packets};
ghost use Rattle.qs_session_channels.specs.Network.{Network, Event, Can, Run, start};
ghost use Rattle.qs_session_channels.specs.Channels.{Channels, Move, Hand, May, MovesOn, IsNext, moved, opening};
ghost use Rattle.qs_session_channels.specs.Shown.{Shows, Goes, run_moves};
ghost use Rattle.qs_session_channels.specs.Laws.{Lasts, IsOrdered, HasMet};
ghost use Rattle.qs_session_channels.specs.Numbered.{Numbered, IsNumberedNext, BearsNext};
ghost use Rattle.qs_session_channels.specs.Counts.{Numbers, Counted, IsThere, counted, none_sent};
ghost use Rattle.qs_session_channels.specs.Streams.{AllSaid, says, SaysWell, HearsWell, NoneWaits, IsDirect, IsStream, posted_of, handed_of};
ghost use Rattle.qs_session_channels.specs.Rows;

/// Where each answer is given.
pub fn answers<M>()
    ensures { (e : End M) (p : Packet M) (a : Answer M) → (answer e p ≡ a) ↔ Answers e p a }
{}

/// Nine packets, one after the other, and their answers.
pub fn rows()
    ensures { Rows.answers (fresh 1) Rows.taken ≡ Rows.given }
{}

/// Each event of the network is its moves of the channels.
pub fn each_event<M>()
    ensures { (hello : M) (e : Event M) (w : Network M) (c : Channels M) → Shows w c → Can e w → Goes hello e w c }
{}

/// Every run of the network, whatever is lost, repeated and held in it, is a run of ordered channels, so what was handed up between two incarnations is a prefix of what was sent, in order, each once.
pub fn every_run<M>()
    ensures runs { (hello : M) (inc : ℕ → ℕ) (es : List (Event M)) (w : Network M) → Run hello (start inc) es w → (c : Channels M) × MovesOn (opening inc) (run_moves hello es (start inc)) c × Shows w c }
    ensures ordered { (w : Network M) (c : Channels M) → Shows w c → IsOrdered c }
{}

/// After every run, where an end has met the present incarnation of its peer, that one knows this incarnation, so no greeting is owed to it.
pub fn meets<M>()
    ensures { (hello : M) (inc : ℕ → ℕ) (es : List (Event M)) (w : Network M) → Run hello (start inc) es w → HasMet w }
{}

/// Nothing crosses incarnations, from any moment to a later one.
pub fn nothing_crosses<M>()
    ensures { (ms : List (Move M)) (c d : Channels M) → MovesOn c ms d → Lasts c d }
{}

/// An end that has not met its peer, or that owes an acknowledgement, sends something at its next tick; and whoever takes a greeting owes one.
pub fn greets<M>()
    ensures unmet { (hello : M) (e : End M) (stamp : ℕ) → e.met ≡ false → tick_packets hello e stamp ≢ [] }
    ensures owed { (hello : M) (e : End M) (stamp : ℕ) → e.owed ≡ true → tick_packets hello e stamp ≢ [] }
    ensures answered { (e : End M) (p : Packet M) → 1 ≤ e.mine → p.to_inc ≡ 0 → e.known ≤ p.inc → (received e p).owed ≡ true }
    ensures met { (e : End M) (p : Packet M) → p.to_inc ≡ e.mine → e.known ≤ p.inc → (received e p).met ≡ true }
{}

/// The messages of a kind are counted as a machine of numbers alone counts them, and the next one is handed up only where it was posted.
pub fn numbers<M>()
    ensures opening { (is : M → Bool) (inc : ℕ → ℕ) → Counted is (opening inc) none_sent }
    ensures there { (is : M → Bool) (m : Move M) (c : Channels M) (u : Numbers) → Counted is c u → May m c → IsThere is m c u }
    ensures still { (is : M → Bool) (m : Move M) (c : Channels M) (u : Numbers) → Counted is c u → May m c → Counted is (moved m c) (counted is m c u) }
{}

/// Where a node gives each message of a kind the next number, the next one that is handed up bears the next number.
pub fn bears<M>()
    ensures opening { (is : M → Bool) (number : M → ℕ) (inc : ℕ → ℕ) → Numbered is number (opening inc) none_sent }
    ensures next { (is : M → Bool) (number : M → ℕ) (m : Move M) (c : Channels M) (u : Numbers) → Numbered is number c u → May m c → BearsNext is number m c u }
    ensures still { (is : M → Bool) (number : M → ℕ) (m : Move M) (w : Network M) (c : Channels M) (u : Numbers) → Shows w c → Counted is c u → Numbered is number c u → May m c → IsNumberedNext is number m c u → Numbered is number (moved m c) (counted is m c u) }
{}

/// The messages of a kind of which none waits pass as through ordered channels of their own: each move appends what it posts and hands up of it, and what is handed up is the next one that was posted.
pub fn streams<M>()
    ensures opening { (is : M → Bool) (inc : ℕ → ℕ) → NoneWaits is (opening inc) }
    ensures direct { (is : M → Bool) (m : Move M) (c : Channels M) → NoneWaits is c → May m c → IsDirect is m → NoneWaits is (moved m c) }
    ensures appends { (is : M → Bool) (m : Move M) (c : Channels M) → NoneWaits is c → May m c → IsStream is m c (moved m c) }
    ensures next { (is : M → Bool) (n m : ℕ) (x : M) (c : Channels M) → May (Hand n m x) c → is x ≡ true → IsNext (posted_of is c m n (c.peer n m) (c.inc n)) (handed_of is c m n (c.peer n m) (c.inc n)) x }
{}

/// What holds of each message that is sent, by its sender's node and incarnation and by its receiver, holds of each that is handed up.
pub fn said<M>()
    ensures opening { (p : ℕ → ℕ → ℕ → M → Bool) (inc : ℕ → ℕ) → AllSaid (says p) (opening inc) }
    ensures hears { (p : ℕ → ℕ → ℕ → M → Bool) (m : Move M) (c : Channels M) → AllSaid (says p) c → May m c → HearsWell (says p) m c }
    ensures still { (p : ℕ → ℕ → ℕ → M → Bool) (m : Move M) (c : Channels M) → AllSaid (says p) c → May m c → SaysWell (says p) m c → AllSaid (says p) (moved m c) }
    ensures weaker { (p q : ℕ → ℕ → ℕ → M → Bool) (c : Channels M) → AllSaid (says p) c → ((n i m : ℕ) (x : M) → says p n i m x → says q n i m x) → AllSaid (says q) c }
{}
