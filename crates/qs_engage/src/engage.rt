//! The superior of a node, and the counts of requests towards each other node.
ghost use Rattle.std.specs.Prelude.{◌≡◌, fold};
ghost use Rattle.qs_engage.specs.Engage.{peer_of, new_engage, requested, engaged, sent, next_sent, covered, is_passive, released, release_of, restarted, is_open_to, has_sent, with_peer, with_last, is_covered, is_idle_with, uncovered, sent_to};
ghost use Rattle.qs_engage.specs.Nodes.{put_where};

use crate::nodes::{NODE_COUNT, Nodes, every_node};
use qs_base::NodeNo;

/// What went to and came from another node.
#[derive(Clone, Copy)]
pub struct PeerPart {
    /// How many requests were sent to it.
    pub sent: u32,
    /// Up to which number they are covered.
    pub covered: u32,
    /// The number of the last request that came from it in its present incarnation.
    pub last: u32,
}

/// What a request makes of its sender.
#[derive(Clone, Copy, PartialEq, Eq)]
pub enum Engaged {
    Superior,
    Elsewhere,
}

/// The engagement of a node in one transaction. No call takes memory.
#[derive(Clone, Copy)]
pub struct Engage {
    /// The transaction began here.
    pub home: bool,
    /// The node that this one answers to.
    pub superior: Option<NodeNo>,
    /// The last one that it answered to.
    pub last_superior: Option<NodeNo>,
    /// What went to and came from each node, by number.
    pub peers: [PeerPart; 16],
}

impl PeerPart {
    /// Nothing went or came.
    pub const NONE: PeerPart = PeerPart {
        sent: 0,
        covered: 0,
        last: 0,
    };

    /// Every request that was sent is covered.
    fn is_covered(&self) -> bool
        ensures { result ≡ is_covered self.now }
    {
        self.sent <= self.covered
    }
}

impl Engage {
    /// Nothing was sent and nothing came.
    pub fn new(home: bool) -> Engage
        ensures { result ≡ new_engage home }
    {
        Engage {
            home,
            superior: None,
            last_superior: None,
            peers: [PeerPart::NONE; 16],
        }
    }

    /// What went to and came from that node.
    fn peer(&self, peer: NodeNo) -> PeerPart
        ensures { result ≡ peer_of self.now peer }
    {
        match self.peers.get(usize::from(peer.0)) {
            Some(part) => *part,
            None => PeerPart::NONE,
        }
    }

    /// That is changed; nothing for a node that no run has.
    fn put_peer(&mut self, peer: NodeNo, part: PeerPart)
        ensures { self.new ≡ with_peer peer part self.old }
    {
        let place = usize::from(peer.0);
        if place < NODE_COUNT {
            self.peers[place] = part;
        }
    }

    fn set_last(&mut self, peer: NodeNo, number: u32)
        ensures { self.new ≡ with_last peer number self.old }
    {
        let part = self.peer(peer);
        self.put_peer(
            peer,
            PeerPart {
                last: number,
                ..part
            },
        );
    }

    /// A request with that number came: its sender is, becomes or is not the superior.
    pub fn requested(&mut self, from: NodeNo, number: u32) -> Engaged
        ensures state { self.new ≡ requested from number self.old }
        ensures answer { result ≡ engaged from self.old }
    {
        self.set_last(from, number);
        if self.home {
            return Engaged::Elsewhere;
        }
        let superior = self.superior;
        match superior {
            None => {
                self.superior = Some(from);
                self.last_superior = Some(from);
                Engaged::Superior
            }
            Some(superior) if superior == from => Engaged::Superior,
            Some(_) => Engaged::Elsewhere,
        }
    }

    /// The number of the next request to that node, which counts as sent; `None` exactly where
    /// 4,294,967,295 were sent.
    pub fn sent(&mut self, to: NodeNo) -> Option<u32>
        ensures number { result ≡ next_sent to self.old }
        ensures state { self.new ≡ sent to self.old }
    {
        let part = self.peer(to);
        let number = part.sent.checked_add(1)?;
        self.put_peer(
            to,
            PeerPart {
                sent: number,
                ..part
            },
        );
        Some(number)
    }

    /// That node answers for the requests up to this number.
    pub fn covered(&mut self, from: NodeNo, up_to: u32)
        ensures { self.new ≡ covered from up_to self.old }
    {
        let part = self.peer(from);
        self.put_peer(
            from,
            PeerPart {
                covered: part.covered.max(up_to),
                ..part
            },
        );
    }

    /// Every request that was sent is covered.
    pub fn passive(&self) -> bool
        ensures { result ≡ is_passive self.now }
    {
        self.peers.iter().all(|part| part.is_covered())
    }

    /// The node that this one answers to.
    pub fn superior(&self) -> Option<NodeNo>
        ensures { result ≡ self.now.superior }
    {
        self.superior
    }

    /// The superior, and the number of its last request.
    pub fn to_release(&self) -> Option<(NodeNo, u32)>
        ensures { result ≡ release_of self.now }
    {
        let superior = self.superior?;
        Some((superior, self.peer(superior).last))
    }

    /// It is answered, and there is none then: who it was, and the number of its last request.
    pub fn release(&mut self) -> Option<(NodeNo, u32)>
        ensures answer { result ≡ release_of self.old }
        ensures state { self.new ≡ released self.old }
    {
        let superior = self.superior?;
        self.superior = None;
        Some((superior, self.peer(superior).last))
    }

    /// That node restarted, and counts anew.
    pub fn restarted(&mut self, peer: NodeNo)
        ensures { self.new ≡ restarted peer self.old }
    {
        self.set_last(peer, 0);
    }

    /// A request that was sent to it is not covered.
    pub fn open_to(&self, peer: NodeNo) -> bool
        ensures { result ≡ is_open_to peer self.now }
    {
        let part = self.peer(peer);
        part.covered < part.sent
    }

    /// A request was sent to it.
    pub fn has_sent(&self, peer: NodeNo) -> bool
        ensures { result ≡ has_sent peer self.now }
    {
        self.peer(peer).sent > 0
    }

    /// Whether nothing was sent to it, covered by it, or came from it in its present incarnation.
    pub fn is_idle_with(&self, peer: NodeNo) -> bool
        ensures { result ≡ is_idle_with peer self.now }
    {
        let part = self.peer(peer);
        (part.sent == 0 && part.covered == 0) && part.last == 0
    }

    /// The nodes to which a request was sent that is not covered.
    pub fn uncovered(&self) -> Nodes
        ensures { result ≡ uncovered self.now }
    {
        let mut nodes = Nodes::NONE;
        self.put_uncovered(&mut nodes, every_node());
        nodes
    }

    fn put_uncovered(&self, nodes: &mut Nodes, peers: &[NodeNo])
        ensures { nodes.new ≡ fold (put_where (λ peer. is_open_to peer self.now)) nodes.old peers.now }
    {
        for peer in peers {
            nodes.put_if(self.open_to(*peer), *peer);
        }
    }

    /// The nodes to which a request was sent.
    pub fn sent_to(&self) -> Nodes
        ensures { result ≡ sent_to self.now }
    {
        let mut nodes = Nodes::NONE;
        self.put_sent(&mut nodes, every_node());
        nodes
    }

    fn put_sent(&self, nodes: &mut Nodes, peers: &[NodeNo])
        ensures { nodes.new ≡ fold (put_where (λ peer. has_sent peer self.now)) nodes.old peers.now }
    {
        for peer in peers {
            nodes.put_if(self.has_sent(*peer), *peer);
        }
    }

    /// The last node that this one answered to; `None` where there was never one.
    pub fn last_superior(&self) -> Option<NodeNo>
        ensures { result ≡ self.now.last_superior }
    {
        self.last_superior
    }
}
