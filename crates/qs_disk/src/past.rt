//! The moments of a disk in memory so far, which only proofs read.
ghost use Rattle.std.specs.Prelude.{◌≡◌, List, [], ◌∷◌, ◌++◌};

use crate::cells::Cells;
use http_server::Log;
use std::marker::Model;

// It takes no memory.
#[derive(Drop)]
pub struct Past {
    log: Log<Vec<u8>, Vec<bool>>,
}

impl Model for Past {
    ghost use Rattle.std.specs.Prelude.{List, map};
    ghost use Rattle.qs_disk.specs.Disk.{Frame};

    ghost Value = { List Frame };

    ghost view = { λ p. map (λ f. record { stable = f.0.items; loose = f.1.items }) p.log.items };
}

impl Past {
    // No moment.
    pub fn new() -> Past
        ensures { result ≡ [] }
    {
        Past { log: Log::new() }
    }

    // Adds the moment that is.
    pub fn note(&mut self, cells: &Cells)
        ensures { self.new ≡ self.old ++ cells.now.now ∷ [] }
    {
        self.log = self.log.and(cells.stable(), cells.loose());
    }
}
