// The domains with their rows and the queue: the rows say what the domains say, and the queue has room for all that can still be removed.
ghost use Rattle.domains.specs.Queue.{Good};

use crate::queue::{MAX_QUEUE, place_of};
use crate::{DOMAINS, Place, ROWS};

#[derive(Clone, Copy)]
pub struct Store {
    pub domains: [u8; DOMAINS],
    pub rows: [u32; ROWS],
    pub queue: [u16; MAX_QUEUE],
    ghost good: { Good domains rows queue },
}

// Nothing is left of a pair.
#[derive(Clone, Copy)]
pub struct Conflict;

impl Store {
    ghost use Rattle.std.specs.Prelude.{◌≡◌, ◌≤◌, ◌<◌, ◌^◌, replicate, slice_index};
    ghost use Rattle.prelude.specs.Names.{set};
    ghost use Rattle.model.specs.Domains.{full_domains};
    ghost use Rattle.domains.specs.Rows.{Laid, row_at};
    ghost use Rattle.domains.specs.Queue.{no_changes, pair_code, queue_end};

    // Nothing is removed yet.
    pub fn full() -> Self
        ensures domains { result.domains ≡ full_domains }
        ensures rows { result.rows ≡ replicate 30 0 }
        ensures queue { result.queue ≡ no_changes (replicate 946 0) }
    {
        let mut queue = [0; MAX_QUEUE];
        queue[0] = 1;
        Store {
            domains: [7; DOMAINS],
            rows: [0; ROWS],
            queue,
        }
    }

    // The row of an item on an axis.
    pub fn row(&self, a: usize, u: usize) -> u32
        requires { (a < 3) × (u < 10) }
        ensures is { result ≡ row_at self.now.rows a u }
        ensures small { result < 2 ^ 30 }
    {
        self.rows[a * 10 + u]
    }

    // Where the queue ends.
    pub fn queue_end(&self) -> usize
        ensures { result ≡ queue_end self.now.queue }
    {
        usize::from(self.queue[0])
    }

    // The pair at a place of the queue.
    pub fn changed(&self, at: usize) -> Place
        requires { (1 ≤ at) × (at < queue_end self.now.queue) }
        ensures { pair_code result.axis result.u result.v ≡ slice_index self.now.queue at }
    {
        place_of(self.queue[at])
    }

    // The queue is emptied.
    pub fn clear_queue(&mut self)
        ensures domains { self.new.domains ≡ self.old.domains }
        ensures rows { self.new.rows ≡ self.old.rows }
        ensures queue { self.new.queue ≡ no_changes self.old.queue }
    {
        self.queue[0] = 1;
    }

    // Domains and rows are set back to what they were, and the queue is emptied.
    pub fn restore(&mut self, domains: &[u8; DOMAINS], rows: &[u32; ROWS])
        requires { Laid domains.now rows.now }
        ensures domains { self.new.domains ≡ domains.now }
        ensures rows { self.new.rows ≡ rows.now }
        ensures queue { self.new.queue ≡ no_changes self.old.queue }
    {
        self.clear_queue();
        self.domains = *domains;
        self.rows = *rows;
    }
}
