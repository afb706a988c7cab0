// What the last indices of batches do besides.
ghost use Rattle.std.specs.Prelude.{◌≡◌, ◌&&◌, leb, length};
ghost use Rattle.queue.specs.Items.{batches_of, fresh_batches, kept_above};
ghost use Rattle.lists.specs.All.{all, held_in};

use crate::{Batches, cells};

impl Batches {
    // No batches, as `Queue::FRESH` says.
    pub const FRESH: Batches = Batches {
        cells: [0; 8],
        len: 0,
    };

    // No batches, as `Queue::fresh` says.
    pub fn fresh() -> Batches
        ensures { result ≡ fresh_batches }
    {
        Batches::FRESH
    }

    // The batches that end above x, in order, or as they were where the length is above 8.
    pub fn above(self, x: u32) -> Batches
        ensures { batches_of result ≡ kept_above 8 x (batches_of self) }
    {
        if 8 < self.len {
            return self;
        }
        let mut cells = self.cells;
        let len = cells::keep_above(&mut cells, self.len, x);
        Batches { cells, len }
    }

    // Whether the length is at most 8 and every last index is at most l.
    pub fn within(self, l: u32) -> bool
        ensures { result ≡ (leb (length (batches_of self)) 8 && all (held_in l) (batches_of self)) }
    {
        self.len <= 8 && self.cells[..self.len].iter().all(|&end| end <= l)
    }
}
