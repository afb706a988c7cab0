// What queues of indices do besides.
ghost use Rattle.std.specs.Prelude.{◌≡◌, ◌&&◌, leb, length};
ghost use Rattle.queue.specs.Items.{items_of, fresh_queue, fits_cell};
ghost use Rattle.lists.specs.All.{all, queued_in};

use crate::{Cell, Queue, cells};

impl Queue {
    // A fresh queue, an array of 128 zeros as document 01 names it.
    pub const FRESH: Queue = Queue {
        cells: [0; 128],
        len: 0,
    };

    // That queue: what `new` gives of any row, by the array that document 01 names.
    pub fn fresh() -> Queue
        ensures { result ≡ fresh_queue }
    {
        Queue::FRESH
    }

    // Whether a cell can hold the number. Every index of a journal in shape is such a number.
    pub fn fits_cell(x: u32) -> bool
        ensures { result ≡ fits_cell x }
    {
        u16::holding(x).is_some()
    }

    // Whether the length is at most 128 and every index is from 1 to l. Not one method for all cells, beside `within` of batches: compared
    // as numbers of 32 bits, a full queue's cells took twice as long.
    pub fn within(self, l: u32) -> bool
        ensures { result ≡ (leb (length (items_of self)) 128 && all (queued_in l) (items_of self)) }
    {
        // The cells alone: their 256 bytes are copied with fewer instructions than the row's 264.
        let cells = self.cells;
        self.len <= 128 && cells::all_queued(&cells[..self.len], l)
    }
}
