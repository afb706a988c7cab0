// What every row does, whatever its items are.
ghost use Rattle.std.specs.Prelude.{◌≡◌, [], length, get_or, slice_get};
ghost use Rattle.queue.specs.Items.{items_in, fresh_row, pushed, skipped};

use crate::{Item, Row};

impl<T: Item, const N: usize> Row<T, N> {
    // A row without items.
    pub fn new() -> Row<T, N>
        ensures { result ≡ fresh_row N T.NONE }
    {
        Row {
            cells: [T::NONE; N],
            len: 0,
        }
    }

    // The row with one more item at its end, or as it was where it is full.
    pub fn append(self, item: T) -> Row<T, N>
        ensures { items_in T.NONE result ≡ pushed N item (items_in T.NONE self) }
    {
        if N <= self.len {
            return self;
        }
        let mut row = self;
        row.cells[row.len] = item;
        row.len += 1;
        row
    }

    // The row without its first k items, or as it was where its length is above N.
    pub fn skip(self, k: usize) -> Row<T, N>
        ensures { items_in T.NONE result ≡ skipped N k (items_in T.NONE self) }
    {
        if N < self.len {
            return self;
        }
        let gone = k.min(self.len);
        let mut cells = self.cells;
        cells.copy_within(gone..self.len, 0);
        Row {
            cells,
            len: self.len - gone,
        }
    }

    // The row with no item in it.
    pub fn clear(self) -> Row<T, N>
        ensures { items_in T.NONE result ≡ [] }
    {
        Row { len: 0, ..self }
    }

    // What the cell at the place k holds, counted from 0, or a fresh one where there is no such cell.
    fn cell(self, k: usize) -> T
        ensures { result ≡ get_or self.cells k T.NONE }
    {
        self.cells.get(k).copied().unwrap_or(T::NONE)
    }

    // The oldest item, where there is one: what the first cell holds.
    // No Option: what reads the oldest, `take_from` of script, reads the first cell, whatever the length is.
    pub fn first(self) -> T
        ensures { result ≡ get_or self.cells 0 T.NONE }
    {
        self.cell(0)
    }

    // The item at the place k, counted from 0.
    pub fn get(self, k: usize) -> Option<T>
        ensures { result ≡ slice_get (items_in T.NONE self) k }
    {
        if self.len <= k {
            return None;
        }
        Some(self.cell(k))
    }

    // The number of items.
    pub fn size(self) -> usize
        ensures { result ≡ length (items_in T.NONE self) }
    {
        self.len
    }
}
