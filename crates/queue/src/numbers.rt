// What a row of numbers does besides.
ghost use Rattle.std.specs.Prelude.{◌≡◌, cond, get_or};
ghost use Rattle.queue.specs.Items.{items_in, pushed};

use crate::{Cell, Row};

impl<C: Cell, const N: usize> Row<C, N> {
    // The row with one more number at its end, or as it was where it is full, or where no cell can hold the number.
    pub fn push(self, x: u32) -> Row<C, N>
        ensures { items_in C.NONE result ≡ cond (C.fits x) (pushed N (C.holding x) (items_in C.NONE self)) (items_in C.NONE self) }
    {
        match C::holding(x) {
            Some(cell) => self.append(cell),
            None => self,
        }
    }

    // The number at the place k, counted from 0, and 0 past the end.
    // 0 and no Option past the end, as was promised; `get` has the Option.
    pub fn item(self, k: usize) -> u32
        ensures { result ≡ C.number (get_or (items_in C.NONE self) k C.NONE) }
    {
        match self.get(k) {
            Some(cell) => cell.number(),
            None => 0,
        }
    }
}
