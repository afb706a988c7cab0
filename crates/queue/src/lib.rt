// Bounded rows by value: items in order in an array of a fixed size. Queues of up to 128 indices in cells of 16 bits, and up to 8 last
// indices of batches, are such rows.
#![tactic(auto)]

ghost use Rattle.std.specs.Prelude.{ℕ, ◌≡◌, refl, Bool, true, Option, Some, None, cond};
ghost use Rattle.queue.specs.Items.{fits_cell};

mod cells;
mod ends;
mod indices;
mod items;
mod numbers;

// Items, oldest first: the cells below the length. What stands past the length is no item. An array and a length: document 01 names the
// arrays of a queue, and no library here takes from a heap.
#[derive(Clone, Copy)]
pub struct Row<T, const N: usize> {
    pub cells: [T; N],
    pub len: usize,
}

// Indices, oldest first.
pub type Queue = Row<u16, 128>;

// The last index of each unacknowledged batch, oldest first.
pub type Batches = Row<u32, 8>;

// What a row has in its cells.
pub trait Item: Copy {
    ghost NONE: { Self };

    // What stands in a cell of a fresh row.
    const NONE: Self;
}

// A cell for numbers: which of them it can hold, what it then holds, and the number that it holds.
pub trait Cell: Item {
    ghost fits: { ℕ → Bool };

    ghost holding: { ℕ → Self };

    ghost number: { Self → ℕ };

    // The cell that holds the number, where one can.
    fn holding(x: u32) -> Option<Self>
        ensures { result ≡ cond (fits x) (Some (holding x)) None };

    // The number that the cell holds.
    fn number(self) -> u32
        ensures { result ≡ number self };

    ghost none_is_zero: { number Self.NONE ≡ 0 };
}

impl Item for u16 {
    ghost NONE = { 0 };

    const NONE: u16 = 0;
}

impl Item for u32 {
    ghost NONE = { 0 };

    const NONE: u32 = 0;
}

impl Cell for u16 {
    ghost fits = { fits_cell };

    ghost holding = { λ x. x };

    ghost number = { λ x. x };

    fn holding(x: u32) -> Option<u16> {
        u16::try_from(x).ok()
    }

    fn number(self) -> u32 {
        u32::from(self)
    }

    ghost none_is_zero = { refl };
}

impl Cell for u32 {
    ghost fits = { λ x. true };

    ghost holding = { λ x. x };

    ghost number = { λ x. x };

    fn holding(x: u32) -> Option<u32> {
        Some(x)
    }

    fn number(self) -> u32 {
        self
    }

    ghost none_is_zero = { refl };
}
