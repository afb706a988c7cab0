// The loops over cells.
ghost use Rattle.std.specs.Prelude.{◌≡◌, ◌≤◌, length};
ghost use Rattle.lists.specs.Cells.{front};
ghost use Rattle.lists.specs.All.{all, queued_in};
ghost use Rattle.lists.specs.Above.{above};

// Whether every index is from 1 to l, which may be more than a cell holds. It looks at all of them: LLVM then compares eight at a time,
// and with `all`, which stops at the first that is not, one at a time.
pub(crate) fn all_queued(cells: &[u16], l: u32) -> bool
    ensures { result ≡ all (queued_in l) cells.now }
{
    let top = u16::try_from(l).unwrap_or(u16::MAX);
    let mut each = true;
    for &cell in cells {
        each &= 1 <= cell && cell <= top;
    }
    each
}

// Moves those of the first n cells that are above x to the front, in order, and gives how many they are. In place and by index: a
// `filter` that is collected takes from a heap.
pub(crate) fn keep_above(cells: &mut [u32], n: usize, x: u32) -> usize
    requires { n ≤ length cells.old }
    ensures { front 0 result cells.new ≡ above x (front 0 n cells.old) }
{
    let mut to = 0;
    for from in 0..n {
        let y = cells[from];
        if x < y {
            cells[to] = y;
            to += 1;
        }
    }
    to
}
