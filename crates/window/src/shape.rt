// The shape of one window: its lengths, the indices that it holds, and its queues beside its condition; and what a
// batch limit and a spacing may be.
ghost use Rattle.std.specs.Prelude.{◌≡◌, ◌&&◌, leb, length};
ghost use Rattle.lists.specs.All.{all, held_in};
ghost use Rattle.window.specs.View.{view_of, condition_of};
ghost use Rattle.rules.specs.Shape.{limit_fits, spacing_fits, lengths_fit, window_shape, condition_held, next_fits, end_fits, catch_up_fits, suspended_fits};

use crate::{Condition, Window};
use journal::Index;

// Whether a number is 1 to `most`.
fn up_to(n: u32, most: u32) -> bool
    ensures { result ≡ (leb 1 n && leb n most) }
{
    1 <= n && n <= most
}

// Whether a batch limit is 1 to 32.
pub fn limit_fits(limit: u32) -> bool
    ensures { result ≡ limit_fits limit }
{
    up_to(limit, 32)
}

// Whether a spacing is 1 to 65,535.
pub fn spacing_fits(spacing: u32) -> bool
    ensures { result ≡ spacing_fits spacing }
{
    up_to(spacing, 65535)
}

impl Condition {
    // Whether the indices that a condition carries are at most l, a next is 1 to its end, and an end is at most
    // `current`. By `.0` where the other side, l or 1, is a number and no index.
    fn in_shape(self, l: u32, current: Index) -> bool
        ensures { result ≡ (condition_held l (condition_of self)
            && (next_fits (condition_of self) && end_fits current.0 (condition_of self))) }
    {
        match self {
            Condition::Normal | Condition::Suspended => true,
            Condition::Fetching { next, end } => {
                next.0 <= l && end.0 <= l && (1 <= next.0 && next <= end) && end <= current
            }
            Condition::Completed { end } => end.0 <= l && end <= current,
        }
    }
}

impl Window {
    // Whether the queues hold at most 128 indices each and there are at most 8 unacknowledged batches.
    #[tactic(auto, unfolding(crate::specs::View::view_of))]
    pub fn fits(self) -> bool
        ensures { result ≡ lengths_fit (view_of self) }
    {
        self.normal.size() <= 128 && self.catch_up.size() <= 128 && self.head.batches.size() <= 8
    }

    // Whether the queues suit the condition: a catch-up queue is empty in Normal and not empty in Completed, and in
    // Suspended nothing is queued or unacknowledged.
    #[tactic(auto, unfolding(crate::specs::View::view_of))]
    fn queues_suit(self) -> bool
        ensures { result ≡ (catch_up_fits (view_of self).condition (view_of self).catch_queue
            && suspended_fits (view_of self) (view_of self).condition) }
    {
        match self.head.condition {
            Condition::Normal => self.catch_up.size() == 0,
            Condition::Fetching { .. } => true,
            Condition::Completed { .. } => self.catch_up.size() != 0,
            Condition::Suspended => {
                self.normal.size() == 0
                    && self.catch_up.size() == 0
                    && self.head.batches.size() == 0
            }
        }
    }

    // Whether the acknowledged index, the sent index and the last indices of at most 8 batches are at most l, which is a
    // number of entries and no index.
    #[tactic(auto, unfolding(crate::specs::View::view_of))]
    fn holds(self, l: u32) -> bool
        ensures { result ≡ (leb (view_of self).acked l
            && (leb (view_of self).sent l
            && (leb (length (view_of self).batches) 8 && all (held_in l) (view_of self).batches))) }
    {
        self.head.acked.0 <= l && self.head.sent.0 <= l && self.head.batches.within(l)
    }

    // Whether this window is in shape, with l entries in the journal and `current` the last index read.
    #[tactic(auto, using(crate::proofs::Regrouped::window_shape_regrouped), unfolding(crate::specs::View::view_of))]
    pub fn in_shape(self, l: u32, current: Index) -> bool
        ensures { result ≡ window_shape l current.0 (view_of self) }
    {
        self.normal.within(l)
            && self.catch_up.within(l)
            && self.holds(l)
            && self.head.condition.in_shape(l, current)
            && self.queues_suit()
    }
}
