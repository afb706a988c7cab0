// What a host counts: its calls and its batches.
use window::{Answer, Refusal};

// How many calls were made, how many batches were sent, and the papers' number of the first refusal.
// A number: the refusals are of two enums.
#[derive(Clone, Copy, Default)]
pub(crate) struct Tally {
    pub(crate) calls: u64,
    batches: u64,
    pub(crate) refused: Option<u32>,
}

impl Tally {
    // Counts one more call, and its refusal if it is the first.
    pub(crate) fn called<R: Into<u32>>(&mut self, refusal: Option<R>) {
        self.calls = self.calls.wrapping_add(1);
        self.refused = self.refused.or(refusal.map(R::into));
    }

    // Counts one more Send. That nothing is ready is no refusal here.
    pub(crate) fn sent(&mut self, answer: Answer) {
        if answer.is_ok() {
            self.batches = self.batches.wrapping_add(1);
        }
        self.called(
            answer
                .err()
                .filter(|&refusal| refusal != Refusal::NothingReady),
        );
    }

    // Whether the line of the batch that was sent last is dropped, as that of every fifth is.
    pub(crate) fn drops(self) -> bool {
        self.batches % 5 == 0
    }
}
