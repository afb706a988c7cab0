// What becomes of a batch on a window's line: the window takes it whole, or the line drops.
ghost use Rattle.std.specs.Prelude.{◌<◌};

use crate::host::Host;
use journal::Index;
use window::Head;

impl Host<'_> {
    // Window w takes an entry, five numbers.
    fn take(&mut self, w: u32, entry: &[u32])
        requires { w < 16 }
    {
        let taken = record::take(&mut self.records[w as usize], entry);
        self.tally.called(taken.err());
    }

    // Takes each entry of a batch, five numbers of the output. The last entry is the one at the index that was sent.
    fn take_batch(&mut self, w: u32, output: &[u32; 160], sent: Index)
        requires { w < 16 }
    {
        for entry in output.chunks_exact(5) {
            self.take(w, entry);
            if entry[0] == sent.0 {
                break;
            }
        }
    }

    // The batch is written to the line, and the window takes and acknowledges it.
    pub(crate) fn deliver(&mut self, w: u32, head: Head, output: &[u32; 160])
        requires { w < 16 }
    {
        self.played(operations::written_on(self.player, self.journal, w, head.term));
        self.take_batch(w, output, head.sent);
        self.played(operations::ack_on(self.player, self.journal, w, head.term, head.sent));
    }

    // The line drops when the window has taken the first entry of the batch, and the window joins again with its last
    // index.
    pub(crate) fn lose(&mut self, w: u32, output: &[u32; 160])
        requires { w < 16 }
    {
        self.take(w, &output[..5]);
        self.played(operations::drop_on(self.player, self.journal, w));
        let report = self.records[w as usize].last;
        self.played(operations::join_on(self.player, self.journal, w, report));
    }
}
