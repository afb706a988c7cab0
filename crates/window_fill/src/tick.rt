// The tick's clause of Main at one window.
ghost use Rattle.std.specs.Prelude.{◌+◌, ◌%◌, ◌≡◌, true, leb};
ghost use Rattle.queue.specs.Items.{fits_cell};
ghost use Rattle.window.specs.View.{view_of, condition_of};
ghost use Rattle.rules.specs.Window.{is_normal, is_quiet, tick_at};

use journal::Index;
use window::{Condition, Window};

// Whether a condition is Normal.
fn is_normal(condition: Condition) -> bool
    ensures { result ≡ is_normal (condition_of condition) }
{
    condition == Condition::Normal
}

// Whether a sent index is at most `current`, the index here, less the spacing, which is a number and no index.
fn is_behind(sent: Index, spacing: u32, index: Index) -> bool
    ensures { result ≡ leb (sent.0 + spacing) index.0 }
{
    spacing <= index.0 && sent.0 <= index.0 - spacing
}

// Whether this window is quiet: Normal, both queues empty, no batch unacknowledged, the line free, and sent so far
// behind.
#[tactic(auto, unfolding(window::specs::View::view_of))]
fn is_quiet(window: Window, spacing: u32, index: Index) -> bool
    ensures { result ≡ is_quiet spacing index.0 (view_of window) }
{
    is_normal(window.head.condition)
        && window.normal.size() == 0
        && window.catch_up.size() == 0
        && window.head.batches.size() == 0
        && !window.head.busy
        && is_behind(window.head.sent, spacing, index)
}

// The window with the index, a multiple of the spacing, in its normal queue where it is quiet.
#[tactic(auto, using(crate::proofs::Ticked::tick_at_queued), unfolding(window::specs::View::view_of, rules::specs::Window::tick_at))]
pub(crate) fn tick_at(window: Window, spacing: u32, index: Index) -> Window
    requires index_value { fits_cell index.0 ≡ true }
    requires spacing_value { index.0 % spacing ≡ 0 }
    ensures { view_of result ≡ tick_at spacing index.0 (view_of window) }
{
    if is_quiet(window, spacing, index) {
        Window {
            normal: window.normal.push(index.0),
            ..window
        }
    } else {
        window
    }
}
