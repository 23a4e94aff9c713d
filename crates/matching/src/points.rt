// The point before one.
ghost use Rattle.std.specs.Prelude.{◌≡◌, true};
ghost use Rattle.meaning.specs.Check.{bodies};
ghost use Rattle.matching.specs.Asking.{point_before};

use meaning::{Interval, Window};

// point i - 1, if it is there and in the window
pub fn previous_point(s: &[u8], within: Interval, i: usize) -> Option<usize>
    requires { bodies s.now ≡ true }
    ensures { result ≡ point_before s.now within i }
{
    let j = i.checked_sub(1)?;
    let span = numbers::seconds(within);
    let here = tables::time_at(s, i);
    let then = tables::time_at(s, j);
    match numbers::window(span, here, then) {
        Window::Inside => Some(j),
        Window::TooOld | Window::Later => None,
    }
}
