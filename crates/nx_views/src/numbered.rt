//! Views by their number in their list, counted from 0.

ghost use Rattle.std.specs.Prelude.{◌≡◌, ◌<◌, map, option_map, option_copied, slice_get, vec_len};
ghost use Rattle.nx_views.specs.States.{closed, closed_at};

use crate::view::View;
use nx_base::fault::Faults;

/// The list that the view of this number shows; none exactly where there is no such view.
pub fn shown_at(views: &Vec<Box<dyn View>>, i: usize) -> Option<&Faults>
    ensures { option_copied result ≡ option_map (λ view. view.list) (slice_get (map (λ b. state b) views.now.items) i) }
{
    match views.get(i) {
        Some(view) => Some(shown(view)),
        None => None,
    }
}

fn shown(view: &Box<dyn View>) -> &Faults
    ensures { result.now ≡ (state view.now).list }
{
    view.shown()
}

/// Closes the view of this number, and leaves all others.
pub fn close_at(views: &mut Vec<Box<dyn View>>, i: usize)
    requires { i < vec_len views.old }
    ensures { map (λ b. state b) views.new.items ≡ closed_at i (map (λ b. state b) views.old.items) }
{
    close(&mut views[i]);
}

fn close(view: &mut Box<dyn View>)
    ensures { state view.new ≡ closed (state view.old) }
{
    view.close();
}
