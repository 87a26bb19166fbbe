//! Moving the faults of each view with the text.
//!
//! A function that is lent boxed views and asks nothing of its caller might, as far as the checker looks into another crate, put views
//! of its own among them, so that a clause over "every view" would be worth nothing in the crate above. One that asks something can't.
//! So `shift_all` and `refresh` ask for the unit, which every caller has.

ghost use Rattle.std.specs.Prelude.{◌≡◌, map};
ghost use Rattle.nx_views.specs.States.{moved_view};

use crate::view::View;
use nx_base::edit::Edit;

/// Moves the faults of each view with the text.
pub fn shift_all(views: &mut Vec<Box<dyn View>>, edit: &Edit)
    requires { Unit {0} }
    ensures { map (λ b. state b) views.new.items ≡ map (moved_view edit.now) (map (λ b. state b) views.old.items) }
{
    for view in views.iter_mut() {
        shift(view, edit);
    }
}

fn shift(view: &mut Box<dyn View>, edit: &Edit)
    ensures { state view.new ≡ moved_view edit.now (state view.old) }
{
    view.shift(edit);
}
