//! A move over the elements of a text.

ghost use Rattle.std.specs.Prelude.{IfOk};
ghost use Rattle.nx_base.specs.Text.{IsPlace};
ghost use Rattle.nx_move.specs.Tags.{tags_of};
ghost use Rattle.nx_move.specs.Ways.{IsReached, LeadsToOnePlace};

use crate::ahead::{behind_element, behind_end, behind_start, border_ahead};
use crate::behind::trail_behind;
use nx_base::memory::NoMemory;
use nx_base::steps::Steps;
use nx_base::way::Way;
use nx_text::text::Text;
use std::alloc::Global;
use std::sync::ledger::Ledger;

/// Where a way leads from the place `at`, as a byte offset; none exactly where it leads nowhere. It goes over the tokens from the start
/// of the text once, up to the place or to where the way leads.
pub fn go<L: Ledger>(
    alloc: Global,
    text: &Text,
    at: usize,
    way: Way,
    steps: &mut Steps<L>,
) -> Result<Option<usize>, NoMemory>
    requires { IsPlace text.now at }
    ensures { IfOk result (IsReached way (tags_of text.now) at) }
{
    match way {
        Way::Forward => {
            let border = border_ahead(alloc, text, at, steps)?;
            behind_element(alloc, text, border, steps)
        }
        Way::Up => {
            let border = border_ahead(alloc, text, at, steps)?;
            behind_end(alloc, text, border, steps)
        }
        Way::Down => {
            let border = border_ahead(alloc, text, at, steps)?;
            behind_start(alloc, text, border, steps)
        }
        Way::Backward => {
            let trail = trail_behind(alloc, text, at, steps)?;
            Ok(trail.last)
        }
        Way::BackUp => {
            let mut trail = trail_behind(alloc, text, at, steps)?;
            Ok(trail.close())
        }
    }
}

/// A way leads to one place at most.
pub fn leads_to_one_place()
    ensures { LeadsToOnePlace }
{}
