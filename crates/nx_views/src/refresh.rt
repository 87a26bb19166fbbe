//! Showing each view the faults.

ghost use Rattle.std.specs.Prelude.{◌≡◌, ◌↔◌, ◌≤◌, ◌<◌, true, false, length, map, insert, take, drop, ◌++◌, vec_len};
ghost use Rattle.std.specs.Prelude.{OnOk, OnErr, IfOk, IsTrue};
ghost use Rattle.nx_views.specs.States.{AfterPuts, showing};
ghost use Rattle.nx_views.specs.Refreshed.{IsFrontOf, Refreshed, Starved};
ghost use Rattle.nx_views.specs.Turns.{TurnedAt};

use crate::view::{View, ViewFault};
use nx_base::equal::Equal;
use nx_base::fault::{Fault, Faults};
use nx_base::memory::NoMemory;
use nx_base::sequence::TryCopy;

/// Shows each view the faults, and drops those that aren't live behind that. What a view shows of the faults already stays, up to
/// the first difference.
pub fn refresh(views: &mut Vec<Box<dyn View>>, faults: &Faults) -> Result<(), NoMemory>
    requires { Unit {0} }
    ensures ok { OnOk result (Refreshed faults.now (map (λ b. state b) views.old.items) (map (λ b. state b) views.new.items)) }
    ensures err { OnErr result (Starved faults.now (map (λ b. state b) views.old.items) (map (λ b. state b) views.new.items)) }
{
    let mut i = 0;
    while i < views.len() {
        if refresh_at(views, i, faults.as_slice())? {
            i += 1;
        }
    }
    Ok(())
}

/// Shows the view at `i` the faults, and drops it where it isn't live behind that. Answers whether it is left.
fn refresh_at(views: &mut Vec<Box<dyn View>>, i: usize, faults: &[Fault]) -> Result<bool, NoMemory>
    requires { i < vec_len views.old }
    ensures { TurnedAt (λ b. state b) faults.now views.old.items i views.new.items result }
{
    let view = &mut views[i];
    let shown = show(view, faults);
    let lives = is_live(view);
    if lives {
        shown?;
        return Ok(true);
    }
    let _ = views.remove(i);
    shown?;
    Ok(false)
}

fn is_live(view: &Box<dyn View>) -> bool
    ensures { result ≡ (state view.now).live }
{
    view.is_live()
}

/// Shows a view the faults, as far as it stays live.
fn show(view: &mut Box<dyn View>, faults: &[Fault]) -> Result<(), NoMemory>
    ensures shown { OnOk result ((state view.new).live ≡ true → (state view.new).list ≡ faults.now) }
    ensures front { IsFrontOf (state view.new).list faults.now }
    ensures after { AfterPuts (length faults.now) (state view.old) (state view.new) }
{
    let kept = keep_front(view, faults);
    for i in kept..faults.len() {
        let fault = faults[i].copy()?;
        if !put_at(view, i, fault)? {
            return Ok(());
        }
    }
    Ok(())
}

/// Removes what a view shows from the first difference with the faults on. Answers how many are left.
fn keep_front(view: &mut Box<dyn View>, faults: &[Fault]) -> usize
    ensures within { result ≤ length faults.now }
    ensures front { state view.new ≡ showing (take result faults.now) (state view.old) }
{
    let kept = same_front(view, faults);
    let len = shown_len(view);
    cut(view, kept, len);
    kept
}

/// How many of the first faults a view shows already.
fn same_front(view: &Box<dyn View>, faults: &[Fault]) -> usize
    ensures faults { result ≤ length faults.now }
    ensures shown { result ≤ length (state view.now).list }
    ensures same { take result (state view.now).list ≡ take result faults.now }
{
    common_front(view.shown().as_slice(), faults)
}

/// How many of the first faults of two lists are equal.
fn common_front(shown: &[Fault], faults: &[Fault]) -> usize
    ensures faults { result ≤ length faults.now }
    ensures shown { result ≤ length shown.now }
    ensures same { take result shown.now ≡ take result faults.now }
{
    let len = shown.len().min(faults.len());
    for i in 0..len {
        if !same_fault(&shown[i], &faults[i]) {
            return i;
        }
    }
    len
}

/// Whether two faults are equal.
fn same_fault(a: &Fault, b: &Fault) -> bool
    ensures { IsTrue result ↔ (a.now ≡ b.now) }
{
    a.kind == b.kind && a.span == b.span && a.detail.equals(&b.detail)
}

fn shown_len(view: &Box<dyn View>) -> usize
    ensures { result ≡ length (state view.now).list }
{
    view.shown().len()
}

fn cut(view: &mut Box<dyn View>, from: usize, to: usize)
    requires ordered { from ≤ to }
    requires within { to ≤ length (state view.old).list }
    ensures { state view.new ≡ showing (take from (state view.old).list ++ drop to (state view.old).list) (state view.old) }
{
    view.cut(from, to);
}

/// Puts a fault, and answers whether the view took it.
fn put_at(view: &mut Box<dyn View>, i: usize, fault: Fault) -> Result<bool, NoMemory>
    requires { i ≤ length (state view.old).list }
    ensures put { IfOk result (λ b. b ≡ true → (state view.new).list ≡ insert (state view.old).list i fault) }
    ensures closed { IfOk result (λ b. b ≡ false → (state view.new).live ≡ false) }
    ensures closed_list { IfOk result (λ b. b ≡ false → (state view.new).list ≡ (state view.old).list) }
    ensures refused { OnErr result ((state view.new).list ≡ (state view.old).list) }
    ensures after { AfterPuts 1 (state view.old) (state view.new) }
{
    match view.put(i, fault) {
        Ok(()) => Ok(true),
        Err(ViewFault::Closed) => Ok(false),
        Err(ViewFault::NoMemory) => Err(NoMemory),
    }
}
