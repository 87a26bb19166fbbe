//! Laws of forms of text, by which tokens are defined. Nothing here runs.

ghost use Rattle.nx_base.specs.Form.{SpellsExactly, BeginsExactly, FrontsExactly};

/// Taking what is left behind each character decides whether a form spells a text.
pub fn spells_exactly()
    ensures { SpellsExactly }
{}

/// And whether characters can be continued to a text that it spells.
pub fn begins_exactly()
    ensures { BeginsExactly }
{}

/// The shortest front that passes a test, and the longest of which each front passes it.
pub fn fronts_exactly()
    ensures { FrontsExactly }
{}
