//! Lists in the order in which names and texts are listed, with each item once.

ghost use Rattle.std.specs.Prelude.{◌≡◌};
ghost use Rattle.rng_live.specs.Order.{text_order, name_order, SortsOnce};

use nx_base::name::Name;
use nx_base::sequence::Bytes;
use std::cmp::Ordering;

/// How two texts compare, by their bytes.
fn compare_texts(a: &Bytes, b: &Bytes) -> Ordering
    ensures { result ≡ text_order a.now b.now }
{
    a.as_slice().cmp(b.as_slice())
}

/// How two names compare, by namespace and then by local part.
fn compare_names(a: &Name, b: &Name) -> Ordering
    ensures { result ≡ name_order a.now b.now }
{
    compare_texts(&a.ns, &b.ns).then(compare_texts(&a.local, &b.local))
}

/// Puts names in order, and leaves each once.
pub fn sort_names(names: &mut Vec<Name>)
    ensures { SortsOnce name_order names.old.items names.new.items }
{
    names.sort_unstable_by(|a, b| compare_names(a, b));
    names.dedup_by(|a, b| compare_names(a, b).is_eq());
}

/// Puts texts in order, and leaves each once.
pub fn sort_texts(texts: &mut Vec<Bytes>)
    ensures { SortsOnce text_order texts.old.items texts.new.items }
{
    texts.sort_unstable_by(|a, b| compare_texts(a, b));
    texts.dedup_by(|a, b| compare_texts(a, b).is_eq());
}
