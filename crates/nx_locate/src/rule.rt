//! Rules, as they stand in a rules file.

use nx_base::sequence::Bytes;

/// Where a rule that applies leads. A reference is read against the URI of the rules file that it stands in.
#[derive(Drop)]
pub enum Target {
    /// To the schema that this reference names.
    Uri(Bytes),
    /// To where the first rule of this type leads.
    TypeId(Bytes),
}

/// A rule. What a rule needs and doesn't have makes it none.
#[derive(Drop)]
pub enum Rule {
    /// The rules of the file that this reference names.
    Include(Bytes),
    /// For the document of a URI: that of the first reference, or one that the second pattern fits. One of them is there.
    Uri(Option<Bytes>, Option<Bytes>, Target),
    /// For documents whose document element has a name with this prefix, with this local part. One of them is there.
    DocumentElement(Option<Bytes>, Option<Bytes>, Target),
    /// For documents whose document element is in this namespace.
    Namespace(Bytes, Target),
    /// For each document.
    Default(Target),
    /// For documents whose URI the first pattern fits: to the file whose URI the second one makes of it, where that is there.
    Transform(Bytes, Bytes),
    /// Where the type of this name leads.
    TypeId(Bytes, Target),
}

/// A rule with the URI of the rules file that it stands in.
#[derive(Drop)]
pub struct PlacedRule {
    pub base: Bytes,
    pub rule: Rule,
}
