//! Namespace declarations in force (Namespaces in XML 1.0, section 3).

ghost use Rattle.std.specs.Prelude.{◌≡◌};

use nx_base::sequence::Bytes;
use std::marker::Model;

/// A prefix, empty for the default namespace, and the URI that it is bound to. To a contract it is that pair.
#[derive(Drop)]
pub struct Declaration {
    prefix: Bytes,
    uri: Bytes,
}

impl Model for Declaration {
    ghost use Rattle.nx_events.specs.declared.scope.Binding.{Binding};

    ghost Value = { Binding };

    ghost view = { λ d. record { prefix = d.prefix; uri = d.uri } };
}

impl Declaration {
    /// This prefix is bound to this URI.
    pub fn new(prefix: Bytes, uri: Bytes) -> Declaration
        ensures { result ≡ record { prefix = prefix; uri = uri } }
    {
        Declaration { prefix, uri }
    }

    /// The prefix, empty for the default namespace.
    pub fn prefix(&self) -> &[u8]
        ensures { result.now ≡ self.now.prefix }
    {
        self.prefix.as_slice()
    }

    /// The URI, empty where there is to be no default namespace.
    pub fn uri(&self) -> &[u8]
        ensures { result.now ≡ self.now.uri }
    {
        self.uri.as_slice()
    }
}
