//! The namespace declarations in force at an element (Namespaces in XML 1.0, section 6.1).

ghost use Rattle.std.specs.Prelude.{◌≡◌, ◌++◌, [], option_copied, IfOk};
ghost use Rattle.rngx_read.specs.Names.{last_bound, bound_in};

use crate::declarations::Declarations;
use nx_base::memory::NoMemory;
use nx_base::name::Names;
use nx_base::sequence::TryCopy;
use std::alloc::Global;
use std::marker::Model;
use std::rc::Rc;

/// The namespace of the prefix `xml`.
const XML_URI: &[u8] = b"http://www.w3.org/XML/1998/namespace";

/// The declarations in force at an element: those around it and then its own. An element shares those around it, so that all elements
/// of a text together hold each declaration once. To a contract they are the list of their pairs.
#[cycle(scope)]
#[derive(Drop)]
pub struct Scope {
    /// Those of the innermost element that has some, and what is around it.
    innermost: Option<Rc<Level>>,
}

/// The declarations of one element, at least one, and those around it.
#[cycle(scope)]
#[derive(Drop)]
struct Level {
    around: Scope,
    own: Declarations,
}

impl Model for Scope {
    ghost use Rattle.std.specs.Prelude.{List, [], ◌++◌, unwrap_or, length, ◌<◌, IfSome};
    ghost use Rattle.std.specs.Option.{option_map};
    ghost use Rattle.nx_base.specs.declared.name.Name.{Name};
    ghost use Rattle.std.proofs.Common.{arith, length-append};

    ghost Value = { List Name };

    ghost view = { λ scope. unwrap_or (option_map (λ level. level.value.around ++ level.value.own) scope.innermost) [] };

    ghost invariant = { λ scope. IfSome scope.innermost (λ level. 0 < length level.value.own) };

    ghost size = { length };

    ghost size_decreases = { λ a h. Prim.grind (arith, length-append) };
}

impl Scope {
    /// No declarations.
    pub(crate) fn new() -> Scope
        ensures { result ≡ [] }
    {
        Scope { innermost: None }
    }

    /// Those in force at an element with these of its own, where these are in force around it.
    pub(crate) fn inside(alloc: Global, around: &Scope, own: Names) -> Result<Scope, NoMemory>
        ensures { IfOk result (λ scope. scope ≡ around.now ++ own) }
    {
        let around = around.copy()?;
        if own.is_empty() {
            return Ok(around);
        }
        let own = Declarations::new(alloc, own)?;
        Ok(Scope {
            innermost: Some(Rc::new(alloc, Level { around, own })?),
        })
    }

    /// The URI of the last pair of the prefix.
    #[tactic(auto, using(crate::proofs::Scopes::bound_in_both))]
    fn last_bound(&self, prefix: &[u8]) -> Option<&[u8]>
        ensures { option_copied result ≡ last_bound self.now prefix.now }
    {
        match &self.innermost {
            None => None,
            Some(level) => match level.own.last_bound(prefix) {
                Some(uri) => Some(uri),
                None => level.around.last_bound(prefix),
            },
        }
    }

    /// The URI that the prefix stands for.
    #[tactic(auto, unfolding(crate::specs::Names::bound_in))]
    pub(crate) fn bound(&self, prefix: &[u8]) -> Option<&[u8]>
        ensures { option_copied result ≡ bound_in self.now prefix.now }
    {
        if prefix == b"xml".as_slice() {
            Some(XML_URI)
        } else {
            self.last_bound(prefix)
        }
    }
}

impl TryCopy for Scope {
    fn copy(&self) -> Result<Scope, NoMemory> {
        let innermost = match &self.innermost {
            Some(level) => Some(level.clone()?),
            None => None,
        };
        Ok(Scope { innermost })
    }
}
