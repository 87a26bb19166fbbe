//! Lists of names that are shared, with how they print.

ghost use Rattle.std.specs.Prelude.{◌≡◌, ◌++◌, [], IfOk, OnOk, codes};
ghost use Rattle.std.specs.List.{flat_map};
ghost use Rattle.nx_base.specs.PrintedNames.{name_text};

use nx_base::memory::NoMemory;
use nx_base::name::{Name, Names};
use nx_base::printed_name::push_name;
use nx_base::sequence::{Bytes, TryCopy};
use nx_base::shared_bytes::SharedBytes;
use std::alloc::Global;
use std::marker::Model;
use std::rc::Rc;

/// Names, and how they print, each behind a space.
#[derive(Drop)]
pub struct Printed {
    names: Names,
    text: SharedBytes,
    ghost is: { text ≡ flat_map (λ name. codes " " ++ name_text name) names },
}

/// A list of names in one place for all copies, so that a copy asks for no memory. To a contract it is the list.
#[derive(Drop)]
pub struct SharedNames {
    alloc: Global,
    /// None where there is no name.
    shared: Option<Rc<Printed>>,
}

impl Model for SharedNames {
    ghost use Rattle.std.specs.Prelude.{List, [], option_map, unwrap_or};
    ghost use Rattle.nx_base.specs.declared.name.Name.{Name};

    ghost Value = { List Name };

    ghost view = { λ names. unwrap_or (option_map (λ place. place.value.names) names.shared) [] };
}

/// Adds a name behind a space.
fn push_further(text: &mut Vec<u8>, name: &Name) -> Result<(), NoMemory>
    ensures { OnOk result (text.new.items ≡ text.old.items ++ (codes " " ++ name_text name.now)) }
{
    text.push(b' ')?;
    push_name(text, name)?;
    Ok(())
}

/// Adds names, each behind a space.
pub fn push_names(text: &mut Vec<u8>, names: &[Name]) -> Result<(), NoMemory>
    ensures { OnOk result (text.new.items ≡ text.old.items ++ flat_map (λ name. codes " " ++ name_text name) names.now) }
{
    for name in names {
        push_further(text, name)?;
    }
    Ok(())
}

/// How names print, each behind a space.
fn text_of(alloc: Global, names: &[Name]) -> Result<SharedBytes, NoMemory>
    ensures { IfOk result (λ text. text ≡ flat_map (λ name. codes " " ++ name_text name) names.now) }
{
    let mut text = Vec::new(alloc);
    push_names(&mut text, names)?;
    SharedBytes::of(Bytes::from_vec(text))
}

impl SharedNames {
    /// No names.
    pub fn new(alloc: Global) -> SharedNames
        ensures { result ≡ [] }
    {
        SharedNames {
            alloc,
            shared: None,
        }
    }

    /// These names.
    pub fn of(alloc: Global, names: Names) -> Result<SharedNames, NoMemory>
        ensures { IfOk result (λ shared. shared ≡ names) }
    {
        if names.is_empty() {
            return Ok(SharedNames::new(alloc));
        }
        let text = text_of(alloc, names.as_slice())?;
        Ok(SharedNames {
            alloc,
            shared: Some(Rc::new(alloc, Printed { names, text })?),
        })
    }

    /// The names, in order.
    pub fn as_slice(&self) -> &[Name]
        ensures { result.now ≡ self.now }
    {
        match &self.shared {
            Some(printed) => printed.names.as_slice(),
            None => &[],
        }
    }

    /// How they print, each behind a space. It was made with the list, so that to ask for it costs nothing.
    pub fn text(&self) -> Result<SharedBytes, NoMemory>
        ensures { IfOk result (λ text. text ≡ flat_map (λ name. codes " " ++ name_text name) self.now) }
    {
        match &self.shared {
            Some(printed) => printed.text.copy(),
            None => Ok(SharedBytes::new()),
        }
    }
}

impl TryCopy for SharedNames {
    fn copy(&self) -> Result<SharedNames, NoMemory> {
        let shared = match &self.shared {
            Some(printed) => Some(printed.clone()?),
            None => None,
        };
        Ok(SharedNames {
            alloc: self.alloc,
            shared,
        })
    }
}
