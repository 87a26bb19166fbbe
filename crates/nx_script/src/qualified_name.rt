//! Qualified names (Namespaces in XML 1.0, sections 3 and 4).

ghost use Rattle.std.specs.Prelude.{◌≡◌};
ghost use Rattle.nx_script.specs.Reading.{is_qname, is_qualified};

use nx_base::character::is_nc_name;

/// Whether the bytes are a QName.
#[tactic(auto, unfolding(crate::specs::Reading::is_qname))]
pub(crate) fn is_qname(name: &[u8]) -> bool
    ensures { result ≡ is_qname name.now }
{
    match str::from_utf8(name) {
        Ok(name) => is_qualified(name),
        Err(_) => false,
    }
}

/// Whether the text is a QName.
#[tactic(auto, unfolding(crate::specs::Reading::is_qualified))]
fn is_qualified(name: &str) -> bool
    ensures { result ≡ is_qualified name.now }
{
    match name.split_once(':') {
        Some((prefix, local)) => is_nc_name(prefix) && is_nc_name(local),
        None => is_nc_name(name),
    }
}
