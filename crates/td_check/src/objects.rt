//! The objects that every trader has (OMG's Trading Object Service, TraderComponents).

ghost use Rattle.std.specs.Prelude.{◌≡◌, ◌++◌, IfOk, OnOk};
ghost use Rattle.td_check.specs.Checked.{interface_of, kind_of, reference_line, reference_lines, reference_text};
ghost use Rattle.td_check.specs.Checked.{word_of};
ghost use Rattle.td_objects.specs.References.{IsAddress};

use std::alloc::Global;
use td_cdr::{Memory, Text};
use td_forms::put;
use td_ior::{Kind, print_text};
use td_objects::{Interface, own_reference};
use td_walk::Address;

/// One of a trader's objects.
#[derive(Clone, Copy, Debug, PartialEq, Eq)]
pub(crate) enum Own {
    Lookup,
    Register,
    Link,
    Proxy,
    Admin,
    /// The type repository.
    Types,
}

/// The word for it, with a blank behind it.
fn word_of(own: Own) -> &'static [u8]
    ensures { result.now ≡ word_of own }
{
    match own {
        Own::Lookup => b"lookup ",
        Own::Register => b"register ",
        Own::Link => b"link ",
        Own::Proxy => b"proxy ",
        Own::Admin => b"admin ",
        Own::Types => b"types ",
    }
}

fn interface_of(own: Own) -> Interface
    ensures { result ≡ interface_of own }
{
    match own {
        Own::Lookup => Interface::Lookup,
        Own::Register => Interface::Register,
        Own::Link => Interface::Link,
        Own::Proxy => Interface::Proxy,
        Own::Admin => Interface::Admin,
        Own::Types => Interface::ServiceTypeRepository,
    }
}

fn kind_of(own: Own) -> Kind
    ensures { result ≡ kind_of own }
{
    match own {
        Own::Lookup => Kind::Lookup,
        Own::Register => Kind::Register,
        Own::Link => Kind::Link,
        Own::Proxy => Kind::Proxy,
        Own::Admin => Kind::Admin,
        Own::Types => Kind::Types,
    }
}

/// The reference to an object of the trader of a name, as text.
#[tactic(auto, unfolding(crate::specs::Checked::reference_text))]
fn reference_text(alloc: Global, home: &Address, name: &Text, own: Own) -> Result<Text, Memory>
    requires { IsAddress home.now }
    ensures { IfOk result (λ t. t ≡ reference_text home.now name.now own) }
{
    let reference = own_reference(alloc, home, interface_of(own), name, kind_of(own))?;
    let text = print_text(alloc, &reference);
    drop(reference);
    text
}

/// Appends the line of an object of the trader of a name.
fn put_reference(
    alloc: Global,
    text: &mut Vec<u8>,
    home: &Address,
    name: &Text,
    own: Own,
) -> Result<(), Memory>
    requires { IsAddress home.now }
    ensures { OnOk result (text.new.items
        ≡ text.old.items ++ reference_line home.now name.now own) }
{
    put(text, word_of(own))?;
    let reference = reference_text(alloc, home, name, own)?;
    put(text, reference.as_slice())?;
    put(text, b"\n")
}

/// Appends the lines of all objects of the trader of a name.
pub(crate) fn put_references(
    alloc: Global,
    text: &mut Vec<u8>,
    home: &Address,
    name: &Text,
) -> Result<(), Memory>
    requires { IsAddress home.now }
    ensures { OnOk result (text.new.items ≡ text.old.items ++ reference_lines home.now name.now) }
{
    put_reference(alloc, text, home, name, Own::Lookup)?;
    put_reference(alloc, text, home, name, Own::Register)?;
    put_reference(alloc, text, home, name, Own::Link)?;
    put_reference(alloc, text, home, name, Own::Proxy)?;
    put_reference(alloc, text, home, name, Own::Admin)?;
    put_reference(alloc, text, home, name, Own::Types)
}
