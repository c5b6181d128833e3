//! Components and bindings from bytes and to bytes.

ghost use Rattle.std.specs.Prelude.{◌≡◌, ◌∷◌, []};
ghost use Rattle.td_cdr.specs.Format.{Gives, Puts};
ghost use Rattle.td_cdr.specs.ValueFaults.{is_memory};
ghost use Rattle.td_names.specs.Spelling.{binding, binding_type, binding_type_number, binding_with, component, name};

use crate::component::{NameBinding, NameComponent};
use std::alloc::Global;
use td_cdr::{List, Memory, Reader, Spelled, Text, ValueFault, Writer, put_two};

/// BindingType `nobject`.
const OBJECT: u32 = 0;

/// BindingType `ncontext`.
const CONTEXT: u32 = 1;

impl Spelled for NameComponent {
    ghost format = { component.format };

    ghost faults = { component.faults };

    fn read(alloc: Global, r: &mut Reader) -> Result<NameComponent, ValueFault> {
        let (id, kind) = <(Text, Text)>::read(alloc, r)?;
        Ok(NameComponent { id, kind })
    }

    fn write(&self, alloc: Global, w: &mut Writer) -> Result<(), Memory> {
        put_two(alloc, w, &self.id, &self.kind)
    }

    ghost lawful = { component.lawful };

    ghost refuses = { component.refuses };
}

impl Spelled for NameBinding {
    ghost format = { binding.format };

    ghost faults = { binding.faults };

    fn read(alloc: Global, r: &mut Reader) -> Result<NameBinding, ValueFault> {
        let place = r.aligned();
        let name = List::<NameComponent>::read(alloc, r)?;
        let context = read_binding_type(r)?;
        match binding_with(name, context) {
            Some(binding) => Ok(binding),
            None => Err(ValueFault::BadValue(place)),
        }
    }

    fn write(&self, alloc: Global, w: &mut Writer) -> Result<(), Memory> {
        put_name_of(alloc, w, &self.name)?;
        w.u32(binding_type_number(self.context))
    }

    ghost lawful = { binding.lawful };

    ghost refuses = { binding.refuses };
}

/// Whether what is bound is a context. Where it is refused, the reader may have moved.
fn read_binding_type(r: &mut Reader) -> Result<bool, ValueFault>
    ensures { Gives is_memory r.new result (binding_type.format.reads r.old) }
{
    let place = r.aligned();
    match r.u32()? {
        OBJECT => Ok(false),
        CONTEXT => Ok(true),
        _ => Err(ValueFault::BadValue(place)),
    }
}

/// The BindingType of what is bound.
fn binding_type_number(context: bool) -> u32
    ensures { result ≡ binding_type_number context }
{
    if context { CONTEXT } else { OBJECT }
}

/// The binding under a name of one component.
fn binding_with(mut name: List<NameComponent>, context: bool) -> Option<NameBinding>
    ensures { result ≡ binding_with name context }
{
    if name.len() != 1 {
        return None;
    }
    match name.pop() {
        Some(name) => Some(NameBinding { name, context }),
        None => None,
    }
}

/// Writes a name of one component. Where it fails, some of it may be written.
fn put_name_of(alloc: Global, w: &mut Writer, component: &NameComponent) -> Result<(), Memory>
    ensures { Puts (name.format.writes (component.now ∷ [])) w.old w.new result }
{
    w.u32(1)?;
    component.write(alloc, w)
}
