//! The lines that tell the attributes of a text.
ghost use Rattle.std.specs.Prelude.{◌≡◌, ◌++◌, OnOk};
ghost use Rattle.yarn_render.specs.Marks.{attribute_lines, ended, place_text, properties_text, property_text};

use std::alloc::Global;
use yarn_base::{Memory, Text};
use yarn_markup::{Attribute, Property};
use yarn_value::quote;

/// Puts a line for each attribute behind the text.
pub(crate) fn push_attributes(
    alloc: Global,
    out: &mut Text,
    attributes: &[Attribute],
) -> Result<(), Memory>
    ensures { OnOk result (out.new ≡ out.old ++ attribute_lines attributes.now) }
{
    for attribute in attributes {
        push_attribute(alloc, out, attribute)?;
    }
    Ok(())
}

fn push_attribute(alloc: Global, out: &mut Text, attribute: &Attribute) -> Result<(), Memory>
    ensures { OnOk result (out.new ≡ out.old ++ ended (place_text attribute.now ++ properties_text attribute.now.properties)) }
{
    push_place(alloc, out, attribute)?;
    push_properties(alloc, out, attribute.properties.as_slice())?;
    out.push_str("\n")
}

// The name, and where the attribute is.
fn push_place(alloc: Global, out: &mut Text, attribute: &Attribute) -> Result<(), Memory>
    ensures { OnOk result (out.new ≡ out.old ++ place_text attribute.now) }
{
    out.push_str("@")?;
    out.push_str(attribute.name.as_str())?;
    let place = format!(in alloc; " {} {}", attribute.start, attribute.length)?;
    out.push_str(place.as_str())
}

fn push_properties(alloc: Global, out: &mut Text, properties: &[Property]) -> Result<(), Memory>
    ensures { OnOk result (out.new ≡ out.old ++ properties_text properties.now) }
{
    for property in properties {
        push_property(alloc, out, property)?;
    }
    Ok(())
}

fn push_property(alloc: Global, out: &mut Text, property: &Property) -> Result<(), Memory>
    ensures { OnOk result (out.new ≡ out.old ++ property_text property.now) }
{
    let value = quote(alloc, &property.value)?;
    out.push_str(" ")?;
    out.push_str(property.name.as_str())?;
    out.push_str("=")?;
    out.push_str(value.as_str())
}
