//! The string table: templates, found by the ids of a base.
ghost use Rattle.std.specs.Prelude.{◌≡◌, map, All, IfOk};
ghost use Rattle.std.specs.Option.{option_copied};
ghost use Rattle.yarn_table.specs.Tables.{AreDistinct, Fits, IsTemplate, form_of, from_base, template_under};

use indexmap::IndexSet;
use std::alloc::Global;
use std::marker::Model;
use yarn_base::{List, Memory, Text};
use yarn_value::{Base, Template, TemplateFault, read_template};

/// The texts of a project's lines and options as templates, each under its id, in the order of the base.
///
/// Contracts see the list of ids with their templates. A look-up takes the same time however many there are.
#[derive(Debug, Drop)]
pub struct StringTable {
    ids: IndexSet<Text>,
    templates: List<Template>,
}

impl Model for StringTable {
    ghost use Rattle.std.specs.List.{zip};
    ghost use Rattle.yarn_table.specs.Tables.{Table};

    ghost Value = { Table };

    ghost view = { λ t. zip t.ids.keys t.templates };
}

impl StringTable {
    ghost use Rattle.std.specs.List.{zip};

    /// The table of the base's own texts. Only want of memory is answered otherwise. The rule is docs/formats.md,
    /// Templates and string tables.
    pub fn from_base(alloc: Global, base: &Base) -> Result<StringTable, Memory>
        requires distinct { AreDistinct base.now }
        requires templates { All IsTemplate base.now }
        ensures table { IfOk result (λ table. table ≡ from_base base.now) }
        ensures fits { IfOk result (λ table. Fits table base.now) }
    {
        let ids = ids_of(alloc, base)?;
        let templates = templates_of(alloc, base)?;
        Ok(StringTable::new(ids, templates))
    }

    /// The template of an id, and `None` exactly where the table doesn't have the id.
    pub fn text(&self, id: &Text) -> Option<&Template>
        ensures { option_copied result ≡ template_under self.now id.now }
    {
        let at = self.ids.get_index_of(id)?;
        self.templates.get(at)
    }

    // The templates under these ids, in their order.
    pub(crate) fn new(ids: IndexSet<Text>, templates: Vec<Template>) -> StringTable
        ensures { result ≡ zip ids.keys templates.items }
    {
        StringTable {
            ids,
            templates: List::from_vec(templates),
        }
    }
}

// The ids of the base, in its order.
pub(crate) fn ids_of(alloc: Global, base: &Base) -> Result<IndexSet<Text>, Memory>
    requires { AreDistinct base.now }
    ensures { IfOk result (λ ids. ids.keys ≡ map (λ line. line.id) base.now) }
{
    let mut ids = IndexSet::with_capacity(alloc, base.len())?;
    for line in base.as_slice() {
        ids.insert(line.id.copy()?)?;
    }
    Ok(ids)
}

// The templates of the base's own texts.
fn templates_of(alloc: Global, base: &Base) -> Result<Vec<Template>, Memory>
    requires { All IsTemplate base.now }
    ensures { IfOk result (λ templates. templates.items ≡ map (λ line. form_of line.text line.holes) base.now) }
{
    let mut templates = Vec::with_capacity(alloc, base.len())?;
    for line in base.as_slice() {
        match read_template(alloc, &line.text, line.holes as u32) {
            Ok(template) => templates.push(template)?,
            Err(TemplateFault::Memory) => return Err(Memory),
            Err(TemplateFault::NotTemplate) => unreachable!(),
        }
    }
    Ok(templates)
}
