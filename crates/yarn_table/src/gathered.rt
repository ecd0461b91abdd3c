//! The texts that records have for the ids of a base, gathered record by record.
ghost use Rattle.std.specs.Prelude.{◌≡◌, ◌++◌, ◌∷◌, [], List, map, slice_get, Some, IfOk, OnOk};
ghost use Rattle.std.specs.Option.{option_copied, option_or};
ghost use Rattle.yarn_value.specs.Templates.{template_of};
ghost use Rattle.yarn_value.specs.declared.base.BaseLine.{BaseLine};
ghost use Rattle.yarn_table.specs.Records.{Row};
ghost use Rattle.yarn_table.specs.Tables.{AreDistinct};
ghost use Rattle.yarn_table.specs.Gathering.{IsGathered, TellsGathered, held_for, judged, missing_among, read_among, refused_among, wanted_of};

use crate::table::ids_of;
use crate::{StringTable, TableFault};
use indexmap::IndexSet;
use std::alloc::Global;
use yarn_base::{Memory, Text};
use yarn_value::{Base, Template, TemplateFault, read_template};

/// What is known of the text of a base row.
#[derive(Debug, Drop)]
pub(crate) enum Held {
    /// No record had its id; its text may use so many holes.
    Missing(u8),
    /// The text is no template.
    Refused,
    Read(Template),
}

/// The ids of the base, what is held for each of them, and the first of them that came a second time.
#[derive(Debug, Drop)]
pub(crate) struct Gathered {
    ids: IndexSet<Text>,
    held: Vec<Held>,
    repeated: Option<Text>,
}

impl Gathered {
    // Nothing is held of the base's ids yet.
    pub(crate) fn new(alloc: Global, base: &Base) -> Result<Gathered, Memory>
        requires { AreDistinct base.now }
        ensures { IfOk result (IsGathered base.now []) }
    {
        let ids = ids_of(alloc, base)?;
        let held = nothing_held(alloc, base)?;
        Ok(Gathered {
            ids,
            held,
            repeated: None,
        })
    }

    // Takes one more row. Only the text of a base id that didn't come before is kept.
    pub(crate) fn take(&mut self, alloc: Global, id: &str, text: &str) -> Result<(), Memory>
        ensures { OnOk result ((base : List BaseLine) (rows : List Row) → IsGathered base rows self.old → IsGathered base (rows ++ (id.now, text.now) ∷ []) self.new) }
    {
        let id = Text::from_str(alloc, id)?;
        let Some(at) = self.ids.get_index_of(&id) else {
            return Ok(());
        };
        match self.wanted(at) {
            Some(holes) => self.held[at] = judge(alloc, text, holes)?,
            None => self.note(id),
        }
        Ok(())
    }

    // How many holes the text at this place may use, where no record had its id.
    fn wanted(&self, at: usize) -> Option<u8>
        ensures { result ≡ wanted_of (slice_get self.now.held.items at) }
    {
        match self.held.get(at) {
            Some(Held::Missing(holes)) => Some(*holes),
            Some(Held::Refused | Held::Read(_)) | None => None,
        }
    }

    // Keeps the id, where it is the first that came a second time.
    fn note(&mut self, id: Text)
        ensures ids { self.new.ids ≡ self.old.ids }
        ensures held { self.new.held ≡ self.old.held }
        ensures repeated { self.new.repeated ≡ option_or self.old.repeated (Some id) }
    {
        if self.repeated.is_none() {
            self.repeated = Some(id);
        }
    }

    // The table of what was taken, or the first fault.
    pub(crate) fn finish(self, alloc: Global) -> Result<StringTable, TableFault>
        ensures { TellsGathered self result }
    {
        let Gathered {
            ids,
            held,
            repeated,
        } = self;
        if let Some(id) = repeated {
            return Err(TableFault::DuplicateId(id));
        }
        if let Some(id) = first_missing(ids.as_slice(), held.as_slice()) {
            return Err(TableFault::MissingId(id.copy()?));
        }
        if let Some(id) = first_refused(ids.as_slice(), held.as_slice()) {
            return Err(TableFault::BadTemplate(id.copy()?));
        }
        Ok(StringTable::new(ids, templates_in(alloc, held)?))
    }
}

// So many holes are known of each text of the base, and nothing else.
fn nothing_held(alloc: Global, base: &Base) -> Result<Vec<Held>, Memory>
    ensures { IfOk result (λ held. held.items ≡ map (held_for []) base.now) }
{
    let mut held = Vec::with_capacity(alloc, base.len())?;
    for line in base.as_slice() {
        held.push(Held::Missing(line.holes))?;
    }
    Ok(held)
}

// What is held of a text that may use so many holes.
fn judge(alloc: Global, text: &str, holes: u8) -> Result<Held, Memory>
    ensures { IfOk result (λ held. held ≡ judged holes (template_of text.now holes)) }
{
    let text = Text::from_str(alloc, text)?;
    match read_template(alloc, &text, holes as u32) {
        Ok(template) => Ok(Held::Read(template)),
        Err(TemplateFault::NotTemplate) => Ok(Held::Refused),
        Err(TemplateFault::Memory) => Err(Memory),
    }
}

// The first of these ids that no record had.
fn first_missing<'t>(ids: &'t [Text], held: &[Held]) -> Option<&'t Text>
    ensures { option_copied result ≡ missing_among ids.now held.now }
{
    for (at, one) in held.iter().enumerate() {
        if let Held::Missing(_) = one {
            return ids.get(at);
        }
    }
    None
}

// The first of these ids whose text is no template.
fn first_refused<'t>(ids: &'t [Text], held: &[Held]) -> Option<&'t Text>
    ensures { option_copied result ≡ refused_among ids.now held.now }
{
    for (at, one) in held.iter().enumerate() {
        if let Held::Refused = one {
            return ids.get(at);
        }
    }
    None
}

// The templates that are held, in their order.
fn templates_in(alloc: Global, held: Vec<Held>) -> Result<Vec<Template>, Memory>
    ensures { IfOk result (λ templates. templates.items ≡ read_among held.items) }
{
    let mut templates = Vec::with_capacity(alloc, held.len())?;
    for one in held {
        if let Held::Read(template) = one {
            templates.push(template)?;
        }
    }
    Ok(templates)
}
