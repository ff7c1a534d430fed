//! The term that is merged.
ghost use Rattle.std.specs.Prelude.{◌≡◌, option_map, OnOk};
ghost use Rattle.std.specs.Str.{bytes_eq};
ghost use Rattle.seg_merger.specs.TermRests.{is_head};
ghost use Rattle.seg_merger.specs.TermSources.{term_named};

use crate::terms::slot::TermName;
use lu_prims::OutOfMemory;
use std::alloc::Global;
use std::marker::Model;

/// The term that is merged, kept while the segments go past it.
#[derive(Drop)]
pub(crate) struct Current {
    field: String,
    text: String,
}

impl Model for Current {
    ghost use Rattle.std.specs.Prelude.{string_bytes};
    ghost use Rattle.lu_model.specs.Index.{Term};

    ghost Value = { Term };

    ghost view = { λ c. record { field = string_bytes c.field; text = string_bytes c.text } };
}

fn same_text(a: &str, b: &str) -> bool
    ensures { result ≡ bytes_eq a.now b.now }
{
    a == b
}

impl Current {
    /// No term.
    pub(crate) fn new(alloc: Global) -> Current {
        Current {
            field: String::new(alloc),
            text: String::new(alloc),
        }
    }

    /// Keeps a term in place of the one before.
    pub(crate) fn set(&mut self, name: TermName<'_>) -> Result<(), OutOfMemory>
        ensures { OnOk result (self.new ≡ term_named name.entry) }
    {
        self.field.clear();
        self.text.clear();
        self.field.push_str(name.field)?;
        self.text.push_str(name.text)?;
        Ok(())
    }

    /// Its text.
    pub(crate) fn text(&self) -> &str
        ensures { result.now ≡ self.now.text }
    {
        self.text.as_str()
    }

    /// Whether this is the first term of a segment.
    pub(crate) fn is(&self, head: Option<TermName<'_>>) -> bool
        ensures { result ≡ is_head self.now (option_map term_named head.entry) }
    {
        match head {
            None => false,
            Some(name) => {
                same_text(self.field.as_str(), name.field)
                    && same_text(self.text.as_str(), name.text)
            }
        }
    }
}
