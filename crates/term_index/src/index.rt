//! Terms that are sought by the name of their field and their text (format page, "Term index").
ghost use Rattle.std.specs.Prelude.{◌≡◌, ℕ, ◌+◌, ◌≤◌, IfOk, option_map};
ghost use Rattle.std.specs.List.{find};
ghost use Rattle.lu_prims.specs.Steps.{ticked};
ghost use Rattle.term_index.specs.Seeking.{AreChecked, searched, names_of, is_sought, seek_steps, most_seek_steps};

use crate::loading::marks_of;
use crate::mark::Mark;
use crate::names::FieldNames;
use crate::search::{Sought, count_below, enter_interval, find_from};
use lu_prims::{OutOfMemory, Steps};
use lu_types::{FieldTable, TermInfo};
use std::alloc::Global;
use std::marker::Model;
use term_dict::{TermCursor, TermFile};

/// The terms of a segment, which can be sought. Contracts see what the file of terms stands for, and the names of the fields.
#[derive(Drop)]
pub struct TermIndex<'a> {
    cursor: TermCursor<'a>,
    names: FieldNames<'a>,
    marks: Vec<Mark<'a>>,
    index_interval: u32,
}

impl<'a> Model for TermIndex<'a> {
    ghost use Rattle.std.specs.Prelude.{◌≡◌, ◌-◌, map};
    ghost use Rattle.term_dict.specs.Index.{entry_count};
    ghost use Rattle.term_index.specs.Seeking.{Searched, searched};
    ghost use Rattle.term_index.specs.InnerSearch.{IsSearchable, index_mark_of, marks_to};

    ghost Value = { Searched };

    ghost view = { λ i. searched i.cursor.dictionary i.names };

    ghost invariant = { λ i. IsSearchable (searched i.cursor.dictionary i.names) × (i.index_interval ≡ i.cursor.dictionary.numbers.index_interval)
        × (map index_mark_of i.marks.items ≡ marks_to (searched i.cursor.dictionary i.names) (entry_count i.cursor.dictionary.numbers - 1)) };
}

impl<'a> TermIndex<'a> {
    /// The terms and their index, both of which were checked, the terms with these fields. It reads the entries of the index
    /// once, and takes memory for their texts and places, for the longest text of the terms, and for the list of the names
    /// of the fields; `seek` takes none.
    pub fn load(
        alloc: Global,
        tii: &'a [u8],
        terms: &TermFile<'a>,
        fields: &FieldTable<'a>,
    ) -> Result<TermIndex<'a>, OutOfMemory>
        requires { AreChecked tii.now terms.now fields.now }
        ensures { IfOk result (λ index. index ≡ searched terms.now (names_of fields.now)) }
    {
        let numbers = terms.numbers();
        let names = FieldNames::of_table(alloc, fields)?;
        let marks = marks_of(alloc, tii, terms, &names)?;
        let cursor = terms.cursor(alloc)?;
        Ok(TermIndex {
            cursor,
            names,
            marks,
            index_interval: numbers.index_interval,
        })
    }

    /// What the dictionary says of the term with this text in the field with this name; `None` exactly where it has no such
    /// term. It searches the entries of the index by halving, and then reads the terms of one interval. Each entry that is
    /// compared and each term that is read is a step, and no step is left out: `steps` says how many there are, `bound` the
    /// most. Takes no memory.
    pub fn seek<L>(&mut self, field: &str, text: &str, steps: &mut Steps<L>) -> Option<TermInfo>
        ensures term { result ≡ option_map (λ t. t.info) (find (is_sought self.old.names field.now text.now) self.old.dictionary.terms) }
        ensures same { self.new ≡ self.old }
        ensures steps { steps.new ≡ ticked (seek_steps self.old field.now text.now) steps.old }
        ensures bound { steps.new ≤ steps.old + most_seek_steps self.old.dictionary }
    {
        let sought = Sought { field, text };
        let number = count_below(self.marks.as_slice(), &sought, steps);
        enter_interval(
            &mut self.cursor,
            self.marks.as_slice(),
            number,
            self.index_interval,
        );
        find_from(&mut self.cursor, &self.names, &sought, steps)
    }
}
