//! What the words of a call ask for.
ghost use Rattle.std.specs.Prelude.{◌≡◌, ℕ, List, MatchOption};
ghost use Rattle.lu_dir.specs.Loading.{texts};
ghost use Rattle.lu_command.specs.Commands.{Meaning, Means};
ghost use Rattle.lu_command.specs.Asking.{folder_meant};
ghost use Rattle.lu_command.specs.Meanings.{meaning_of};

use crate::words::{dir_alone, dir_and_compound, dir_and_segment, dir_and_term, dir_term_and_from};

/// What the words of a call ask for.
#[derive(Clone, Copy, Debug, PartialEq, Eq)]
pub enum Command<'a> {
    /// Print the field table of the segment in the folder.
    Fields {
        dir: &'a str,
        segment: &'a str,
    },
    /// Print the stored documents of the segment in the folder.
    Docs {
        dir: &'a str,
        segment: &'a str,
    },
    /// Say whether the newest commit of the folder stands.
    Check {
        dir: &'a str,
    },
    /// Print what the segments of the folder's current commit mean.
    Show {
        dir: &'a str,
    },
    /// Add a segment of the documents of the input to the folder, as one file where that is asked for.
    Build {
        dir: &'a str,
        compound: bool,
    },
    /// Delete the documents of the term with this text in the field of this name from the folder.
    Delete {
        dir: &'a str,
        field: &'a str,
        text: &'a str,
    },
    /// Print the documents of the term with this text in the field of this name that are not below this one.
    Postings {
        dir: &'a str,
        field: &'a str,
        text: &'a str,
        from: u32,
    },
    /// Put one segment of all live documents in place of all segments of the folder, as one file where that is asked for.
    Merge {
        dir: &'a str,
        compound: bool,
    },
}

impl<'a> Command<'a> {
    /// What the words after the program's name mean; `None` exactly where they have no meaning. Takes no memory.
    pub fn of(words: &'a [String]) -> Option<Command<'a>>
        ensures { MatchOption result
            ((meaning : Meaning) → ¬ Means (texts words.now) meaning)
            (λ command. Means (texts words.now) (meaning_of command)) }
    {
        let (name, rest) = words.split_first()?;
        if name.as_str() == "check" {
            let dir = dir_alone(rest)?;
            return Some(Command::Check { dir });
        }
        if name.as_str() == "show" {
            let dir = dir_alone(rest)?;
            return Some(Command::Show { dir });
        }
        if name.as_str() == "build" {
            let (dir, compound) = dir_and_compound(rest)?;
            return Some(Command::Build { dir, compound });
        }
        if name.as_str() == "merge" {
            let (dir, compound) = dir_and_compound(rest)?;
            return Some(Command::Merge { dir, compound });
        }
        if name.as_str() == "delete" {
            let (dir, field, text) = dir_and_term(rest)?;
            return Some(Command::Delete { dir, field, text });
        }
        if name.as_str() == "postings" {
            let (dir, field, text, from) = dir_term_and_from(rest)?;
            return Some(Command::Postings {
                dir,
                field,
                text,
                from,
            });
        }
        let (dir, segment) = dir_and_segment(rest)?;
        match name.as_str() {
            "fields" => Some(Command::Fields { dir, segment }),
            "docs" => Some(Command::Docs { dir, segment }),
            _ => None,
        }
    }

    /// The folder that the command asks for, as it stands in the words.
    pub fn dir(&self) -> &'a str
        ensures { result.now ≡ folder_meant (meaning_of self.now) }
    {
        match self {
            Command::Fields { dir, .. } => dir,
            Command::Docs { dir, .. } => dir,
            Command::Check { dir } => dir,
            Command::Show { dir } => dir,
            Command::Build { dir, .. } => dir,
            Command::Delete { dir, .. } => dir,
            Command::Postings { dir, .. } => dir,
            Command::Merge { dir, .. } => dir,
        }
    }
}
