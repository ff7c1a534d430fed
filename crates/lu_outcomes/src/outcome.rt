//! What a command comes to where nothing fails.
use crate::status::Status;
use lu_folder::Change;
use lu_types::Bytes;

/// What a command makes of the folder.
#[derive(Drop)]
pub enum Effect {
    /// It leaves every file as it is.
    Nothing,
    /// It makes a commit, and removes the names that this leaves without use.
    Commit(Change),
}

/// What a command comes to where nothing fails: its answer, the text that is printed with it, and what it makes of the
/// folder.
#[derive(Drop)]
pub struct Outcome {
    pub status: Status,
    pub text: Bytes,
    pub effect: Effect,
}

impl Outcome {
    ghost use Rattle.std.specs.Prelude.{◌≡◌};
    ghost use Rattle.lu_outcomes.specs.Outcomes.{without_effect as outcome_without_effect};

    /// The outcome with this answer and this text, that leaves the folder as it is.
    pub fn without_effect(status: Status, text: Vec<u8>) -> Outcome
        ensures { result ≡ outcome_without_effect status text.items }
    {
        Outcome {
            status,
            text: Bytes::new(text),
            effect: Effect::Nothing,
        }
    }
}
