//! What the words of the contract of `run` promise together. The functions do nothing.
ghost use Rattle.std.specs.Prelude.{◌≡◌, ℕ, List, Option, Some};
ghost use Rattle.lu_dir.specs.Faults.{Rose};
ghost use Rattle.lu_dir.specs.Files.{Files};
ghost use Rattle.lu_outcomes.specs.declared.outcome.Outcome.{Outcome};
ghost use Rattle.lu_command.specs.Commands.{Meaning, Means};
ghost use Rattle.lu_outcomes.specs.Outcomes.{IsProper};
ghost use Rattle.lu_command.specs.Due.{Due};
ghost use Rattle.lu_outcomes.specs.Answers.{Scene, Answers};
ghost use Rattle.lu_command.specs.Asking.{AskFor, CountsSteps, MakesCommit};
ghost use Rattle.lu_outcomes.specs.Printing.{Prints};

use lu_outcomes::outcome::Effect;
use lu_outcomes::status::Status;

/// Words have one meaning at most.
pub fn one_meaning()
    ensures { (words : List (List ℕ)) (one other : Meaning) → Means words one → Means words other → one ≡ other }
{}

/// Words, the files of a folder that tells them, and the bytes of an input that tells them determine the outcome: its
/// answer, its text, and its effect; but where the words ask for numbers of steps, which are bounded and not determined.
pub fn one_outcome()
    ensures { (words : List (List ℕ)) (files : Files) (input : List ℕ) (one other : Outcome)
        → ¬ AskFor CountsSteps words → Due words (Some files) (Some input) one → Due words (Some files) (Some input) other → one ≡ other }
{}

/// Whatever the words ask for, they, the files and the input determine the answer of the outcome, and its effect.
pub fn one_answer()
    ensures status { (words : List (List ℕ)) (files : Files) (input : List ℕ) (one other : Outcome)
        → Due words (Some files) (Some input) one → Due words (Some files) (Some input) other → one.status ≡ other.status }
    ensures effect { (words : List (List ℕ)) (files : Files) (input : List ℕ) (one other : Outcome)
        → Due words (Some files) (Some input) one → Due words (Some files) (Some input) other → one.effect ≡ other.effect }
{}

/// An outcome that is due has an answer that says neither that something failed nor that memory ended; only one with `Ok`
/// changes the folder, and it loses nothing; and none does but of words that ask for a commit.
pub fn outcomes_are_proper()
    ensures proper { (words : List (List ℕ)) (files : Option Files) (input : Option (List ℕ)) (outcome : Outcome)
        → Due words files input outcome → IsProper files outcome }
    ensures unchanged { (words : List (List ℕ)) (files : Option Files) (input : Option (List ℕ)) (outcome : Outcome)
        → ¬ AskFor MakesCommit words → Due words files input outcome → outcome.effect ≡ Effect.Nothing }
{}

/// What is printed with each answer of a call, where the folder's count of faults was the first of two numbers before and is the
/// last after it; and that the files of the folder are as before, whatever is answered, where the words ask for no commit.
pub fn what_answers_leave()
    ensures printed { (words : List (List ℕ)) (files : Option Files) (input : Option (List ℕ)) (first last : ℕ)
        (before after : Scene) (answer : Status)
        → Answers (Due words files input) (Rose first last) before after answer → Prints (Due words files input) answer before.taken after.taken }
    ensures files { (words : List (List ℕ)) (files : Option Files) (input : Option (List ℕ)) (first last : ℕ)
        (before after : Scene) (answer : Status)
        → ¬ AskFor MakesCommit words → Answers (Due words files input) (Rose first last) before after answer → after.files ≡ before.files }
{}
