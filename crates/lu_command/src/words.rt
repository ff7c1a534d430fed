//! Options and arguments among the words of a call.
ghost use Rattle.std.specs.Prelude.{◌≡◌, ◌≢◌, List, ℕ, Bool, false, [], ◌∷◌, ◌++◌, filter, IsTrue, ◌↔◌, MatchOption, string_bytes, slice_get};
ghost use Rattle.std.specs.Option.{option_copied};
ghost use Rattle.std.specs.List.{before_first, after_first, list_any, position};
ghost use Rattle.lu_dir.specs.Loading.{texts};
ghost use Rattle.lu_command.specs.Words.{ends_options, is_option, options_in, arguments_in, options_asking, is_asked_for, AreFew, HasDir, HasDirAndCompound, HasDirAndSegment, HasDirAndTerm, IsNumber, IsFirst, HasDirTermAndFrom};

use lu_types::segment_number;

/// The argument of a command that takes a folder, and no options, from the words after its name.
pub(crate) fn dir_alone(words: &[String]) -> Option<&str>
    ensures { MatchOption result
        ((dir : List ℕ) → ¬ HasDir (texts words.now) dir)
        (λ dir. HasDir (texts words.now) dir.now) }
{
    let (ahead, behind) = around_end(words);
    if has_option(ahead) {
        return None;
    }
    let first = word_at(ahead, behind, 0)?;
    match word_at(ahead, behind, 1) {
        Some(_) => None,
        None => Some(first),
    }
}

/// No words, or one, or more.
#[derive(Clone, Copy, Debug, PartialEq, Eq)]
enum Few<'a> {
    Nothing,
    One(&'a str),
    More,
}

/// Whether the word is an option, or, where arguments are asked for, is none.
fn is_asked_for(word: &str, options: bool) -> bool
    ensures { result ≡ is_asked_for options word.now }
{
    if options {
        is_option(word)
    } else {
        !is_option(word)
    }
}

/// What was found of some words, and then of this one.
fn with_word<'a>(found: Few<'a>, word: &'a str, options: bool) -> Few<'a>
    ensures { (words : List (List ℕ)) → AreFew found.entry (filter (is_asked_for options) words)
        → AreFew result (filter (is_asked_for options) (words ++ word.now ∷ [])) }
{
    if is_asked_for(word, options) {
        return match found {
            Few::Nothing => Few::One(word),
            _ => Few::More,
        };
    }
    found
}

/// How many of the words are options, or, where arguments are asked for, how many are none; and which one is, where it is one.
fn found_among(words: &[String], options: bool) -> Few<'_>
    ensures { AreFew result (filter (is_asked_for options) (texts words.now)) }
{
    let mut found = Few::Nothing;
    for word in words {
        found = with_word(found, word.as_str(), options);
    }
    found
}

/// Whether one file is asked for in place of the parts; `None` where other options are there, or this one twice.
fn asks_for_compound(ahead: &[String]) -> Option<bool>
    ensures { MatchOption result
        ((compound : Bool) → filter is_option (texts ahead.now) ≢ options_asking compound)
        (λ compound. filter is_option (texts ahead.now) ≡ options_asking compound) }
{
    match found_among(ahead, true) {
        Few::Nothing => Some(false),
        Few::One(word) => {
            if word == "--compound" {
                Some(true)
            } else {
                None
            }
        }
        Few::More => None,
    }
}

/// The one word, where there is one and no other.
fn lone(words: &[String]) -> Option<&str>
    ensures { MatchOption result
        ((word : List ℕ) → texts words.now ≢ word ∷ [])
        (λ word. texts words.now ≡ word.now ∷ []) }
{
    if words.len() == 1 {
        Some(words[0].as_str())
    } else {
        None
    }
}

/// The one argument among the words before the end of the options, and those after it; `None` where it is not one.
fn lone_argument<'a>(ahead: &'a [String], behind: &'a [String]) -> Option<&'a str>
    ensures { MatchOption result
        ((dir : List ℕ) → filter (is_asked_for false) (texts ahead.now) ++ texts behind.now ≢ dir ∷ [])
        (λ dir. filter (is_asked_for false) (texts ahead.now) ++ texts behind.now ≡ dir.now ∷ []) }
{
    match found_among(ahead, false) {
        Few::Nothing => lone(behind),
        Few::One(dir) => { if behind.is_empty() { Some(dir) } else { None } }
        Few::More => None,
    }
}

/// The argument of a command that takes a folder and the option that asks for one file, from the words after its name.
pub(crate) fn dir_and_compound(words: &[String]) -> Option<(&str, bool)>
    ensures { MatchOption result
        ((dir : List ℕ) (compound : Bool) → ¬ HasDirAndCompound (texts words.now) dir compound)
        (λ pair. HasDirAndCompound (texts words.now) pair.0.now pair.1) }
{
    let (ahead, behind) = around_end(words);
    let compound = asks_for_compound(ahead)?;
    let dir = lone_argument(ahead, behind)?;
    Some((dir, compound))
}

/// The arguments of a command that takes a folder and a segment, and no options, from the words after its name.
pub(crate) fn dir_and_segment(words: &[String]) -> Option<(&str, &str)>
    ensures { MatchOption result
        ((dir segment : List ℕ) → ¬ HasDirAndSegment (texts words.now) dir segment)
        (λ pair. HasDirAndSegment (texts words.now) pair.0.now pair.1.now) }
{
    let (dir, segment) = two_arguments(words)?;
    segment_number(segment)?;
    Some((dir, segment))
}

/// The arguments of a command that takes a folder, the name of a field and a text, and no options, from the words after its name.
pub(crate) fn dir_and_term(words: &[String]) -> Option<(&str, &str, &str)>
    ensures { MatchOption result
        ((dir field text : List ℕ) → ¬ HasDirAndTerm (texts words.now) dir field text)
        (λ found. HasDirAndTerm (texts words.now) found.0.now found.1.now found.2.now) }
{
    let (ahead, behind) = around_end(words);
    if has_option(ahead) {
        return None;
    }
    let dir = word_at(ahead, behind, 0)?;
    let field = word_at(ahead, behind, 1)?;
    let text = word_at(ahead, behind, 2)?;
    match word_at(ahead, behind, 3) {
        Some(_) => None,
        None => Some((dir, field, text)),
    }
}

/// The most digits of the number of a document.
const MOST_DIGITS: usize = 19;

/// How many numbers a document may have: they are below this.
const DOCUMENT_LIMIT: u32 = 1 << 31;

/// Whether the word is one decimal digit or more, and not more than the most.
fn is_number(word: &str) -> bool
    ensures { IsTrue result ↔ IsNumber word.now }
{
    let bytes = word.as_bytes();
    let fits = bytes.len() >= 1 && bytes.len() <= MOST_DIGITS;
    fits && bytes.iter().all(|byte| matches!(byte, b'0'..=b'9'))
}

/// The number of a document that the word is, in decimal digits; `None` where it is none.
fn first_document(word: &str) -> Option<u32>
    ensures { MatchOption result
        ((from : ℕ) → ¬ IsFirst word.now from)
        (λ from. IsFirst word.now from) }
{
    if !is_number(word) {
        return None;
    }
    let Ok(from) = word.parse::<u32>() else {
        return None;
    };
    if from < DOCUMENT_LIMIT {
        Some(from)
    } else {
        None
    }
}

/// The arguments of a command that takes a folder, the name of a field, a text and a first document, and no options, from the
/// words after its name.
pub(crate) fn dir_term_and_from(words: &[String]) -> Option<(&str, &str, &str, u32)>
    ensures { MatchOption result
        ((dir field text : List ℕ) (from : ℕ) → ¬ HasDirTermAndFrom (texts words.now) dir field text from)
        (λ found. HasDirTermAndFrom (texts words.now) found.0.now found.1.now found.2.now found.3) }
{
    let (dir, field, text, number) = four_arguments(words)?;
    let from = first_document(number)?;
    Some((dir, field, text, from))
}

// The four arguments among words that are no options, where there are four and no option.
fn four_arguments(words: &[String]) -> Option<(&str, &str, &str, &str)>
    ensures { MatchOption result
        ((a b c d : List ℕ) → options_in (texts words.now) ≡ [] → arguments_in (texts words.now) ≢ a ∷ b ∷ c ∷ d ∷ [])
        (λ all. (options_in (texts words.now) ≡ []) × (arguments_in (texts words.now) ≡ all.0.now ∷ all.1.now ∷ all.2.now ∷ all.3.now ∷ [])) }
{
    let (ahead, behind) = around_end(words);
    if has_option(ahead) {
        return None;
    }
    let first = word_at(ahead, behind, 0)?;
    let second = word_at(ahead, behind, 1)?;
    let third = word_at(ahead, behind, 2)?;
    let fourth = word_at(ahead, behind, 3)?;
    match word_at(ahead, behind, 4) {
        Some(_) => None,
        None => Some((first, second, third, fourth)),
    }
}

// The two arguments among words that are no options, where there are two and no option.
fn two_arguments(words: &[String]) -> Option<(&str, &str)>
    ensures { MatchOption result
        ((first second : List ℕ) → options_in (texts words.now) ≡ [] → arguments_in (texts words.now) ≢ first ∷ second ∷ [])
        (λ pair. (options_in (texts words.now) ≡ []) × (arguments_in (texts words.now) ≡ pair.0.now ∷ pair.1.now ∷ [])) }
{
    let (before, after) = around_end(words);
    if has_option(before) {
        return None;
    }
    let first = word_at(before, after, 0)?;
    let second = word_at(before, after, 1)?;
    match word_at(before, after, 2) {
        Some(_) => None,
        None => Some((first, second)),
    }
}

// The word at a place, from 0, among some words and then some others.
fn word_at<'a>(words: &'a [String], others: &'a [String], place: usize) -> Option<&'a str>
    ensures { option_copied result ≡ slice_get (texts words.now ++ texts others.now) place }
{
    if place < words.len() {
        Some(words[place].as_str())
    } else {
        others.get(place - words.len()).map(|word| word.as_str())
    }
}

// The words before the first one that ends the options, and those after it.
fn around_end(words: &[String]) -> (&[String], &[String])
    ensures before { texts result.0.now ≡ before_first ends_options (texts words.now) }
    ensures after { texts result.1.now ≡ after_first ends_options (texts words.now) }
{
    match end_of_options(words) {
        Some(end) => {
            let (before, from_end) = words.split_at(end);
            let (_, after) = from_end.split_at(1);
            (before, after)
        }
        None => words.split_at(words.len()),
    }
}

// The place of the first word that ends the options.
fn end_of_options(words: &[String]) -> Option<usize>
    ensures { result ≡ position (λ word. ends_options (string_bytes word)) words.now }
{
    words.iter().position(|word| ends_options(word.as_str()))
}

// Whether one of the words is an option.
fn has_option(words: &[String]) -> bool
    ensures { result ≡ list_any (λ word. is_option (string_bytes word)) words.now }
{
    words.iter().any(|word| is_option(word.as_str()))
}

// Whether the word ends the options.
fn ends_options(word: &str) -> bool
    ensures { result ≡ ends_options word.now }
{
    word == "--"
}

// Whether the word is an option, where none before it ended the options.
fn is_option(word: &str) -> bool
    ensures { result ≡ is_option word.now }
{
    word.len() > 1 && word.starts_with("-")
}
