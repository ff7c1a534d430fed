//! The tokens of a text (format page, "Input").
ghost use Rattle.std.specs.Prelude.{◌≡◌, ◌<◌, ◌^◌, ◌++◌, length, vec_len, IfOk, OnOk};
ghost use Rattle.std.specs.Str.{chars};
ghost use Rattle.lu_input.specs.Tokens.{closed_token, tokens_of};

use lu_prims::OutOfMemory;
use lu_types::{Payload, Text, Token};
use std::alloc::Global;

/// The tokens of a text of fewer than 2^31 bytes: its longest runs of characters that are not white space (Unicode White_Space).
/// They have the positions 0, 1 and so on, start and end are counted in UTF-16 units, and there are no payloads.
pub fn tokens_of(alloc: Global, text: &str) -> Result<Vec<Token>, OutOfMemory>
    requires { length text.now < 2 ^ 31 }
    ensures { IfOk result (λ tokens. tokens.items ≡ tokens_of text.now) }
{
    let mut tokens = Vec::new(alloc);
    let mut begin = 0;
    let mut start = 0;
    let mut here = 0;
    for (place, c) in text.char_indices() {
        let after = here + c.len_utf16() as u32;
        if c.is_whitespace() {
            push_run(alloc, &mut tokens, &text[begin..place], start, here)?;
            begin = place + c.len_utf8();
            start = after;
        }
        here = after;
    }
    push_run(alloc, &mut tokens, &text[begin..], start, here)?;
    tokens.shrink_to_fit();
    Ok(tokens)
}

/// Appends the token of a run from one unit to another, at the position that comes next; an empty run is none.
fn push_run(
    alloc: Global,
    tokens: &mut Vec<Token>,
    run: &str,
    start: u32,
    end: u32,
) -> Result<(), OutOfMemory>
    requires { vec_len tokens.old < 2 ^ 32 }
    ensures { OnOk result (tokens.new.items ≡ tokens.old.items ++ closed_token (vec_len tokens.old) (chars run.now) start end) }
{
    if run.is_empty() {
        return Ok(());
    }
    let text = Text::from_str(alloc, run)?;
    let position = tokens.len() as u32;
    let payload = Payload::none();
    tokens.push(Token {
        text,
        position,
        start,
        end,
        payload,
    })?;
    Ok(())
}
