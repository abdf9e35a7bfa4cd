ghost use Rattle.std.specs.Prelude.{◌≡◌, ◌++◌, List, IfOk, encode_utf8, string_bytes};
ghost use Rattle.gn_pointers.specs.Texts.{step_text, steps_text, pointer_text, escaped};
ghost use Rattle.gn_pointers.specs.Seen.{step_of, pointer_of};

use gn_memory::Memory;
use itoa::Buffer;
use std::alloc::Global;
use std::collections::VecDeque;

/// A step from a value to a part of it.
#[derive(Drop)]
pub enum Step {
    /// To an array's element, by its number from 0.
    Index(u64),
    /// To an object's member, by its key.
    Key(String),
}

/// Writes a character of a key: `~0` for `~` and `~1` for `/`.
#[tactic(auto, using(crate::proofs::Escaping::escaped_other))]
fn write_char(text: &mut String, c: char) -> Result<(), Memory>
    ensures { IfOk result (λ _. string_bytes text.new ≡ string_bytes text.old ++ escaped (encode_utf8 c)) }
{
    if c == '~' {
        text.push_str("~0")?;
        return Ok(());
    }
    if c == '/' {
        text.push_str("~1")?;
        return Ok(());
    }
    text.push(c)?;
    Ok(())
}

#[tactic(auto, using(crate::proofs::Escaping::escaped_pushed))]
fn write_key(text: &mut String, key: &str) -> Result<(), Memory>
    ensures { IfOk result (λ _. string_bytes text.new ≡ string_bytes text.old ++ escaped key.now) }
{
    for c in key.chars() {
        write_char(text, c)?;
    }
    Ok(())
}

fn write_step(text: &mut String, step: &Step) -> Result<(), Memory>
    ensures { IfOk result (λ _. string_bytes text.new ≡ string_bytes text.old ++ step_text (step_of step.now)) }
{
    text.push('/')?;
    match step {
        Step::Index(index) => {
            let mut buffer = Buffer::new();
            text.push_str(buffer.format(*index))?;
            Ok(())
        }
        Step::Key(key) => write_key(text, key),
    }
}

/// The JSON Pointer to a pointer; the top is one slash.
pub fn pointer_string(alloc: Global, pointer: &VecDeque<Step>) -> Result<String, Memory>
    ensures { IfOk result (λ text. string_bytes text ≡ pointer_text (pointer_of pointer.now)) }
{
    let mut text = String::new(alloc);
    if pointer.is_empty() {
        text.push('/')?;
        return Ok(text);
    }
    for step in pointer {
        write_step(&mut text, step)?;
    }
    Ok(text)
}
