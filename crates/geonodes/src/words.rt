ghost use Rattle.std.specs.Prelude.{IfOk, IfSome, IsUtf8};

use gn_memory::Memory;
use std::alloc::Global;
use std::env::FillError;
use std::rt::Env;

/// How many bytes there is room for at first where a word is read.
const ROOM: usize = 256;

/// The words behind the program's own name.
#[derive(Drop)]
pub(crate) struct Words {
    /// The words before the first that is no text.
    pub(crate) texts: Vec<String>,
    /// The first word that is no text, as it came.
    pub(crate) stray: Option<Vec<u8>>,
}

/// The word with that number as it came, however long it is, or none behind the last.
fn read_word<R: Env>(env: &R, alloc: Global, number: usize) -> Result<Option<Vec<u8>>, Memory> {
    let mut word = Vec::new(alloc);
    let mut room = ROOM;
    for _ in 0..usize::BITS {
        word.resize(room, 0u8)?;
        match env.arg(number, word.as_mut_slice()) {
            Ok(length) => {
                word.truncate(length);
                return Ok(Some(word));
            }
            Err(FillError::NotPresent) => return Ok(None),
            Err(FillError::TooLong) => room = room.saturating_mul(2),
        }
    }
    Err(Memory)
}

/// The words that the program is called with. Only want of memory is an error.
pub(crate) fn read_words<R: Env>(env: &R, alloc: Global) -> Result<Words, Memory>
    ensures { IfOk result (λ words. IfSome words.stray (λ word. ¬ IsUtf8 word.items)) }
{
    let mut texts = Vec::new(alloc);
    for number in 1..usize::MAX {
        let Some(word) = read_word(env, alloc, number)? else {
            return Ok(Words { texts, stray: None });
        };
        match String::from_utf8(word) {
            Ok(text) => texts.push(text)?,
            Err(error) => {
                let stray = Some(error.into_bytes());
                return Ok(Words { texts, stray });
            }
        }
    }
    Ok(Words { texts, stray: None })
}
