use super::*;
use gn_io::{MemShelf, MemSink};
use std::collections::BTreeMap;
use std::env::FillError;
use std::process::Abort;
use std::rt::Env;
use std::test::Fail;

/// The words of a command line, behind the program's name.
#[derive(Drop)]
struct Line<'a> {
    words: &'a [&'a [u8]],
}

impl Env for Line<'_> {
    fn arg(&self, i: usize, buf: &mut [u8]) -> Result<usize, FillError> {
        if i == 0 {
            return Ok(0);
        }
        let Some(word) = self.words.get(i - 1) else {
            return Err(FillError::NotPresent);
        };
        if word.len() > buf.len() {
            return Err(FillError::TooLong);
        }
        buf[..word.len()].copy_from_slice(word);
        Ok(word.len())
    }

    fn var(&self, _name: &str, _buf: &mut [u8]) -> Result<usize, FillError> {
        Err(FillError::NotPresent)
    }

    fn var_at(&self, _i: usize, _buf: &mut [u8]) -> Result<usize, FillError> {
        Err(FillError::NotPresent)
    }
}

const LIFT: &str =
    r#"{"format":1,"nodes":[{"id":"up","kind":"set_position","in":{"geometry":{"from":"input","socket":"geometry"},"offset":["0","0","1"]}}],"output":{"from":"up","socket":"geometry"}}"#;

/// Runs a command line over a tree `t` and a mesh `o` in memory, and compares the exit status, the output, the messages and
/// the number of files asked for.
fn compare<R: Abort + Threads + Wait + Sync>(
    rt: &R,
    alloc: Global,
    words: &[&[u8]],
    code: u8,
    text: &str,
    said: &[u8],
    asked: usize,
) -> Result<(), Fail> {
    let mut files = BTreeMap::new(alloc);
    files.insert(
        String::from_str(alloc, "t")?,
        LIFT.as_bytes().to_vec(alloc)?,
    )?;
    files.insert(String::from_str(alloc, "o")?, b"v 0 0 0\n".to_vec(alloc)?)?;
    let mut shelf = MemShelf::new(alloc, files, Vec::new(alloc), Vec::new(alloc));
    let mut out = MemSink::new(alloc, Vec::new(alloc), 10000)?;
    let mut err = MemSink::new(alloc, Vec::new(alloc), 10000)?;
    let words = read_words(&Line { words }, alloc)?;
    let status = run_words(rt, alloc, &words, &mut shelf, &mut out, &mut err);
    assert_eq!(rt; status, ExitCode::from(code));
    assert_eq!(rt; out.held(), text.as_bytes());
    assert_eq!(rt; err.held(), said);
    assert_eq!(rt; shelf.calls().len(), asked);
    Ok(())
}

#[test]
fn words_that_are_texts_are_run(rt: HostRuntime) -> Result<(), Fail> {
    let eval = [b"eval".as_slice(), b"t", b"o"];
    compare(&rt, rt.alloc(), &eval, 0, "v 0 0 1\n", b"", 2)?;
    let check = [b"check".as_slice(), b"t"];
    compare(&rt, rt.alloc(), &check, 0, "ok\n", b"", 1)?;
    let absent = [b"check".as_slice(), b"\xC3\xA9"];
    compare(
        &rt,
        rt.alloc(),
        &absent,
        3,
        "",
        b"geonodes: absent: \xC3\xA9\n",
        1,
    )?;
    let usage = b"geonodes: usage: more words expected\n";
    compare(&rt, rt.alloc(), &[], 2, "", usage, 0)
}

#[test]
fn the_first_word_that_fits_no_command_is_named_whatever_it_is_made_of(
    rt: HostRuntime,
) -> Result<(), Fail> {
    let cases: [(&[&[u8]], &[u8]); 6] = [
        (&[b"\xFF"], b"geonodes: usage: unexpected \xFF\n"),
        (&[b"foo", b"\xFF"], b"geonodes: usage: unexpected foo\n"),
        (
            &[b"eval", b"t", b"\xFFo"],
            b"geonodes: usage: unexpected \xFFo\n",
        ),
        (
            &[b"check", b"t", b"o", b"\xFF"],
            b"geonodes: usage: unexpected o\n",
        ),
        (
            &[b"--help", b"\xE2\x82"],
            b"geonodes: usage: unexpected \xE2\x82\n",
        ),
        (
            &[b"eval", b"t", b"o", b"\xFE", b"\xFF"],
            b"geonodes: usage: unexpected \xFE\n",
        ),
    ];
    for (words, said) in cases.iter() {
        compare(&rt, rt.alloc(), words, 2, "", said, 0)?;
    }
    Ok(())
}

#[test]
fn a_long_word_is_named_whole(rt: HostRuntime) -> Result<(), Fail> {
    let alloc = rt.alloc();
    let mut said = b"geonodes: usage: unexpected ".to_vec(alloc)?;
    let mut word = Vec::new(alloc);
    for _ in 0..5000 {
        word.push(0xFFu8)?;
        said.push(0xFFu8)?;
    }
    said.push(b'\n')?;
    compare(&rt, alloc, &[word.as_slice()], 2, "", &said, 0)
}

#[test]
fn want_of_memory_for_the_words_is_reported(rt: HostRuntime) -> Result<(), Fail> {
    let alloc = rt.alloc();
    let mut err = MemSink::new(alloc, Vec::new(alloc), 100)?;
    assert_eq!(rt; refuse_words(&mut err), ExitCode::from(10));
    assert_eq!(rt; err.held(), b"geonodes: out of memory\n".as_slice());
    Ok(())
}
