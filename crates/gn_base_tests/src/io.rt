use gn_io::{Fetched, FolderShelf, Gate, MemShelf, MemSink, OpenGate, Put, Shelf, Sink, StdSink};
use std::alloc::Global;
use std::collections::BTreeMap;
use std::fs::{File, Permissions};
use std::io::{ErrorKind, Write};
use std::os::unix::fs::PermissionsExt;
use std::path::PathBuf;
use std::process::Abort;
use std::rt::Files;
use std::test::Fail;
use std::{env, fs, io, process};

/// Asks for each name within its limit, and compares the answer and the bytes.
fn ask_in_turn<S: Shelf>(
    rt: &impl Abort,
    alloc: Global,
    shelf: &mut S,
    cases: &[(&str, u64, Fetched, &str)],
) {
    let mut into = Vec::new(alloc);
    for (at, (name, limit, answer, bytes)) in cases.iter().enumerate() {
        assert_eq!(rt; shelf.fetch(name, *limit, &mut into), *answer, "call {at}");
        assert_eq!(rt; into.as_slice(), bytes.as_bytes(), "call {at}");
    }
}

/// Puts each piece, and compares the answer.
fn put_in_turn<S: Sink>(rt: &impl Abort, sink: &mut S, cases: &[(&str, Put)]) {
    for (at, (piece, answer)) in cases.iter().enumerate() {
        assert_eq!(rt; sink.put(piece.as_bytes()), *answer, "call {at}");
    }
}

/// A shelf with one file, `a`, of three bytes, and with these faults.
fn one_file(alloc: Global, fail: &[u64], miss: &[u64]) -> Result<MemShelf, Fail> {
    let mut files = BTreeMap::new(alloc);
    files.insert(String::from_str(alloc, "a")?, b"123".to_vec(alloc)?)?;
    let fail = fail.to_vec(alloc)?;
    let miss = miss.to_vec(alloc)?;
    Ok(MemShelf::new(alloc, files, fail, miss))
}

#[test]
fn a_shelf_in_memory_answers_by_number_name_and_limit(rt: HostRuntime) -> Result<(), Fail> {
    let alloc = rt.alloc();
    let mut shelf = one_file(alloc, &[2, 7], &[3, 7])?;
    let cases = [
        ("a", 3, Fetched::Whole, "123"),
        ("a", 3, Fetched::Failed, ""),
        ("a", 3, Fetched::Absent, ""),
        ("b", 3, Fetched::Absent, ""),
        ("a", 2, Fetched::TooLong { length: 3 }, ""),
        ("a", u64::MAX, Fetched::Whole, "123"),
        ("a", 3, Fetched::Failed, ""),
    ];
    ask_in_turn(&rt, alloc, &mut shelf, &cases);
    assert_eq!(rt; shelf.calls().len(), cases.len());
    Ok(())
}

#[test]
fn a_sink_in_memory_takes_what_its_list_and_its_room_allow(rt: HostRuntime) -> Result<(), Fail> {
    let alloc = rt.alloc();
    let fail = [(2u64, 1u64), (2, 9), (4, 9)].to_vec(alloc)?;
    let mut sink = MemSink::new(alloc, fail, 6)?;
    let cases = [
        ("abc", Put::All),
        ("de", Put::Failed { taken: 1 }),
        ("", Put::All),
        ("efg", Put::Failed { taken: 2 }),
        ("g", Put::Failed { taken: 0 }),
        ("", Put::All),
    ];
    put_in_turn(&rt, &mut sink, &cases);
    assert_eq!(rt; sink.held(), b"abcdef".as_slice());
    Ok(())
}

/// A path in the folder for temporary files, with the number of this process at its end.
fn temporary_path(rt: &HostRuntime) -> Result<PathBuf, Fail> {
    let alloc = rt.alloc();
    let name = format!(in alloc; "gn_io_{}", process::id(rt.process()))?;
    Ok(env::temp_dir(rt)?.join(alloc, name.as_str())?)
}

/// Asks a shelf of the current folder for each name.
fn ask_folder<R: AllocGlobal + Files + Abort>(rt: &R, cases: &[(&str, u64, Fetched, &str)]) {
    let mut shelf = FolderShelf::new(rt);
    ask_in_turn(rt, rt.alloc(), &mut shelf, cases);
}

/// Puts each piece into the file.
fn put_into(rt: &impl Abort, file: File, cases: &[(&str, Put)]) {
    let mut sink = StdSink::new(file);
    put_in_turn(rt, &mut sink, cases);
}

#[test]
fn a_file_keeps_what_is_put_into_it(rt: HostRuntime) -> Result<(), Fail> {
    let path = temporary_path(&rt)?;
    let file = path.as_str();
    let pieces = [("ab", Put::All), ("", Put::All), ("c", Put::All)];
    put_into(&rt, File::create(&rt, file)?, &pieces);
    put_into(
        &rt,
        File::open(&rt, file)?,
        &[("d", Put::Failed { taken: 0 })],
    );
    ask_folder(&rt, &[(file, 3, Fetched::Whole, "abc")]);
    fs::remove_file(&rt, file)?;
    Ok(())
}

#[test]
fn a_folder_gives_its_files_within_their_limits(rt: HostRuntime) -> Result<(), Fail> {
    let path = temporary_path(&rt)?;
    let below = path.join(rt.alloc(), "below")?;
    let file = path.as_str();
    ask_folder(
        &rt,
        &[
            (file, 9, Fetched::Absent, ""),
            (".", 9, Fetched::Failed, ""),
        ],
    );
    fs::write(&rt, file, "abc")?;
    let cases = [
        (file, 3, Fetched::Whole, "abc"),
        (file, u64::MAX, Fetched::Whole, "abc"),
        (file, 2, Fetched::TooLong { length: 3 }, ""),
        (below.as_str(), 9, Fetched::Failed, ""),
    ];
    ask_folder(&rt, &cases);
    fs::remove_file(&rt, file)?;
    Ok(())
}

// The system lets its superuser read every file.
#[test]
fn a_file_that_may_not_be_read_is_not_absent(rt: HostRuntime) -> Result<(), Fail> {
    let path = temporary_path(&rt)?;
    let file = path.as_str();
    fs::write(&rt, file, "abc")?;
    fs::set_permissions(&rt, file, Permissions::from_mode(0o200))?;
    let mut shelf = FolderShelf::new(&rt);
    let mut into = Vec::new(rt.alloc());
    let answer = shelf.fetch(file, 9, &mut into);
    assert!(rt; answer == Fetched::Failed || answer == Fetched::Whole);
    fs::remove_file(&rt, file)?;
    Ok(())
}

/// A writer that answers its writes and flushes by their number.
#[derive(Drop)]
struct Narrow {
    writes: u8,
    flushes: u8,
}

impl Write for Narrow {
    fn write(&mut self, bytes: &[u8]) -> io::Result<usize> {
        self.writes = self.writes.saturating_add(1);
        match self.writes {
            1 => Err(io::Error::from(ErrorKind::Interrupted)),
            2 | 5 => Ok(bytes.len().min(1)),
            4 => Ok(0),
            6 => Err(io::Error::from(ErrorKind::Other)),
            _ => Ok(bytes.len()),
        }
    }

    fn flush(&mut self) -> io::Result<()> {
        self.flushes = self.flushes.saturating_add(1);
        if self.flushes == 2 {
            return Err(io::Error::from(ErrorKind::Other));
        }
        Ok(())
    }
}

#[test]
fn a_writer_is_asked_until_it_has_all_or_fails(rt: HostRuntime) {
    let writer = Narrow {
        writes: 0,
        flushes: 0,
    };
    let mut sink = StdSink::new(writer);
    let cases = [
        ("abc", Put::All),
        ("de", Put::Failed { taken: 0 }),
        ("fg", Put::Failed { taken: 1 }),
        ("hi", Put::Failed { taken: 2 }),
        ("j", Put::All),
    ];
    put_in_turn(&rt, &mut sink, &cases);
}

fn pass_by_shared<G: Gate + Sync>(gate: &G) {
    gate.enter(1);
    gate.leave(1);
}

#[test]
fn the_open_gate_is_shared_and_lets_all_pass() {
    pass_by_shared(&OpenGate);
}
