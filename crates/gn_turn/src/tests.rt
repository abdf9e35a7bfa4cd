//! A diary under a turn, at which two writers take turns.
ghost use Rattle.std.specs.Prelude.{◌≡◌, ◌≤◌, ◌<◌, ◌^◌, ◌++◌, false, [], ◌∷◌, length, All, OnOk, OnErr};
ghost use Rattle.gn_turn.specs.Passes.{view_of, IsOf, IsSame};

use crate::{Guarded, Pass, Turn};
use std::alloc::Global;
use std::sync::Wait;
use std::test::Fail;
use std::thread::join_mut;

/// Its job is the largest number that may be written.
#[derive(Drop)]
struct Diary {
    largest: u8,
    entries: Vec<u8>,
}

impl Guarded for Diary {
    type Job = u8;

    type Event = u8;

    ghost job = { λ diary. diary.largest };

    ghost journal = { λ diary. diary.entries.items };

    ghost good = { λ diary. All (λ entry. entry ≤ diary.largest) diary.entries.items };

    fn events(&self) -> u64 {
        self.entries.len() as u64
    }
}

#[derive(Drop)]
struct Refused;

impl Diary {
    fn new(alloc: Global, largest: u8) -> Diary
        ensures { (result.largest ≡ largest) × (result.entries.items ≡ []) }
    {
        Diary {
            largest,
            entries: Vec::new(alloc),
        }
    }

    /// Writes an entry, where it is not too large and there is room for it.
    fn write(&mut self, entry: u8) -> Result<(), Refused>
        requires good { All (λ entry. entry ≤ self.old.largest) self.old.entries.items }
        ensures good { All (λ entry. entry ≤ self.new.largest) self.new.entries.items }
        ensures job { self.new.largest ≡ self.old.largest }
        ensures ok { OnOk result ((self.new.entries.items ≡ self.old.entries.items ++ entry ∷ []) × (length self.new.entries.items < 2 ^ 62)) }
        ensures err { OnErr result (self.new.entries.items ≡ self.old.entries.items) }
    {
        if entry > self.largest || self.entries.len() >= 1 << 61 {
            return Err(Refused);
        }
        match self.entries.push(entry) {
            Ok(()) => Ok(()),
            Err(_) => Err(Refused),
        }
    }
}

/// Writes an entry in one turn, and says whether it was written.
fn write_one<R: Wait>(rt: &R, turn: &Turn<Diary>, pass: &mut Pass<Diary>, entry: u8) -> bool
    requires own { IsOf turn.now pass.old }
    requires free { (view_of pass.old).holds ≡ false }
    ensures own { IsSame pass.old pass.new }
    ensures free { (view_of pass.new).holds ≡ false }
    ensures parts { (view_of pass.new).parts ≡ (view_of pass.old).parts }
{
    let mut diary = turn.take(rt, pass);
    let written = diary.write(entry);
    turn.give(pass, diary);
    written.is_ok()
}

/// Writes the entry a hundred times, each in a turn of its own, and says whether all were written.
fn write_many<R: Wait>(rt: &R, turn: &Turn<Diary>, pass: &mut Pass<Diary>, entry: u8) -> bool
    requires own { IsOf turn.now pass.old }
    requires free { (view_of pass.old).holds ≡ false }
    ensures own { IsSame pass.old pass.new }
    ensures free { (view_of pass.new).holds ≡ false }
    ensures parts { (view_of pass.new).parts ≡ (view_of pass.old).parts }
{
    let mut all = true;
    for _ in 0..100 {
        all &= write_one(rt, turn, pass, entry);
    }
    all
}

#[test]
fn a_diary_closes_with_what_was_written(rt: HostRuntime) -> Result<(), Fail> {
    let (turn, mut pass) = Turn::new(rt.alloc(), Diary::new(rt.alloc(), 9))
        .ok()
        .ok_or("no memory")?;
    assert!(rt; write_one(&rt, &turn, &mut pass, 7));
    assert!(rt; !write_one(&rt, &turn, &mut pass, 10));
    assert!(rt; write_one(&rt, &turn, &mut pass, 9));
    let diary = turn.close(&rt, pass);
    assert_eq!(rt; diary.entries.as_slice(), [7, 9].as_slice());
    Ok(())
}

#[test]
fn a_pass_sees_what_another_gave(rt: HostRuntime) -> Result<(), Fail> {
    let (turn, mut first) = Turn::new(rt.alloc(), Diary::new(rt.alloc(), 9))
        .ok()
        .ok_or("no memory")?;
    let mut second = turn.split(&mut first);
    write_one(&rt, &turn, &mut second, 3);
    let diary = turn.take(&rt, &mut first);
    assert_eq!(rt; diary.entries.as_slice(), [3].as_slice());
    turn.give(&mut first, diary);
    turn.join(&mut first, second);
    let diary = turn.close(&rt, first);
    assert_eq!(rt; diary.entries.as_slice(), [3].as_slice());
    Ok(())
}

#[test]
fn two_threads_write_in_turns(rt: HostRuntime) -> Result<(), Fail> {
    let (turn, mut first) = Turn::new(rt.alloc(), Diary::new(rt.alloc(), 9))
        .ok()
        .ok_or("no memory")?;
    let mut second = turn.split(&mut first);
    let (mut here, mut there) = (false, false);
    join_mut(
        &rt,
        &mut || here = write_many(&rt, &turn, &mut first, 1),
        &mut || there = write_many(&rt, &turn, &mut second, 2),
    );
    turn.join(&mut first, second);
    let diary = turn.close(&rt, first);
    assert!(rt; here && there);
    for entry in [1, 2] {
        assert_eq!(rt; diary.entries.iter().filter(|e| **e == entry).count(), 100);
    }
    Ok(())
}
