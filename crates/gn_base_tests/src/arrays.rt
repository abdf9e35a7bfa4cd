use gn_shared::{AtLimit, InUse, SharedArray, USERS};
use std::sync::atomic::AtomicU64;
use std::sync::atomic::Ordering::SeqCst;
use std::test::Fail;
use std::thread::{Threads, join, map_vec};

#[test]
fn a_handle_with_one_part_is_not_shared_again(rt: HostRuntime) -> Result<(), Fail> {
    let items = [7].to_vec(rt.alloc())?;
    let mut first: SharedArray<u64, 2> = SharedArray::new(items).ok().ok_or("no room")?;
    assert_eq!(rt; first.items(), [7].as_slice());
    let second = first.share().ok().ok_or("at its limit")?;
    assert_eq!(rt; second.items(), [7].as_slice());
    assert!(rt; first.share().is_err());
    assert_eq!(rt; first.write_beside(&second), InUse { users: 2 });
    assert_eq!(rt; first.write().err(), Some(InUse { users: 2 }));
    drop(second);
    first.write().ok().ok_or("in use")?.fill(9);
    assert_eq!(rt; first.items(), [9].as_slice());
    assert_eq!(rt; first.parts(), 2);
    assert!(rt; first.share().is_ok());
    Ok(())
}

struct Item<'a>(&'a AtomicU64);

impl Drop for Item<'_> {
    fn drop(self) {
        self.0.fetch_add(1, SeqCst);
        let Item(_) = self;
    }
}

#[test]
fn the_last_handle_drops_each_item_once(rt: HostRuntime) -> Result<(), Fail> {
    let drops = AtomicU64::new(0);
    let mut items = Vec::new(rt.alloc());
    items.push(Item(&drops))?;
    items.push(Item(&drops))?;
    let mut first: SharedArray<Item, USERS> = SharedArray::new(items).ok().ok_or("no room")?;
    let second = first.share().ok().ok_or("at its limit")?;
    let third = first.share().ok().ok_or("at its limit")?;
    drop(first);
    assert_eq!(rt; drops.load(SeqCst), 0);
    join(&rt, move || drop(second), move || drop(third));
    assert_eq!(rt; drops.load(SeqCst), 2);
    Ok(())
}

// A handle is sole from the moment at which `write` succeeds, and only then has a part to give.
fn answers(handle: &mut SharedArray<u64, 2>) -> bool {
    let sole = match handle.write() {
        Ok(items) => {
            items.fill(1);
            true
        }
        Err(refused) => {
            if refused.users != 2 {
                return false;
            }
            false
        }
    };
    handle.share().is_ok() == sole
}

// Asks both handles of an array at once, and drops the second while the first is asked.
fn two_threads(rt: &impl Threads, first: &mut SharedArray<u64, 2>) -> bool {
    let Ok(mut second) = first.share() else {
        return false;
    };
    let (here, there) = join(rt, || answers(first), move || answers(&mut second));
    here && there && first.write().is_ok()
}

#[test]
fn two_threads_write_and_drop(rt: HostRuntime) -> Result<(), Fail> {
    let items = [7].to_vec(rt.alloc())?;
    let mut first = SharedArray::new(items).ok().ok_or("no room")?;
    for _ in 0..10_000 {
        assert!(rt; two_threads(&rt, &mut first));
    }
    Ok(())
}

#[test]
fn many_threads_share_and_drop(rt: HostRuntime) -> Result<(), Fail> {
    for count in [0, 1_000_000] {
        let mut items = Vec::new(rt.alloc());
        items.resize(count, 3)?;
        let mut first: SharedArray<u64, USERS> = SharedArray::new(items).ok().ok_or("no room")?;
        let mut handles = Vec::new(rt.alloc());
        for _ in 0..64 {
            handles.push(first.share().ok().ok_or("at its limit")?)?;
        }
        let lens = map_vec(
            &rt,
            handles,
            &|mut handle| match handle.share() {
                Ok(other) => other.items().len(),
                Err(AtLimit) => usize::MAX,
            },
        )?;
        assert!(rt; lens.iter().all(|len| *len == count));
        first.write().ok().ok_or("in use")?.fill(4);
        assert!(rt; first.items().iter().all(|item| *item == 4));
    }
    Ok(())
}
