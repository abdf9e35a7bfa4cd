use super::*;
use std::alloc::Global;
use std::process::Abort;

/// Truths up to the last number of a list, and the list's mask.
fn mask_of(rt: &impl Abort, alloc: Global, numbers: &[u32]) -> Mask {
    let mut truths = Vec::new(alloc);
    for number in numbers {
        truths.resize(*number as usize, false).expect(rt, "memory");
        truths.push(true).expect(rt, "memory");
    }
    assert!(rt; truths.len() < 100);
    Mask::from_truths(alloc, &truths).expect(rt, "memory")
}

/// Threads may share masks and hand them over.
fn is_shared<T: Send + Sync>(_: &T) {}

fn assert_is(rt: &impl Abort, mask: &Mask, numbers: &[u32]) {
    assert_eq!(rt; mask.len() as usize, numbers.len());
    for (position, number) in numbers.iter().enumerate() {
        assert_eq!(rt; mask.nth(position as u32), Some(*number));
        assert!(rt; mask.has(*number));
    }
    assert_eq!(rt; mask.nth(mask.len()), None);
}

#[test]
fn masks_are_their_lists(rt: HostRuntime) {
    let a = rt.alloc();
    let rows: [(&[u32], &[u32], &[u32], &[u32]); 5] = [
        (&[], &[1], &[], &[]),
        (&[0, 2, 3], &[0, 1, 2], &[0, 2], &[3]),
        (&[5], &[5], &[5], &[]),
        (&[0, 1, 2, 3, 6, 7], &[1, 2, 7, 8], &[1, 2, 7], &[0, 3, 6]),
        (&[1, 2], &[0, 3], &[], &[1, 2]),
    ];
    for (one, other, both, rest) in &rows {
        let mask = mask_of(&rt, a, one);
        let other = mask_of(&rt, a, other);
        assert_is(&rt, &mask, one);
        assert_is(&rt, &mask.and(a, &other).expect(&rt, "memory"), both);
        assert_is(&rt, &mask.minus(a, &other).expect(&rt, "memory"), rest);
    }
    let mask = mask_of(&rt, a, &[0, 2, 3]);
    is_shared(&mask);
    let parts = mask.chunks(a, 2).expect(&rt, "memory");
    assert_eq!(rt; parts.len(), 2);
    assert_is(&rt, &parts[0], &[0, 2]);
    assert_is(&rt, &parts[1], &[3]);
    let none = mask_of(&rt, a, &[]).chunks(a, 3).expect(&rt, "memory");
    assert!(rt; none.is_empty());
    let four = Mask::all(a, 4).expect(&rt, "memory");
    assert_is(&rt, &four.minus(a, &mask).expect(&rt, "memory"), &[1]);
}

#[test]
fn long_masks_are_short_lists_of_segments(rt: HostRuntime) {
    let a = rt.alloc();
    let last = u32::MAX - 1;
    let all = Mask::all(a, u32::MAX).expect(&rt, "memory");
    assert_eq!(rt; all.len(), u32::MAX);
    assert!(rt; all.has(last) && !all.has(u32::MAX));
    assert_eq!(rt; all.nth(last), Some(last));
    assert_eq!(rt; all.nth(u32::MAX), None);
    let front = Mask::all(a, last).expect(&rt, "memory");
    assert_is(&rt, &all.minus(a, &front).expect(&rt, "memory"), &[last]);
    assert_is(&rt, &all.minus(a, &all).expect(&rt, "memory"), &[]);
    let half = Mask::all(a, 0x7fff_ffff).expect(&rt, "memory");
    let parts = half.chunks(a, 0x4000_0000).expect(&rt, "memory");
    assert_eq!(rt; parts.len(), 2);
    assert_eq!(rt; parts[0].len(), 0x4000_0000);
    assert_eq!(rt; parts[1].len(), 0x3fff_ffff);
    assert_eq!(rt; parts[1].nth(0), Some(0x4000_0000));
    assert_eq!(rt; half.and(a, &all).expect(&rt, "memory").len(), 0x7fff_ffff);
}
