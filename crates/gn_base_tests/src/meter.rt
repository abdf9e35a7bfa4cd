use gn_shared::Meter;

#[derive(Drop)]
struct Seal;

#[test]
fn a_meter_that_was_split_and_joined_has_noted_all(rt: HostRuntime) {
    let mut meter = Meter::new(Seal);
    meter.note_run();
    let mut other = meter.split();
    other.note_run();
    other.note_copy();
    meter.join(other);
    assert_eq!(rt; meter.runs(), 2);
    assert_eq!(rt; meter.copies(), 1);
    assert_eq!(rt; meter.spend(Seal), (2, 1));
}
