use gn_kernel::many;
use gn_registers::OfKind;
use gn_value::op::{IntegerMathOp, Op, Register};
use std::test::Fail;

#[test]
#[tactic(auto, unfolding(gn_value::specs::Operations::Takes, gn_value::specs::Operations::gives))]
fn divides_at_each_position(rt: HostRuntime) -> Result<(), Fail> {
    let registers = [
        Register::Int(vec![in rt.alloc(); 7, 7, i32::MIN]?),
        Register::Int(vec![in rt.alloc(); -2, 0, -1]?),
    ];
    let mut quotients = Register::Int(vec![in rt.alloc(); 1, 1, 1]?);
    let op = Op::IntegerMath {
        op: IntegerMathOp::Divide,
    };
    many(&op, &registers, &[0, 1], &mut quotients);
    assert_eq!(rt; i32::list(&quotients), [-3, 0, i32::MAX].as_slice());
    Ok(())
}
