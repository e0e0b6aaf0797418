// Which handed values of a call are arguments, and which functions stand in a list.
use crate::arguments::{argument_at, is_result};
use argot_plain::{Callee, Kind};
use argot_roles::listed;
use argot_text::Sequence;
use std::test::Fail;

// `r2 = call r0(r1)`: index 0 is the result, 1 the argument, and 2 the reference by which the function value is called.
#[test]
fn a_function_value_is_no_argument(rt: HostRuntime) -> Result<(), Fail> {
    let mut to = Vec::new(rt.alloc());
    to.push(2)?;
    let mut args = Vec::new(rt.alloc());
    args.push(1)?;
    let call = Kind::Call {
        to: Sequence::from_vec(to),
        callee: Callee::Value(0),
        args: Sequence::from_vec(args),
    };
    assert!(rt; is_result(&call, 0) && !is_result(&call, 1));
    assert!(rt; argument_at(&call, 0).is_none());
    assert!(rt; argument_at(&call, 1) == Some(0));
    assert!(rt; argument_at(&call, 2).is_none());
    Ok(())
}

#[test]
fn flags_are_those_of_the_list(rt: HostRuntime) -> Result<(), Fail> {
    let mut numbers = Vec::new(rt.alloc());
    numbers.push(3)?;
    numbers.push(1)?;
    numbers.push(9)?;
    let flags = listed(rt.alloc(), &numbers, 5)?;
    assert!(rt;
        flags
            .as_slice()
            .iter()
            .copied()
            .eq([false, true, false, true, false].iter().copied())
    );
    Ok(())
}
