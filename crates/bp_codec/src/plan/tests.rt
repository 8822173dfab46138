use super::*;
use crate::tests::building::{poly, record, sum_of_pair};
use bp_value::{OutOfMemory, Shape};
use std::alloc::Global;
use std::test::Fail;

/// How many nodes and tags the plan of a shape has.
fn counts(alloc: Global, shape: Result<Shape, OutOfMemory>) -> Result<(usize, usize), Fail> {
    let shape = shape?;
    shape.check()?;
    let plan = Plan::new(alloc, &shape)?;
    Ok((plan.nodes.len(), plan.tags.len()))
}

/// One for each shape, and for each case of a variant.
#[test]
fn a_node_for_each_shape_and_case(rt: HostRuntime) -> Result<(), Fail> {
    let alloc = rt.alloc();
    assert_eq!(rt; counts(alloc, record(alloc))?, (4, 0));
    assert_eq!(rt; counts(alloc, sum_of_pair(alloc))?, (5, 0));
    assert_eq!(rt; counts(alloc, poly(alloc))?, (4, 2));
    Ok(())
}
