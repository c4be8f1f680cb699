// The cases that a number of rows and a seed generate: that the definition means what was wanted, and that they are made.

use crate::rows::{has_branch, has_node};
use obs_case::{Case, Kind};
use obs_trial::{NoMemory, make};

fn has_meter(case: &Case, k: usize, name: &[u8], kind: Kind, at: u32) -> bool {
    match case.meters().get(k) {
        Some(meter) => {
            meter.name.bytes() == name && meter.kind == kind && meter.at == at && meter.inservice
        }
        None => false,
    }
}

fn has_counts(case: &Case, nodes: usize, branches: usize) -> bool {
    case.nodes().len() == nodes
        && case.branches().len() == branches
        && case.meters().len() == branches
        && case.switches().is_empty()
        && case.candidates().is_empty()
}

fn has_two_rows(case: &Case) -> bool {
    has_counts(case, 4, 4)
        && has_node(case, 0, b"n0", true)
        && has_node(case, 1, b"n1", false)
        && has_node(case, 3, b"n3", false)
        && has_branch(case, 0, b"b0", (0, 1), true)
        && has_branch(case, 1, b"b1", (0, 2), true)
        && has_branch(case, 2, b"b2", (1, 3), true)
        && has_branch(case, 3, b"b3", (2, 3), true)
}

fn has_meters_of_two_rows(case: &Case) -> bool {
    has_meter(case, 0, b"m0", Kind::Injection, 1)
        && has_meter(case, 1, b"m1", Kind::Injection, 0)
        && has_meter(case, 2, b"m2", Kind::Flow, 2)
        && has_meter(case, 3, b"m3", Kind::Injection, 2)
}

#[test]
fn two_rows(rt: HostRuntime) -> Result<(), NoMemory> {
    let case = make(rt.alloc(), 2, 1)?;
    assert!(rt; has_two_rows(&case) && has_meters_of_two_rows(&case));
    Ok(())
}

#[test]
fn the_largest(rt: HostRuntime) -> Result<(), NoMemory> {
    let case = make(rt.alloc(), 100, u64::MAX)?;
    let right = has_counts(&case, 10_000, 19_800)
        && has_branch(&case, 19_799, b"b19799", (9_998, 9_999), true);
    assert!(rt; right);
    Ok(())
}

#[test]
fn each_small_size(rt: HostRuntime) -> Result<(), NoMemory> {
    for n in 1..31_u32 {
        let case = make(rt.alloc(), n, 7)?;
        let rows = n as usize;
        assert!(rt; has_counts(&case, rows * rows, 2 * rows * (rows - 1)));
    }
    Ok(())
}
