// What is borrowed from a file.

use crate::cdf_read_tests::{full, ieee14};
use crate::scripts::front;
use obs_ieee_cdf::{CdfFault, Sections, branch_fields, bus_fields, sections};
use obs_text::MOST_FILE_BYTES;

fn is_between(text: &[u8], front: &[u8], back: &[u8]) -> bool {
    text.starts_with(front) && text.ends_with(back)
}

fn are_full(parts: &Sections) -> bool {
    parts.buses_from == 4 && parts.branches_from == 11 && parts.end.is_none()
}

fn are_open(parts: &Sections) -> bool {
    parts.buses.len() == 27
        && parts.buses_from == 3
        && parts.branches.is_empty()
        && parts.branches_from == 0
        && parts.end == Some(CdfFault::BusSectionOpen)
}

#[test]
fn borrowed_sections(rt: HostRuntime) {
    let parts = sections(front(full(), MOST_FILE_BYTES));
    assert!(rt; is_between(parts.buses, b"   1 Bus 1     HV", b"\n   \r\n"));
    assert!(rt; is_between(parts.branches, b"   7    1", b"0       0.0\r\n"));
    assert!(rt; are_full(&parts));
    assert!(rt; are_open(&sections(front(ieee14(), 65))));
}

#[test]
fn borrowed_fields(rt: HostRuntime) {
    let bus = bus_fields(b"   1 Bus 1     HV  1  1  3");
    assert!(rt; bus.number == b"1".as_slice() && bus.kind == b"3".as_slice());
    let branch = branch_fields(b"   1    2  1  1 1 0");
    assert!(rt; branch.from == b"1".as_slice() && branch.to == b"2".as_slice());
}
