use crate::scripts::all_end_so;
use obs_case::{Case, Kind};
use obs_case_csv::{Table, read_table, read_tables};
use std::alloc::Global;
use std::test::Fail;

// Whether a node is there with these flags.
fn has_node(case: &Case, name: &[u8], source: bool, absolute: bool) -> bool {
    match case.find_node(name) {
        Some(at) => match case.nodes().get(at as usize) {
            Some(node) => node.source == source && node.absolute == absolute,
            None => false,
        },
        None => false,
    }
}

const MARKED: &[(&[u8], bool, bool)] = &[
    (b"node,source,absolute\na,1,1\nb,0,0\n", true, false),
    (b"node,source,absolute\na,1,0\nb,0,1\n", false, true),
    (
        b"\xEF\xBB\xBFabsolute,node,source\n1,a,1\n1,b,0\n",
        true,
        true,
    ),
    (
        b"node,absolute,zone,source\na,0,1,1\nb,1,0,0\n",
        false,
        true,
    ),
    (
        b"node,source,\"absolute\"\r\na,1,\"1\"\r\nb,0,\"0\"\r\n",
        true,
        false,
    ),
    (b"node,source\na,1\nb,0\n", false, false),
    (b"node,source\na,1,1\nb,0,1,1\n", false, false),
    (b"node,source, absolute\na,1,1\nb,0,2\n", false, false),
    (b"node,source,Absolute\na,1,1\nb,0,\n", false, false),
    (b"node,source,absolutely\na,1,1\nb,0,1\n", false, false),
];

// Whether a table has two nodes, of which a is a source and b isn't, with these marks.
fn has_marks(alloc: Global, bytes: &[u8], a: bool, b: bool) -> bool {
    let mut case = Case::new(alloc);
    read_table(alloc, &mut case, Table::Nodes, bytes).is_ok()
        && case.nodes().len() == 2
        && has_node(&case, b"a", true, a)
        && has_node(&case, b"b", false, b)
}

#[test]
fn nodes_are_marked_under_the_column_absolute(rt: HostRuntime) {
    for case in MARKED {
        let (bytes, a, b) = *case;
        assert!(rt; has_marks(rt.alloc(), bytes, a, b));
    }
}

const CASES: &[u8] = b"== Faults of the column absolute.
+ n
node,source\na,1\nb,0\nc,0\nd,0
+ s
switch,from,to,closed
+ b
branch,from,to,inservice\nL1,a,b,1\nL2,b,c,1\nL3,c,d,1
+ m
meter,kind,at,inservice\nf1,flow,L1,1\nib,injection,b,1
+ c
candidate,kind,at,price\np1,flow,L2,0\np2,zero,c,1000000000
+ n
node,source,absolute,absolute\na,1,1,1
> 3 place tables n s b m c
fault\tnodes\t0\t3\tColumnTwice
+ n
absolute,node,source,absolute\na,1
> 3 place tables n s b m c
fault\tnodes\t0\t3\tColumnTwice
+ n
node,absolute,absolute\na,1,1
> 3 place tables n s b m c
fault\tnodes\t0\t2\tColumnMissing
+ n
absolute\n1
> 3 place tables n s b m c
fault\tnodes\t0\t2\tColumnMissing
+ n
node,source,absolute\na,1
> 3 place tables n s b m c
fault\tnodes\t1\t4\tShortRow
+ n
node,source,absolute\na,1,1\n,2
> 3 place tables n s b m c
fault\tnodes\t2\t4\tShortRow
+ n
absolute,node,source\n1,a
> 3 place tables n s b m c
fault\tnodes\t1\t4\tShortRow
+ n
node,source,absolute\na,1,
> 3 place tables n s b m c
fault\tnodes\t1\t6\tBadFlag
+ n
node,source,absolute\na,1,2
> 3 place tables n s b m c
fault\tnodes\t1\t6\tBadFlag
+ n
node,source,absolute\na,1, 1
> 3 place tables n s b m c
fault\tnodes\t1\t6\tBadFlag
+ n
node,source,absolute\na,2,1
> 3 place tables n s b m c
fault\tnodes\t1\t6\tBadFlag
+ n
node,source,absolute\n,1,2
> 3 place tables n s b m c
fault\tnodes\t1\t5\tBadName
+ n
node,source,absolute\na,1,0\na,0,true
> 3 place tables n s b m c
fault\tnodes\t2\t6\tBadFlag
+ n
node,source,absolute\na,1,0\na,0,1
> 3 place tables n s b m c
fault\tnodes\t2\t9\tNameTwice
== Only nodes have the column absolute. The other tables have no such column: theirs is passed over, and a session
= begins, of a case that is short.
+ n
node,source\na,1\nb,0\nc,0\nd,0
+ s
switch,from,to,closed
+ b
branch,from,to,inservice\nL1,a,b,1\nL2,b,c,1\nL3,c,d,1
+ m
meter,kind,at,inservice\nf1,flow,L1,1\nib,injection,b,1
+ c
candidate,kind,at,price\np1,flow,L2,0\np2,zero,c,1000000000
+ s
absolute,switch,from,to,closed,absolute\n7,S1,a,b,1
> 1 session tables n s b m with c
+ s
switch,from,to,closed
+ b
branch,from,to,inservice,absolute\nL1,a,b,1,x\nL2,b,c,1\nL3,c,d,1
> 1 session tables n s b m with c
+ b
branch,from,to,inservice\nL1,a,b,1\nL2,b,c,1\nL3,c,d,1
+ m
meter,kind,at,inservice,absolute,absolute\ni1,angle,a,1
> 1 session tables n s b m with c
+ m
meter,kind,at,inservice\nf1,flow,L1,1\nib,injection,b,1
+ c
candidate,kind,at,price,absolute\nc1,angle,a,7,2
> 1 session tables n s b m with c
== Faults of angles.
+ n
node,source\na,1\nb,0\nc,0\nd,0
+ s
switch,from,to,closed
+ b
branch,from,to,inservice\nL1,a,b,1\nL2,b,c,1\nL3,c,d,1
+ m
meter,kind,at,inservice\nf1,flow,L1,1\nib,injection,b,1
+ c
candidate,kind,at,price\np1,flow,L2,0\np2,zero,c,1000000000
+ m
meter,kind,at,inservice\ng1,angle,L1,1
> 3 place tables n s b m c
fault\tmeters\t1\t11\tUnknownPlace
+ m
meter,kind,at,inservice\ng1,Angle,a,1
> 3 place tables n s b m c
fault\tmeters\t1\t7\tBadKind
+ m
meter,kind,at,inservice\ng1,angle ,a,1
> 3 place tables n s b m c
fault\tmeters\t1\t7\tBadKind
+ m
meter,kind,at,inservice\nf1,flow,L1,1\nib,injection,b,1
+ c
candidate,kind,at,price\nc1,angle,L1,7
> 3 place tables n s b m c
fault\tcandidates\t1\t11\tUnknownPlace
+ c
candidate,kind,at,price\nc1,angles,a,7
> 3 place tables n s b m c
fault\tcandidates\t1\t7\tBadKind
";

#[test]
fn cases_of_the_column_absolute(rt: HostRuntime) -> Result<(), Fail> {
    all_end_so(&rt, rt.alloc(), 23, CASES)
}

// Whether a case has one meter, out of service, and it measures the angle at the second node.
fn has_angle_meter(case: &Case) -> bool {
    case.meters().len() == 1
        && match case.meters().first() {
            Some(meter) => meter.kind == Kind::Angle && meter.at == 1 && !meter.inservice,
            None => false,
        }
}

// Whether a case has one candidate, and it measures the angle at the second node.
fn has_angle_candidate(case: &Case) -> bool {
    case.candidates().len() == 1
        && match case.candidates().first() {
            Some(candidate) => candidate.kind == Kind::Angle && candidate.at == 1,
            None => false,
        }
}

fn are_angles_read(alloc: Global) -> bool {
    let nodes = b"node,source,absolute\na,1,1\nb,0,0\n";
    let switches = b"switch,from,to,closed\n";
    let branches = b"branch,from,to,inservice\nL1,a,b,1\n";
    let meters = b"meter,kind,at,inservice\ng1,angle,b,0\n";
    let candidates = b"candidate,kind,at,price\nc1,angle,b,4\n".as_slice();
    match read_tables(alloc, nodes, switches, branches, meters, Some(candidates)) {
        Ok(case) => {
            has_angle_meter(&case)
                && has_angle_candidate(&case)
                && has_node(&case, b"a", true, true)
                && has_node(&case, b"b", false, false)
        }
        Err(_) => false,
    }
}

#[test]
fn angles_stand_at_nodes(rt: HostRuntime) {
    assert!(rt; are_angles_read(rt.alloc()));
}
