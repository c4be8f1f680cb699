// Files that are no case, and their first fault; a session begins on the others.

use crate::scripts::all_end_so;
use std::test::Fail;

const CASES: &[u8] =
    b"== Places of tables. Where tables start and end. Without a fault there is no branch, or one from a bus to itself, and
= nothing is needed.
+ m
meter,kind,at,inservice
+ c
> 3 session matpower c m
fault\tmatpower\t0\t1\tNoBusTable
+ c
% mpc.bus = [
> 3 session matpower c m
fault\tmatpower\t0\t1\tNoBusTable
+ c
mpc.bus = % [
> 3 session matpower c m
fault\tmatpower\t0\t1\tNoBusTable
+ unended c
mpc.bus_name = [\n1 3\n]
> 3 session matpower c m
fault\tmatpower\t0\t1\tNoBusTable
+ unended c
mpc.bus(1) = [1 3]
> 3 session matpower c m
fault\tmatpower\t0\t1\tNoBusTable
+ unended c
a = 1; mpc.bus = [1 3]
> 3 session matpower c m
fault\tmatpower\t0\t1\tNoBusTable
+ unended c
mpc.bus = {[1 3]}
> 3 session matpower c m
fault\tmatpower\t0\t1\tNoBusTable
+ unended c
mpc.bus\n = [1 3]
> 3 session matpower c m
fault\tmatpower\t0\t1\tNoBusTable
+ unended c
mpc.bus=[
> 3 session matpower c m
fault\tmatpower\t0\t2\tBusTableOpen
+ c
mpc.bus=[1 3 % ]
> 3 session matpower c m
fault\tmatpower\t0\t2\tBusTableOpen
+ unended c
mpc.bus=[1 3\r
> 3 session matpower c m
fault\tmatpower\t0\t2\tBusTableOpen
+ unended c
mpc.bus=[1 3;1 3
> 3 session matpower c m
fault\tmatpower\t1\t7\tBusTwice
+ unended c
mpc.bus=[]
> 3 session matpower c m
fault\tmatpower\t0\t3\tNoBranchTable
+ unended c
mpc.bus=[]; mpc.branch=[];
> 3 session matpower c m
fault\tmatpower\t0\t3\tNoBranchTable
+ unended c
mpc.bus = [\n1 3\nmpc.branch = [\n1 1 0 0 0 0 0 0 0 0 1\n];
> 3 session matpower c m
fault\tmatpower\t3\t5\tBadBusNumber
+ c
mpc.bus=[1 3]\nmpc.branch=[1 1 0 0 0 0 0 0 0 0 1
> 3 session matpower c m
fault\tmatpower\t0\t4\tBranchTableOpen
+ unended c
mpc.bus=[]\nmpc.branch=[]
> 0 session matpower c m
+ unended c
mpc.branch=[1 1 0 0 0 0 0 0 0 0 1]\n \t mpc.bus\t= \t[1 3]x
> 0 session matpower c m
+ unended c
mpc.bus_name=[9 9];\nmpc.bus=[% ]\n1 3% ]\n];\nmpc.bus=[x\nmpc.branch=[]
> 0 session matpower c m
== Bus rows. Bus rows of a file whose branch table has no rows, and their fault.
+ m
meter,kind,at,inservice
+ unended c
mpc.bus=[1 3]\nmpc.branch=[]
> 0 session matpower c m
+ unended c
mpc.bus=[\n1. 3.0;2.000 01, ,,; ;\t\n 123456789 4 x ...]\nmpc.branch=[]
> 0 session matpower c m
+ unended c
mpc.bus=[1e3 3]\nmpc.branch=[]
> 3 session matpower c m
fault\tmatpower\t1\t5\tBadBusNumber
+ unended c
mpc.bus=[-1 3]\nmpc.branch=[]
> 3 session matpower c m
fault\tmatpower\t1\t5\tBadBusNumber
+ unended c
mpc.bus=[1.50 3]\nmpc.branch=[]
> 3 session matpower c m
fault\tmatpower\t1\t5\tBadBusNumber
+ unended c
mpc.bus=[1.0.0 3]\nmpc.branch=[]
> 3 session matpower c m
fault\tmatpower\t1\t5\tBadBusNumber
+ unended c
mpc.bus=[.0 3]\nmpc.branch=[]
> 3 session matpower c m
fault\tmatpower\t1\t5\tBadBusNumber
+ unended c
mpc.bus=[1234567890 3]\nmpc.branch=[]
> 3 session matpower c m
fault\tmatpower\t1\t5\tBadBusNumber
+ unended c
mpc.bus=[x x]\nmpc.branch=[]
> 3 session matpower c m
fault\tmatpower\t1\t5\tBadBusNumber
+ unended c
mpc.bus=[1 0]\nmpc.branch=[]
> 3 session matpower c m
fault\tmatpower\t1\t6\tBadType
+ unended c
mpc.bus=[1 5]\nmpc.branch=[]
> 3 session matpower c m
fault\tmatpower\t1\t6\tBadType
+ unended c
mpc.bus=[1 3.5]\nmpc.branch=[]
> 3 session matpower c m
fault\tmatpower\t1\t6\tBadType
+ unended c
mpc.bus=[1 3\r]\nmpc.branch=[]
> 3 session matpower c m
fault\tmatpower\t1\t6\tBadType
+ unended c
mpc.bus=[1 3\r\n\r\n]\nmpc.branch=[]
> 0 session matpower c m
+ unended c
mpc.bus=[\n\n1 2\n\n1 9]\nmpc.branch=[]
> 3 session matpower c m
fault\tmatpower\t5\t6\tBadType
+ unended c
mpc.bus=[1 2;007 2;7.0 2]\nmpc.branch=[]
> 3 session matpower c m
fault\tmatpower\t1\t7\tBusTwice
+ unended c
mpc.bus=[1 2\n2 1\n2 1;x]\nmpc.branch=[]
> 3 session matpower c m
fault\tmatpower\t3\t7\tBusTwice
+ unended c
mpc.bus=[1]\nmpc.branch=[]
> 3 session matpower c m
fault\tmatpower\t1\t10\tShortRow
+ unended c
mpc.bus=[x % 3\n]\nmpc.branch=[]
> 3 session matpower c m
fault\tmatpower\t1\t10\tShortRow
+ unended c
mpc.bus=[1 3\n2...\n1]\nmpc.branch=[]
> 3 session matpower c m
fault\tmatpower\t2\t10\tShortRow
== Branch rows. Branch rows between two buses, and their fault; the table starts on line 2. The first branch is in
= service, and the case short.
+ m
meter,kind,at,inservice
+ unended c
mpc.bus=[1 3;7 1]\nmpc.branch=[1 7 0 0 0 0 0 0 0 0 1]
> 1 session matpower c m
+ unended c
mpc.bus=[1 3;7 1]\nmpc.branch=[07 1. x x x x x x x 5 0.0 9 x]
> 0 session matpower c m
+ unended c
mpc.bus=[1 3;7 1]\nmpc.branch=[1 7 0 0 0 0 0 0 0 0]
> 3 session matpower c m
fault\tmatpower\t2\t10\tShortRow
+ unended c
mpc.bus=[1 3;7 1]\nmpc.branch=[x 9]
> 3 session matpower c m
fault\tmatpower\t2\t10\tShortRow
+ unended c
mpc.bus=[1 3;7 1]\nmpc.branch=[1 x 0 0 0 0 0 0 0 0 2]
> 3 session matpower c m
fault\tmatpower\t2\t5\tBadBusNumber
+ unended c
mpc.bus=[1 3;7 1]\nmpc.branch=[x 9 0 0 0 0 0 0 0 0 1]
> 3 session matpower c m
fault\tmatpower\t2\t5\tBadBusNumber
+ unended c
mpc.bus=[1 3;7 1]\nmpc.branch=[9 x 0 0 0 0 0 0 0 0 1]
> 3 session matpower c m
fault\tmatpower\t2\t5\tBadBusNumber
+ unended c
mpc.bus=[1 3;7 1]\nmpc.branch=[1 9 0 0 0 0 0 0 0 0 2]
> 3 session matpower c m
fault\tmatpower\t2\t8\tUnknownBus
+ unended c
mpc.bus=[1 3;7 1]\nmpc.branch=[9 1 0 0 0 0 0 0 0 0 1]
> 3 session matpower c m
fault\tmatpower\t2\t8\tUnknownBus
+ unended c
mpc.bus=[1 3;7 1]\nmpc.branch=[\n1 7 0 0 0 0 0 0 0 0 2\n9 9]
> 3 session matpower c m
fault\tmatpower\t3\t11\tBadStatus
+ unended c
mpc.bus=[1 3;7 1]\nmpc.branch=[1 7 0 0 0 0 0 0 0 1 x]
> 3 session matpower c m
fault\tmatpower\t2\t11\tBadStatus
";

#[test]
fn faults_of_matpower_files(rt: HostRuntime) -> Result<(), Fail> {
    all_end_so(&rt, rt.alloc(), 50, CASES)
}
