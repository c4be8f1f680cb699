// The inputs that several tests share: words of commands, small cases, and files that are long.

use obs_io::Entry;
use obs_text::Digits;
use std::alloc::Global;
use std::test::Fail;

// The words of commands over tables, without candidates and with them.
pub(crate) const SESSION: [&str; 6] = ["session", "tables", "n", "s", "b", "m"];

pub(crate) const SESSION_WITH: [&str; 8] = ["session", "tables", "n", "s", "b", "m", "with", "c"];

pub(crate) const VERIFY: [&str; 7] = ["verify", "tables", "n", "s", "b", "m", "cert"];

pub(crate) const VERIFY_WITH: [&str; 9] = [
    "verify", "tables", "n", "s", "b", "m", "with", "c", "cert",
];

pub(crate) const NO_SWITCHES: &[u8] = b"switch,from,to,closed\n";

pub(crate) const NO_METERS: &[u8] = b"meter,kind,at,inservice\n";

pub(crate) const NO_CANDIDATES: &[u8] = b"candidate,kind,at,price\n";

// Four buses in a row, two meters on the first branch, and an injection at the second bus.
pub(crate) const PATH_NODES: &[u8] = b"node,source\na,1\nb,0\nc,0\nd,0\n";

pub(crate) const PATH_BRANCHES: &[u8] = b"branch,from,to,inservice\nL1,a,b,1\nL2,b,c,1\nL3,c,d,1\n";

pub(crate) const PATH_METERS: &[u8] =
    b"meter,kind,at,inservice\nf1,flow,L1,1\nf2,flow,L1,1\nib,injection,b,1\n";

// Candidates for the path, of which that of price 3 completes it.
pub(crate) const PATH_CANDIDATES: &[u8] =
    b"candidate,kind,at,price\np1,flow,L2,0\np2,injection,c,3\np3,flow,L3,5\n";

// The plan that takes it, with one layer.
pub(crate) const PATH_PLAN: &[u8] =
    b"cost\t3\nchosen\tp2\npair\tmeter\tf1\tL1\npair\tmeter\tib\tL2\npair\tcandidate\tp2\tL3\nlayer\t0\t3\t2\t0\ninside\tmeter\tf1\ninside\tmeter\tf2\ninside\tmeter\tib\ninside\tcandidate\tp1\nend\n";

// The files of the path, without switches, and a last one.
pub(crate) fn path(last: &'static [u8]) -> [&'static [u8]; 6] {
    [
        b"",
        PATH_NODES,
        NO_SWITCHES,
        PATH_BRANCHES,
        PATH_METERS,
        last,
    ]
}

// A ring of three buses that is observable.
pub(crate) const TRIANGLE_NODES: &[u8] = b"node,source\na,1\nb,0\nc,0\n";

pub(crate) const TRIANGLE_BRANCHES: &[u8] =
    b"branch,from,to,inservice\nL1,a,b,1\nL2,b,c,1\nL3,c,a,1\n";

pub(crate) const TRIANGLE_METERS: &[u8] =
    b"meter,kind,at,inservice\nia,injection,a,1\nf1,flow,L1,1\n";

// A flow meter on the first branch.
pub(crate) const METER: &[u8] = b"meter,kind,at,inservice\nf1,flow,L1,1\n";

// A node table of so many rows with different names.
pub(crate) fn many_nodes(alloc: Global, rows: u32) -> Result<Vec<u8>, Fail> {
    let mut digits = Digits::new();
    let mut bytes = Vec::from_slice(alloc, b"node,source\n")?;
    for row in 0..rows {
        bytes.extend_from_slice(b"n")?;
        bytes.extend_from_slice(digits.text(u64::from(row)))?;
        bytes.extend_from_slice(b",0\n")?;
    }
    Ok(bytes)
}

// One byte more than a file may have.
pub(crate) fn too_long(alloc: Global) -> Result<Vec<u8>, Fail> {
    Ok(vec![in alloc; b'x'; 16_777_217]?)
}

// Four files that are no tables, of the words from 2 on, and one behind them that is too long.
pub(crate) fn too_long_behind(alloc: Global) -> Result<Vec<Entry>, Fail> {
    let mut entries = Vec::new(alloc);
    for word in 2..6 {
        entries.push(Entry {
            word,
            bytes: Vec::from_slice(alloc, b"x")?,
        })?;
    }
    entries.push(Entry {
        word: 6,
        bytes: too_long(alloc)?,
    })?;
    Ok(entries)
}
