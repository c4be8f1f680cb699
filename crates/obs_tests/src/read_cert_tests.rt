// Certificates: which bytes are one, and the first fault of those that are none.

use crate::scripts::{cut_at, front};
use obs_cert::{CertCode, CertEnd, CertFault, read_cert};
use obs_text::{InputFault, MOST_FILE_BYTES, whole};
use std::alloc::Global;
use std::process::Abort;
use std::test::Fail;

// How many claims the bytes are.
fn count(alloc: Global, bytes: &[u8]) -> Result<u32, CertEnd> {
    match read_cert(alloc, front(bytes, MOST_FILE_BYTES)) {
        Ok(cert) => Ok(cert.claims()),
        Err(end) => Err(end),
    }
}

// Whether the bytes are so many claims, or none and have a fault in this line, whose name stands behind it.
fn is_read_so(alloc: Global, bytes: &[u8], want: &[u8]) -> bool {
    let (number, name) = cut_at(want, b' ');
    match count(alloc, bytes) {
        Ok(claims) => name.is_empty() && whole(number) == Some(u64::from(claims)),
        Err(CertEnd::Fault(fault)) => {
            name == fault.code.name() && whole(number) == Some(u64::from(fault.line))
        }
        Err(CertEnd::NoMemory) => false,
    }
}

// Of a text what is wanted of some bytes, these bytes, and all behind a line feed. A bar ends each of the two.
pub(crate) fn first_case(text: &[u8]) -> (&[u8], &[u8], &[u8]) {
    let (want, behind) = cut_at(text, b'|');
    let (bytes, rest) = cut_at(behind, b'|');
    (
        want,
        bytes,
        rest.strip_prefix(b"\n".as_slice()).unwrap_or(rest),
    )
}

// Each case of a text is read so, and there are so many of them.
fn all_are_read_so(rt: &impl Abort, alloc: Global, cases: u32, text: &[u8]) {
    let mut rest = text;
    for _ in 0..cases {
        let (want, bytes, behind) = first_case(rest);
        assert!(rt; is_read_so(alloc, bytes, want));
        rest = behind;
    }
    assert!(rt; rest.is_empty());
}

#[test]
fn certificates(rt: HostRuntime) {
    all_are_read_so(
        &rt,
        rt.alloc(),
        9,
        b"1|bound\ta\t1\t1\ninside\tmeter\tf1\ninside\tmeter\tf2\nend\n|
1|cost\t3\nchosen\tp2\npair\tmeter\tf1\tL1\npair\tmeter\tib\tL2\npair\tcandidate\tp2\tL3\nlayer\t0\t3\t2\t0\ninside\tmeter\tf1\ninside\tmeter\tf2\ninside\tmeter\tib\ninside\tcandidate\tp1\nend\n|
0|end\n|
0|end|
0|end\r\n|
1|tree\ta\r\npair\tmeter\tf1\tL1\r\nend\r\n|
3|tree\ta\nbound\tb\t0\t0\ntree\tc\nend|
2|cost\t007\nlayer\t0\t1\t0\t0\nlayer\t1\t2\t0\t0\ncost\t0\nend|
1|shortfall\t2\t0\ninside\tcandidate\tp 1\nend\n|
",
    );
}

#[test]
fn bad_lines(rt: HostRuntime) {
    all_are_read_so(
        &rt,
        rt.alloc(),
        13,
        b"1 BadLine|\n|
1 BadLine|tree a\nend\n|
1 BadLine|tree\t\nend\n|
1 BadLine|tree\ta\t\nend\n|
1 BadLine|tree\nend\n|
1 BadLine|Tree\ta\nend\n|
1 BadLine|end\t\n|
1 BadLine|end\r\r\n|
1 BadLine|cost\t00000000000000000000\nend\n|
1 BadLine|cost\t-1\nend\n|
1 BadLine|inside\tbranch\tL1\n|
1 BadLine|layer\t0\t1\t2\t3\t4\n|
1 BadLine|status\n|
",
    );
}

#[test]
fn places(rt: HostRuntime) {
    all_are_read_so(
        &rt,
        rt.alloc(),
        10,
        b"1 OutOfPlace|pair\tmeter\tf1\tL1\nend\n|
1 OutOfPlace|inside\tmeter\tf1\nend\n|
1 OutOfPlace|chosen\tp1\nend\n|
1 OutOfPlace|layer\t0\t1\t0\t0\nend\n|
3 OutOfPlace|bound\ta\t1\t1\ninside\tmeter\tf1\npair\tmeter\tf1\tL1\nend\n|
3 OutOfPlace|tree\ta\npair\tmeter\tf1\tL1\nlayer\t0\t1\t0\t0\nend\n|
3 OutOfPlace|cost\t1\npair\tmeter\tf1\tL1\nchosen\tp1\nend\n|
2 OutOfPlace|cost\t1\ninside\tmeter\tf1\nend\n|
2 OutOfPlace|tree\ta\ninside\tmeter\tf1\nend\n|
3 OutOfPlace|cost\t1\nlayer\t0\t1\t0\t0\npair\tmeter\tf1\tL1\n|
",
    );
}

#[test]
fn ends(rt: HostRuntime) {
    all_are_read_so(
        &rt,
        rt.alloc(),
        8,
        b"0 NoEnd||
0 NoEnd|bound\ta\t1\t1\ninside\tmeter\tf1\n|
2 BadLine|tree\ta\nx\npair\tmeter\tf1\tL1|
2 OutOfPlace|tree\ta\nchosen\tc\nx|
2 AfterEnd|end\nend\n|
2 AfterEnd|end\n\n|
2 AfterEnd|end\ninside\tmeter\tf1\n|
1 BadLine|x\nend\nend\n|
",
    );
}

const CODES: &[CertCode] = &[
    CertCode::BadLine,
    CertCode::OutOfPlace,
    CertCode::NoEnd,
    CertCode::AfterEnd,
];

// Whether the code has this number and this name, which a blank parts.
fn is_told(code: CertCode, want: &[u8]) -> bool {
    let (number, name) = cut_at(want, b' ');
    whole(number) == Some(u64::from(code.code()))
        && code as u32 == code.code()
        && code.name() == name
}

#[test]
fn faults(rt: HostRuntime) {
    let mut rest = b"1 BadLine\n2 OutOfPlace\n3 NoEnd\n4 AfterEnd\n".as_slice();
    for code in CODES {
        let (want, behind) = cut_at(rest, b'\n');
        assert!(rt; is_told(*code, want));
        rest = behind;
    }
    assert!(rt; rest.is_empty());
}

// Whether a fault in a line becomes that of a part of the input which has this number and this name.
fn is_given(line: u32, code: CertCode, want: &[u8]) -> bool {
    let fault = CertFault { line, code };
    let given = InputFault::from(fault);
    let (number, name) = cut_at(want, b' ');
    given.part == b"certificate".as_slice()
        && given.name == name
        && given.place == line
        && whole(number) == Some(u64::from(given.code))
        && CertEnd::Fault(fault).fault() == Some(given)
}

#[test]
fn faults_become_input_faults(rt: HostRuntime) {
    assert!(rt; is_given(0, CertCode::NoEnd, b"3 NoEnd"));
    assert!(rt; is_given(7, CertCode::OutOfPlace, b"2 OutOfPlace"));
    assert!(rt; CertEnd::NoMemory.fault().is_none());
}

#[test]
fn a_certificate_of_a_megabyte(rt: HostRuntime) -> Result<(), Fail> {
    let mut bytes = Vec::from_slice(rt.alloc(), b"bound\ta\t1\t1\n")?;
    for _ in 0..65_536 {
        bytes.extend_from_slice(b"inside\tmeter\tf1\n")?;
    }
    bytes.extend_from_slice(b"end\n")?;
    assert!(rt; is_read_so(rt.alloc(), bytes.as_slice(), b"1"));
    Ok(())
}
