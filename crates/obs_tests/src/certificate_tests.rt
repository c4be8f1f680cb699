// What is printed is a certificate that holds: the answers to asks go through the checker.

use crate::grids::{Grid, make_grid};
use crate::scripts::{Run, all_end_so, ended, entries_of, nth_run};
use crate::tests::{Ended, QUIET, outcome_over, taking};
use crate::worked::VERIFY_WITH;
use obs_engine::Status;
use obs_io::Entry;
use obs_text::{Digits, lines};
use std::alloc::Global;
use std::process::Abort;
use std::test::Fail;

// Sessions without a line: a path with some meters or none, and each kind of candidate and of price; rings; one name in
// each table; two sources.
const SMALL: &[u8] = b"+ n
node,source\na,1\nb,0\nc,0\nd,0
+ s
switch,from,to,closed
+ b
branch,from,to,inservice\nL1,a,b,1\nL2,b,c,1\nL3,c,d,1
+ m
meter,kind,at,inservice\nf1,flow,L1,1\nf2,flow,L1,1\nib,injection,b,1
+ c
candidate,kind,at,price
> 1 session tables n s b m with c
+ c
candidate,kind,at,price\np1,flow,L2,0\np2,injection,c,3\np3,flow,L3,5
> 1 session tables n s b m with c
+ c
candidate,kind,at,price\np3,flow,L3,2\np2,injection,c,2\np1,injection,d,2
> 1 session tables n s b m with c
+ m
meter,kind,at,inservice
+ c
candidate,kind,at,price\np1,flow,L1,0\np2,flow,L2,0\np3,zero,d,0
> 1 session tables n s b m with c
+ c
candidate,kind,at,price\np1,flow,L1,1
> 1 session tables n s b m with c
+ n
node,source\na,1\nb,0\nc,0
+ b
branch,from,to,inservice\nL1,a,b,1\nL2,b,c,1\nL3,c,a,1
+ m
meter,kind,at,inservice\nia,injection,a,1\nf1,flow,L1,1
+ c
candidate,kind,at,price
> 0 session tables n s b m with c
+ m
meter,kind,at,inservice\nia,injection,a,0\nf1,flow,L1,1
+ c
candidate,kind,at,price\np1,flow,L1,1\np2,flow,L2,1\np3,flow,L3,1
> 1 session tables n s b m with c
= The same names in each table, of which some are quoted.
+ n
node,source\n\"a,a\",1\nb,0\nc,0
+ s
switch,from,to,closed\nb,b,c,0
+ b
branch,from,to,inservice\nb,\"a,a\",b,1\n\"a,a\",b,c,1
+ m
meter,kind,at,inservice\nb,flow,b,1
+ c
candidate,kind,at,price\nb,flow,\"a,a\",7
> 1 session tables n s b m with c
= A closed switch, a component that isn't energised, a loop, and two sources.
+ n
node,source\na,1\nb,0\nc,0\nd,0\ne,1\nf,0
+ s
switch,from,to,closed\ns,b,c,1\nt,e,a,0
+ b
branch,from,to,inservice\nL1,a,b,1\nL2,b,c,1\nL3,d,d,1\nL4,e,f,1\nL5,e,f,1
+ m
meter,kind,at,inservice\nf1,flow,L1,1\nf4,flow,L4,0\nie,zero,e,1\nd1,flow,L3,1
+ c
candidate,kind,at,price
> 0 session tables n s b m with c
";

// What the session of a run answers to lines of its own.
fn answer(alloc: Global, run: Run<'_>, lines: &[u8]) -> Result<Ended, Fail> {
    ended(alloc, run, taking(lines, 64))
}

// How many lines begin a claim.
fn count_claims(text: &[u8]) -> u64 {
    let mut count = 0_u64;
    for line in lines(text) {
        if line.starts_with(b"tree\t")
            || line.starts_with(b"bound\t")
            || line.starts_with(b"cost\t")
            || line.starts_with(b"shortfall\t")
        {
            count = count.wrapping_add(1);
        }
    }
    count
}

// What is said of a text as a certificate on the case of a run.
fn verdict(alloc: Global, run: Run<'_>, text: &[u8]) -> Result<Ended, Fail> {
    let mut entries = entries_of(alloc, run)?;
    let bytes = Vec::from_slice(alloc, text)?;
    entries.push(Entry { word: 8, bytes })?;
    outcome_over(alloc, &VERIFY_WITH, entries, QUIET)
}

// Whether the claims of a certificate all hold, as many as its lines begin.
fn says_valid(found: &Ended, claims: u64) -> bool {
    let mut digits = Digits::new();
    let rest = found.text.as_slice().strip_prefix(b"valid\t".as_slice());
    let number = rest.unwrap_or(b"").strip_suffix(b"\n".as_slice());
    found.status == Status::Done && number == Some(digits.text(claims))
}

// Each ask's answer is a certificate that holds.
fn are_valid(rt: &impl Abort, alloc: Global, run: Run<'_>) -> Result<(), Fail> {
    for line in lines(b"tree\nbound\ncert\nplace\n") {
        let asked = answer(alloc, run, line)?;
        let found = verdict(alloc, run, &asked.text)?;
        assert!(rt; says_valid(&found, count_claims(&asked.text)));
    }
    Ok(())
}

#[test]
fn answers_are_certificates_that_hold(rt: HostRuntime) -> Result<(), Fail> {
    for number in 0..9 {
        are_valid(&rt, rt.alloc(), nth_run(SMALL, number).ok_or("no run")?)?;
    }
    all_end_so(&rt, rt.alloc(), 9, SMALL)
}

// A placement is asked for again behind trees, islands and a whole report.
const ASKS: &[u8] = b"place\ntree\nplace\nislands\nplace\nreport\nplace\n";

// What sessions answer that are asked one of these lines each, together.
fn answers_apart(alloc: Global, run: Run<'_>) -> Result<Vec<u8>, Fail> {
    let mut text = Vec::new(alloc);
    for line in lines(ASKS) {
        let asked = answer(alloc, run, line)?;
        text.extend_from_slice(&asked.text)?;
    }
    Ok(text)
}

#[test]
fn placements_are_the_same_again(rt: HostRuntime) -> Result<(), Fail> {
    for number in 0..9 {
        let run = nth_run(SMALL, number).ok_or("no run")?;
        let text = answers_apart(rt.alloc(), run)?;
        let found = answer(rt.alloc(), run, ASKS)?;
        assert!(rt; found.text.as_slice() == text.as_slice());
    }
    Ok(())
}

// The claims of a ring of three buses with two meters are its tree.
#[test]
fn the_claims_of_a_ring_are_its_tree(rt: HostRuntime) -> Result<(), Fail> {
    all_end_so(
        &rt,
        rt.alloc(),
        1,
        b"+ n
node,source\na,1\nb,0\nc,0
+ s
switch,from,to,closed
+ b
branch,from,to,inservice\nL1,a,b,1\nL2,b,c,1\nL3,c,a,1
+ m
meter,kind,at,inservice\nia,injection,a,1\nf1,flow,L1,1
+ c
candidate,kind,at,price
+ input
cert
> 0 session tables n s b m with c
tree\ta\npair\tmeter\tia\tL3\npair\tmeter\tf1\tL1\nend
",
    )
}

// A file of a text.
fn put(text: &mut Vec<u8>, begin: &[u8], bytes: &[u8]) -> Result<(), Fail> {
    text.extend_from_slice(begin)?;
    text.extend_from_slice(bytes)?;
    Ok(())
}

// A session over the tables of a grid.
fn text_of(alloc: Global, grid: &Grid) -> Result<Vec<u8>, Fail> {
    let mut text = Vec::new(alloc);
    put(&mut text, b"+ n\n", &grid.nodes)?;
    put(&mut text, b"+ s\n", &grid.switches)?;
    put(&mut text, b"+ b\n", &grid.branches)?;
    put(&mut text, b"+ m\n", &grid.meters)?;
    put(&mut text, b"+ c\n", &grid.candidates)?;
    text.extend_from_slice(b"> 0 session tables n s b m with c\n")?;
    Ok(text)
}

// Grids with all meters in service, with none, and with each second, third or fourth one out.
#[test]
fn answers_on_grids_are_certificates_that_hold(rt: HostRuntime) -> Result<(), Fail> {
    for out in 0..5 {
        let grid = make_grid(rt.alloc(), 4, 9, out)?;
        let text = text_of(rt.alloc(), &grid)?;
        are_valid(&rt, rt.alloc(), nth_run(&text, 0).ok_or("no run")?)?;
    }
    Ok(())
}
