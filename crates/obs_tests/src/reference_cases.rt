// Tables of a case, what may be asked of it, and how a run answers.

use crate::scripts::{Run, file_of};
use crate::tests::{Ended, Outside, outcome, taking};
use crate::worked::{SESSION_WITH, VERIFY, VERIFY_WITH};
use obs_engine::Status;
use std::alloc::Global;
use std::process::Abort;
use std::test::Fail;

const REPORT: [&str; 6] = ["report", "tables", "n", "s", "b", "m"];

const PLACE: [&str; 7] = ["place", "tables", "n", "s", "b", "m", "c"];

pub(crate) const NO_BRANCHES: &[u8] = b"branch,from,to,inservice\n";

// The five tables of a case.
#[derive(Clone, Copy)]
pub(crate) struct Tables<'a> {
    pub(crate) nodes: &'a [u8],
    pub(crate) switches: &'a [u8],
    pub(crate) branches: &'a [u8],
    pub(crate) meters: &'a [u8],
    pub(crate) candidates: &'a [u8],
}

// The tables that stand before a run.
pub(crate) fn tables_of<'a>(run: Run<'a>) -> Tables<'a> {
    Tables {
        nodes: file_of(run.before, b"n").unwrap_or(b""),
        switches: file_of(run.before, b"s").unwrap_or(b""),
        branches: file_of(run.before, b"b").unwrap_or(b""),
        meters: file_of(run.before, b"m").unwrap_or(b""),
        candidates: file_of(run.before, b"c").unwrap_or(b""),
    }
}

// A command, with the lines of a session or a certificate. A session has the candidates too.
#[derive(Clone, Copy)]
pub(crate) enum Ask<'a> {
    Report,
    Place,
    Session(&'a [u8]),
    Verify(&'a [u8]),
    VerifyWith(&'a [u8]),
}

// How a run ends that is asked this.
pub(crate) fn ended(alloc: Global, tables: Tables<'_>, ask: Ask<'_>) -> Result<Ended, Fail> {
    ended_in(alloc, tables, ask, taking(b"", 9))
}

// The same, in pieces as long as these, with as much room for the output.
pub(crate) fn ended_in(
    alloc: Global,
    tables: Tables<'_>,
    ask: Ask<'_>,
    pieces: Outside<'_>,
) -> Result<Ended, Fail> {
    let none = b"".as_slice();
    let Tables {
        nodes,
        switches,
        branches,
        meters,
        candidates,
    } = tables;
    match ask {
        Ask::Report => {
            let files = [none, nodes, switches, branches, meters];
            outcome(alloc, &REPORT, &files, pieces)
        }
        Ask::Place => {
            let files = [none, nodes, switches, branches, meters, candidates];
            outcome(alloc, &PLACE, &files, pieces)
        }
        Ask::Session(input) => {
            let files = [none, nodes, switches, branches, meters, none, candidates];
            outcome(alloc, &SESSION_WITH, &files, Outside { input, ..pieces })
        }
        Ask::Verify(claims) => {
            let files = [none, nodes, switches, branches, meters, claims];
            outcome(alloc, &VERIFY, &files, pieces)
        }
        Ask::VerifyWith(claims) => {
            let files = [
                none, nodes, switches, branches, meters, none, candidates, claims,
            ];
            outcome(alloc, &VERIFY_WITH, &files, pieces)
        }
    }
}

// What the lines of a session print, and with them each answer to the present case.
pub(crate) fn told(alloc: Global, tables: Tables<'_>, edits: &[u8]) -> Result<Ended, Fail> {
    let mut input = Vec::from_slice(alloc, edits)?;
    input.extend_from_slice(b"status\ntree\nbound\nislands\ncritical\nplace\ncert\n")?;
    let none = b"".as_slice();
    let Tables {
        nodes,
        switches,
        branches,
        meters,
        candidates,
    } = tables;
    let files = [none, nodes, switches, branches, meters, none, candidates];
    outcome(alloc, &SESSION_WITH, &files, taking(&input, 9))
}

fn claims_hold(alloc: Global, tables: Tables<'_>, claims: &[u8]) -> Result<bool, Fail> {
    let found = ended(alloc, tables, Ask::Verify(claims))?;
    Ok(found.status == Status::Done && found.text.starts_with(b"valid\t"))
}

fn plan_holds(alloc: Global, tables: Tables<'_>, plan: &[u8]) -> Result<bool, Fail> {
    let found = ended(alloc, tables, Ask::VerifyWith(plan))?;
    Ok(found.status == Status::Done && found.text.as_slice() == b"valid\t1\n".as_slice())
}

// The certificates that it prints hold, that of a placement over its candidates.
pub(crate) fn certifies(rt: &impl Abort, alloc: Global, tables: Tables<'_>) -> Result<(), Fail> {
    let claims = ended(alloc, tables, Ask::Session(b"cert\n"))?;
    assert!(rt; claims_hold(alloc, tables, &claims.text)?);
    let placement = ended(alloc, tables, Ask::Place)?;
    assert!(rt; plan_holds(alloc, tables, &placement.text)?);
    Ok(())
}

// After these edits a session answers as one that begins with the tables as they are then.
pub(crate) fn answers_anew(
    rt: &impl Abort,
    alloc: Global,
    tables: Tables<'_>,
    edits: &[u8],
    now: Tables<'_>,
) -> Result<(), Fail> {
    let found = told(alloc, tables, edits)?;
    let anew = told(alloc, now, b"")?;
    assert!(rt; found.status == anew.status);
    assert!(rt; found.text.ends_with(&anew.text));
    Ok(())
}
