// What no contract says of a session that stays: that it begins, and that its lines are answered.

use crate::scripts::{Run, nth_run};
use crate::tests::{entries, texts};
use crate::worked::{NO_METERS, NO_SWITCHES, PATH_CANDIDATES, SESSION, SESSION_WITH, path};
use obs_edit::Session;
use obs_engine::{Status, answer_one, begin_session};
use obs_io::{MemFiles, MemSink};
use obs_text::whole;
use std::alloc::Global;
use std::process::Abort;
use std::test::Fail;

fn sink(alloc: Global, room: usize) -> Result<MemSink, Fail> {
    Ok(
        MemSink::with_room(alloc, room, 5, Vec::new(alloc))
            .ok()
            .ok_or("no room")?,
    )
}

// Each of these calls owns one value, and has one place where it ends early.
fn begun_with_words(
    rt: &impl Abort,
    alloc: Global,
    words: &[String],
    files: &mut MemFiles,
) -> Result<Session, Fail> {
    let mut output = sink(alloc, 0)?;
    let session = begin_session(alloc, words, files, &mut output);
    assert!(rt; output.written().is_empty());
    match session {
        Ok(session) => Ok(session),
        Err(_) => Err(Fail::from("no session")),
    }
}

fn begun_with_files(
    rt: &impl Abort,
    alloc: Global,
    words: &[&str],
    files: &mut MemFiles,
) -> Result<Session, Fail> {
    let words = texts(alloc, words)?;
    begun_with_words(rt, alloc, &words, files)
}

fn held(alloc: Global, files: &[&[u8]]) -> Result<MemFiles, Fail> {
    let entries = entries(alloc, files)?;
    Ok(MemFiles::new(entries, 7, Vec::new(alloc)))
}

// A session that began with these files, and wrote nothing.
fn begun(rt: &impl Abort, alloc: Global, words: &[&str], files: &[&[u8]]) -> Result<Session, Fail> {
    let mut files = held(alloc, files)?;
    begun_with_files(rt, alloc, words, &mut files)
}

// A line has this reply, and with less room than for its text a front of it.
fn replies_in(
    rt: &impl Abort,
    alloc: Global,
    session: &mut Session,
    said: Run<'_>,
    room: usize,
) -> Result<(), Fail> {
    let fits = said.text.len() <= room;
    let mut output = sink(alloc, room)?;
    let status = answer_one(&mut output, session, said.words);
    let code = Some(u64::from(status.code()));
    assert!(rt; fits || status == Status::WriteFault);
    assert!(rt; !fits || code == whole(said.status));
    assert!(rt; !fits || output.written() == said.text);
    Ok(())
}

fn replies(
    rt: &impl Abort,
    alloc: Global,
    session: &mut Session,
    said: Run<'_>,
) -> Result<(), Fail> {
    replies_in(rt, alloc, session, said, 3)?;
    replies_in(rt, alloc, session, said, 1000)
}

// Of each run the words are a line that is said, and its end is the reply.
const SAID: &[u8] = b"> 1 place
cost\t3\nchosen\tp2\npair\tmeter\tf1\tL1\npair\tmeter\tib\tL2\npair\tcandidate\tp2\tL3\nlayer\t0\t3\t2\t0\ninside\tmeter\tf1\ninside\tmeter\tf2\ninside\tmeter\tib\ninside\tcandidate\tp1\nend
> 0 trip L3
ok\t2\t2
> 0 # critical
> 0 critical
critical\tib\nend
> 0 trip L4
refused\t6\tUnknownBranch
> 1 restore L3
ok\t2\t3
> 1
";

#[test]
fn lines_are_answered_one_by_one(rt: HostRuntime) -> Result<(), Fail> {
    let alloc = rt.alloc();
    let mut session = begun(&rt, alloc, &SESSION_WITH, &path_with_candidates())?;
    for number in 0..7 {
        let said = nth_run(SAID, number).ok_or("no line")?;
        replies(&rt, alloc, &mut session, said)?;
    }
    assert!(rt; nth_run(SAID, 7).is_none());
    Ok(())
}

// The files of the path, without switches, and its candidates behind the word `with`.
fn path_with_candidates() -> [&'static [u8]; 7] {
    let [_, nodes, switches, branches, meters, _] = path(b"");
    [b"", nodes, switches, branches, meters, b"", PATH_CANDIDATES]
}

// No session begins, and this is answered.
fn refuses_over(
    rt: &impl Abort,
    alloc: Global,
    words: &[String],
    files: &mut MemFiles,
    status: Status,
    text: &[u8],
) -> Result<(), Fail> {
    let mut output = sink(alloc, 1000)?;
    let found = begin_session(alloc, words, files, &mut output);
    assert!(rt; found.err() == Some(status));
    assert!(rt; output.written() == text);
    Ok(())
}

fn refuses(
    rt: &impl Abort,
    alloc: Global,
    words: &[String],
    files: &[&[u8]],
    status: Status,
    text: &[u8],
) -> Result<(), Fail> {
    let mut files = held(alloc, files)?;
    refuses_over(rt, alloc, words, &mut files, status, text)
}

#[test]
fn no_session_begins_with_a_fault(rt: HostRuntime) -> Result<(), Fail> {
    let files: [&[u8]; 5] = [b"", b"node,source\na,2\n", NO_SWITCHES, b"", NO_METERS];
    let words = texts(rt.alloc(), &SESSION)?;
    let text = b"fault\tnodes\t1\t6\tBadFlag\n";
    refuses(&rt, rt.alloc(), &words, &files, Status::InputFault, text)
}
