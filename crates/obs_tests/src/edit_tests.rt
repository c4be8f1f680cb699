// Edits of each kind on a grid, forth and back, against sessions that begin anew.

use crate::grids::{Grid, make_grid, make_marked_rows};
use crate::reference_cases::{Tables, answers_anew};
use crate::tests::{Ended, outcome, taking};
use crate::worked::SESSION;
use obs_engine::Status;
use obs_text::{Digits, lines};
use std::alloc::Global;
use std::process::Abort;
use std::test::Fail;

// The words that turn a flag of a table and turn it back, and the letter before the numbers of its names.
#[derive(Clone, Copy)]
struct Words {
    forth: &'static [u8],
    back: &'static [u8],
    letter: &'static [u8],
}

// The tables behind the nodes, in order.
const TURNS: [Words; 3] = [
    Words {
        forth: b"close ",
        back: b"open ",
        letter: b"s",
    },
    Words {
        forth: b"trip ",
        back: b"restore ",
        letter: b"b",
    },
    Words {
        forth: b"lose ",
        back: b"regain ",
        letter: b"m",
    },
];

fn session(alloc: Global, grid: &Grid, changed: [&[u8]; 3], input: &[u8]) -> Result<Ended, Fail> {
    let [switches, branches, meters] = changed;
    let files = [b"".as_slice(), &grid.nodes, switches, branches, meters];
    outcome(alloc, &SESSION, &files, taking(input, 4096))
}

// Adds a line, with its flag turned where that is wanted.
fn add_line(text: &mut Vec<u8>, line: &[u8], is_turned: bool) -> bool {
    let (front, flag) = if !is_turned {
        (line, b"\n".as_slice())
    } else if let Some(front) = line.strip_suffix(b"0".as_slice()) {
        (front, b"1\n".as_slice())
    } else if let Some(front) = line.strip_suffix(b"1".as_slice()) {
        (front, b"0\n".as_slice())
    } else {
        return false;
    };
    text.extend_from_slice(front).is_ok() && text.extend_from_slice(flag).is_ok()
}

// Adds a table with the flag of a row turned. Each line ends with its flag.
fn add_turned(text: &mut Vec<u8>, bytes: &[u8], row: usize) -> bool {
    let mut at = 0_usize;
    for line in lines(bytes) {
        if !add_line(text, line, at == row.saturating_add(1)) {
            return false;
        }
        at = at.wrapping_add(1);
    }
    true
}

fn turned(alloc: Global, bytes: &[u8], row: usize) -> Result<Vec<u8>, Fail> {
    let mut text = Vec::new(alloc);
    if add_turned(&mut text, bytes, row) {
        Ok(text)
    } else {
        Err(Fail::from("no flag, or no memory"))
    }
}

fn turn(input: &mut Vec<u8>, word: &[u8], letter: &[u8], row: usize) -> bool {
    let mut digits = Digits::new();
    input.extend_from_slice(word).is_ok()
        && input.extend_from_slice(letter).is_ok()
        && input.extend_from_slice(digits.text(row as u64)).is_ok()
        && input.extend_from_slice(b"\n").is_ok()
}

// The edit that turns a row's flag.
fn edit(alloc: Global, word: &[u8], letter: &[u8], row: usize) -> Result<Vec<u8>, Fail> {
    let mut line = Vec::new(alloc);
    if turn(&mut line, word, letter, row) {
        Ok(line)
    } else {
        Err(Fail::from("no memory"))
    }
}

// What a session that begins with a row's flag turned answers to this edit.
fn answer_turned(
    alloc: Global,
    grid: &Grid,
    tables: [&[u8]; 3],
    table: usize,
    row: usize,
    edit: &[u8],
) -> Result<Ended, Fail> {
    let [switches, branches, meters] = tables;
    let now = turned(alloc, tables.get(table).ok_or("no table")?, row)?;
    let changed: [&[u8]; 3] = match table {
        0 => [&now, branches, meters],
        1 => [switches, &now, meters],
        _ => [switches, branches, &now],
    };
    session(alloc, grid, changed, edit)
}

// What it answers to the edit that turned it, which leaves its tables as they are.
fn answer_anew(
    alloc: Global,
    grid: &Grid,
    tables: [&[u8]; 3],
    table: usize,
    row: usize,
) -> Result<Ended, Fail> {
    let words = *TURNS.get(table).ok_or("no table")?;
    let line = edit(alloc, words.forth, words.letter, row)?;
    answer_turned(alloc, grid, tables, table, row, &line)
}

// Adds the edits that turn each row's flag and turn it back.
fn add_turns(input: &mut Vec<u8>, words: Words, rows: usize) -> bool {
    for row in 0..rows {
        if !(turn(input, words.forth, words.letter, row)
            && turn(input, words.back, words.letter, row))
        {
            return false;
        }
    }
    true
}

fn turns(alloc: Global, words: Words, rows: usize) -> Result<Vec<u8>, Fail> {
    let mut input = Vec::new(alloc);
    if add_turns(&mut input, words, rows) {
        Ok(input)
    } else {
        Err(Fail::from("no memory"))
    }
}

fn flagged(grid: &Grid) -> [&[u8]; 3] {
    [&grid.switches, &grid.branches, &grid.meters]
}

// Whether a session that begins with a row's flag turned answers so.
fn is_anew(
    alloc: Global,
    grid: &Grid,
    table: usize,
    row: usize,
    forth: &[u8],
) -> Result<bool, Fail> {
    let anew = answer_anew(alloc, grid, flagged(grid), table, row)?;
    Ok(lines(&anew.text).next() == Some(forth))
}

// Of a session's answers two are of each row. The second is this line, and the first, of each so many rows, is that of
// a session that begins with the tables as they are then.
fn rows_are_anew(
    alloc: Global,
    grid: &Grid,
    table: usize,
    rows: usize,
    each: usize,
    found: &[u8],
    line: &[u8],
) -> Result<bool, Fail> {
    let mut answers = lines(found);
    for row in 0..rows {
        let forth = answers.next().ok_or("no answer")?;
        let asked = each != 0 && row % each == 0;
        if asked && !is_anew(alloc, grid, table, row, forth)? || answers.next() != Some(line) {
            return Ok(false);
        }
    }
    Ok(answers.next().is_none())
}

// What a session answers to an edit that changes nothing: of each row's flag that was turned back.
fn answers_turned_back(
    alloc: Global,
    grid: &Grid,
    table: usize,
    rows: usize,
    each: usize,
    found: &[u8],
) -> Result<bool, Fail> {
    let first = session(alloc, grid, flagged(grid), b"regain m0\n")?;
    let line = lines(&first.text).next().ok_or("no answer")?;
    rows_are_anew(alloc, grid, table, rows, each, found, line)
}

// Each row's flag is turned and turned back in one session. Back it answers as at first, and forth, of each so many
// rows, as a session that begins with the tables as they are then.
fn answers_as_anew(
    rt: &impl Abort,
    alloc: Global,
    grid: &Grid,
    table: usize,
    rows: usize,
    each: usize,
) -> Result<(), Fail> {
    let input = turns(alloc, *TURNS.get(table).ok_or("no table")?, rows)?;
    let found = session(alloc, grid, flagged(grid), &input)?;
    assert!(rt; answers_turned_back(alloc, grid, table, rows, each, &found.text)?);
    assert!(rt; found.status == Status::Done || found.status == Status::Short);
    Ok(())
}

// Ten rows of ten nodes have 180 branches and meters, and a switch at the head of each row.
#[test]
fn edits_are_as_a_new_session(rt: HostRuntime) -> Result<(), Fail> {
    let grid = make_grid(rt.alloc(), 10, 3, 0)?;
    answers_as_anew(&rt, rt.alloc(), &grid, 0, 10, 1)?;
    answers_as_anew(&rt, rt.alloc(), &grid, 1, 180, 7)?;
    answers_as_anew(&rt, rt.alloc(), &grid, 2, 180, 7)
}

// Whether the line of a row ends with a set flag.
fn is_set(bytes: &[u8], row: usize) -> bool {
    let mut at = 0_usize;
    for line in lines(bytes) {
        if at == row.saturating_add(1) {
            return line.ends_with(b"1");
        }
        at = at.wrapping_add(1);
    }
    false
}

// The table behind the nodes that has this number.
fn table_of<'a>(tables: Tables<'a>, table: usize) -> &'a [u8] {
    match table {
        0 => tables.switches,
        1 => tables.branches,
        _ => tables.meters,
    }
}

// The tables with this one of that number.
fn with_table<'a>(tables: Tables<'a>, table: usize, now: &'a [u8]) -> Tables<'a> {
    match table {
        0 => Tables {
            switches: now,
            ..tables
        },
        1 => Tables {
            branches: now,
            ..tables
        },
        _ => Tables {
            meters: now,
            ..tables
        },
    }
}

// The words that turn the flag of a row and turn it back, as it is set.
fn words_of(words: Words, bytes: &[u8], table: usize, row: usize) -> Words {
    if is_set(bytes, row) == (table != 0) {
        words
    } else {
        Words {
            forth: words.back,
            back: words.forth,
            ..words
        }
    }
}

// After this edit, which turns the flag of a row, all answers are those of a session that begins with it so.
fn answers_turned(
    rt: &impl Abort,
    alloc: Global,
    tables: Tables<'_>,
    table: usize,
    row: usize,
    edit: &[u8],
) -> Result<(), Fail> {
    let now = turned(alloc, table_of(tables, table), row)?;
    answers_anew(rt, alloc, tables, edit, with_table(tables, table, &now))
}

fn row_turns_as_anew(
    rt: &impl Abort,
    alloc: Global,
    tables: Tables<'_>,
    table: usize,
    row: usize,
    words: Words,
) -> Result<(), Fail> {
    let words = words_of(words, table_of(tables, table), table, row);
    let line = edit(alloc, words.forth, words.letter, row)?;
    answers_turned(rt, alloc, tables, table, row, &line)
}

// Adds the edits that turn the flag of each row of a table forth and back.
fn add_all(all: &mut Vec<u8>, words: Words, bytes: &[u8], table: usize, rows: usize) -> bool {
    for row in 0..rows {
        let words = words_of(words, bytes, table, row);
        if !(turn(all, words.forth, words.letter, row)
            && turn(all, words.back, words.letter, row))
        {
            return false;
        }
    }
    true
}

// After each flag of a table was turned, all answers are those of a session that begins with it so, and after all
// were turned forth and back, those of the tables as they were.
fn turns_as_anew(
    rt: &impl Abort,
    alloc: Global,
    tables: Tables<'_>,
    table: usize,
    rows: usize,
) -> Result<(), Fail> {
    let words = *TURNS.get(table).ok_or("no table")?;
    for row in 0..rows {
        row_turns_as_anew(rt, alloc, tables, table, row, words)?;
    }
    let mut all = Vec::new(alloc);
    assert!(rt; add_all(&mut all, words, table_of(tables, table), table, rows));
    answers_anew(rt, alloc, tables, &all, tables)
}

// Three rows of three nodes, of which some have a source, and some a mark.
#[test]
fn edits_of_marked_rows_are_as_a_new_session(rt: HostRuntime) -> Result<(), Fail> {
    let grid = make_marked_rows(rt.alloc(), 3, 11)?;
    let tables = Tables {
        nodes: &grid.nodes,
        switches: &grid.switches,
        branches: &grid.branches,
        meters: &grid.meters,
        candidates: &grid.candidates,
    };
    turns_as_anew(&rt, rt.alloc(), tables, 0, 3)?;
    turns_as_anew(&rt, rt.alloc(), tables, 1, 12)?;
    turns_as_anew(&rt, rt.alloc(), tables, 2, 12)
}
