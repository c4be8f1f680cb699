// The cases of trials, written as the trial is described, without obs_trial.

use obs_text::Digits;
use std::alloc::Global;
use std::test::Fail;

// The tables, and the lines of a session that loses and regains each meter. `drawn` is the number that draws change.
pub(crate) struct Grid {
    pub(crate) nodes: Vec<u8>,
    // An open switch in each row, between its first two nodes. A trial has none.
    pub(crate) switches: Vec<u8>,
    pub(crate) branches: Vec<u8>,
    pub(crate) meters: Vec<u8>,
    // A flow meter for each branch, at prices from 0 to 3.
    pub(crate) candidates: Vec<u8>,
    pub(crate) input: Vec<u8>,
    links: u64,
    out: u64,
    drawn: u64,
    // Whether nodes are marked, and every third meter measures an angle.
    marked: bool,
}

// Written out: so a caller's proof sees one call, and not the drop of each field.
impl Drop for Grid {
    fn drop(self) {
        let Grid {
            nodes: _,
            switches: _,
            branches: _,
            meters: _,
            candidates: _,
            input: _,
            links: _,
            out: _,
            drawn: _,
            marked: _,
        } = self;
    }
}

// Adds a letter and a number behind it, and says whether there was memory for them.
fn put(bytes: &mut Vec<u8>, front: &[u8], number: u64, rest: &[u8]) -> bool {
    let mut digits = Digits::new();
    bytes.extend_from_slice(front).is_ok()
        && bytes.extend_from_slice(digits.text(number)).is_ok()
        && bytes.extend_from_slice(rest).is_ok()
}

// Two numbers, each with what stands before it.
fn put_two(
    bytes: &mut Vec<u8>,
    front: &[u8],
    first: u64,
    middle: &[u8],
    second: u64,
    rest: &[u8],
) -> bool {
    put(bytes, front, first, b"") && put(bytes, middle, second, rest)
}

// What stands between the name of a meter and its place, and the place.
fn place_of(marked: bool, draw: u64, at: u64, from: u64, to: u64) -> (&'static [u8], u64) {
    if draw % 3 == 0 {
        (b",flow,b", at)
    } else if marked && draw % 3 == 2 {
        (b",angle,n", to)
    } else {
        (b",injection,n", if draw % 3 == 1 { from } else { to })
    }
}

// A branch between two nodes, and its meter.
fn link(grid: &mut Grid, from: u64, to: u64, rest: &[u8]) -> bool {
    let at = grid.links;
    grid.links = at.wrapping_add(1);
    grid.drawn = grid.drawn.wrapping_mul(1_103_515_245).wrapping_add(12345) % 2_147_483_648;
    let draw = grid.drawn / 65536;
    let (kind, place) = place_of(grid.marked, draw, at, from, to);
    let out = grid.out != 0 && at % grid.out == 0;
    let flag: &[u8] = if out { b",0\n" } else { b",1\n" };
    put(&mut grid.branches, b"b", at, b",")
        && put_two(&mut grid.branches, b"n", from, b",n", to, rest)
        && put_two(&mut grid.meters, b"m", at, kind, place, flag)
        && put_two(&mut grid.candidates, b"c", at, b",flow,b", at, b",")
        && put(&mut grid.candidates, b"", draw / 3 % 4, b"\n")
        && put_two(&mut grid.input, b"lose m", at, b"\nregain m", at, b"\n")
}

// Nothing yet.
fn empty(alloc: Global, seed: u64, out: u64, marked: bool) -> Grid {
    Grid {
        nodes: Vec::new(alloc),
        switches: Vec::new(alloc),
        branches: Vec::new(alloc),
        candidates: Vec::new(alloc),
        meters: Vec::new(alloc),
        input: Vec::new(alloc),
        links: 0,
        out,
        drawn: seed % 2_147_483_648,
        marked,
    }
}

fn put_heads(grid: &mut Grid, nodes: &[u8]) -> bool {
    grid.nodes.extend_from_slice(nodes).is_ok()
        && grid
            .switches
            .extend_from_slice(b"switch,from,to,closed\n")
            .is_ok()
        && grid
            .branches
            .extend_from_slice(b"branch,from,to,inservice\n")
            .is_ok()
        && grid
            .candidates
            .extend_from_slice(b"candidate,kind,at,price\n")
            .is_ok()
        && grid
            .meters
            .extend_from_slice(b"meter,kind,at,inservice\n")
            .is_ok()
}

// An open switch between two nodes.
fn switch(grid: &mut Grid, row: u64, from: u64, to: u64) -> bool {
    put(&mut grid.switches, b"s", row, b",")
        && put_two(&mut grid.switches, b"n", from, b",n", to, b",0\n")
}

// A node of so many rows, with its flags and the branches to the next node of its row and of its column. That to the next row has
// these last bytes.
fn put_node(grid: &mut Grid, rows: u64, at: u64, flags: &[u8], down: &[u8]) -> bool {
    put(&mut grid.nodes, b"n", at, flags)
        && (at % rows.max(1) == rows.wrapping_sub(1) || link(grid, at, at.wrapping_add(1), b",1\n"))
        && (at.wrapping_add(rows) >= rows.wrapping_mul(rows)
            || link(grid, at, at.wrapping_add(rows), down))
}

fn put_rows(grid: &mut Grid, rows: u64) -> bool {
    for row in 0..rows {
        let head = row.wrapping_mul(rows);
        if !switch(grid, row, head, head.wrapping_add(1)) {
            return false;
        }
        for column in 0..rows {
            let at = head.wrapping_add(column);
            let source = if at == 0 { b",1\n" } else { b",0\n" };
            if !put_node(grid, rows, at, source, b",1\n") {
                return false;
            }
        }
    }
    true
}

// So many rows of as many nodes. Each meter whose number is a multiple of `out` is out of service; of 0 none is.
pub(crate) fn make_grid(alloc: Global, rows: u64, seed: u64, out: u64) -> Result<Grid, Fail> {
    let mut grid = empty(alloc, seed, out, false);
    if put_heads(&mut grid, b"node,source\n") && put_rows(&mut grid, rows) {
        Ok(grid)
    } else {
        Err(Fail::from("no memory"))
    }
}

// Whether a node of such rows has a source, and whether it has a mark.
fn flags(row: u64, column: u64) -> &'static [u8] {
    if column == 1 && row % 2 == 0 {
        b",1,0\n"
    } else if column == 2 && row % 3 != 2 {
        b",0,1\n"
    } else {
        b",0,0\n"
    }
}

fn put_marked_rows(grid: &mut Grid, rows: u64) -> bool {
    for row in 0..rows {
        let head = row.wrapping_mul(rows);
        let is_last = row.wrapping_add(1) == rows;
        let next = if is_last { 0 } else { head.wrapping_add(rows) };
        if !switch(grid, row, head, next) {
            return false;
        }
        for column in 0..rows {
            let at = head.wrapping_add(column);
            if !put_node(grid, rows, at, flags(row, column), b",0\n") {
                return false;
            }
        }
    }
    true
}

// So many rows of as many nodes, each row a component: the branches from row to row are out of service, and a switch
// leads from the head of a row to that of the next. Every second row has a source, and two of three a mark.
pub(crate) fn make_marked_rows(alloc: Global, rows: u64, seed: u64) -> Result<Grid, Fail> {
    let mut grid = empty(alloc, seed, 0, true);
    if put_heads(&mut grid, b"node,source,absolute\n") && put_marked_rows(&mut grid, rows) {
        Ok(grid)
    } else {
        Err(Fail::from("no memory"))
    }
}
