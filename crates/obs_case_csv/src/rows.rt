// The rows of the tables, from their fields.
ghost use Rattle.std.specs.Prelude.{◌≡◌, ◌<◌, length, None, IfErr, OnErr, OnOk};
ghost use Rattle.obs_case.specs.Adds.{branch_of, candidate_of, meter_of, switch_of, with_branch, with_candidate, with_meter, with_node, with_switch};
ghost use Rattle.obs_case.specs.Tables.{branch_names, candidate_names, meter_names, node_names, switch_names};
ghost use Rattle.obs_case_csv.specs.inner.Columns.{Stops, ordered_fault, row_end, with_ordered};
ghost use Rattle.obs_case_csv.specs.Rows.{branch_row_fault, candidate_row_fault, flag, kind as kind_in, meter_row_fault, names_in, node_read, node_row_fault, price as price_in, switch_row_fault};

use crate::columns::Fields;
use crate::faults::{RowFault, Table};
use crate::fields::{read_flag, read_kind, read_price};
use obs_case::{AddFault, Case};
use obs_text::name_of;

/// Why a row isn't added.
#[derive(Clone, Copy)]
pub(crate) enum RowEnd {
    Fault(RowFault),
    NoMemory,
}

fn ended(fault: AddFault) -> RowEnd
    ensures end { result ≡ row_end fault }
{
    match fault {
        AddFault::NameTwice => RowEnd::Fault(RowFault::NameTwice),
        AddFault::UnknownNode => RowEnd::Fault(RowFault::UnknownNode),
        AddFault::UnknownPlace => RowEnd::Fault(RowFault::UnknownPlace),
        AddFault::TooMany => RowEnd::Fault(RowFault::TooMany),
        AddFault::NoMemory => RowEnd::NoMemory,
    }
}

fn add_node(case: &mut Case, node: &[u8], source: &[u8], absolute: &[u8]) -> Result<(), RowEnd>
    requires room { length (node_names case.old) < case.old.most }
    ensures accepted { OnOk result (node_row_fault case.old node.now source.now absolute.now ≡ None) }
    ensures refused { IfErr result (Stops (node_row_fault case.old node.now source.now absolute.now)) }
    ensures added { OnOk result (case.new ≡ with_node case.old (node_read node.now source.now absolute.now)) }
    ensures unchanged { OnErr result (case.new ≡ case.old) }
{
    let Some(node) = name_of(node) else {
        return Err(RowEnd::Fault(RowFault::BadName));
    };
    let Some(source) = read_flag(source) else {
        return Err(RowEnd::Fault(RowFault::BadFlag));
    };
    let Some(absolute) = read_flag(absolute) else {
        return Err(RowEnd::Fault(RowFault::BadFlag));
    };
    match case.add_node(node, source) {
        Ok(at) => {
            if absolute {
                case.set_absolute(at, true);
            }
            Ok(())
        }
        Err(fault) => Err(ended(fault)),
    }
}

fn add_switch(
    case: &mut Case,
    switch: &[u8],
    from: &[u8],
    to: &[u8],
    closed: &[u8],
) -> Result<(), RowEnd>
    requires room { length (switch_names case.old) < case.old.most }
    ensures accepted { OnOk result (switch_row_fault case.old switch.now from.now to.now closed.now ≡ None) }
    ensures refused { IfErr result (Stops (switch_row_fault case.old switch.now from.now to.now closed.now)) }
    ensures added { OnOk result
        (case.new ≡ with_switch case.old (switch_of case.old switch.now from.now to.now (flag closed.now))) }
    ensures unchanged { OnErr result (case.new ≡ case.old) }
{
    let Some(switch) = name_of(switch) else {
        return Err(RowEnd::Fault(RowFault::BadName));
    };
    let Some(closed) = read_flag(closed) else {
        return Err(RowEnd::Fault(RowFault::BadFlag));
    };
    match case.add_switch(switch, from, to, closed) {
        Ok(_) => Ok(()),
        Err(fault) => Err(ended(fault)),
    }
}

fn add_branch(
    case: &mut Case,
    branch: &[u8],
    from: &[u8],
    to: &[u8],
    inservice: &[u8],
) -> Result<(), RowEnd>
    requires room { length (branch_names case.old) < case.old.most }
    ensures accepted { OnOk result (branch_row_fault case.old branch.now from.now to.now inservice.now ≡ None) }
    ensures refused { IfErr result (Stops (branch_row_fault case.old branch.now from.now to.now inservice.now)) }
    ensures added { OnOk result
        (case.new ≡ with_branch case.old (branch_of case.old branch.now from.now to.now (flag inservice.now))) }
    ensures unchanged { OnErr result (case.new ≡ case.old) }
{
    let Some(branch) = name_of(branch) else {
        return Err(RowEnd::Fault(RowFault::BadName));
    };
    let Some(inservice) = read_flag(inservice) else {
        return Err(RowEnd::Fault(RowFault::BadFlag));
    };
    match case.add_branch(branch, from, to, inservice) {
        Ok(_) => Ok(()),
        Err(fault) => Err(ended(fault)),
    }
}

fn add_meter(
    case: &mut Case,
    meter: &[u8],
    kind: &[u8],
    at: &[u8],
    inservice: &[u8],
) -> Result<(), RowEnd>
    requires room { length (meter_names case.old) < case.old.most }
    ensures accepted { OnOk result (meter_row_fault case.old meter.now kind.now at.now inservice.now ≡ None) }
    ensures refused { IfErr result (Stops (meter_row_fault case.old meter.now kind.now at.now inservice.now)) }
    ensures added { OnOk result
        (case.new ≡ with_meter case.old (meter_of case.old meter.now (kind_in kind.now) at.now (flag inservice.now))) }
    ensures unchanged { OnErr result (case.new ≡ case.old) }
{
    let Some(meter) = name_of(meter) else {
        return Err(RowEnd::Fault(RowFault::BadName));
    };
    let Some(inservice) = read_flag(inservice) else {
        return Err(RowEnd::Fault(RowFault::BadFlag));
    };
    let Some(kind) = read_kind(kind) else {
        return Err(RowEnd::Fault(RowFault::BadKind));
    };
    match case.add_meter(meter, kind, at, inservice) {
        Ok(_) => Ok(()),
        Err(fault) => Err(ended(fault)),
    }
}

fn add_candidate(
    case: &mut Case,
    candidate: &[u8],
    kind: &[u8],
    at: &[u8],
    price: &[u8],
) -> Result<(), RowEnd>
    requires room { length (candidate_names case.old) < case.old.most }
    ensures accepted { OnOk result (candidate_row_fault case.old candidate.now kind.now at.now price.now ≡ None) }
    ensures refused { IfErr result (Stops (candidate_row_fault case.old candidate.now kind.now at.now price.now)) }
    ensures added { OnOk result (case.new ≡ with_candidate case.old
        (candidate_of case.old candidate.now (kind_in kind.now) at.now (price_in price.now))) }
    ensures unchanged { OnErr result (case.new ≡ case.old) }
{
    let Some(candidate) = name_of(candidate) else {
        return Err(RowEnd::Fault(RowFault::BadName));
    };
    let Some(kind) = read_kind(kind) else {
        return Err(RowEnd::Fault(RowFault::BadKind));
    };
    let Some(price) = read_price(price) else {
        return Err(RowEnd::Fault(RowFault::BadPrice));
    };
    match case.add_candidate(candidate, kind, at, price) {
        Ok(_) => Ok(()),
        Err(fault) => Err(ended(fault)),
    }
}

// Adds the row of these fields to a table that isn't full.
pub(crate) fn add_row(case: &mut Case, table: Table, fields: &Fields) -> Result<(), RowEnd>
    requires room { length (names_in table case.old) < case.old.most }
    ensures accepted { let f = fields.now in
        OnOk result (ordered_fault table case.old
        f.own.now f.second.now f.third.now f.fourth.now f.further.now ≡ None) }
    ensures refused { let f = fields.now in
        IfErr result (Stops (ordered_fault table case.old
        f.own.now f.second.now f.third.now f.fourth.now f.further.now)) }
    ensures added { let f = fields.now in
        OnOk result (case.new ≡ with_ordered table case.old
        f.own.now f.second.now f.third.now f.fourth.now f.further.now) }
    ensures unchanged { OnErr result (case.new ≡ case.old) }
{
    match table {
        Table::Nodes => add_node(case, fields.own, fields.second, fields.further),
        Table::Switches => add_switch(case, fields.own, fields.second, fields.third, fields.fourth),
        Table::Branches => add_branch(case, fields.own, fields.second, fields.third, fields.fourth),
        Table::Meters => add_meter(case, fields.own, fields.second, fields.third, fields.fourth),
        Table::Candidates => add_candidate(
            case,
            fields.own,
            fields.second,
            fields.third,
            fields.fourth,
        ),
    }
}
