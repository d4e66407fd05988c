//! The use of variables.
use crate::texts::{order_of, written};
use data_use::{UseRow, data_use};
use flow_graph::build;
use il_core::{CheckedProc, List};
use std::alloc::Global;
use std::test::Fail;

/// The row of a place of which no fact holds.
fn unused(place: usize) -> UseRow {
    UseRow {
        place,
        read_first: false,
        overwritten: false,
        last_write: false,
        never_read: false,
        never_written: false,
        end_unwritten: false,
    }
}

/// The rows of a procedure.
fn rows_of(alloc: Global, proc: &CheckedProc) -> Result<List<UseRow>, Fail> {
    let graph = build(alloc, proc)?;
    let order = order_of(alloc, &graph)?;
    Ok(data_use(alloc, &graph, proc.places().as_slice(), order.as_slice())?)
}

/// The rows of the procedure with these declarations and this body.
fn rows_in(alloc: Global, declared: &str, body: &str) -> Result<List<UseRow>, Fail> {
    let checked = written(alloc, declared, body)?;
    rows_of(alloc, checked.procs().get(0).ok_or("no procedure")?)
}

#[test]
fn copies_read_and_write_each_place_in_turn(rt: HostRuntime) -> Result<(), Fail> {
    let declared = "IN a : 0 .. 9;INOUT b : 0 .. 9;OUT c : 0 .. 9;LOCAL d : 0 .. 9;";
    let rows = rows_in(rt.alloc(), declared, "d := a;c := b;b := d;")?;
    let wanted = [
        UseRow {
            read_first: true,
            never_written: true,
            end_unwritten: true,
            ..unused(0)
        },
        UseRow {
            read_first: true,
            ..unused(1)
        },
        unused(2),
        unused(3),
    ];
    assert_eq!(rt; rows.as_slice(), wanted.as_slice());
    Ok(())
}

#[test]
fn an_endless_loop_uses_nothing(rt: HostRuntime) -> Result<(), Fail> {
    let rows = rows_in(rt.alloc(), "OUT y : 0 .. 1;", "LOOP;SKIP;ENDLOOP;")?;
    let wanted = [UseRow {
        never_read: true,
        never_written: true,
        ..unused(0)
    }];
    assert_eq!(rt; rows.as_slice(), wanted.as_slice());
    Ok(())
}

#[test]
fn a_second_write_overwrites(rt: HostRuntime) -> Result<(), Fail> {
    let rows = rows_in(rt.alloc(), "LOCAL x : 0 .. 9;", "x := 1;x := 2;SKIP;")?;
    let wanted = [UseRow {
        overwritten: true,
        last_write: true,
        never_read: true,
        ..unused(0)
    }];
    assert_eq!(rt; rows.as_slice(), wanted.as_slice());
    Ok(())
}
