//! Maps from endpoints to shared values, their rows, and lists that are made item by item.

use cg_table::push_some;
use cg_testing::{endpoint, expect_eq};
use cg_types::{Row, SharedMap, owners_rise};
use std::alloc::Global;
use std::test::Fail;

// 20 at endpoint 2 and 30 at endpoint 3
fn two_values(alloc: Global) -> Result<SharedMap<u32>, Fail> {
    let one = SharedMap::new(alloc).put(alloc, endpoint(3), 30)?;
    Ok(one.put(alloc, endpoint(2), 20)?)
}

// The same, and 50 at endpoint 5.
fn three_values(alloc: Global) -> Result<SharedMap<u32>, Fail> {
    let two = two_values(alloc)?;
    Ok(two.put(alloc, endpoint(5), 50)?)
}

// The values of endpoints 1, 2 and 3.
fn got(map: &SharedMap<u32>) -> (Option<u32>, Option<u32>, Option<u32>) {
    (
        map.get(endpoint(1)).copied(),
        map.get(endpoint(2)).copied(),
        map.get(endpoint(3)).copied(),
    )
}

#[test]
fn what_is_put_is_got(rt: HostRuntime) -> Result<(), Fail> {
    let got = got(&two_values(rt.alloc())?.copy(rt.alloc())?);
    expect_eq!(got, (None, Some(20), Some(30)))
}

// The changes of the values: 21 at endpoint 2, and 40 at endpoint 4.
fn two_changes(alloc: Global) -> Result<Vec<Row<u32>>, Fail> {
    let first = Row::new(alloc, endpoint(2), 21)?;
    let second = Row::new(alloc, endpoint(4), 40)?;
    Ok(vec![in alloc; first.share()?, second]?)
}

// Tests whether a map has these rows and no others: the last part of an endpoint, and its value.
fn has_rows(map: &SharedMap<u32>, wanted: [(u16, u32); 4]) -> bool {
    let rows = map.rows();
    for (row, (last, value)) in rows.iter().zip(wanted) {
        if row.endpoint() != endpoint(last) || *row.value() != value {
            return false;
        }
    }
    rows.len() == wanted.len()
}

// The three values with the changes put: as rows that are moved in, and as borrowed rows.
fn changed(alloc: Global) -> Result<(SharedMap<u32>, SharedMap<u32>), Fail> {
    let map = three_values(alloc)?;
    let changes = two_changes(alloc)?;
    if !owners_rise(&changes) {
        return Err(Fail::from("the changes don't rise"));
    }
    let borrowed = map.with_rows(alloc, &changes)?;
    Ok((map.put_rows(alloc, changes)?, borrowed))
}

#[test]
fn a_row_is_put_in_place_of_one_with_its_endpoint(rt: HostRuntime) -> Result<(), Fail> {
    let wanted = [(2, 21), (3, 30), (4, 40), (5, 50)];
    let (put, borrowed) = changed(rt.alloc())?;
    expect_eq!(
        (has_rows(&put, wanted), has_rows(&borrowed, wanted)),
        (true, true)
    )
}

#[test]
fn an_item_is_put_at_the_end(rt: HostRuntime) -> Result<(), Fail> {
    let mut items = vec![in rt.alloc(); 1]?;
    push_some(&mut items, None)?;
    push_some(&mut items, Some(2))?;
    expect_eq!(items.as_slice(), [1, 2].as_slice())
}

// Tests whether the rows of two endpoints rise in this order.
fn rise(alloc: Global, first: u16, second: u16) -> Result<bool, Fail> {
    let first = Row::new(alloc, endpoint(first), 1)?;
    let second = Row::new(alloc, endpoint(second), 1)?;
    Ok(owners_rise(&vec![in alloc; first, second]?))
}

#[test]
fn rows_rise_strictly(rt: HostRuntime) -> Result<(), Fail> {
    for (first, second, wanted) in [(1, 2, true), (2, 2, false), (2, 1, false)] {
        expect_eq!(rise(rt.alloc(), first, second)?, wanted)?;
    }
    Ok(())
}
