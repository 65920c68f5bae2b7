ghost use Rattle.std.specs.Prelude.{◌≡◌, true, IfOk, OnOk};
ghost use Rattle.voy_schema.specs.Lawful.{is_lawful_table};
ghost use Rattle.voy_event.specs.ByName.{key_order, name_at, row_order, with_place, with_places};

use std::alloc::{AllocError, Global};
use std::cmp::Ordering;
use voy_schema::{Column, Places, Table};

/// The places of a table's columns by ascending name, as a line has them: of the whole row, and of the key.
#[derive(Drop)]
pub(crate) struct Order {
    pub(crate) row: Places,
    pub(crate) key: Places,
}

impl Order {
    pub(crate) fn of(alloc: Global, table: &Table) -> Result<Order, AllocError>
        requires { is_lawful_table table.now ≡ true }
        ensures row { IfOk result (λ order. order.row ≡ row_order table.now) }
        ensures key { IfOk result (λ order. order.key ≡ key_order table.now) }
    {
        let row = row_order(alloc, table)?;
        let key = key_order(alloc, table)?;
        Ok(Order { row, key })
    }
}

fn row_order(alloc: Global, table: &Table) -> Result<Places, AllocError>
    requires { is_lawful_table table.now ≡ true }
    ensures { IfOk result (λ order. order ≡ row_order table.now) }
{
    let columns = table.columns.as_slice();
    let mut order = Places::with_capacity(alloc, columns.len())?;
    for place in 0..columns.len() {
        put_place(columns, place as u32, &mut order)?;
    }
    Ok(order)
}

fn key_order(alloc: Global, table: &Table) -> Result<Places, AllocError>
    ensures { IfOk result (λ order. order ≡ key_order table.now) }
{
    let places = table.primary_key.as_slice();
    let mut order = Places::with_capacity(alloc, places.len())?;
    for place in places {
        put_place(table.columns.as_slice(), *place, &mut order)?;
    }
    Ok(order)
}

/// Puts the place among places whose columns ascend by name.
fn put_place(columns: &[Column], place: u32, order: &mut Places) -> Result<(), AllocError>
    ensures { OnOk result (order.new ≡ with_place columns.now place order.old) }
{
    let name = name_at(columns, place);
    for at in 0..order.len() {
        let there = order.as_slice()[at];
        match name.cmp(name_at(columns, there)) {
            Ordering::Less => return order.insert(at, place),
            Ordering::Equal => {
                order.replace(at, place);
                return Ok(());
            }
            Ordering::Greater => {}
        }
    }
    order.push(place)
}

/// The name of the column at this place.
pub(crate) fn name_at(columns: &[Column], place: u32) -> &str
    ensures { result.now ≡ name_at columns.now place }
{
    match columns.get(place as usize) {
        Some(column) => column.name.as_str(),
        None => "",
    }
}
