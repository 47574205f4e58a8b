// The value that templates are rendered on: rows of a table, and what else they name.
use std::alloc::{AllocError, Global};
use std::collections::BTreeMap;
use upon::Value;

// How many rows there are.
const ROWS: u32 = 1000;

// A key.
fn key(alloc: Global, name: &str) -> Result<String, AllocError> {
    String::from_str(alloc, name)
}

// Who a row is of.
fn user(alloc: Global, number: u32) -> Result<Value, AllocError> {
    let email = format!(in alloc; "user{number}@example.org")?;
    let mut user = BTreeMap::new(alloc);
    drop(user.insert(key(alloc, "email")?, Value::from(email))?);
    drop(user.insert(key(alloc, "age")?, Value::from(number % 100))?);
    Ok(Value::from(user))
}

// The row of a number.
fn row(alloc: Global, number: u32) -> Result<Value, AllocError> {
    let name = format!(in alloc; "name of row {number}")?;
    let mut row = BTreeMap::new(alloc);
    drop(row.insert(key(alloc, "id")?, Value::from(number))?);
    drop(row.insert(key(alloc, "name")?, Value::from(name))?);
    drop(row.insert(key(alloc, "active")?, Value::from(number % 2 == 0))?);
    drop(row.insert(key(alloc, "user")?, user(alloc, number)?)?);
    Ok(Value::from(row))
}

// All rows.
fn rows(alloc: Global) -> Result<Value, AllocError> {
    let mut rows = Vec::new(alloc);
    for number in 0..ROWS {
        rows.push(row(alloc, number)?)?;
    }
    Ok(Value::from(rows))
}

// Maps in maps: `a.b.c.d.e.f.g.h` is an integer.
fn deep(alloc: Global) -> Result<Value, AllocError> {
    let mut value = Value::from(42_u32);
    for name in ["h", "g", "f", "e", "d", "c", "b"] {
        let mut outer = BTreeMap::new(alloc);
        drop(outer.insert(key(alloc, name)?, value)?);
        value = Value::from(outer);
    }
    Ok(value)
}

/// Returns the value, with so many more names.
pub(crate) fn context(alloc: Global, more: u32) -> Result<Value, AllocError> {
    let mut context = BTreeMap::new(alloc);
    drop(context.insert(key(alloc, "rows")?, rows(alloc)?)?);
    drop(context.insert(key(alloc, "a")?, deep(alloc)?)?);
    drop(context.insert(key(alloc, "title")?, Value::from(key(alloc, "The title")?))?);
    for number in 0..more {
        let name = format!(in alloc; "k{number}")?;
        drop(context.insert(name, Value::from(number))?);
    }
    Ok(Value::from(context))
}
