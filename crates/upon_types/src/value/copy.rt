// Copies of values without calls in each other: what is left to do stands on a stack of tasks.
ghost use Rattle.std.specs.Prelude.{◌≡◌, ◌+◌, ◌*◌, ◌<◌, ◌∷◌, ◌++◌, List, map, take, drop, length, IfOk, OnOk};
ghost use Rattle.upon_types.specs.CopyTasks.{finished, entries_zip, entries_rest, copies_after, work_of_tasks};
ghost use Rattle.upon_types.specs.Val.{Val};
ghost use Rattle.upon_types.specs.View.{view, entries_view};
ghost use Rattle.upon_types.specs.Weight.{bulk, items_bulk, entries_bulk};

use super::Value;
use super::clone::put;
use std::alloc::{AllocError, Global};
use std::collections::BTreeMap;
use std::default::Emptied;

// What is left to do. The last task is the next.
#[derive(Drop)]
enum Task<'a> {
    // The value is to be copied.
    Copy(&'a Value),
    // As many copies as there are items are to be put in a list.
    GatherList(&'a Vec<Value>),
    // As many copies as there are entries are to be put in a map, at the keys of the entries.
    GatherMap(&'a BTreeMap<String, Value>),
}

// Copies the value, however deep it is. The tasks and the copies that are done stand in memory of `alloc`.
pub(super) fn copy(alloc: Global, value: &Value) -> Result<Value, AllocError>
    ensures { IfOk result (λ v. view v ≡ view value.now) }
{
    let mut tasks = Vec::new(alloc);
    let mut done = Vec::new(alloc);
    tasks.push(Task::Copy(value))?;
    while let Some(task) = tasks.pop() {
        match task {
            Task::Copy(value) => begin(value, &mut tasks, &mut done)?,
            Task::GatherList(items) => {
                let copies = gather_items(items, &mut done)?;
                done.push(Value::List(copies))?;
            }
            Task::GatherMap(entries) => {
                let copies = gather_entries(entries, &mut done)?;
                done.push(Value::Map(copies))?;
            }
        }
    }
    match done.pop() {
        Some(copy) => Ok(copy),
        None => unreachable!(),
    }
}

// Copies the value if nothing is in it. Otherwise it adds the tasks that copy it.
#[tactic(auto, using(crate::proofs::Weights::positive))]
fn begin<'a>(
    value: &'a Value,
    tasks: &mut Vec<Task<'a>>,
    done: &mut Vec<Value>,
) -> Result<(), AllocError>
    ensures means { let before = finished done.old.items in
        OnOk result (copies_after tasks.new.items (finished done.new.items)
        ≡ copies_after tasks.old.items (view value.now ∷ before)) }
    ensures less { OnOk result (work_of_tasks tasks.new.items < work_of_tasks tasks.old.items + 2 * bulk value.now) }
{
    match value {
        Value::None => done.push(Value::None)?,
        Value::Bool(truth) => done.push(Value::Bool(*truth))?,
        Value::Integer(number) => done.push(Value::Integer(*number))?,
        Value::String(text) => done.push(Value::String(text.clone()?))?,
        Value::List(items) => {
            tasks.push(Task::GatherList(items))?;
            plan_items(items, tasks)?;
        }
        Value::Map(entries) => {
            tasks.push(Task::GatherMap(entries))?;
            plan_entries(entries, tasks)?;
        }
    }
    Ok(())
}

// Adds a task for each of the items. The copy of the last item is made first.
fn plan_items<'a>(items: &'a [Value], tasks: &mut Vec<Task<'a>>) -> Result<(), AllocError>
    ensures means { let copies = map view items.now in
        OnOk result ((s : List Val) → copies_after tasks.new.items s ≡ copies_after tasks.old.items (copies ++ s)) }
    ensures work { OnOk result
        (work_of_tasks tasks.new.items ≡ work_of_tasks tasks.old.items + 2 * items_bulk items.now) }
{
    for item in items {
        tasks.push(Task::Copy(item))?;
    }
    Ok(())
}

// Adds a task for the value of each entry. The copy of the last value is made first.
fn plan_entries<'a>(
    entries: &'a BTreeMap<String, Value>,
    tasks: &mut Vec<Task<'a>>,
) -> Result<(), AllocError>
    ensures means { let copies = map (λ e. view e.1) entries.now.entries in
        OnOk result ((s : List Val) → copies_after tasks.new.items s ≡ copies_after tasks.old.items (copies ++ s)) }
    ensures work { OnOk result
        (work_of_tasks tasks.new.items ≡ work_of_tasks tasks.old.items + 2 * entries_bulk entries.now.entries) }
{
    for (_, value) in entries.iter() {
        tasks.push(Task::Copy(value))?;
    }
    Ok(())
}

// Takes as many copies as there are items, the newest first.
fn gather_items(items: &Vec<Value>, done: &mut Vec<Value>) -> Result<Vec<Value>, AllocError>
    ensures copies { let before = finished done.old.items in
        IfOk result (λ copies. map view copies.items ≡ take (length items.now.items) before) }
    ensures rest { OnOk result (finished done.new.items ≡ drop (length items.now.items) (finished done.old.items)) }
{
    let mut copies = Vec::with_capacity(*items.allocator(), items.len())?;
    for _i in 0..items.len() {
        match done.pop() {
            Some(copy) => copies.push(copy)?,
            None => break,
        }
    }
    Ok(copies)
}

// Takes as many copies as there are entries, the newest first, each at the key of an entry.
fn gather_entries(
    entries: &BTreeMap<String, Value>,
    done: &mut Vec<Value>,
) -> Result<BTreeMap<String, Value>, AllocError>
    ensures copies { let before = finished done.old.items in
        IfOk result (λ copies. entries_view copies.entries ≡ entries_zip entries.now.entries before) }
    ensures rest { let before = finished done.old.items in
        OnOk result (finished done.new.items ≡ entries_rest entries.now.entries before) }
{
    let mut copies = BTreeMap::emptied(entries)?;
    for (key, _) in entries.iter() {
        match done.pop() {
            Some(copy) => put(&mut copies, key, copy)?,
            None => return Ok(copies),
        }
    }
    Ok(copies)
}
