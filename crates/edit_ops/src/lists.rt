//! Lists with one change.

ghost use Rattle.std.specs.Prelude.{◌≡◌, ◌<◌, ◌≤◌, length, slice_set, IfOk};
ghost use Rattle.std.specs.List.{insert, remove};
ghost use Rattle.edit_ops.specs.Lists.{resized};

use song_model::NoMemory;
use std::alloc::Global;

/// The items with this one at place `at`, counted from 0.
///
/// # Errors
///
/// Out of memory.
pub(crate) fn with_item<T: Copy>(
    alloc: Global,
    items: &[T],
    at: usize,
    item: T,
) -> Result<Vec<T>, NoMemory>
    requires { at < length items.now }
    ensures { IfOk result (λ list. list.items ≡ slice_set items.now at item) }
{
    let mut list = Vec::from_slice(alloc, items)?;
    list[at] = item;
    Ok(list)
}

/// The items with this one before place `at`.
///
/// # Errors
///
/// Out of memory.
pub(crate) fn inserted<T: Copy + Drop>(
    alloc: Global,
    items: &[T],
    at: usize,
    item: T,
) -> Result<Vec<T>, NoMemory>
    requires { at ≤ length items.now }
    ensures { IfOk result (λ list. list.items ≡ insert items.now at item) }
{
    let mut list = Vec::from_slice(alloc, items)?;
    list.insert(at, item)?;
    Ok(list)
}

/// The items without the one at place `at`.
///
/// # Errors
///
/// Out of memory.
pub(crate) fn removed<T: Copy + Drop>(
    alloc: Global,
    items: &[T],
    at: usize,
) -> Result<Vec<T>, NoMemory>
    requires { at < length items.now }
    ensures { IfOk result (λ list. list.items ≡ remove items.now at) }
{
    let mut list = Vec::from_slice(alloc, items)?;
    let _gone = list.remove(at);
    Ok(list)
}

/// The first `count` items, with this item again and again where there are fewer.
///
/// # Errors
///
/// Out of memory.
pub(crate) fn resized<T: Copy + Drop>(
    alloc: Global,
    items: &[T],
    count: usize,
    filling: T,
) -> Result<Vec<T>, NoMemory>
    ensures { IfOk result (λ list. list.items ≡ resized count filling items.now) }
{
    let mut list = Vec::from_slice(alloc, items)?;
    list.resize(count, filling)?;
    Ok(list)
}
