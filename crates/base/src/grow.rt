//! The calls that ask for memory. All of them ask the global allocator.

ghost use Rattle.std.specs.Prelude.{◌≡◌, ◌≤◌, ◌*◌, ◌<◌, ◌++◌, ◌∷◌, [], IfOk, IsOk, OnOk, OnErr, Some, if◌then◌else◌, is_ok, length, not, true, replicate};
ghost use Rattle.std.specs.Mem.{type_size};
ghost use Rattle.std.specs.Io.Buffered.{writer_buffer, writer_inner};
ghost use Rattle.std.specs.Vec.{vec_capacity, vec_len};
ghost use Rattle.base.specs.Sizes.{IsItemSize};
ghost use Rattle.std.specs.BTreeMap.{IsUnchanged, Updates};
ghost use Rattle.std.specs.BTreeSet as set;
ghost use Rattle.std.specs.HashMap as hashed;

use crate::refused::Refused;
use smallvec::SmallVec;
use std::alloc::Global;
use std::collections::{BTreeMap, BTreeSet, HashMap};
use std::hash::Hash;
use std::io::{BufWriter, Write};

/// Adds an item at the end. Without memory the list stays.
pub fn push<T: Drop>(to: &mut Vec<T>, item: T) -> Result<(), Refused>
    requires { IsItemSize (type_size T.row) }
    ensures items { to.new.items ≡ (if is_ok result then to.old.items ++ item ∷ [] else to.old.items) }
    ensures succeeds { vec_len to.old < vec_capacity to.old → IsOk result }
{
    match to.push(item) {
        Ok(()) => Ok(()),
        Err(_) => Err(Refused::new()),
    }
}

/// Makes room for one more item, so that the next `push` is not refused.
pub fn reserve_one<T>(to: &mut Vec<T>) -> Result<(), Refused>
    requires { IsItemSize (type_size T.row) }
    ensures items { to.new.items ≡ to.old.items }
    ensures len { vec_len to.new ≡ vec_len to.old }
    ensures room { OnOk result (vec_len to.new < vec_capacity to.new) }
{
    match to.reserve(1) {
        Ok(()) => Ok(()),
        Err(_) => Err(Refused::new()),
    }
}

/// Adds the items of a slice at the end. Without memory the list stays.
pub fn extend<T: Copy>(to: &mut Vec<T>, items: &[T]) -> Result<(), Refused>
    requires { IsItemSize (type_size T.row) }
    ensures items { to.new.items ≡ (if is_ok result then to.old.items ++ items.now else to.old.items) }
{
    match to.extend_from_slice(items) {
        Ok(()) => Ok(()),
        Err(_) => Err(Refused::new()),
    }
}

/// The items of a slice, in memory of their own.
pub fn copied<T: Copy>(alloc: Global, items: &[T]) -> Result<Vec<T>, Refused>
    requires { IsItemSize (type_size T.row) }
    ensures { IfOk result (λ v. v.items ≡ items.now) }
{
    let mut copy = Vec::new(alloc);
    extend(&mut copy, items)?;
    Ok(copy)
}

/// A list of `n` times the item. What is asked is bounded, so that no caller can ask for what no
/// allocator has.
pub fn filled<T: Copy>(alloc: Global, item: T, n: usize) -> Result<Vec<T>, Refused>
    requires item { IsItemSize (type_size T.row) }
    requires few { n * type_size T.row ≤ 2147483648 }
    ensures { IfOk result (λ v. v.items ≡ replicate n item) }
{
    let mut list = Vec::new(alloc);
    match list.resize(n, item) {
        Ok(()) => Ok(list),
        Err(_) => Err(Refused::new()),
    }
}

/// A list of as many times the item as the other list has items.
pub fn filled_like<T: Copy, U>(alloc: Global, item: T, like: &[U]) -> Result<Vec<T>, Refused>
    requires item { IsItemSize (type_size T.row) }
    requires like { IsItemSize (type_size U.row) }
    ensures { IfOk result (λ v. v.items ≡ replicate (length like.now) item) }
{
    let mut list = Vec::new(alloc);
    match list.resize(like.len(), item) {
        Ok(()) => Ok(list),
        Err(_) => Err(Refused::new()),
    }
}

/// A value in a box of its own.
pub fn boxed<T: Drop>(alloc: Global, value: T) -> Result<Box<T>, Refused>
    requires { IsItemSize (type_size T.row) }
    ensures { IfOk result (λ b. b.value ≡ value) }
{
    match Box::new(alloc, value) {
        Ok(boxed) => Ok(boxed),
        Err(_) => Err(Refused::new()),
    }
}

/// A writer of std over the other, which gathers what is written.
pub fn buffered<W: Write + Drop>(alloc: Global, inner: W) -> Result<BufWriter<W>, Refused>
    ensures inner { IfOk result (λ w. writer_inner w ≡ inner) }
    ensures empty { IfOk result (λ w. writer_buffer w ≡ []) }
{
    match BufWriter::new(alloc, inner) {
        Ok(writer) => Ok(writer),
        Err(_) => Err(Refused::new()),
    }
}

/// Puts a value under a key. Without memory the map stays.
pub fn insert<K: Ord + Drop, V: Drop>(
    to: &mut BTreeMap<K, V>,
    key: K,
    value: V,
) -> Result<Option<V>, Refused>
    requires key { IsItemSize (type_size K.row) }
    requires value { IsItemSize (type_size V.row) }
    ensures updates { OnOk result (Updates K.cmp to.old to.new key (Some value)) }
    ensures err { OnErr result (IsUnchanged to.old to.new) }
{
    match to.insert(key, value) {
        Ok(old) => Ok(old),
        Err(_) => Err(Refused::new()),
    }
}

/// Puts a value under a key of a hashed map. Without memory the map stays.
pub fn insert_hashed<K: Eq + Hash + Drop, V: Drop>(
    to: &mut HashMap<K, V>,
    key: K,
    value: V,
) -> Result<Option<V>, Refused>
    requires key { IsItemSize (type_size K.row) }
    requires value { IsItemSize (type_size V.row) }
    ensures updates { OnOk result (hashed.Updates K.eq to.old to.new key (Some value)) }
    ensures err { OnErr result (hashed.IsUnchanged to.old to.new) }
{
    match to.insert(key, value) {
        Ok(old) => Ok(old),
        Err(_) => Err(Refused::new()),
    }
}

/// Puts a key into a set and answers whether it was new. Without memory the set stays.
pub fn insert_key<K: Ord + Drop>(to: &mut BTreeSet<K>, key: K) -> Result<bool, Refused>
    requires { IsItemSize (type_size K.row) }
    ensures added { IfOk result (λ added. added ≡ not (set.contains K.cmp to.old key)) }
    ensures updates { OnOk result (set.Updates K.cmp to.old to.new key true) }
    ensures err { OnErr result (set.IsUnchanged to.old to.new) }
{
    match to.insert(key) {
        Ok(added) => Ok(added),
        Err(_) => Err(Refused::new()),
    }
}

/// The items of a slice in a small list.
pub fn small<const N: usize>(alloc: Global, items: &[i32]) -> Result<SmallVec<i32, N>, Refused>
    ensures ok { IfOk result (λ v. v.items ≡ items.now) }
{
    match SmallVec::from_slice(alloc, items) {
        Ok(list) => Ok(list),
        Err(_) => Err(Refused::new()),
    }
}
