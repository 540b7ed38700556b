//! Covers of functions by cubes.

ghost use Rattle.std.specs.Prelude.{◌≡◌, ◌<◌, ◌&&◌, Bool, IfOk, IsTrue, [], if◌then◌else◌, not, true};
ghost use Rattle.truth_tables.specs.Tables.{row as row_of, value};
ghost use Rattle.truth_tables.specs.Cubes.{is_in, HoldsInRow, IsCover, IsInside, IsPart, IsPartly, IsTrueInRow};

use crate::cube::{Cube, Side};
use base::{Refused, push};
use std::alloc::Global;

/// Whether the function is true at the row, and no cube covers it yet.
fn is_open(table: u16, covered: u16, row: u32) -> bool
    requires { row < 16 }
    ensures { (a b c d : Bool) → row_of a b c d ≡ row → result ≡ (value table a b c d && not (value covered a b c d)) }
{
    (table & !covered) >> row & 1 == 1
}

/// Adds a cube, and answers the rows that are covered then.
fn add(cubes: &mut Vec<Cube>, table: u16, covered: u16, cube: Cube) -> Result<u16, Refused>
    requires partly { IsPartly table covered cubes.old.items }
    requires inside { IsInside cube table }
    ensures partly { IfOk result (λ more. IsPartly table more cubes.new.items) }
    ensures adds { IfOk result (λ more. (a b c d : Bool) → value more a b c d ≡ (if value covered a b c d then true else is_in cube a b c d)) }
{
    push(cubes, cube)?;
    Ok(covered | cube.table())
}

/// Free where the larger cube is inside of the function, and else as it is.
fn freed(side: Side, larger: Cube, table: u16) -> Side {
    if larger.is_inside(table) {
        Side::Free
    } else {
        side
    }
}

/// The row's cube with each input free that can be made free alone.
fn freed_at_once(table: u16, row: u32) -> Cube
    requires { row < 16 }
{
    let cube = Cube::of_row(row);
    Cube {
        first: freed(cube.first, cube.without_first(), table),
        second: freed(cube.second, cube.without_second(), table),
        third: freed(cube.third, cube.without_third(), table),
        fourth: freed(cube.fourth, cube.without_fourth(), table),
    }
}

/// The larger cube where it is inside of the function, and else the other.
fn larger_inside(cube: Cube, larger: Cube, table: u16) -> Cube
    requires inside { IsInside cube table }
    requires part { IsPart cube larger }
    ensures inside { IsInside result table }
    ensures part { IsPart cube result }
{
    if larger.is_inside(table) {
        larger
    } else {
        cube
    }
}

/// The row's cube with its inputs made free one after the other, where it stays inside of the function.
fn freed_in_turn(table: u16, row: u32) -> Cube
    requires few { row < 16 }
    requires at { IsTrueInRow row table }
    ensures inside { IsInside result table }
    ensures holds { HoldsInRow row result }
{
    let cube = Cube::of_row(row);
    let cube = larger_inside(cube, cube.without_first(), table);
    let cube = larger_inside(cube, cube.without_second(), table);
    let cube = larger_inside(cube, cube.without_third(), table);
    larger_inside(cube, cube.without_fourth(), table)
}

/// Adds the cubes that are their row's only ones that can't be made larger (essential primes), and answers the rows that are
/// covered.
fn cover_by_essential(cubes: &mut Vec<Cube>, table: u16) -> Result<u16, Refused>
    requires { cubes.old.items ≡ [] }
    ensures { IfOk result (λ covered. IsPartly table covered cubes.new.items) }
{
    let mut covered = 0;
    for row in 0..16 {
        if is_open(table, covered, row) {
            let cube = freed_at_once(table, row);
            if cube.is_inside(table) {
                covered = add(cubes, table, covered, cube)?;
            }
        }
    }
    Ok(covered)
}

/// Covers the row, where it is still open, and answers the rows that are covered then.
fn cover_row(cubes: &mut Vec<Cube>, table: u16, covered: u16, row: u32) -> Result<u16, Refused>
    requires few { row < 16 }
    requires partly { IsPartly table covered cubes.old.items }
    ensures partly { IfOk result (λ more. IsPartly table more cubes.new.items) }
    ensures keeps { IfOk result (λ more. (a b c d : Bool) → IsTrue (value covered a b c d) → IsTrue (value more a b c d)) }
    ensures row { IfOk result (λ more. (a b c d : Bool) → row_of a b c d ≡ row → IsTrue (value table a b c d) → IsTrue (value more a b c d)) }
{
    if is_open(table, covered, row) {
        add(cubes, table, covered, freed_in_turn(table, row))
    } else {
        Ok(covered)
    }
}

/// Covers the rows that are still open.
fn cover_rest(cubes: &mut Vec<Cube>, table: u16, essential: u16) -> Result<(), Refused>
    requires { IsPartly table essential cubes.old.items }
    ensures { IfOk result (λ _. IsCover table cubes.new.items) }
{
    let mut covered = essential;
    for row in 0..16 {
        covered = cover_row(cubes, table, covered, row)?;
    }
    Ok(())
}

/// Cubes of which one holds exactly where the function is true.
///
/// First come those that alone hold a row as cubes that can't be made greater (essential primes). Each row that is left gets one that is
/// made greater input by input. That makes them few and great; nothing rests on it.
pub(crate) fn cover_of(alloc: Global, table: u16) -> Result<Vec<Cube>, Refused>
    ensures { IfOk result (λ cubes. IsCover table cubes.items) }
{
    let mut cubes = Vec::new(alloc);
    let covered = cover_by_essential(&mut cubes, table)?;
    cover_rest(&mut cubes, table, covered)?;
    Ok(cubes)
}
