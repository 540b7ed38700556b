//! Truth tables of functions of four inputs.

ghost use Rattle.std.specs.Prelude.{◌≡◌, ◌&&◌, ◌+◌, ◌<◌, ◌==◌, ◌↔◌, Bool, not, if◌then◌else◌, IsTrue};
ghost use Rattle.std.specs.Int.{bit_at};
ghost use Rattle.truth_tables.specs.Tables.{value, weight};

/// The first input.
pub const FIRST: u16 = 0xaaaa;

/// The second input.
pub const SECOND: u16 = 0xcccc;

/// The third input.
pub const THIRD: u16 = 0xf0f0;

/// The fourth input.
pub const FOURTH: u16 = 0xff00;

/// What is true everywhere.
pub const ALL: u16 = 0xffff;

/// What is true nowhere.
pub const NONE: u16 = 0;

/// The function that is true where this one is not.
pub fn complement(table: u16) -> u16
    ensures { (a b c d : Bool) → value result a b c d ≡ not (value table a b c d) }
{
    !table
}

/// The function that is true where both are.
pub fn conjunction(one: u16, other: u16) -> u16
    ensures { (a b c d : Bool) → value result a b c d ≡ (value one a b c d && value other a b c d) }
{
    one & other
}

/// The second function where the first is true, and else the third (a multiplexer).
fn selected(selector: u16, high: u16, low: u16) -> u16
    ensures { (a b c d : Bool) → value result a b c d ≡ (if value selector a b c d then value high a b c d else value low a b c d) }
{
    selector & high | !selector & low
}

/// The constant that is this bit of the table.
fn constant(table: u16, bit: u32) -> u16
    requires { bit < 16 }
    ensures { (a b c d : Bool) → value result a b c d ≡ (bit_at table bit == 1) }
{
    if table >> bit & 1 == 1 { ALL } else { NONE }
}

/// The function of one input that two bits of the table are.
fn of_one(table: u16, bit: u32, first: u16) -> u16
    requires { bit < 15 }
    ensures { (a b c d : Bool) → value result a b c d ≡ (bit_at table (bit + weight 1 (value first a b c d)) == 1) }
{
    selected(first, constant(table, bit + 1), constant(table, bit))
}

/// The function of two inputs that four bits of the table are.
fn of_two(table: u16, bit: u32, first: u16, second: u16) -> u16
    requires { bit < 13 }
    ensures { (a b c d : Bool) → value result a b c d ≡ (bit_at table (bit + weight 2 (value second a b c d) + weight 1 (value first a b c d)) == 1) }
{
    selected(
        second,
        of_one(table, bit + 2, first),
        of_one(table, bit, first),
    )
}

/// The function of three inputs that eight bits of the table are.
fn of_three(table: u16, bit: u32, first: u16, second: u16, third: u16) -> u16
    requires { bit < 9 }
    ensures { (a b c d : Bool) → value result a b c d
        ≡ (bit_at table (bit + weight 4 (value third a b c d) + weight 2 (value second a b c d) + weight 1 (value first a b c d)) == 1) }
{
    selected(
        third,
        of_two(table, bit + 4, first, second),
        of_two(table, bit, first, second),
    )
}

/// The function with these four in the place of its inputs.
pub fn composed(table: u16, inputs: (u16, u16, u16, u16)) -> u16
    ensures { (a b c d : Bool) → value result a b c d ≡ value table (value inputs.0 a b c d) (value inputs.1 a b c d) (value inputs.2 a b c d) (value inputs.3 a b c d) }
{
    let (first, second, third, fourth) = inputs;
    selected(
        fourth,
        of_three(table, 8, first, second, third),
        of_three(table, 0, first, second, third),
    )
}

/// Whether the function has the same value whatever its first input is.
pub fn ignores_first(table: u16) -> bool
    ensures { IsTrue result ↔ ((a b c d e : Bool) → value table a b c d ≡ value table e b c d) }
{
    (table >> 1 ^ table) & 0x5555 == 0
}

/// Whether the function has the same value whatever its second input is.
pub fn ignores_second(table: u16) -> bool
    ensures { IsTrue result ↔ ((a b c d e : Bool) → value table a b c d ≡ value table a e c d) }
{
    (table >> 2 ^ table) & 0x3333 == 0
}

/// Whether the function has the same value whatever its third input is.
pub fn ignores_third(table: u16) -> bool
    ensures { IsTrue result ↔ ((a b c d e : Bool) → value table a b c d ≡ value table a b e d) }
{
    (table >> 4 ^ table) & 0x0f0f == 0
}

/// Whether the function has the same value whatever its fourth input is.
pub fn ignores_fourth(table: u16) -> bool
    ensures { IsTrue result ↔ ((a b c d e : Bool) → value table a b c d ≡ value table a b c e) }
{
    (table >> 8 ^ table) & 0x00ff == 0
}
