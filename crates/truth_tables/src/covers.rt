//! Covers that are made once.

ghost use Rattle.std.specs.Prelude.{◌<◌, get_or, length, nat_eq, [], IfOk};
ghost use Rattle.std.specs.HashMap.{get};
ghost use Rattle.truth_tables.specs.Cubes.{IsCover};
ghost use Rattle.truth_tables.specs.Covers.{AreCovers};

use crate::cover::cover_of;
use crate::cube::Cube;
use base::{Lists, Refused, insert_hashed};
use std::alloc::Global;
use std::collections::HashMap;
use std::marker::Model;

/// The covers of the functions that were asked for.
#[derive(Drop)]
pub struct Covers {
    covers: Lists<Cube>,
    /// the cover's place by the function
    places: HashMap<u16, usize>,
}

impl Model for Covers {
    ghost use Rattle.std.specs.Prelude.{nat_eq};
    ghost use Rattle.std.specs.HashMap.{get};
    ghost use Rattle.truth_tables.specs.Covers.{AreCovers};

    ghost Value = { Unit {0} };

    ghost view = { λ _. tt };

    ghost invariant = { λ c. AreCovers c.covers (get nat_eq c.places) };
}

/// The place of the function's cover, which is made where there is none.
fn place_of(
    alloc: Global,
    covers: &mut Lists<Cube>,
    places: &mut HashMap<u16, usize>,
    table: u16,
) -> Result<usize, Refused>
    requires { AreCovers covers.old (get nat_eq places.old) }
    ensures covers { AreCovers covers.new (get nat_eq places.new) }
    ensures place { IfOk result (λ k. (k < length covers.new) × IsCover table (get_or covers.new k [])) }
{
    if let Some(place) = places.get(&table) {
        return Ok(*place);
    }
    let cover = cover_of(alloc, table)?;
    let place = covers.len();
    covers.push(cover.as_slice())?;
    insert_hashed(places, table, place)?;
    Ok(place)
}

impl Covers {
    /// No covers yet.
    pub fn new(alloc: Global) -> Covers {
        Covers {
            covers: Lists::new(alloc),
            places: HashMap::new(alloc),
        }
    }

    /// The cover of the function.
    pub fn of(&mut self, alloc: Global, table: u16) -> Result<&[Cube], Refused>
        ensures { IfOk result (λ cubes. IsCover table cubes.now) }
    {
        let place = place_of(alloc, &mut self.covers, &mut self.places, table)?;
        let covers = &self.covers;
        Ok(covers.list(place))
    }
}
