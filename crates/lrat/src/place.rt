//! Where clauses lie in a flat list.

ghost use Rattle.std.specs.Prelude.{◌≡◌, ◌+◌, ◌≤◌, ◌<◌, All, Contains, MatchOption, drop, get_or, length, take};
ghost use Rattle.lrat.specs.Places.{AreInOrder, ids_of, kept_at, live_places_from};
ghost use Rattle.lrat.specs.Slots.{IsRising};

/// Where a clause's literals lie in the flat list.
#[derive(Clone, Copy)]
pub struct Place {
    pub start: usize,
    pub len: usize,
    pub id: u32,
    /// not taken out
    pub live: bool,
}

/// At which index the id is, where so many ids come before. It is looked for first where it is if no
/// other id up to it is missing, then where it is if none behind it is, and then in time of the
/// logarithm.
#[inline(always)]
pub fn position(places: &[Place], id: u32, before: usize) -> Option<usize>
    requires { IsRising 0 (ids_of places.now) }
    ensures { MatchOption result (Contains (ids_of places.now) id → ⊥) (λ i. (i < length places.now) × (get_or (ids_of places.now) i 0 ≡ id)) }
{
    let guess = (id as usize).saturating_sub(1).saturating_sub(before);
    if guess < places.len() && places[guess].id == id {
        return Some(guess);
    }
    position_from_last(places, id)
}

/// At which index the id is. It is looked for first as far before the end as the id is below the
/// last one, and then by halving.
#[cold]
#[inline(never)]
fn position_from_last(places: &[Place], id: u32) -> Option<usize>
    requires { IsRising 0 (ids_of places.now) }
    ensures { MatchOption result (Contains (ids_of places.now) id → ⊥) (λ i. (i < length places.now) × (get_or (ids_of places.now) i 0 ≡ id)) }
{
    let Some(last) = places.last() else {
        return None;
    };
    let behind = last.id.saturating_sub(id) as usize;
    let guess = (places.len() - 1).saturating_sub(behind);
    if places[guess].id == id {
        return Some(guess);
    }
    search(places, id)
}

/// At which index the id is, by halving.
fn search(places: &[Place], id: u32) -> Option<usize>
    requires { IsRising 0 (ids_of places.now) }
    ensures { MatchOption result (Contains (ids_of places.now) id → ⊥) (λ i. (i < length places.now) × (get_or (ids_of places.now) i 0 ≡ id)) }
{
    let mut low = 0;
    let mut high = places.len();
    'halving: while low < high {
        let middle = low + (high - low) / 2;
        let here = places[middle].id;
        if here == id {
            return Some(middle);
        }
        if here < id {
            low = middle + 1;
        } else {
            high = middle;
        }
    }
    None
}

/// Drops the places from index `first` on of the clauses that were taken out.
pub fn keep_live(places: &mut Vec<Place>, first: usize)
    requires { first ≤ length places.old.items }
    ensures { places.new.items ≡ live_places_from first places.old.items }
{
    let mut kept = first;
    for index in first..places.len() {
        let place = places[index];
        if place.live {
            places[kept] = place;
            kept += 1;
        }
    }
    places.truncate(kept);
}

/// Moves the clauses from index `first` on together behind `end`, in their order, and answers
/// where they end.
pub fn close_up(literals: &mut [i32], places: &mut [Place], first: usize, end: usize) -> usize
    requires inside { All (λ p. p.start + p.len ≤ length literals.old) places.old }
    requires in_order { AreInOrder 0 places.old }
    requires before { All (λ p. p.start + p.len ≤ end) (take first places.old) }
    requires later { AreInOrder end (drop first places.old) }
    requires fits { end ≤ length literals.old }
    requires first { first ≤ length places.old }
    ensures same { kept_at (take result literals.new) places.new ≡ kept_at literals.old places.old }
    ensures inside { All (λ p. p.start + p.len ≤ result) places.new }
    ensures in_order { AreInOrder 0 places.new }
    ensures fits { result ≤ length literals.old }
    ensures among { All (Contains literals.old) literals.new }
{
    let mut end = end;
    for index in first..places.len() {
        let place = places[index];
        literals.copy_within(place.start..place.start + place.len, end);
        places[index] = Place {
            start: end,
            len: place.len,
            id: place.id,
            live: place.live,
        };
        end += place.len;
    }
    end
}
