//! Which registers a function saves: those that calls keep and that stand among its places.
#![tactic(auto)]

ghost use Rattle.std.specs.Prelude.{◌≡◌, ℕ, ◌<◌, slice_index_or, false};
ghost use Rattle.icode_saves.specs.Places.{has as has_place, saved};
ghost use Rattle.icode_saves.specs.Laws.{SavedPlacesAreAll};

use std::marker::Model;

/// The places below 12 that stand in a function's places, in rising order: those of registers that calls keep.
#[derive(Drop)]
pub struct Saved {
    used: [bool; 12],
}

impl Model for Saved {
    ghost use Rattle.std.specs.Prelude.{ℕ, List};
    ghost use Rattle.icode_saves.specs.Used.{marked};

    ghost Value = { List ℕ };

    ghost view = { λ s. marked s.used };
}

// Which places below 12 stand in the list.
fn used_places(places: &[u8]) -> [bool; 12]
    ensures { (p : ℕ) → p < 12 → slice_index_or result p false ≡ has_place places.now p }
{
    let mut used = [false; 12];
    for place in places {
        if *place < 12 {
            used[*place as usize] = true;
        }
    }
    used
}

impl Saved {
    /// The places that a function with these places saves.
    pub fn of(places: &[u8]) -> Saved
        ensures { result ≡ saved places.now }
    {
        Saved {
            used: used_places(places),
        }
    }

    /// Whether it saves a place.
    pub fn has(&self, place: u32) -> bool
        requires { place < 12 }
        ensures { result ≡ has_place self.now place }
    {
        self.used[place as usize]
    }

    /// That it is what a function with its places saves: they are below 12, and rise.
    pub fn keeps_law(&self)
        ensures { saved self.now ≡ self.now }
    {
        let _ = &self.used;
    }
}

/// The places that a function saves are those below 12 that stand in its places, in rising order.
pub fn saved_places_are_all()
    ensures { SavedPlacesAreAll }
{}
