//! Numbers of elements and places of bytes in the rows of a table, in four bytes each.

ghost use Rattle.std.specs.Prelude.{◌≡◌, ◌+◌, ◌<◌, ◌^◌, IfSome};

use std::marker::Model;

/// The number of an element, or the place of a byte: below the greatest number of 32 bits, so that there is a
/// next one.
#[derive(Clone, Copy)]
pub struct Place {
    number: u32,
}

impl Model for Place {
    ghost use Rattle.std.specs.Prelude.{ℕ, ◌+◌, ◌<◌, ◌^◌};

    ghost Value = { ℕ };

    ghost view = { λ p. p.number };

    ghost inverse = { λ n. record { number = n } };

    ghost invariant = { λ p. p.number + 1 < 2 ^ 32 };
}

impl Place {
    /// The place with this number.
    pub fn of(number: u32) -> Place
        requires { number + 1 < 2 ^ 32 }
        ensures { result ≡ number }
    {
        Place { number }
    }

    /// Its number.
    pub fn get(&self) -> u32
        ensures value { result ≡ self.now }
        ensures small { result + 1 < 2 ^ 32 }
    {
        self.number
    }
}

/// A place, or none.
#[derive(Drop)]
pub struct PackedPlace {
    /// One more than the place, and 0 for none.
    after: u32,
}

impl Model for PackedPlace {
    ghost use Rattle.std.specs.Prelude.{ℕ, Option};
    ghost use Rattle.xhstt_text.specs.Packed.{unpacked};

    ghost Value = { Option ℕ };

    ghost view = { λ p. unpacked p.after };
}

impl PackedPlace {
    /// This place, or none.
    pub fn of(place: Option<Place>) -> PackedPlace
        ensures { result ≡ place }
    {
        let after = match place {
            Some(place) => place.get() + 1,
            None => 0,
        };
        PackedPlace { after }
    }

    /// The same once more.
    pub fn again(&self) -> PackedPlace
        ensures { result ≡ self.now }
    {
        PackedPlace { after: self.after }
    }

    /// The place, or none.
    pub fn get(&self) -> Option<Place>
        ensures { result ≡ self.now }
    {
        let number = self.number()?;
        Some(Place::of(number))
    }

    /// The number of the place, or none.
    pub fn number(&self) -> Option<u32>
        ensures value { result ≡ self.now }
        ensures small { IfSome result (λ n. n + 1 < 2 ^ 32) }
    {
        self.after.checked_sub(1)
    }
}
