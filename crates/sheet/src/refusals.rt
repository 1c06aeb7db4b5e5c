// The numbers of refusals, as documents 01 and 02 count them, and a refusal as one number. It rests on nothing.
ghost use Rattle.std.specs.Prelude.{◌≡◌, ◌<◌};
ghost use Rattle.sheet.specs.Outcomes.{number_of, packed_refusal};

use crate::{Refusal, Refused};

impl Refusal {
    // Its number.
    pub fn number(self) -> u32
        ensures { result ≡ number_of self }
    {
        self as u32
    }

    // The refusal at a place.
    pub fn at(self, place: usize) -> Refused
        ensures { result ≡ record { why = self; place = place } }
    {
        Refused { why: self, place }
    }
}

impl Refused {
    // The refusal as one number, which keeps number and place apart.
    pub fn packed(self) -> u32
        requires { self.place < 65536 }
        ensures { result ≡ packed_refusal self.why self.place }
    {
        self.why.number() * 65536 + self.place as u32
    }
}
