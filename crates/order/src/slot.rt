// The places of a controller's tasks.
ghost use Rattle.std.specs.Prelude.{◌≡◌, ℕ, ◌<◌, ◌≤◌, MatchOption, slice_index_or};

// One of the 16 places.
#[derive(Clone, Copy, Debug, PartialEq, Eq, Drop)]
pub struct Slot {
    number: u8,
    pub ghost in_range: { number < 16 },
}

impl Slot {
    // The slot of that number, if there is one.
    pub fn new(number: u8) -> Option<Slot>
        ensures { MatchOption result (16 ≤ number) (λ s. s.number ≡ number) }
    {
        if number < 16 {
            Some(Slot { number })
        } else {
            None
        }
    }

    // The slot at an index that is known to be one.
    pub fn at(index: usize) -> Slot
        requires { index < 16 }
        ensures { result.number ≡ index }
    {
        Slot {
            number: index as u8,
        }
    }

    pub fn number(self) -> u8
        ensures { result ≡ self.number }
    {
        self.number
    }

    // Its place in an array by slot.
    pub fn index(self) -> usize
        ensures value { result ≡ self.number }
        ensures in_range { result < 16 }
    {
        usize::from(self.number)
    }

    // What f makes of each slot.
    pub fn map_all<T, F: Fn(Slot) -> T>(f: F) -> [T; 16]
        requires { F.IsAlwaysCallable f }
        ensures { (s : Slot) (e : T) → F.post f s (slice_index_or result s.number e) }
    {
        std::array::from_fn(
            |index: usize| -> T
                requires in_range { index < 16 }
                requires callable { F.IsAlwaysCallable f }
                ensures { (s : Slot) → s.number ≡ index → F.post f s result }
            { f(Slot::at(index)) },
        )
    }
}
