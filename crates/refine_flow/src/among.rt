//! Whether a number is among others.
ghost use Rattle.std.specs.Prelude.{◌≡◌, ◌==◌, true};
ghost use Rattle.std.specs.List.{list_any};
ghost use Rattle.std.specs.List.Sorted.{IsNonDecreasing};

/// Numbers in any order. Where they rise, as they mostly do, one is found by halving.
#[derive(Clone, Copy)]
pub(crate) struct Among<'a> {
    numbers: &'a [u32],
    rise: bool,
    ghost rising: { rise ≡ true → IsNonDecreasing numbers.now },
}

impl<'a> Among<'a> {
    pub(crate) fn new(numbers: &'a [u32]) -> Among<'a>
        ensures { result.numbers.now ≡ numbers.now }
    {
        Among {
            numbers,
            rise: numbers.is_sorted(),
        }
    }

    /// Whether a number is among them.
    pub(crate) fn has(&self, number: u32) -> bool
        ensures { result ≡ list_any (λ c. c == number) self.now.numbers.now }
    {
        if self.rise {
            return self.numbers.binary_search(&number).is_ok();
        }
        self.numbers.contains(&number)
    }
}
