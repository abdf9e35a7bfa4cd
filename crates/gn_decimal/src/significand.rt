ghost use Rattle.std.specs.Prelude.{◌≡◌, ℕ, ◌+◌, ◌*◌, ◌^◌, ◌<◌, ◌≤◌};

/// Below this number there is room for one more digit in 64 bits.
const SHORT_LIMIT: u64 = 1_000_000_000_000_000_000;

/// Below this number one more digit is kept.
const LONG_LIMIT: u128 = 10_000_000_000_000_000_000_000_000_000;

/// The whole number that a row of digits writes, as far as it can tell one raw number from another.
#[derive(Clone, Copy)]
pub enum Significand {
    /// The number itself.
    Short(u64),
    /// The number without its last `dropped` digits, where 29 digits or more are kept if any are dropped.
    Long { leading: u128, dropped: usize },
}

impl Significand {
    ghost use Rattle.gn_decimal.specs.Kept.{Keeps, dropped_of};

    /// The number with one more digit behind it.
    #[inline(always)]
    pub fn push(self, digit: u8) -> Significand
        requires a_digit { digit < 10 }
        requires countable { dropped_of self + 1 < 2 ^ 64 }
        ensures keeps { (n : ℕ) → Keeps self n → Keeps result (n * 10 + digit) }
        ensures drops_one { dropped_of result ≤ dropped_of self + 1 }
    {
        match self {
            Significand::Short(number) if number < SHORT_LIMIT => {
                Significand::Short(number * 10 + u64::from(digit))
            }
            Significand::Short(number) => Significand::Long {
                leading: u128::from(number) * 10 + u128::from(digit),
                dropped: 0,
            },
            Significand::Long { leading, dropped } if leading < LONG_LIMIT => Significand::Long {
                leading: leading * 10 + u128::from(digit),
                dropped,
            },
            Significand::Long { leading, dropped } => Significand::Long {
                leading,
                dropped: dropped + 1,
            },
        }
    }
}
