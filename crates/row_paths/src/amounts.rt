//! The number types of the tables of step costs, and those in which costs are summed.
ghost use Rattle.std.specs.Prelude.{◌≡◌, Bool, true, false, ℕ, ◌+◌, ◌-◌, ◌≤◌, ◌^◌, min, nat_le};

/// A sum of costs: 64 bits if no sum is large, 128 bits for any sum.
pub(crate) trait Amount: Copy + Drop {
    // the number that a value stands for
    ghost value: { Self → ℕ };

    // the largest number
    ghost MOST: { ℕ };

    /// The largest number.
    const MOST: u128;

    /// The sum 0.
    fn none() -> Self
        ensures { value result ≡ 0 };

    /// The same sum in 128 bits.
    fn wide(self) -> u128
        ensures { result ≡ value self };

    /// The smaller one of two sums.
    fn least(self, other: Self) -> Self
        ensures { value result ≡ min (value self) (value other) };

    /// Whether this sum is at most another one.
    fn is_at_most(self, other: Self) -> bool
        ensures { result ≡ nat_le (value self) (value other) };
}

impl Amount for u64 {
    ghost value = { λ x. x };

    ghost MOST = { 2 ^ 64 - 1 };

    const MOST: u128 = u64::MAX as u128;

    fn none() -> u64 {
        0
    }

    fn wide(self) -> u128 {
        u128::from(self)
    }

    fn least(self, other: u64) -> u64 {
        self.min(other)
    }

    fn is_at_most(self, other: u64) -> bool {
        self <= other
    }
}

impl Amount for u128 {
    ghost value = { λ x. x };

    ghost MOST = { 2 ^ 128 - 1 };

    const MOST: u128 = u128::MAX;

    fn none() -> u128 {
        0
    }

    fn wide(self) -> u128 {
        self
    }

    fn least(self, other: u128) -> u128 {
        self.min(other)
    }

    fn is_at_most(self, other: u128) -> bool {
        self <= other
    }
}

/// The cost of one step: 32 bits for short spans, 64 bits for most costs, 128 bits for any cost.
pub(crate) trait Cost: Copy + Drop {
    /// The type in which such costs are summed.
    type Sum: Amount;

    // the number that a value stands for
    ghost value: { Self → ℕ };

    // the largest number
    ghost MOST: { ℕ };

    /// The largest number.
    const MOST: u128;

    // whether such costs are computed at each reading
    ghost IS_COMPUTED: { Bool };

    /// Whether such costs are computed at each reading, in place of being kept in tables.
    const IS_COMPUTED: bool;

    /// A cost of at most `MOST`.
    fn of(cost: u128) -> Self
        requires { cost ≤ MOST }
        ensures { value result ≡ cost };

    /// This cost added to a sum; the result fits.
    fn plus(self, sum: Self::Sum) -> Self::Sum
        requires { Self.Sum.value sum + value self ≤ Self.Sum.MOST }
        ensures { Self.Sum.value result ≡ Self.Sum.value sum + value self };
}

impl Cost for u32 {
    type Sum = u64;

    ghost value = { λ x. x };

    ghost MOST = { 2 ^ 32 - 1 };

    const MOST: u128 = u32::MAX as u128;

    ghost IS_COMPUTED = { false };

    const IS_COMPUTED: bool = false;

    fn of(cost: u128) -> u32 {
        cost as u32
    }

    fn plus(self, sum: u64) -> u64 {
        sum + u64::from(self)
    }
}

impl Cost for u64 {
    type Sum = u64;

    ghost value = { λ x. x };

    ghost MOST = { 2 ^ 64 - 1 };

    const MOST: u128 = u64::MAX as u128;

    ghost IS_COMPUTED = { false };

    const IS_COMPUTED: bool = false;

    fn of(cost: u128) -> u64 {
        cost as u64
    }

    fn plus(self, sum: u64) -> u64 {
        sum + self
    }
}

impl Cost for u128 {
    type Sum = u128;

    ghost value = { λ x. x };

    ghost MOST = { 2 ^ 128 - 1 };

    const MOST: u128 = u128::MAX;

    ghost IS_COMPUTED = { false };

    const IS_COMPUTED: bool = false;

    fn of(cost: u128) -> u128 {
        cost
    }

    fn plus(self, sum: u128) -> u128 {
        sum + self
    }
}

/// A cost that is computed at each reading, in 128 bits.
#[derive(Clone, Copy, Drop)]
pub(crate) struct Fresh(u128);

impl Cost for Fresh {
    type Sum = u128;

    ghost value = { λ x. x.0 };

    ghost MOST = { 2 ^ 128 - 1 };

    const MOST: u128 = u128::MAX;

    ghost IS_COMPUTED = { true };

    const IS_COMPUTED: bool = true;

    fn of(cost: u128) -> Fresh {
        Fresh(cost)
    }

    fn plus(self, sum: u128) -> u128 {
        sum + self.0
    }
}
