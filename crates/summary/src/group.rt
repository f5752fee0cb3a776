ghost use Rattle.std.specs.Prelude.{◌≡◌, ◌+◌, ◌-◌, ◌^◌, ◌<◌, ◌||◌, ◌==◌, nat_le};

// A group of facts: the place that they have in common, one number a dimension and 0 past the last, how many there are, and the
// sum of their amounts.
#[derive(Clone, Copy, PartialEq, Eq, Debug)]
pub struct Group {
    pub place: [u64; 4],
    pub count: u64,
    pub sum: u64,
}

const COUNT_LIMIT: u64 = 1 << 32;

const SUM_LIMIT: u64 = 1 << 50;

impl Group {
    // One fact at a place.
    pub fn one(place: [u64; 4], amount: u64) -> Group
        ensures { (result.place ≡ place) × (result.count ≡ 1) × (result.sum ≡ amount) }
    {
        Group {
            place,
            count: 1,
            sum: amount,
        }
    }

    // With the facts of another group of the same place.
    pub fn joined(self, other: Group) -> Group
        requires { (self.count + other.count < 2 ^ 64) × (self.sum + other.sum < 2 ^ 64) }
        ensures { (result.place ≡ self.place) × (result.count ≡ self.count + other.count) × (result.sum ≡ self.sum + other.sum) }
    {
        Group {
            count: self.count + other.count,
            sum: self.sum + other.sum,
            ..self
        }
    }

    // Without one fact of this amount.
    pub fn without(self, amount: u64) -> Group
        ensures { (result.place ≡ self.place) × (result.count ≡ self.count - 1) × (result.sum ≡ self.sum - amount) }
    {
        Group {
            count: self.count.saturating_sub(1),
            sum: self.sum.saturating_sub(amount),
            ..self
        }
    }

    // A count or a sum that no table has.
    pub fn out_of_bounds(self) -> bool
        ensures { result ≡ (self.count == 0 || (nat_le (2 ^ 32) self.count || nat_le (2 ^ 50) self.sum)) }
    {
        self.count == 0 || self.count >= COUNT_LIMIT || self.sum >= SUM_LIMIT
    }
}
