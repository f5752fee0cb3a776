// Rooms, and what they say.
ghost use Rattle.std.specs.Prelude.{◌≡◌, ◌^◌, ◌≤◌, ◌&&◌, is_some, IfSome, nat_le};
ghost use Rattle.tables.specs.Rooms.{limits_of, row_of, standard};

use super::Room;

// No room is for more facts, or for more groups a table.
const MOST: usize = 1 << 32;

impl Room {
    // Room for so many facts and so many groups a table, if that is not too much.
    pub fn new(facts: usize, groups: usize) -> Option<Room>
        ensures test { is_some result ≡ (nat_le facts (2 ^ 32) && nat_le groups (2 ^ 32)) }
        ensures value { IfSome result (λ m. (m.facts ≡ facts) × (m.groups ≡ groups)) }
    {
        if facts <= MOST && groups <= MOST {
            Some(Room { facts, groups })
        } else {
            None
        }
    }

    // The standard room.
    pub fn standard() -> Room
        ensures { limits_of result ≡ standard }
    {
        Room {
            facts: 65536,
            groups: 4096,
        }
    }

    // How many facts there may be.
    pub fn facts(self) -> usize
        ensures { (result ≡ (limits_of self).facts) × (result ≤ 2 ^ 32) }
    {
        self.facts
    }

    // How many groups a table may have.
    pub fn groups(self) -> usize
        ensures { (result ≡ (limits_of self).groups) × (result ≤ 2 ^ 32) }
    {
        self.groups
    }

    // So many numbers hold any table: four levels, the count, and six numbers a group.
    pub fn row_length(self) -> usize
        ensures { result ≡ row_of self }
    {
        5 + 6 * self.groups
    }
}
