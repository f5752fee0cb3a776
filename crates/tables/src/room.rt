// How much a warehouse may hold.
ghost use Rattle.std.specs.Prelude.{◌^◌, ◌≤◌};

mod sizes;

// So many facts, and so many groups a table: at most 2^32 of each, so that where they lie in memory is a usize.
#[derive(Clone, Copy, Debug, PartialEq, Eq)]
pub struct Room {
    facts: usize,
    groups: usize,
    ghost few: { facts ≤ 2 ^ 32 },
    ghost small: { groups ≤ 2 ^ 32 },
}
