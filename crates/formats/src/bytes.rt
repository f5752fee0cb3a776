// Numbers in a file: four bytes each, the low byte first.
ghost use Rattle.std.specs.Prelude.{◌≡◌, ◌+◌, ◌*◌, ◌/◌, ◌≤◌, length, drop, IfOk};
ghost use Rattle.formats.specs.Bytes.{number, numbers, sides_count, sides_of};

use std::alloc::{AllocError, Global};

// The number that starts at a byte.
fn number_at(bytes: &[u8], at: usize) -> u64
    requires { at + 4 ≤ length bytes.now }
    ensures { result ≡ number (drop at bytes.now) }
{
    u64::from(u32::from_le_bytes(*bytes[at..].first_chunk::<4>().unwrap()))
}

// Reads as many numbers as there is room for.
pub fn read_numbers(bytes: &[u8], row: &mut [u64])
    requires { 4 * length row.old ≤ length bytes.now }
    ensures { row.new ≡ numbers (length row.old) bytes.now }
{
    for (i, number) in row.iter_mut().enumerate() {
        *number = number_at(bytes, 4 * i);
    }
}

// The first so many numbers.
fn first_numbers(heap: Global, bytes: &[u8], count: usize) -> Result<Vec<u64>, AllocError>
    requires { 4 * count ≤ length bytes.now }
    ensures { IfOk result (λ v. v.items ≡ numbers count bytes.now) }
{
    let mut row = vec![in heap; 0; count]?;
    read_numbers(bytes, &mut row);
    Ok(row)
}

// All whole numbers of bytes.
pub fn read_row(heap: Global, bytes: &[u8]) -> Result<Vec<u64>, AllocError>
    ensures { IfOk result (λ v. v.items ≡ numbers (length bytes.now / 4) bytes.now) }
{
    first_numbers(heap, bytes, bytes.len() / 4)
}

// How many numbers of a file are its dimensions.
pub fn count_sides(bytes: &[u8]) -> usize
    ensures { (result ≡ sides_count bytes.now) × (4 * result ≤ length bytes.now) }
{
    let there = bytes.len() / 4;
    if there == 0 {
        return 0;
    }
    let count = number_at(bytes, 0) as usize;
    let wanted = if count <= 4 { 1 + 5 * count } else { 1 };
    there.min(wanted)
}

// The row of numbers that are a file's dimensions.
pub fn read_sides(heap: Global, bytes: &[u8]) -> Result<Vec<u64>, AllocError>
    ensures { IfOk result (λ v. v.items ≡ sides_of bytes.now) }
{
    first_numbers(heap, bytes, count_sides(bytes))
}
