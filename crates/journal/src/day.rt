// A day: the deeds of a file, done in order from an empty warehouse, and what is told of them.
ghost use Rattle.std.specs.Prelude.{◌≡◌, [], ◌++◌, length, IfOk, OnOk, vec_len, string_bytes};
ghost use Rattle.hierarchy.specs.Views.{dims_of};
ghost use Rattle.model.specs.House.{ask, empty, step, told};
ghost use Rattle.warehouse.specs.Views.{dims_in, limits_in, house_of};
ghost use Rattle.journal.specs.Answers.{AnswersRight};
ghost use Rattle.journal.specs.Days.{day_text, day_whole};
ghost use Rattle.journal.specs.Deeds.{deed_of, deeds_in, is_whole};
ghost use Rattle.journal.specs.Room.{replay_limits, replay_row};
ghost use Rattle.tables.specs.Rooms.{limits_of, row_of};
ghost use Rattle.journal.specs.Replies.{told_text, replies};

use super::deed::Kind;
use super::deed::read::next_deed;
use formats::bytes::{count_sides, read_sides};
use formats::fault::NoMemory;
use formats::text::{write_reply, write_table};
use hierarchy::Dimensions;
use replies::Reply;
use std::alloc::Global;
use storage::Layout;
use tables::Room;
use warehouse::Warehouse;

// Room for so many facts, and so many groups a table.
pub const FACTS: usize = 256;

pub const GROUPS: usize = 64;

// A row that holds any table of so many groups: four levels, the count, and six numbers a group.
pub const ROW: usize = 389;

const _: () = prove!(ROW == 5 + 6 * GROUPS);

// What was told, and whether the file ended right behind a deed; the text is there either way.
#[derive(Drop)]
pub struct Day {
    pub text: String,
    pub whole: bool,
}

// The day of a file.
pub fn replay(heap: Global, bytes: &[u8]) -> Result<Day, NoMemory>
    ensures text { IfOk result (λ d. (string_bytes d.text ≡ day_text replay_limits replay_row bytes.now) × (d.whole ≡ day_whole bytes.now)) }
    ensures answers { IfOk result (λ d. AnswersRight replay_limits replay_row bytes.now (string_bytes d.text)) }
{
    replay_in(heap, Room::new(FACTS, GROUPS).unwrap(), bytes)
}

// The day of a file, in a warehouse with so much room.
pub fn replay_in(heap: Global, room: Room, bytes: &[u8]) -> Result<Day, NoMemory>
    ensures text { IfOk result (λ d. (string_bytes d.text ≡ day_text (limits_of room) (row_of room) bytes.now) × (d.whole ≡ day_whole bytes.now)) }
    ensures answers { IfOk result (λ d. AnswersRight (limits_of room) (row_of room) bytes.now (string_bytes d.text)) }
{
    let sides = read_sides(heap, bytes)?;
    match Dimensions::read(sides.as_slice()) {
        Err(refusal) => {
            let mut text = String::new(heap);
            write_reply(&mut text, Reply::Refused(refusal))?;
            Ok(Day { text, whole: true })
        }
        Ok(dims) => run(heap, dims, room, &bytes[4 * count_sides(bytes)..]),
    }
}

// Does all deeds in order: what was told, and whether no byte is left over.
fn run(heap: Global, dims: Dimensions, room: Room, bytes: &[u8]) -> Result<Day, NoMemory>
    ensures text { IfOk result (λ d. string_bytes d.text ≡ replies (dims_of dims) (limits_of room) (empty (dims_of dims)) (deeds_in (length (dims_of dims)) (row_of room) bytes.now)) }
    ensures whole { IfOk result (λ d. d.whole ≡ is_whole (length (dims_of dims)) bytes.now) }
{
    let width = dims.width();
    let mut desk = Desk::open(heap, dims, room)?;
    let mut rest = bytes;
    while let Some(step) = next_deed(width, rest) {
        desk.act(step.kind, &step.numbers[..step.count])?;
        rest = step.rest;
    }
    let whole = rest.is_empty();
    let Desk { text, .. } = desk;
    Ok(Day { text, whole })
}

// A warehouse, the row that is lent to its answers, and the text of what was told so far.
#[derive(Drop)]
struct Desk {
    house: Warehouse,
    out: Vec<u64>,
    text: String,
}

impl Desk {
    // An empty warehouse with so much room, and nothing told.
    fn open(heap: Global, dims: Dimensions, room: Room) -> Result<Desk, NoMemory>
        ensures dims { IfOk result (λ d. dims_in d.house ≡ dims_of dims) }
        ensures room { IfOk result (λ d. (limits_in d.house ≡ limits_of room) × (vec_len d.out ≡ row_of room)) }
        ensures none { IfOk result (λ d. (house_of d.house ≡ empty (dims_of dims)) × (string_bytes d.text ≡ [])) }
    {
        Ok(Desk {
            house: Warehouse::open(heap, Layout::with_room(dims, room))?,
            out: vec![in heap; 0; room.row_length()]?,
            text: String::new(heap),
        })
    }

    // Does one deed and tells of it.
    fn act(&mut self, kind: Kind, numbers: &[u64]) -> Result<(), NoMemory>
        ensures told { OnOk result (string_bytes self.new.text ≡ string_bytes self.old.text ++ told_text (told (dims_in self.old.house) (limits_in self.old.house) (house_of self.old.house) (deed_of (vec_len self.old.out) kind numbers.now))) }
        ensures house { OnOk result (house_of self.new.house ≡ step (dims_in self.old.house) (limits_in self.old.house) (house_of self.old.house) (deed_of (vec_len self.old.out) kind numbers.now)) }
        ensures same { OnOk result ((self.new.house.layout ≡ self.old.house.layout) × (vec_len self.new.out ≡ vec_len self.old.out)) }
    {
        // Each arm is a method with a contract of its own, which a table of closures would hide.
        match kind {
            Kind::Insert => write_reply(&mut self.text, self.house.insert(numbers).into())?,
            Kind::Delete => write_reply(&mut self.text, self.house.delete(numbers).into())?,
            Kind::Keep => write_reply(&mut self.text, self.house.keep(numbers).into())?,
            Kind::Drop => write_reply(&mut self.text, self.house.drop_table(numbers).into())?,
            Kind::Ask => self.answer(numbers)?,
        }
        Ok(())
    }

    // Asks, and tells the groups and the work, or why there are none.
    fn answer(&mut self, numbers: &[u64]) -> Result<(), NoMemory>
        ensures told { OnOk result (string_bytes self.new.text ≡ string_bytes self.old.text ++ told_text (told (dims_in self.old.house) (limits_in self.old.house) (house_of self.old.house) (ask numbers.now (vec_len self.old.out)))) }
        ensures same { OnOk result ((self.new.house ≡ self.old.house) × (vec_len self.new.out ≡ vec_len self.old.out)) }
    {
        let reply = self.house.ask(numbers, &mut self.out);
        if reply.is_ok() {
            write_table(&mut self.text, self.house.shape(), &self.out)?;
        }
        write_reply(&mut self.text, reply.into())?;
        Ok(())
    }
}
