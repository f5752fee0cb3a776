// Answers as text.
ghost use Rattle.std.specs.Prelude.{◌≡◌, ◌+◌, ◌++◌, string_bytes, OnOk};
ghost use Rattle.summary.specs.Memory.{cell_of, table_in, Whole};
ghost use Rattle.formats.specs.Text.{place_text, line_text, table_text, reply_line};

use replies::Reply;
use std::fmt;
use summary::{Group, Shape};

// Numbers with a space between. A type around the slice, only for a Display, would be no plainer.
pub fn write_numbers(text: &mut String, row: &[u64]) -> fmt::Result
    ensures { OnOk result (string_bytes text.new ≡ string_bytes text.old ++ place_text row.now) }
{
    let Some((first, rest)) = row.split_first() else {
        return Ok(());
    };
    write!(text, "{first}")?;
    for number in rest {
        write!(text, " {number}")?;
    }
    Ok(())
}

// A group as a line: its place, how many facts, their sum. It does not know how many dimensions there are, so it has no Display.
pub fn write_group(text: &mut String, shape: Shape, group: Group) -> fmt::Result
    ensures { OnOk result (string_bytes text.new ≡ string_bytes text.old ++ line_text (cell_of shape.width group)) }
{
    let Group { place, count, sum } = group;
    write_numbers(text, &place[..shape.width()])?;
    writeln!(text, ": {count} {sum}")?;
    Ok(())
}

// The groups of a table, a line each.
pub fn write_table(text: &mut String, shape: Shape, row: &[u64]) -> fmt::Result
    requires { Whole shape.width row.now }
    ensures { OnOk result (string_bytes text.new ≡ string_bytes text.old ++ table_text (table_in shape.width row.now)) }
{
    for part in shape.groups(row).chunks_exact(shape.stride()) {
        write_group(text, shape, shape.read(part))?;
    }
    Ok(())
}

// A reply as a line.
pub fn write_reply(text: &mut String, reply: Reply) -> fmt::Result
    ensures { OnOk result (string_bytes text.new ≡ string_bytes text.old ++ reply_line reply) }
{
    writeln!(text, "{reply}")?;
    Ok(())
}
