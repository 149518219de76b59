//! A write to an entry: checks its access, its length, its value and the state, in this order.
ghost use Rattle.std.specs.Prelude.{◌≡◌};
ghost use Rattle.dictionary.specs.AbortCodes.{code_in};
ghost use Rattle.sdo.specs.Steps.{length_code, write_code, row_reply, reply_in};
ghost use Rattle.sdo.specs.Service.{cut_to};

use can::Bytes;
use dictionary::abort::Abort;
use entries::Device;
use entries::table::Row;
use sdo::reply::Served;

pub fn to_row(
    device: Device,
    bytes: Bytes,
    length: u8,
    content: u32,
    row: Row,
) -> Result<Served, Abort>
    ensures { reply_in bytes result ≡ row_reply device bytes length content row }
{
    let value = cut(content, row.width);
    check(device, length, value, row)?;
    Ok(replies::confirm(bytes, entries::table::altered(row), value))
}

// Bytes past the entry's length are ignored.
fn cut(content: u32, width: u8) -> u32
    ensures { result ≡ cut_to width content }
{
    match width {
        1 => content % 256,
        2 => content % 65_536,
        _ => content,
    }
}

#[tactic(auto, unfolding(sdo::specs::Steps::write_code))]
fn check(device: Device, length: u8, value: u32, row: Row) -> Result<(), Abort>
    ensures { code_in result ≡ write_code device length value row }
{
    if !row.rw {
        return Err(Abort::ReadOnly);
    }
    check_length(length, row.width)?;
    acceptance::check_write(device, row, value)
}

fn check_length(length: u8, width: u8) -> Result<(), Abort>
    ensures { code_in result ≡ length_code length width }
{
    if length == 0 {
        return Ok(());
    }
    if width < length {
        return Err(Abort::TooLong);
    }
    if length < width {
        return Err(Abort::TooShort);
    }
    Ok(())
}
