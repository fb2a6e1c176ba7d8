//! The texts of replies.
ghost use Rattle.std.specs.Prelude.{◌≡◌, ◌≤◌, ◌<◌, ◌+◌, ◌++◌, OnOk, OnErr, drop, length, codes, decimal, vec_len, vec_capacity};
ghost use Rattle.memcache_model.specs.Replies.{error_text, unique_text, value_text};
ghost use Rattle.memcache_service.specs.Lines.{head_text, reply_text};

use crate::item::StoredItem;
use itoa::{Buffer, write_digits};
use memcache_model::ProtocolError;
use std::alloc::AllocError;

/// The room in bytes for each reply of one line but those of meta commands.
pub const SHORT: usize = 96;

/// A reply of one line, or one that was written already.
#[derive(Clone, Copy, PartialEq, Eq, Drop)]
pub enum Reply {
    /// A reply that was written already.
    Written,
    /// `STORED`.
    Stored,
    /// `NOT_STORED`.
    NotStored,
    /// `EXISTS`.
    Exists,
    /// `NOT_FOUND`.
    NotFound,
    /// `DELETED`.
    Deleted,
    /// `TOUCHED`.
    Touched,
    /// `OK`.
    Done,
    /// `RESET`.
    Reset,
    /// `VERSION` with the version.
    Version,
    /// `MN`.
    NoOp,
    /// The data block is too large.
    TooLarge,
    /// The item to count is no number.
    NoNumber,
    /// A number, alone on its line.
    Number(u64),
    /// The text of this fault.
    Fault(ProtocolError),
    /// There is no memory for what a request stores.
    NoMemory,
    /// There is no memory for the values of a `get`, or they are more than a reply may have.
    NoRoom,
    /// There is no memory for statistics.
    NoStatistics,
}

impl Reply {
    /// Appends the text of the reply, in room that was reserved.
    pub fn write(self, output: &mut Vec<u8>)
        requires { vec_len output.old + SHORT ≤ vec_capacity output.old }
        ensures { output.new.items ≡ output.old.items ++ reply_text self }
    {
        match self {
            Reply::Written => {}
            Reply::Stored => write(output, b"STORED\r\n"),
            Reply::NotStored => write(output, b"NOT_STORED\r\n"),
            Reply::Exists => write(output, b"EXISTS\r\n"),
            Reply::NotFound => write(output, b"NOT_FOUND\r\n"),
            Reply::Deleted => write(output, b"DELETED\r\n"),
            Reply::Touched => write(output, b"TOUCHED\r\n"),
            Reply::Done => write(output, b"OK\r\n"),
            Reply::Reset => write(output, b"RESET\r\n"),
            Reply::Version => write(output, b"VERSION 1.6.18\r\n"),
            Reply::NoOp => write(output, b"MN\r\n"),
            Reply::TooLarge => write(output, b"SERVER_ERROR object too large for cache\r\n"),
            Reply::NoNumber => write(
                output,
                b"CLIENT_ERROR cannot increment or decrement non-numeric value\r\n",
            ),
            Reply::Number(number) => write_number(output, number),
            Reply::Fault(error) => write(output, error_text(error)),
            Reply::NoMemory => write(output, b"SERVER_ERROR out of memory storing object\r\n"),
            Reply::NoRoom => {
                write(
                    output,
                    b"SERVER_ERROR out of memory writing get response\r\n",
                )
            }
            Reply::NoStatistics => {
                write(output, b"SERVER_ERROR out of memory writing stats\r\n")
            }
        }
    }
}

/// Writes a number and the end of the line, in room that was reserved.
fn write_number(output: &mut Vec<u8>, number: u64)
    requires { vec_len output.old + SHORT ≤ vec_capacity output.old }
    ensures { output.new.items ≡ output.old.items ++ (decimal number ++ codes "\r\n") }
{
    let mut digits = Buffer::new();
    write(output, digits.format(number).as_bytes());
    write(output, b"\r\n")
}

/// Writes a short text behind what is there, in room that was reserved.
fn write(output: &mut Vec<u8>, text: &[u8])
    requires { vec_len output.old + length text.now ≤ vec_capacity output.old }
    ensures items { output.new.items ≡ output.old.items ++ text.now }
    ensures capacity { vec_capacity output.old ≤ vec_capacity output.new }
    ensures len { vec_len output.new ≡ vec_len output.old + length text.now }
{
    output.extend_from_slice(text).unwrap();
}

/// Returns the text of an error.
pub fn error_text(error: ProtocolError) -> &'static [u8]
    ensures text { result.now ≡ error_text error }
    ensures short { length result.now ≤ SHORT }
{
    match error {
        ProtocolError::Unknown => b"ERROR\r\n",
        ProtocolError::Format => b"CLIENT_ERROR bad command line format\r\n",
        ProtocolError::Delete => {
            b"CLIENT_ERROR bad command line format.  Usage: delete <key> [noreply]\r\n"
        }
        ProtocolError::Chunk => b"CLIENT_ERROR bad data chunk\r\n",
        ProtocolError::Exptime => b"CLIENT_ERROR invalid exptime argument\r\n",
        ProtocolError::Delta => b"CLIENT_ERROR invalid numeric delta argument\r\n",
        ProtocolError::Flag => b"CLIENT_ERROR invalid flag\r\n",
        ProtocolError::Token => b"CLIENT_ERROR bad token in command line format\r\n",
        ProtocolError::Opaque => b"CLIENT_ERROR opaque token too long\r\n",
        ProtocolError::ModeLength => b"CLIENT_ERROR incorrect length for M token\r\n",
        ProtocolError::SetMode => b"CLIENT_ERROR invalid mode for ms M token\r\n",
        ProtocolError::CountMode => b"CLIENT_ERROR invalid mode for ma M token\r\n",
        ProtocolError::TooLong => b"CLIENT_ERROR line too long\r\n",
        ProtocolError::Foreign => b"",
    }
}

/// Appends a text. Returns an error if there is not enough memory; then nothing is written.
pub fn say(output: &mut Vec<u8>, text: &[u8]) -> Result<(), AllocError>
    ensures ok { OnOk result (output.new.items ≡ output.old.items ++ text.now) }
    ensures err { OnErr result (output.new.items ≡ output.old.items) }
    ensures capacity { vec_capacity output.old ≤ vec_capacity output.new }
{
    output.extend_from_slice(text)
}

/// Appends a number in decimal. Returns an error if there is not enough memory; then nothing is written.
pub fn say_number(output: &mut Vec<u8>, number: u64) -> Result<(), AllocError>
    ensures ok { OnOk result (output.new.items ≡ output.old.items ++ decimal number) }
    ensures err { OnErr result (output.new.items ≡ output.old.items) }
    ensures capacity { vec_capacity output.old ≤ vec_capacity output.new }
{
    let mut digits = Buffer::new();
    say(output, digits.format(number).as_bytes())
}

/// Appends an item as a `get` tells it. Returns an error if there is not enough memory; then nothing is written.
pub fn say_value(
    output: &mut Vec<u8>,
    uniques: bool,
    key: &[u8],
    item: &StoredItem,
) -> Result<(), AllocError>
    ensures ok { OnOk result
        (output.new.items ≡ output.old.items ++ value_text uniques key.now item.now) }
    ensures err { OnErr result (output.new.items ≡ output.old.items) }
    ensures capacity { vec_capacity output.old ≤ vec_capacity output.new }
{
    let needed = key
        .len()
        .saturating_add(item.bytes().len())
        .saturating_add(SHORT);
    output.reserve(needed)?;
    write_head(output, uniques, key, item);
    write(output, item.bytes());
    write(output, b"\r\n");
    Ok(())
}

/// Appends an item as the reply of a `get` that has no other. Returns an error if there is not enough memory; then nothing is written.
pub fn say_whole(
    output: &mut Vec<u8>,
    uniques: bool,
    key: &[u8],
    item: &StoredItem,
) -> Result<(), AllocError>
    ensures ok { OnOk result (output.new.items ≡ output.old.items
        ++ (value_text uniques key.now item.now ++ codes "END\r\n")) }
    ensures err { OnErr result (output.new.items ≡ output.old.items) }
    ensures capacity { vec_capacity output.old ≤ vec_capacity output.new }
{
    let needed = key
        .len()
        .saturating_add(item.bytes().len())
        .saturating_add(SHORT);
    output.reserve(needed)?;
    write_head(output, uniques, key, item);
    write(output, item.bytes());
    write(output, b"\r\nEND\r\n");
    Ok(())
}

/// Writes what stands before an item's bytes, in room that was reserved.
fn write_head(output: &mut Vec<u8>, uniques: bool, key: &[u8], item: &StoredItem)
    requires { vec_len output.old + length key.now + 80 ≤ vec_capacity output.old }
    ensures items { output.new.items ≡ output.old.items
        ++ head_text uniques key.now item.now }
    ensures len { vec_len output.new ≤ vec_len output.old + length key.now + 80 }
    ensures capacity { vec_capacity output.old ≤ vec_capacity output.new }
{
    write(output, b"VALUE ");
    write(output, key);
    write_numbers(output, uniques, item);
}

/// Writes the numbers of a head and its end, in room that was reserved: from the last one on into a row of bytes, which is written at once.
fn write_numbers(output: &mut Vec<u8>, uniques: bool, item: &StoredItem)
    requires { vec_len output.old + 65 ≤ vec_capacity output.old }
    ensures items { output.new.items ≡ output.old.items ++ (codes " " ++ decimal item.now.flags
        ++ codes " " ++ decimal (length item.now.bytes)
        ++ unique_text uniques item.now.unique ++ codes "\r\n") }
    ensures len { vec_len output.new ≤ vec_len output.old + 65 }
    ensures capacity { vec_capacity output.old ≤ vec_capacity output.new }
{
    let mut row = *b"---------------------------------------------------------------\r\n";
    let end = if uniques {
        put_before(&mut row, 63, item.unique())
    } else {
        63
    };
    let end = put_before(&mut row, end, item.bytes().len() as u64);
    let start = put_before(&mut row, end, u64::from(item.flags()));
    write(output, &row[start..]);
}

/// Puts a space and a number before what stands at `end`, and returns where they begin.
fn put_before(row: &mut [u8], end: usize, number: u64) -> usize
    requires { (21 ≤ end) × (end ≤ length row.old) }
    ensures start { (result < end) × (end ≤ result + 21) }
    ensures put { drop result row.new ≡ codes " " ++ decimal number ++ drop end row.old }
{
    let start = write_digits(number, row, end);
    row[start - 1] = b' ';
    start - 1
}
