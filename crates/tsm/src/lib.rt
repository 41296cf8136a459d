// The C interface of the acts. Floor 8: it stands on all of them.
// Each function answers a struct by value. On a refusal every field but those of its `answer` is 0.
#![tactic(auto)]

ghost use Rattle.std.specs.Prelude.{◌≡◌};
ghost use Rattle.format.specs.Refusals.{refusal_number};
ghost use Rattle.format.specs.Acts.{check_answer, find_answer, read_block_answer, read_block_times, read_block_values, read_point_answer, written_says, write_answer, write_buffer, unroll_answer, unroll_buffer, merge_answer, merge_buffer};
ghost use Rattle.tsm.specs.Answers.{accepted_answer, refused_answer, entry_of, no_entry, checked_of, found_of, block_of, point_of, written_of};

use format::{BlockRead, Entry, PointRead, Refusal, Totals};

// Whether an act refuses, and why.
#[repr(C)]
#[derive(Clone, Copy)]
pub struct TsmAnswer {
    pub number: u8,
}

// An index entry.
#[repr(C)]
#[derive(Clone, Copy)]
pub struct TsmEntry {
    pub kind: u8,
    pub size: u32,
    pub min: i64,
    pub max: i64,
    pub offset: u64,
}

// The answer of check.
#[repr(C)]
#[derive(Clone, Copy)]
pub struct TsmChecked {
    pub answer: TsmAnswer,
    pub keys: u64,
    pub points: u64,
}

// The answer of find.
#[repr(C)]
#[derive(Clone, Copy)]
pub struct TsmFound {
    pub answer: TsmAnswer,
    pub entry: TsmEntry,
}

// The answer of read block.
#[repr(C)]
#[derive(Clone, Copy)]
pub struct TsmBlock {
    pub answer: TsmAnswer,
    pub entry: TsmEntry,
    pub count: usize,
}

// The answer of read point.
#[repr(C)]
#[derive(Clone, Copy)]
pub struct TsmPoint {
    pub answer: TsmAnswer,
    pub entry: TsmEntry,
    pub value: i64,
}

// The answer of write, unroll and merge.
#[repr(C)]
#[derive(Clone, Copy)]
pub struct TsmWritten {
    pub answer: TsmAnswer,
    pub bytes: usize,
}

// Nothing is refused.
fn accepted() -> TsmAnswer
    ensures { result ≡ accepted_answer }
{
    TsmAnswer { number: 0 }
}

// What is refused.
fn refused(refusal: Refusal) -> TsmAnswer
    ensures { result ≡ refused_answer (refusal_number refusal) }
{
    TsmAnswer {
        number: refusal.number(),
    }
}

// The parts of an entry.
fn given_entry(entry: Entry) -> TsmEntry
    ensures { result ≡ entry_of entry }
{
    TsmEntry {
        kind: entry.kind.byte(),
        size: entry.size,
        min: entry.min,
        max: entry.max,
        offset: entry.offset.0 as u64,
    }
}

// The entry of a refusal.
fn no_entry() -> TsmEntry
    ensures { result ≡ no_entry }
{
    TsmEntry {
        kind: 0,
        size: 0,
        min: 0,
        max: 0,
        offset: 0,
    }
}

// Checks an image in full, and counts its keys and points.
#[unsafe(no_mangle)]
pub extern "C" fn tsm_check(image: &[u8]) -> TsmChecked
    ensures { result ≡ checked_of (check_answer image.now) }
{
    match reader::check(image) {
        Ok(Totals { keys, points }) => TsmChecked {
            answer: accepted(),
            keys: keys as u64,
            points: points as u64,
        },
        Err(refusal) => TsmChecked {
            answer: refused(refusal),
            keys: 0,
            points: 0,
        },
    }
}

// Finds the index entry for a key and a time.
#[unsafe(no_mangle)]
pub extern "C" fn tsm_find(image: &[u8], key: &[u8], time: i64) -> TsmFound
    ensures { result ≡ found_of (find_answer image.now key.now time) }
{
    match finder::find(image, key, time) {
        Ok(entry) => TsmFound {
            answer: accepted(),
            entry: given_entry(entry),
        },
        Err(refusal) => TsmFound {
            answer: refused(refusal),
            entry: no_entry(),
        },
    }
}

// Reads the block for a key and a time into the lent times and values.
#[unsafe(no_mangle)]
pub extern "C" fn tsm_read_block(
    image: &[u8],
    key: &[u8],
    time: i64,
    times: &mut [i64],
    values: &mut [i64],
) -> TsmBlock
    ensures answer { result ≡ block_of (read_block_answer image.now key.now time times.old values.old) }
    ensures times { times.new ≡ read_block_times image.now key.now time times.old values.old }
    ensures values { values.new ≡ read_block_values image.now key.now time times.old values.old }
{
    match reader::read_block(image, key, time, times, values) {
        Ok(BlockRead { entry, count }) => TsmBlock {
            answer: accepted(),
            entry: given_entry(entry),
            count,
        },
        Err(refusal) => TsmBlock {
            answer: refused(refusal),
            entry: no_entry(),
            count: 0,
        },
    }
}

// Reads the value at a key and an exact time.
#[unsafe(no_mangle)]
pub extern "C" fn tsm_read_point(image: &[u8], key: &[u8], time: i64) -> TsmPoint
    ensures { result ≡ point_of (read_point_answer image.now key.now time) }
{
    match reader::read_point(image, key, time) {
        Ok(PointRead { entry, value }) => TsmPoint {
            answer: accepted(),
            entry: given_entry(entry),
            value,
        },
        Err(refusal) => TsmPoint {
            answer: refused(refusal),
            entry: no_entry(),
            value: 0,
        },
    }
}

// What an act that writes answers.
fn given_written(written: Result<usize, Refusal>) -> TsmWritten
    ensures { result ≡ written_of (written_says written) }
{
    match written {
        Ok(bytes) => TsmWritten {
            answer: accepted(),
            bytes,
        },
        Err(refusal) => TsmWritten {
            answer: refused(refusal),
            bytes: 0,
        },
    }
}

// Writes a roll as an image.
#[unsafe(no_mangle)]
pub extern "C" fn tsm_write(roll: &[u8], out: &mut [u8]) -> TsmWritten
    ensures answer { result ≡ written_of (write_answer roll.now out.old) }
    ensures out { out.new ≡ write_buffer roll.now out.old }
{
    given_written(writer::write(roll, out))
}

// Writes an image as a roll.
#[unsafe(no_mangle)]
pub extern "C" fn tsm_unroll(image: &[u8], out: &mut [u8]) -> TsmWritten
    ensures answer { result ≡ written_of (unroll_answer image.now out.old) }
    ensures out { out.new ≡ unroll_buffer image.now out.old }
{
    given_written(unroller::unroll(image, out))
}

// Merges an older and a newer image into a third.
#[unsafe(no_mangle)]
pub extern "C" fn tsm_merge(older: &[u8], newer: &[u8], out: &mut [u8]) -> TsmWritten
    ensures answer { result ≡ written_of (merge_answer older.now newer.now out.old) }
    ensures out { out.new ≡ merge_buffer older.now newer.now out.old }
{
    given_written(merge::merge(older, newer, out))
}
