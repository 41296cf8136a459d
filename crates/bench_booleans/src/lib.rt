// A booleans section read a byte at a time, as the library reads it, and bit by bit, so that the benchmark can compare the two:
// exported to it alone, and with one contract. Floor 4: it stands on booleans; no act stands on it.
#![tactic(auto)]

ghost use Rattle.std.specs.Prelude.{◌≡◌, ◌≤◌, length, take};
ghost use Rattle.format.specs.Booleans.{bits_of_bytes, bitmap_size, read_booleans};
ghost use Rattle.format.specs.Acts.{laid};
ghost use Rattle.booleans.specs.Section.{answer_of};
ghost use Rattle.bench_booleans.specs.Rows.{read_number, row_number, row_values};

use booleans::{BITS, HIGHEST};
use format::Broken;

// Lays the first bits of bytes, as many as there are cells, each by itself.
fn open_by_bits(bytes: &[u8], values: &mut [u64])
    requires { bitmap_size (length values.old) ≤ length bytes.now }
    ensures { values.new ≡ take (length values.old) (bits_of_bytes bytes.now) }
{
    for i in 0..values.len() {
        values[i] = u64::from((bytes[i / BITS] >> (HIGHEST - i % BITS)) % 2);
    }
}

// Reads the values of a section bit by bit, as many as there are cells, or says which place breaks it: as `booleans::read`.
fn read_by_bits(section: &[u8], values: &mut [u64]) -> Result<(), Broken>
    ensures answer { result ≡ answer_of (read_booleans (length values.old) 0 section.now) }
    ensures values { values.new ≡ laid (read_booleans (length values.old) 0 section.now) values.old }
{
    let start = booleans::find_bitmap(section, values.len())?;
    open_by_bits(&section[start..], values);
    Ok(())
}

// What a reading answers, as a number for C.
fn number_of(read: Result<(), Broken>) -> u8
    ensures { result ≡ read_number read }
{
    match read {
        Ok(()) => 0,
        Err(_) => 1,
    }
}

// A section read a byte at a time: 0 where it is read, 1 where it is refused, 2 where the slice is too short for n values.
#[unsafe(no_mangle)]
pub extern "C" fn bench_booleans_bytes(section: &[u8], n: usize, values: &mut [u64]) -> u8
    ensures answer { result ≡ row_number n section.now values.old }
    ensures values { values.new ≡ row_values n section.now values.old }
{
    if values.len() < n {
        return 2;
    }
    number_of(booleans::read(section, &mut values[..n]))
}

// A section read bit by bit, with the same answers.
#[unsafe(no_mangle)]
pub extern "C" fn bench_booleans_bits(section: &[u8], n: usize, values: &mut [u64]) -> u8
    ensures answer { result ≡ row_number n section.now values.old }
    ensures values { values.new ≡ row_values n section.now values.old }
{
    if values.len() < n {
        return 2;
    }
    number_of(read_by_bits(section, &mut values[..n]))
}
