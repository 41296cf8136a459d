// Our writer's timestamps section, measured and laid. Floor 3: it stands on format, numbers, section_laws and simple8b.
#![tactic(auto)]

ghost use Rattle.std.specs.Prelude.{ℕ, ◌≡◌, true, ◌∷◌, map, ◌+◌, ◌/◌, ◌^◌, ◌<◌, ◌≤◌, length};
ghost use Rattle.std.specs.Int.Signed.{lt_z};
ghost use Rattle.format.specs.Limits.{read_block_most};
ghost use Rattle.format.specs.Choice.{ascends};
ghost use Rattle.format.specs.Bytes.{big_bytes, splice};
ghost use Rattle.format.specs.Timestamps.{exponent, times_section};
ghost use Rattle.section_laws.specs.Choices.{repeats};
ghost use Rattle.timestamps_writer.specs.Writing.{differences_of, undivided_place, LaidOut, Layable, layout_head, layout_rest, times_part};

use format::{EXPONENT_MOST, READ_BLOCK_MOST};
use section_laws::{PACKED, RAW, REPEATED};

// Bytes of the head: the form with the exponent, and the first time.
const HEAD: usize = 9;

// Bytes of a difference as it is.
const WORD: usize = 8;

// Most differences of a block.
const MOST: usize = READ_BLOCK_MOST - 1;

// Cells for a block of few points, for which `len` and `put` clear these alone: that is there for speed.
const FEW: usize = 32;

// The exponent stands in the low four bits of the first byte, and the form in the high four.
const EXPONENTS: u8 = 16;

// The differences between times, in cells.
fn put_differences(times: &[i64], cells: &mut [u64])
    requires { (length times.now ≡ length cells.old + 1) × (ascends lt_z times.now ≡ true) }
    ensures { cells.new ≡ differences_of times.now }
{
    for (i, cell) in cells.iter_mut().enumerate() {
        let time = numbers::pattern(times[i]);
        let next = numbers::pattern(times[i + 1]);
        *cell = numbers::wrap_sub(next, time);
    }
}

// What f gives at 10^e. Each power has a call of its own, whose loop is its own: there the compiler multiplies and does not divide.
#[inline(always)]
fn at_power<R, F: FnMut(u64) -> R>(e: usize, f: &mut F) -> R
    requires { (e ≤ 12) × ((power : ℕ) → 1 ≤ power → power < 2 ^ 64 → F.pre f.old power) }
    ensures { F.step f.old (10 ^ e) result f.new }
{
    match e {
        0 => f(1),
        1 => f(10),
        2 => f(100),
        3 => f(1_000),
        4 => f(10_000),
        5 => f(100_000),
        6 => f(1_000_000),
        7 => f(10_000_000),
        8 => f(100_000_000),
        9 => f(1_000_000_000),
        10 => f(10_000_000_000),
        11 => f(100_000_000_000),
        _ => f(1_000_000_000_000),
    }
}

// The place of the first difference that the scale does not divide.
#[inline(always)]
fn undivided_by(differences: &[u64], scale: u64) -> Option<usize>
    requires { 1 ≤ scale }
    ensures { result ≡ undivided_place scale differences.now }
{
    differences.iter().position(|d| *d % scale != 0)
}

// The same for 10^e.
fn undivided(differences: &[u64], e: usize) -> Option<usize>
    requires { e ≤ 12 }
    ensures { result ≡ undivided_place (10 ^ e) differences.now }
{
    at_power(e, &mut |scale| undivided_by(differences, scale))
}

// The largest exponent so that its power of ten divides every difference: each is tried, from 12 down, on the differences
// that no larger one passed.
fn search_exponent(differences: &[u64]) -> usize
    ensures { result ≡ exponent 12 differences.now }
{
    let mut rest = differences;
    for e in (1..EXPONENT_MOST + 1).rev() {
        let Some(place) = undivided(rest, e) else {
            return e;
        };
        rest = &rest[place..];
    }
    0
}

// The same; where ten does not divide the first difference, as in most blocks of times that are not round, none is tried.
fn find_exponent(differences: &[u64]) -> usize
    ensures { result ≡ exponent 12 differences.now }
{
    if differences.is_empty() {
        return EXPONENT_MOST;
    }
    if differences[0] % 10 != 0 {
        return 0;
    }
    search_exponent(differences)
}

// Whether there are differences, all of them equal.
fn repeat(differences: &[u64]) -> bool
    ensures { result ≡ repeats 1 differences.now }
{
    !differences.is_empty() && numbers::all_equal(differences)
}

// Divides the numbers in cells.
#[inline(always)]
fn divide_by(cells: &mut [u64], scale: u64)
    requires { 1 ≤ scale }
    ensures { cells.new ≡ map (λ d. d / scale) cells.old }
{
    for cell in cells.iter_mut() {
        *cell /= scale;
    }
}

// The same by 10^e.
fn divide(cells: &mut [u64], e: usize)
    requires { e ≤ 12 }
    ensures { cells.new ≡ map (λ d. d / 10 ^ e) cells.old }
{
    at_power(e, &mut |scale| divide_by(cells, scale));
}

// How our writer lays a section.
#[derive(Clone, Copy)]
enum Layout {
    Repeated { e: usize },
    Packed { e: usize },
    Raw,
}

// The layout of times; the numbers to lay stand in the cells.
fn lay_out(times: &[i64], cells: &mut [u64]) -> Layout
    requires { (length times.now ≡ length cells.old + 1) × (ascends lt_z times.now ≡ true) }
    ensures { LaidOut result (differences_of times.now) cells.new }
{
    put_differences(times, cells);
    if repeat(cells) {
        // Equal differences: the first decides.
        return Layout::Repeated {
            e: find_exponent(&cells[..1]),
        };
    }
    let e = find_exponent(cells);
    divide(cells, e);
    if simple8b::packable(cells) {
        return Layout::Packed { e };
    }
    put_differences(times, cells);
    Layout::Raw
}

// The number of bytes after the head of a section.
fn rest_len(layout: Layout, numbers: &[u64]) -> usize
    requires { (length numbers.now < read_block_most) × Layable layout numbers.now }
    ensures { result ≡ length (layout_rest layout numbers.now) }
{
    match layout {
        Layout::Repeated { e } => {
            numbers::varint_len(numbers[0] / numbers::power_of_ten(e))
                + numbers::varint_len((numbers.len() + 1) as u64)
        }
        Layout::Packed { e: _ } => simple8b::packed_len(numbers),
        Layout::Raw => numbers.len() * WORD,
    }
}

// The number of bytes of our writer's section, with cells for the differences.
fn len_in(times: &[i64], cells: &mut [u64]) -> usize
    requires { (length times.now ≤ read_block_most) × (ascends lt_z times.now ≡ true) × (length times.now ≡ length cells.old + 1) }
    ensures { result ≡ length (times_section times.now) }
{
    let layout = lay_out(times, cells);
    HEAD + rest_len(layout, cells)
}

// The number of bytes of our writer's section of times. For few times few cells are cleared.
pub fn len(times: &[i64]) -> usize
    requires { (1 ≤ length times.now) × (length times.now ≤ read_block_most) × (ascends lt_z times.now ≡ true) }
    ensures { result ≡ length (times_section times.now) }
{
    let count = times.len() - 1;
    if count < FEW {
        let mut few = [0u64; FEW];
        return len_in(times, &mut few[..count]);
    }
    let mut cells = [0u64; MOST];
    len_in(times, &mut cells[..count])
}

// The form and the exponent of a layout, as the first byte states them.
fn head_byte(layout: Layout) -> u8
    requires { layout_head layout < 256 }
    ensures { result ≡ layout_head layout }
{
    match layout {
        Layout::Repeated { e } => (REPEATED as usize * 16 + e) as u8,
        Layout::Packed { e } => (PACKED as usize * 16 + e) as u8,
        Layout::Raw => RAW * EXPONENTS,
    }
}

// Lays the first byte, and the first time, given by its pattern.
fn put_head(out: &mut [u8], at: usize, head: u8, first: u64)
    requires { at + 9 ≤ length out.old }
    ensures { out.new ≡ splice at (head ∷ big_bytes 8 first) out.old }
{
    out[at] = head;
    numbers::put_u64(out, at + 1, first);
}

// Lays what follows the head of a section at `at`; the place after it.
fn put_rest(out: &mut [u8], at: usize, layout: Layout, numbers: &[u64]) -> usize
    requires { (length numbers.now < read_block_most) × Layable layout numbers.now × (at + length (layout_rest layout numbers.now) ≤ length out.old) }
    ensures next { result ≡ at + length (layout_rest layout numbers.now) }
    ensures laid { out.new ≡ splice at (layout_rest layout numbers.now) out.old }
{
    match layout {
        Layout::Repeated { e } => {
            let next = numbers::put_varint(out, at, numbers[0] / numbers::power_of_ten(e));
            numbers::put_varint(out, next, (numbers.len() + 1) as u64)
        }
        Layout::Packed { e: _ } => simple8b::put_packed(out, at, numbers),
        Layout::Raw => numbers::put_words(out, at, numbers),
    }
}

// Lays the length of our writer's section at `at`, and then the section, with cells for the differences; the place after it.
fn put_in(out: &mut [u8], at: usize, times: &[i64], cells: &mut [u64]) -> usize
    requires le_n { (length times.now ≤ read_block_most) × (ascends lt_z times.now ≡ true) × (length times.now ≡ length cells.old + 1) }
    requires times_in_bounds { at + length (times_part times.now) ≤ length out.old }
    ensures next { result ≡ at + length (times_part times.now) }
    ensures laid { out.new ≡ splice at (times_part times.now) out.old }
{
    let layout = lay_out(times, cells);
    let len = HEAD + rest_len(layout, cells);
    let start = numbers::put_varint(out, at, len as u64);
    put_head(out, start, head_byte(layout), numbers::pattern(times[0]));
    put_rest(out, start + HEAD, layout, cells)
}

// Lays the length of our writer's section of times at `at`, and then the section; the place after it. The times are laid out
// once.
pub fn put(out: &mut [u8], at: usize, times: &[i64]) -> usize
    requires le_n { (1 ≤ length times.now) × (length times.now ≤ read_block_most) × (ascends lt_z times.now ≡ true) }
    requires times_in_bounds { at + length (times_part times.now) ≤ length out.old }
    ensures next { result ≡ at + length (times_part times.now) }
    ensures laid { out.new ≡ splice at (times_part times.now) out.old }
{
    let count = times.len() - 1;
    if count < FEW {
        let mut few = [0u64; FEW];
        return put_in(out, at, times, &mut few[..count]);
    }
    let mut cells = [0u64; MOST];
    put_in(out, at, times, &mut cells[..count])
}
