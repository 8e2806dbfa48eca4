// Records in cells: where one ends, its address and contents, the record of an address, what a test takes, totals, and new records.
#![tactic(auto)]

ghost use Rattle.std.specs.Prelude.{◌≡◌, map, reverse, take};
ghost use Rattle.language.specs.Values.{same};
ghost use Rattle.cells.specs.Below.Components.{components_in, record_bytes, records_bytes, record_in, records_in};
ghost use Rattle.cells.specs.Below.LayoutBounds.{WholeComponents, WholeRecords};
ghost use Rattle.lists.specs.Lists.{same_list};
ghost use Rattle.cells.specs.Below.Changes.{stamped};
ghost use Rattle.cells.specs.Below.MachineArguments.{first};
ghost use Rattle.matching.specs.Tests.{until, stops_before};
ghost use Rattle.cells.specs.Cells.{pasted, Number};
ghost use Rattle.records.specs.Places.{Starts, Ends, SplitRecord, Part, LastAddress, next_contents, BothWhole, Sought, Recordable, Copyable};
ghost use Rattle.records.specs.Sequences.{until_records, stops_void, reached_records, FirstStoppable, RecordStoppable, RecordsCountable, TookRecords, Totalled};

use components::{Amount, RecordPlaces};
use matching::Test;

// How many cells a record takes beside its components: its address, and how long they are, before them and after them.
pub const FRAME: usize = RecordPlaces::FRAME;

// How many records stand up to a place, and their cells.
#[derive(Clone, Copy, Debug, PartialEq, Eq)]
pub struct Place {
    pub records: usize,
    pub bytes: usize,
}

// A test of records: of their first components, or whether all components of one are these.
#[derive(Clone, Copy, Debug, PartialEq, Eq)]
pub enum RecordTest<'a> {
    First(Test<'a>),
    Whole(&'a [u8]),
}

// Where what a test takes of records ends; whether it was reached.
// No `Result<Place, Place>` as of `find`: each caller wants the place and, apart from it, whether it was reached.
#[derive(Clone, Copy, Debug, PartialEq, Eq)]
pub struct Sequence {
    pub end: Place,
    pub reached: bool,
}

// How many cells the record in front takes.
fn size_of(s: &[u8]) -> usize
    requires { Starts s.now }
    ensures { Ends s.now result }
{
    FRAME + cells::two_at(s, RecordPlaces::LENGTH)
}

// The first record and what is behind it; none where there is none.
// No iterator: by the length of what is behind, the loops tell where they stand.
pub fn split_record(s: &[u8]) -> Option<(&[u8], &[u8])>
    requires { WholeRecords s.now }
    ensures { SplitRecord s.now result }
{
    if s.is_empty() {
        return None;
    }
    Some(s.split_at(size_of(s)))
}

// The address of the record in front.
pub fn address_of(s: &[u8]) -> usize
    requires { Starts s.now }
    ensures { Number (record_in s.now).addr 8388608 result }
{
    cells::three_at(s, 0)
}

// The components of the record in front.
pub fn contents_of(s: &[u8]) -> &[u8]
    requires { Starts s.now }
    ensures { Part s.now (record_in s.now).parts result.now }
{
    &s[RecordPlaces::CONTENTS..RecordPlaces::CONTENTS + cells::two_at(s, RecordPlaces::LENGTH)]
}

// The components of the first record, none where there is no record.
pub fn next_contents(s: &[u8]) -> &[u8]
    requires { WholeRecords s.now }
    ensures { Part s.now (next_contents (records_in s.now)) result.now }
{
    if s.is_empty() {
        return &s[..0];
    }
    contents_of(s)
}

// The first of some components, none where there is none.
pub fn first_of(contents: &[u8]) -> &[u8]
    requires { WholeComponents contents.now }
    ensures { Part contents.now (take 1 (components_in contents.now)) result.now }
{
    &contents[..components::first_size(contents)]
}

// Whether two records have the same components.
pub fn same_contents(a: &[u8], b: &[u8]) -> bool
    requires { BothWhole a.now b.now }
    ensures { result ≡ same_list same (components_in a.now) (components_in b.now) }
{
    a == b
}

// The address of the last record.
pub fn last_address(s: &[u8]) -> Option<usize>
    requires { WholeRecords s.now }
    ensures { LastAddress s.now result }
{
    if s.is_empty() {
        return None;
    }
    let n = s.len();
    let k = cells::two_at(s, n - RecordPlaces::LENGTH_SIZE);
    Some(address_of(&s[n - FRAME - k..]))
}

// The place behind the record of an address; where there is none, the place behind all, by which a second string is searched on.
#[tactic(auto, using(crate::proofs::Steps::front_shorter, crate::proofs::Steps::record_starts, crate::proofs::Steps::left_within))]
pub fn find(s: &[u8], address: usize) -> Result<Place, Place>
    requires { WholeRecords s.now }
    ensures { Sought address s.now result }
{
    let mut left = s;
    let mut k = 0;
    while let Some((r, rest)) = split_record(left) {
        left = rest;
        k += 1;
        if address_of(r) == address {
            return Ok(Place {
                records: k,
                bytes: s.len() - left.len(),
            });
        }
    }
    Err(Place {
        records: k,
        bytes: s.len(),
    })
}

// Whether a test ends the sequence before a record without components, which stands at place `k`.
fn stops_void(test: Test, k: usize) -> bool
    ensures { result ≡ stops_void test.entry k }
{
    match test {
        Test::All | Test::Among(_) => false,
        Test::Count(n) => n <= k,
        Test::Class(_) => true,
    }
}

// Whether a test ends the sequence before a record of which `x` is the first component, or nothing, and which stands at place `k`.
fn stops_first(test: Test, k: usize, x: &[u8]) -> bool
    requires { FirstStoppable test x.now }
    ensures { result ≡ stops_before (until test.entry) k (first (components_in x.now)) }
{
    if x.is_empty() {
        return stops_void(test, k);
    }
    matching::stops(test, k, x)
}

// Whether a test ends the sequence before the record in front, which stands at place `k`.
fn stops_at(test: RecordTest, k: usize, s: &[u8]) -> bool
    requires { RecordStoppable test s.now }
    ensures { result ≡ stops_before (until_records test.entry) k (record_in s.now) }
{
    let contents = contents_of(s);
    match test {
        RecordTest::First(t) => stops_first(t, k, first_of(contents)),
        RecordTest::Whole(given) => same_contents(contents, given),
    }
}

// Whether a test that met no end is reached after `k` records.
fn reached_at(test: RecordTest, k: usize) -> bool
    ensures { result ≡ reached_records test.entry k }
{
    match test {
        RecordTest::First(t) => matching::reached(t, k),
        RecordTest::Whole(_) => false,
    }
}

// How many of the records of `s` a test takes.
#[tactic(auto, using(crate::proofs::Steps::front_shorter, crate::proofs::Steps::record_starts, crate::proofs::Steps::left_within))]
pub fn count(s: &[u8], test: RecordTest) -> Sequence
    requires { RecordsCountable test s.now }
    ensures { TookRecords (until_records test.entry) s.now result }
{
    let mut left = s;
    let mut k = 0;
    while let Some((r, rest)) = split_record(left) {
        if stops_at(test, k, r) {
            return Sequence {
                end: Place {
                    records: k,
                    bytes: s.len() - left.len(),
                },
                reached: true,
            };
        }
        left = rest;
        k += 1;
    }
    Sequence {
        end: Place {
            records: k,
            bytes: s.len(),
        },
        reached: reached_at(test, k),
    }
}

// How many components and characters the records of `s` have, and their bytes.
#[tactic(auto, using(crate::proofs::Steps::front_shorter, crate::proofs::Steps::record_starts, crate::proofs::Steps::left_within))]
pub fn totals_of(s: &[u8]) -> Amount
    requires { WholeRecords s.now }
    ensures { Totalled s.now result }
{
    let mut left = s;
    let mut parts = 0;
    let mut chars = 0;
    while let Some((r, rest)) = split_record(left) {
        let t = matching::count(contents_of(r), Test::All).amount;
        parts += t.parts;
        chars += t.chars;
        left = rest;
    }
    Amount {
        parts,
        bytes: s.len(),
        chars,
    }
}

// Writes the record of an address and components at the front of `dst`.
pub fn put_record(dst: &mut [u8], address: usize, contents: &[u8])
    requires { Recordable dst.old address contents.now }
    ensures { dst.new ≡ pasted dst.old 0 (record_bytes (record { addr = address; parts = components_in contents.now })) }
{
    let n = contents.len();
    cells::put_three(dst, 0, address);
    cells::put_two(dst, RecordPlaces::LENGTH, n);
    cells::put(dst, RecordPlaces::CONTENTS, contents);
    cells::put_two(dst, RecordPlaces::CONTENTS + n, n);
}

// Writes the records of `src` at the front of `dst`, with the addresses after `last`, in their order.
#[tactic(auto, using(crate::proofs::Steps::front_shorter, crate::proofs::Steps::record_starts, crate::proofs::Steps::left_within))]
pub fn stamp(dst: &mut [u8], src: &[u8], last: usize)
    requires { Copyable dst.old src.now last }
    ensures { dst.new ≡ pasted dst.old 0 (records_bytes (stamped last (map (λ r. r.parts) (records_in src.now)))) }
{
    cells::put(dst, 0, src);
    let mut left = src;
    let mut next = last + 1;
    while let Some((_, rest)) = split_record(left) {
        cells::put_three(dst, src.len() - left.len(), next);
        left = rest;
        next += 1;
    }
}

// Writes them with the same addresses, the last record first.
// Not one with `stamp`: there only the addresses change in a copy of the whole.
#[tactic(auto, using(crate::proofs::Steps::front_shorter, crate::proofs::Steps::record_starts, crate::proofs::Steps::left_within))]
pub fn stamp_reversed(dst: &mut [u8], src: &[u8], last: usize)
    requires { Copyable dst.old src.now last }
    ensures { dst.new ≡ pasted dst.old 0 (records_bytes (reverse (stamped last (map (λ r. r.parts) (records_in src.now))))) }
{
    let mut left = src;
    let mut address = last + 1;
    while let Some((r, rest)) = split_record(left) {
        cells::put(dst, rest.len(), r);
        cells::put_three(dst, rest.len(), address);
        left = rest;
        address += 1;
    }
}
