// Question 63 of one string: whole components or records without faults. The walks take any bytes.
#![tactic(auto)]

ghost use Rattle.std.specs.Prelude.{◌≡◌, ◌≤◌, ◌<◌, length};
ghost use Rattle.check_strings.specs.Sound.{sound_components, sound_short, FrontSize, given, framed, sound_records, RecordSize};

use components::{Kind, RecordPlaces};

// Whether what stands behind a first cell of 0 is a number or an address without fault. The largest code is that of 8,388,607.
fn is_short(kind: u8, v: usize, last: usize) -> bool
    ensures { result ≡ sound_short last kind v }
{
    ((kind == Kind::Number as u8) & (v <= 2 * components::ZERO))
        | ((kind == Kind::Address as u8) & (v <= last))
}

// How many cells the component in front takes, where it is whole and without fault.
fn front_size(b: &[u8], last: usize) -> Option<usize>
    requires { 0 < length b.now }
    ensures { FrontSize last b.now result }
{
    let n = components::size_by(b[0]);
    if b.len() < n {
        return None;
    }
    if b[0] == 0 {
        return is_short(b[1], cells::three_at(b, 2), last).then_some(n);
    }
    characters::all_known(&b[1..n]).then_some(n)
}

// Whether the cells are whole components without faults, where `last` is the last address given.
pub fn are_components(b: &[u8], last: usize) -> bool
    requires { last ≤ 8388607 }
    ensures { result ≡ sound_components last b.now }
{
    let mut rest = b;
    while !rest.is_empty() {
        let Some(n) = front_size(rest, last) else {
            return false;
        };
        rest = &rest[n..];
    }
    true
}

fn is_given(n: usize, last: usize) -> bool
    ensures { result ≡ given last n }
{
    (0 < n) & (n <= last)
}

// Whether a record's length stands in it and behind it.
fn is_framed(b: &[u8]) -> bool
    ensures { result ≡ framed b.now }
{
    if b.len() < RecordPlaces::FRAME {
        return false;
    }
    let n = cells::two_at(b, RecordPlaces::LENGTH);
    if b.len() < RecordPlaces::FRAME + n {
        return false;
    }
    cells::two_at(b, RecordPlaces::CONTENTS + n) == n
}

// How many cells the record in front takes, where it is whole and without fault.
fn record_size(b: &[u8], last: usize) -> Option<usize>
    requires { last ≤ 8388607 }
    ensures { RecordSize last b.now result }
{
    if !is_framed(b) {
        return None;
    }
    let n = cells::two_at(b, RecordPlaces::LENGTH);
    let address = cells::three_at(b, 0);
    let e = RecordPlaces::CONTENTS + n;
    let contents = &b[RecordPlaces::CONTENTS..e];
    let fine = (0 < n) & is_given(address, last) & are_components(contents, last);
    fine.then_some(e + RecordPlaces::LENGTH_SIZE)
}

// Whether the cells are whole records without faults, with addresses from 1 to `last`. One walk for both would state more of its closure than it saves.
pub fn are_records(b: &[u8], last: usize) -> bool
    requires { last ≤ 8388607 }
    ensures { result ≡ sound_records last b.now }
{
    let mut rest = b;
    while !rest.is_empty() {
        let Some(n) = record_size(rest, last) else {
            return false;
        };
        rest = &rest[n..];
    }
    true
}
