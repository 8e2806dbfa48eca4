// Addresses of records: collected from the strings of files, and all different. "Records' addresses from 1 and distinct".
#![tactic(auto)]

ghost use Rattle.std.specs.Prelude.{◌≡◌, eqb, length};
ghost use Rattle.lists.specs.Lists.{any};
ghost use Rattle.machine.specs.WellFormed.{different};
ghost use Rattle.check_addresses.specs.Collected.{Collectable, Collected};

// Whether a number is one of the list; without a branch, so that the loop takes many at once.
fn is_among(x: u32, list: &[u32]) -> bool
    ensures { result ≡ any (eqb x) list.now }
{
    let mut found = false;
    for y in list {
        found |= x == *y;
    }
    found
}

pub fn are_different(list: &[u32]) -> bool
    ensures { result ≡ different eqb list.now }
{
    let mut rest = list;
    while let Some((x, behind)) = rest.split_first() {
        if is_among(*x, behind) {
            return false;
        }
        rest = behind;
    }
    true
}

// Writes the addresses of the records of `b` into the front of `list`, and tells how many there are. The memory is lent, so the count stands beside it.
#[tactic(auto, using(records::proofs::Steps::front_shorter, records::proofs::Steps::record_starts, crate::proofs::Loops::room))]
pub fn collect(b: &[u8], list: &mut [u32]) -> usize
    requires { Collectable b.now (length list.old) }
    ensures { Collected b.now list.new result }
{
    let mut k = 0;
    let mut left = b;
    while let Some((r, rest)) = records::split_record(left) {
        list[k] = records::address_of(r) as u32;
        k += 1;
        left = rest;
    }
    k
}
