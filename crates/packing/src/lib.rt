// The working store and the strings at rest: `unpack` lays the strings out with gaps, `pack` writes them back in their one form.
// Pool and ends stay two arguments, as in `gaps`.
#![tactic(auto)]

ghost use Rattle.std.specs.Prelude.{◌≡◌, length};
ghost use Rattle.layout.specs.Strings.{lengths, string_cells, strings_in};
ghost use Rattle.cells.specs.Cells.{pasted};
ghost use Rattle.gaps.specs.Pool.{abs, Holds};
ghost use Rattle.packing.specs.Packing.{Packable, Stringed, Unpackable};

use layout::StatePlaces;

// Writes the lengths of the strings, two cells each.
#[tactic(auto, using(crate::proofs::Writing::lengthing_none, crate::proofs::Writing::lengthing_more))]
fn pack_lengths(pool: &[u8], ends: &[u32], state: &mut [u8])
    requires { Packable pool.now ends.now (length state.old) }
    ensures { state.new ≡ pasted state.old 0 (lengths (abs pool.now ends.now)) }
{
    for j in 0..StatePlaces::STRINGS_COUNT {
        let n = store::len_of(pool, ends, j);
        cells::put_two(state, 2 * j, n);
    }
}

// Writes the strings end to end behind the lengths, and tells where they end.
#[tactic(auto, using(crate::proofs::Writing::string_room))]
fn pack_strings(pool: &[u8], ends: &[u32], state: &mut [u8]) -> usize
    requires { Packable pool.now ends.now (length state.old) }
    ensures { Stringed state.old (abs pool.now ends.now) result state.new }
{
    let mut at = StatePlaces::LENGTHS_BYTES;
    for j in 0..StatePlaces::STRINGS_COUNT {
        let bytes = store::string_of(pool, ends, j);
        cells::put(state, at, bytes);
        at += bytes.len();
    }
    at
}

// Writes the strings of the store: lengths, strings and zeros.
pub fn pack(pool: &[u8], ends: &[u32], state: &mut [u8])
    requires { Packable pool.now ends.now (length state.old) }
    ensures { state.new ≡ string_cells (abs pool.now ends.now) }
{
    pack_lengths(pool, ends, state);
    let at = pack_strings(pool, ends, state);
    cells::clear(state, at, StatePlaces::STRINGS_BYTES - at);
}

// Lays the strings of a state at rest out in the store.
#[tactic(auto, using(crate::proofs::Reading::unpacking_none))]
pub fn unpack(state: &[u8], pool: &mut [u8], ends: &mut [u32])
    requires { Unpackable state.now (length pool.old) (length ends.old) }
    ensures { Holds pool.new ends.new (strings_in state.now) }
{
    let mut at = 0;
    let mut from = StatePlaces::LENGTHS_BYTES;
    for j in 0..StatePlaces::STRINGS_COUNT {
        let n = cells::two_at(state, 2 * j);
        let to = at + gaps::APART;
        gaps::lay(pool, ends, j, to, &state[from..from + n]);
        at = to + n;
        from += n;
    }
}
