// Bytes put behind those that stand in a row already, as long as there is room.
#![tactic(auto)]

ghost use Rattle.appending.specs.Appending.{Appends};

// Puts bytes from index `at` on, and tells the index behind them. Where they do not fit nothing is put, and there is none.
pub fn append(row: &mut [u8], at: usize, bytes: &[u8]) -> Option<usize>
    ensures { Appends row.old at bytes.now result row.new }
{
    let room = row.len().checked_sub(at)?;
    if room < bytes.len() {
        return None;
    }
    cells::put(row, at, bytes);
    Some(at + bytes.len())
}
