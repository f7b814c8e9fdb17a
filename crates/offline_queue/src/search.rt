ghost use Rattle.std.specs.Prelude.{◌≡◌, ◌<◌, length, slice_index};
ghost use Rattle.std.specs.List.{remove};
ghost use Rattle.queue_model.specs.Queue.{IsHeld, AreRising, numbers_of, without};

use queue_model::Row;

/// The place of the row with this number.
pub fn place_of(rows: &[Row], seq: u64) -> usize
    requires rising { AreRising rows.now }
    requires held { IsHeld seq rows.now }
    ensures within { result < length rows.now }
    ensures number { slice_index (numbers_of rows.now) result ≡ seq }
    ensures rest { without seq rows.now ≡ remove rows.now result }
{
    match rows.binary_search_by_key(&seq, |row| row.seq) {
        Ok(place) => place,
        Err(_) => unreachable!(),
    }
}
