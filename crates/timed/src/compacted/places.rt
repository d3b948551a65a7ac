//! Where rows stand.
use super::filled::key_of;
use regions::Place;
use row_cache::RowCache;

/// Notes where each of so many rows stands, by number; none where it was erased. There is room for them.
pub fn note_places(cache: &RowCache, rows: u32, places: &mut Vec<Option<Place>>) {
    for row in 0..rows {
        let _ = places.push(cache.place_of(0, key_of(u64::from(row)).as_slice()));
    }
}

/// How many rows stand elsewhere than before.
pub fn count_moved(cache: &RowCache, before: &[Option<Place>]) -> u32 {
    let mut moved: u32 = 0;
    for (row, place) in before.iter().enumerate() {
        if cache.place_of(0, key_of(row as u64).as_slice()) != *place {
            moved = moved.wrapping_add(1);
        }
    }
    moved
}
