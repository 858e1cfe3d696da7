// A record whose codes are made, put behind the end of a station key book in lent room. A refusal changes nothing.
// `len` stands beside `room`: a host lends the room, and says how much of it is a book.
#![tactic(auto)]

ghost use Rattle.std.specs.Prelude.{◌≡◌, ◌≤◌, ◌+◌, leb, length};
ghost use Rattle.entry.specs.Entry.{entry_bytes};
ghost use Rattle.putting.specs.Laid.{Placed, unless};
ghost use Rattle.putting.specs.New.{new_entry, Short};
ghost use Rattle.placing.specs.Placing.{station_fault, floor_where};

use number::LARGEST;
use putting::{Made, NewRecord};
use terms::Fault;

// A station as a book holds it, where it is at least `floor`.
pub fn station_from(floor: u32, station: u64) -> Result<u32, Fault>
    ensures { result ≡ unless (station_fault floor station) station }
{
    if LARGEST < station {
        return Err(Fault::BadNumber);
    }
    let number = station as u32;
    if number < floor {
        return Err(Fault::NotAbove);
    }
    Ok(number)
}

// The least station of a record behind an end. Where the record does not fit there, closed ones of a format 2 book may give room back: its
// station is then for `add` to judge. `fits` is a test made once, by the caller, which asks it again for the room.
fn floor_where(fits: bool, format: u32, floor: u32) -> u32
    ensures { result ≡ floor_where fits format floor }
{
    if fits || format == 1 { floor } else { 0 }
}

// Adds a record whose codes are made.
pub fn append_coded(room: &mut [u8], len: usize, format: u32, floor: u32, new: NewRecord) -> Made
    requires { (len ≤ length room.old) × Short new }
    ensures { Placed
        (station_fault (floor_where (leb (len + length (entry_bytes format (new_entry new.entry))) (length room.old)) format floor) new.entry.station)
        room.old len (entry_bytes format (new_entry new.entry)) result room.new }
{
    let size = new.entry_size(format);
    let fits = size <= room.len() - len;
    station_from(floor_where(fits, format, floor), new.station)?;
    if !fits {
        return Err(Fault::NoRoom);
    }
    Ok(new.put_entry(room, len, format))
}
