// A record added to a station key book in lent room, which is read first, and closed up where it must be: the faults are the reader's, then those
// of a new record, and `NoRoom` where the room is too short for it even when the book is closed up. A refusal changes nothing.
// `len` stands beside `room`: a host lends the room, and says how much of it is a book.
#![tactic(auto)]

ghost use Rattle.adding.specs.Adding.{Added};

use putting::Made;
use terms::CODE_ROOM;

// Adds a record to the book in the first `len` bytes of the room, which are read first.
pub fn add(room: &mut [u8], len: usize, station: u64, name: &[u8]) -> Made
    ensures { Added room.old len station name.now result room.new }
{
    let whole = book::read_in(room, len, 1)?;
    let mut primary = [0u8; CODE_ROOM];
    let mut alternate = [0u8; CODE_ROOM];
    let new = keying::new_record(whole.header, station, name, &mut primary, &mut alternate)?;
    fitting::add_coded(room, len, whole, new)
}
