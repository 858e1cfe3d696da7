// A record whose codes are made, fitted into a station key book that was read, in lent room: behind its end, or, where it does not fit there,
// behind the book closed up. A refusal changes nothing.
// `len` stands beside `room`: a host lends the room, and says how much of it is a book.
#![tactic(auto)]

ghost use Rattle.putting.specs.New.{Short};
ghost use Rattle.fitting.specs.Base.{Stands, CodedAdded};

use book::Whole;
use putting::{Made, NewRecord};
use terms::Fault;

// Adds a record whose codes are made to the book that stands in the first `len` bytes of the room. Where it does not fit, the book is closed
// up first.
pub fn add_coded(room: &mut [u8], len: usize, whole: Whole, new: NewRecord) -> Made
    requires { Stands room.old len whole × Short new }
    ensures { CodedAdded room.old len new.entry result room.new }
{
    let format = whole.header.format;
    let measure = whole.measure;
    let size = new.entry_size(format);
    if size <= room.len() - len {
        return placing::append_coded(room, len, format, measure.floor, new);
    }
    placing::station_from(measure.least, new.station)?;
    let base = whole.first + measure.size;
    if room.len() - base < size {
        return Err(Fault::NoRoom);
    }
    closing_up::close_up(room, len, format, whole.first);
    Ok(new.put_entry(room, base, format))
}
