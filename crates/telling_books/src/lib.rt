// The answers of the book and the join, told as a host's numbers: the first is 0, or the refusal's number, and under a refusal the rest are 0.
#![tactic(auto)]

ghost use Rattle.std.specs.Prelude.{◌≡◌};
ghost use Rattle.telling_books.specs.Numbers.{made_numbers, opened_numbers, step_numbers, whole_numbers, ended_numbers};

use book::{Ended, Reading};
use entry::Record;
use header::Opened;
use putting::Made;
use terms::Fault;

// Number, and length or count.
pub fn tell_made(made: Made, out: &mut [u64; 2])
    ensures { out.new ≡ made_numbers made }
{
    *out = match made {
        Ok(n) => [0, n as u64],
        Err(fault) => [u8::from(fault) as u64, 0],
    };
}

// Number, format, edition, cut, and the first cursor.
pub fn tell_opened(opened: Result<Opened, Fault>, out: &mut [u64; 6])
    ensures { out.new ≡ opened_numbers opened }
{
    *out = match opened {
        Ok(Opened { header, first }) => [
            0,
            header.format as u64,
            header.edition as u64,
            header.cut as u64,
            first.at as u64,
            first.floor as u64,
        ],
        Err(fault) => [u8::from(fault) as u64, 0, 0, 0, 0, 0],
    };
}

// Number, 1 for a record, station, name, primary, alternate, the next cursor, and the kind.
pub fn tell_step(next: Result<Option<Record>, Fault>, out: &mut [u64; 12])
    ensures { out.new ≡ step_numbers next }
{
    *out = match next {
        Ok(Some(record)) => [
            0,
            1,
            record.station as u64,
            record.name.start as u64,
            record.name.len as u64,
            record.primary.start as u64,
            record.primary.len as u64,
            record.alternate.start as u64,
            record.alternate.len as u64,
            record.next.at as u64,
            record.next.floor as u64,
            u32::from(record.kind) as u64,
        ],
        Ok(None) => [0; 12],
        Err(fault) => [u8::from(fault) as u64, 0, 0, 0, 0, 0, 0, 0, 0, 0, 0, 0],
    };
}

// Number, format, edition, cut, records, the least station of a further record, and how many records are live.
pub fn tell_whole(whole: Reading, out: &mut [u64; 7])
    ensures { out.new ≡ whole_numbers whole }
{
    *out = match whole {
        Ok(whole) => [
            0,
            whole.header.format as u64,
            whole.header.edition as u64,
            whole.header.cut as u64,
            whole.measure.count as u64,
            whole.measure.floor as u64,
            whole.measure.live as u64,
        ],
        Err(fault) => [u8::from(fault) as u64, 0, 0, 0, 0, 0, 0],
    };
}

// Number, length, and the least station of a further record.
pub fn tell_ended(ended: Ended, out: &mut [u64; 3])
    ensures { out.new ≡ ended_numbers ended }
{
    *out = match ended {
        Ok(end) => [0, end.len as u64, end.floor as u64],
        Err(fault) => [u8::from(fault) as u64, 0, 0],
    };
}
