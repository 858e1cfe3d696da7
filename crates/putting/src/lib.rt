// A header or a record put in lent room that has room for it, and how many bytes it takes.
#![tactic(auto)]

ghost use Rattle.std.specs.Prelude.{◌≡◌, ◌+◌, ◌^◌, ◌≤◌, ◌<◌, length};
ghost use Rattle.number.specs.Septets.{groups};
ghost use Rattle.fields.specs.Put.{Put};
ghost use Rattle.header.specs.Head.{header_bytes};
ghost use Rattle.entry.specs.Entry.{record_bytes, entry_bytes};
ghost use Rattle.putting.specs.New.{new_record, new_entry, Writable, Short};

use entry::Kind;
use header::Header;
use number::LARGEST;
use terms::Fault;

// The length of the book that was made.
pub type Made = Result<usize, Fault>;

// A record that is to be added: its station, its name and its codes. No invariant: `put_entry` takes texts that `entry_size` does not, and may ask
// no more than it did.
#[derive(Clone, Copy)]
pub struct NewRecord<'a> {
    pub station: u64,
    pub name: &'a [u8],
    pub primary: &'a [u8],
    pub alternate: &'a [u8],
}

// How many bytes a station takes: four for one that four cannot hold.
fn width_of(station: u64) -> usize
    ensures { result ≡ length (groups 4 station) }
{
    if LARGEST < station {
        return 4;
    }
    number::width(station as u32)
}

impl<'a> NewRecord<'a> {
    fn put_record(self, out: &mut [u8], at: usize) -> usize
        requires { Writable self × (at + length (record_bytes (new_record self)) ≤ length out.old) }
        ensures { Put out.old at (record_bytes (new_record self.entry)) result out.new }
    {
        let name = fields::put_number(out, at, self.station as u32);
        let primary = fields::put_text(out, name, self.name);
        let alternate = fields::put_text(out, primary, self.primary);
        fields::put_text(out, alternate, self.alternate)
    }

    // How many bytes the record takes.
    fn record_size(self) -> usize
        requires { Short self }
        ensures { result ≡ length (record_bytes (new_record self.entry)) }
    {
        let front = width_of(self.station) + fields::text_size(self.name);
        front + (fields::text_size(self.primary) + fields::text_size(self.alternate))
    }

    // How many bytes the live record takes, with its kind.
    pub fn entry_size(self, format: u32) -> usize
        requires { Short self }
        ensures { result ≡ length (entry_bytes format (new_entry self.entry)) }
    {
        let size = self.record_size();
        if format == 1 {
            return size;
        }
        size + 1
    }

    // Puts the live record, with its kind.
    pub fn put_entry(self, out: &mut [u8], at: usize, format: u32) -> usize
        requires { Writable self × (at + length (entry_bytes format (new_entry self)) ≤ length out.old) }
        ensures { Put out.old at (entry_bytes format (new_entry self.entry)) result out.new }
    {
        if format == 1 {
            return self.put_record(out, at);
        }
        let body = fields::put_number(out, at, u32::from(Kind::Live));
        self.put_record(out, body)
    }
}

// How many bytes a header takes.
pub fn header_size(header: Header) -> usize
    ensures { result ≡ length (header_bytes header) }
{
    number::width(header.format) + number::width(header.edition) + number::width(header.cut)
}

// Puts a header.
pub fn put_header(out: &mut [u8], at: usize, header: Header) -> usize
    requires { (header.format < 2 ^ 28) × (header.edition < 2 ^ 28) × (header.cut < 2 ^ 28)
        × (at + length (header_bytes header) ≤ length out.old) }
    ensures { Put out.old at (header_bytes header) result out.new }
{
    let first = fields::put_number(out, at, header.format);
    let second = fields::put_number(out, first, header.edition);
    fields::put_number(out, second, header.cut)
}
