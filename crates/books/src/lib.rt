// The C face of the station key book, for what does not encode: a book is started, opened, read, and a station is closed. On numbers and slices of
// numbers only; each answer begins with 0 or the refusal's number, and under a refusal the rest are 0.
#![tactic(auto)]

ghost use Rattle.std.specs.Prelude.{◌≡◌, length};
ghost use Rattle.header.specs.Head.{formats, read_header, header_bytes, opened_by, cut_of};
ghost use Rattle.book.specs.Book.{read_book};
ghost use Rattle.book.specs.Room.{read_in_by};
ghost use Rattle.book.specs.Told.{next_of, whole_by};
ghost use Rattle.putting.specs.Laid.{placed, left};
ghost use Rattle.starting.specs.New.{cut_fault, new_header};
ghost use Rattle.closing.specs.Closed.{close_answer, close_leaves};
ghost use Rattle.finding.specs.Finding.{kind_place};
ghost use Rattle.asking.specs.Asked.{limit_of};
ghost use Rattle.telling_books.specs.Numbers.{made_numbers, opened_numbers, step_numbers, whole_numbers};
ghost use Rattle.books.specs.Face.{cursor_of};

use asking::limit_of;
use header::Cursor;

// Starts a book with no records; `out` is number and length.
#[unsafe(no_mangle)]
pub extern "C" fn simmerquilt_book_start(
    room: &mut [u8],
    limited: bool,
    limit: u64,
    out: &mut [u64; 2],
)
    ensures told { out.new ≡ made_numbers (placed (cut_fault (cut_of (limit_of limited limit))) (length room.old) 0 (header_bytes (new_header (cut_of (limit_of limited limit))))) }
    ensures room { room.new ≡ left (placed (cut_fault (cut_of (limit_of limited limit))) (length room.old) 0 (header_bytes (new_header (cut_of (limit_of limited limit))))) room.old 0 (header_bytes (new_header (cut_of (limit_of limited limit)))) }
{
    let made = starting::start(room, limit_of(limited, limit));
    telling_books::tell_made(made, out);
}

// Reads a header; `out` is number, format, edition, cut, and the cursor's place and floor.
#[unsafe(no_mangle)]
pub extern "C" fn simmerquilt_book_open(book: &[u8], out: &mut [u64; 6])
    ensures { out.new ≡ opened_numbers (opened_by (read_header book.now)) }
{
    let opened = header::open(book, 1);
    telling_books::tell_opened(opened, out);
}

// Reads the record at a cursor of a book with this format and edition; `out` is number, 1 for a record, station, start and length of the name
// and of both codes, the next cursor's place and floor, and the kind.
#[unsafe(no_mangle)]
pub extern "C" fn simmerquilt_book_next(
    book: &[u8],
    format: u32,
    edition: u32,
    place: u64,
    floor: u32,
    out: &mut [u64; 12],
)
    ensures { out.new ≡ step_numbers (next_of book.now format edition (cursor_of place floor)) }
{
    let step = book::next(
        book,
        format,
        edition,
        Cursor {
            at: place as usize,
            floor,
        },
    );
    telling_books::tell_step(step, out);
}

// Reads a whole book; `out` is number, format, edition, cut, records, the least station of a further record, and how many records are live.
#[unsafe(no_mangle)]
pub extern "C" fn simmerquilt_book_read(book: &[u8], out: &mut [u64; 7])
    ensures { out.new ≡ whole_numbers (whole_by (read_book book.now)) }
{
    let whole = book::read(book, 1);
    telling_books::tell_whole(whole, out);
}

// Closes a station of the book in the first `length` bytes of the room; `out` is number and length.
#[unsafe(no_mangle)]
pub extern "C" fn simmerquilt_book_close(
    room: &mut [u8],
    length: u64,
    station: u64,
    out: &mut [u64; 2],
)
    ensures told { out.new ≡ made_numbers (close_answer «length» (kind_place station (read_in_by (formats 2) room.old «length»))) }
    ensures room { room.new ≡ close_leaves room.old (kind_place station (read_in_by (formats 2) room.old «length»)) }
{
    let made = closing::close(room, length as usize, station);
    telling_books::tell_made(made, out);
}
