// The C face of all that encodes: the encoder, the equality question, and records added to a station key book; for hosts, on numbers and
// slices of numbers only. A slice is a pointer and a length; answers go to arrays that the caller lends.
#![tactic(auto)]

ghost use Rattle.std.specs.Prelude.{◌≡◌, length};
ghost use Rattle.terms.specs.declared.Edition.TheVariants.{E1};
ghost use Rattle.encoder.specs.Encode.{answer_of, Encoded};
ghost use Rattle.editions.specs.Editions.{reply_of, EncodedIn};
ghost use Rattle.equality.specs.Equality.{verdict_of};
ghost use Rattle.book.specs.Room.{read_in};
ghost use Rattle.putting.specs.Laid.{left};
ghost use Rattle.keying.specs.Keyed.{new_bytes};
ghost use Rattle.appending.specs.Ended.{behind, placed_at};
ghost use Rattle.adding.specs.Adding.{added_by, left_by};
ghost use Rattle.asking.specs.Asked.{limit_of, choice_of};
ghost use Rattle.answers.specs.Numbers.{answer_numbers, reply_numbers, verdict_numbers};
ghost use Rattle.telling_books.specs.Numbers.{made_numbers, ended_numbers};
ghost use Rattle.simmerquilt.specs.Face.{end_from, header_from};

use asking::limit_of;
use book::End;
use encoder::Encoder;
use header::Header;

// Adds a record to the book in the first `length` bytes of the room, which is closed up where it must be; `out` is number and new length.
#[unsafe(no_mangle)]
pub extern "C" fn simmerquilt_book_add(
    room: &mut [u8],
    length: u64,
    station: u64,
    name: &[u8],
    out: &mut [u64; 2],
)
    ensures told { out.new ≡ made_numbers (added_by room.old «length» station name.now (read_in room.old «length»)) }
    ensures room { room.new ≡ left_by room.old «length» station name.now (read_in room.old «length») }
{
    let made = adding::add(room, length as usize, station, name);
    telling_books::tell_made(made, out);
}

// Adds a record behind a known good end; `out` is number, new length and new floor.
#[unsafe(no_mangle)]
pub extern "C" fn simmerquilt_book_append(
    room: &mut [u8],
    format: u32,
    edition: u32,
    cut: u32,
    length: u64,
    floor: u32,
    station: u64,
    name: &[u8],
    out: &mut [u64; 3],
)
    ensures told { out.new ≡ ended_numbers (behind (end_from format edition cut «length» floor) station (placed_at room.old (end_from format edition cut «length» floor) station name.now)) }
    ensures room { room.new ≡ left (placed_at room.old (end_from format edition cut «length» floor) station name.now) room.old «length» (new_bytes (header_from format edition cut) station name.now) }
{
    let header = Header {
        format,
        edition,
        cut,
    };
    let ended = appending::append(
        room,
        End {
            header,
            len: length as usize,
            floor,
        },
        station,
        name,
    );
    telling_books::tell_ended(ended, out);
}

// The codes of a word under edition 1, each at the front of its buffer; `out` is number, place, primary length, alternate length, visits.
#[unsafe(no_mangle)]
pub extern "C" fn simmerquilt_encode(
    word: &[u8],
    primary: &mut [u8],
    alternate: &mut [u8],
    limited: bool,
    limit: u64,
    out: &mut [u64; 5],
)
    ensures told { out.new ≡ answer_numbers (answer_of E1 (limit_of limited limit) word.now (length primary.old) (length alternate.old)) }
    ensures buffers { Encoded E1 (limit_of limited limit) word.now primary.old alternate.old (answer_of E1 (limit_of limited limit) word.now (length primary.old) (length alternate.old)) primary.new alternate.new }
{
    let answer = Encoder::new(limit_of(limited, limit)).encode(word, primary, alternate);
    answers::tell_answer(answer, out);
}

// The same under the edition of this number; the number is 7 for an edition that is not known.
#[unsafe(no_mangle)]
pub extern "C" fn simmerquilt_encode_in(
    edition: u64,
    word: &[u8],
    primary: &mut [u8],
    alternate: &mut [u8],
    limited: bool,
    limit: u64,
    out: &mut [u64; 5],
)
    ensures told { out.new ≡ reply_numbers (reply_of edition (limit_of limited limit) word.now (length primary.old) (length alternate.old)) }
    ensures buffers { EncodedIn edition (limit_of limited limit) word.now primary.old alternate.old (reply_of edition (limit_of limited limit) word.now (length primary.old) (length alternate.old)) primary.new alternate.new }
{
    let reply = editions::encode_in(edition, limit_of(limited, limit), word, primary, alternate);
    answers::tell_reply(reply, out);
}

// Whether two words have equal codes under edition 1; `out` is number, which word (0 unless refused), place, and 1 for equal.
#[unsafe(no_mangle)]
pub extern "C" fn simmerquilt_equal(
    first: &[u8],
    second: &[u8],
    limited: bool,
    limit: u64,
    alternate: bool,
    out: &mut [u64; 4],
)
    ensures { out.new ≡ verdict_numbers (verdict_of (limit_of limited limit) (choice_of alternate) first.now second.now) }
{
    let verdict = equality::equal(
        limit_of(limited, limit),
        asking::choice_of(alternate),
        first,
        second,
    );
    answers::tell_verdict(verdict, out);
}
