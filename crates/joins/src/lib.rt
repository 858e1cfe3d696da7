// The C face of the join of two station key books, on numbers and slices of numbers only.
#![tactic(auto)]

ghost use Rattle.std.specs.Prelude.{◌≡◌, length};
ghost use Rattle.book.specs.Book.{read_book};
ghost use Rattle.scratch.specs.Scratch.{words_told};
ghost use Rattle.join.specs.Join.{count_by, join_by, room_by, scratch_by};
ghost use Rattle.asking.specs.Asked.{choice_of};
ghost use Rattle.telling_books.specs.Numbers.{made_numbers};

use asking::choice_of;

// How many scratch words the join of books with so many records needs; the largest number where that does not fit.
#[unsafe(no_mangle)]
pub extern "C" fn simmerquilt_join_scratch(first: usize, second: usize) -> usize
    ensures { result ≡ words_told first second }
{
    scratch::scratch_words(first, second)
}

// Counts the pairs of two books up to `most`; `out` is number and count.
#[unsafe(no_mangle)]
pub extern "C" fn simmerquilt_join_count(
    first: &[u8],
    second: &[u8],
    alternate: bool,
    scratch: &mut [usize],
    most: u64,
    out: &mut [u64; 2],
)
    ensures told { out.new ≡ made_numbers (count_by (choice_of alternate) (length scratch.old) most (read_book first.now) (read_book second.now)) }
    ensures scratch { scratch.new ≡ scratch_by scratch.old (read_book first.now) (read_book second.now) }
{
    let counted = join::count(first, second, choice_of(alternate), scratch, most as usize);
    telling_books::tell_made(counted, out);
}

// Writes the pairs of two books to the front of the room, two stations each; `out` is number and count.
#[unsafe(no_mangle)]
pub extern "C" fn simmerquilt_join(
    first: &[u8],
    second: &[u8],
    alternate: bool,
    scratch: &mut [usize],
    room: &mut [u32],
    out: &mut [u64; 2],
)
    ensures told { out.new ≡ made_numbers (join_by (choice_of alternate) (length scratch.old) (length room.old) (read_book first.now) (read_book second.now)) }
    ensures room { room.new ≡ room_by (choice_of alternate) (length scratch.old) room.old (read_book first.now) (read_book second.now) }
    ensures scratch { scratch.new ≡ scratch_by scratch.old (read_book first.now) (read_book second.now) }
{
    let joined = join::join(first, second, choice_of(alternate), scratch, room);
    telling_books::tell_made(joined, out);
}
