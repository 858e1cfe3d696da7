// The C face of the listing, on numbers and slices of numbers only. It is a crate, and with that a compiled module, of its own: a second
// caller of `letters::visit_at` in the module of crates/simmerquilt would keep the letter rules from being compiled into the walk, and
// cost the encoder a quarter of its speed. host/native-build puts both modules into one archive.
#![tactic(auto)]

ghost use Rattle.std.specs.Prelude.{◌≡◌, length};
ghost use Rattle.listing.specs.Listing.{told_of, room_of};
ghost use Rattle.asking.specs.Asked.{limit_of};
ghost use Rattle.explain.specs.Face.{told_numbers};

use asking::limit_of;
use listing::Told;
use terms::Fault;

// Number, place, and how many rows.
fn tell(told: Told, out: &mut [u64; 3])
    ensures { out.new ≡ told_numbers told }
{
    *out = match told {
        Ok(rows) => [0, 0, rows as u64],
        Err(refusal) => [
            u8::from(Fault::from(refusal)) as u64,
            refusal.place() as u64,
            0,
        ],
    };
}

// A row of seven numbers for each visit of a word, at the front of the room; `out` is number, place, rows.
#[unsafe(no_mangle)]
pub extern "C" fn simmerquilt_explain(
    edition: u64,
    word: &[u8],
    limited: bool,
    limit: u64,
    rows: &mut [u32],
    out: &mut [u64; 3],
)
    ensures told { out.new ≡ told_numbers (told_of edition (limit_of limited limit) word.now (length rows.old)) }
    ensures room { rows.new ≡ room_of edition (limit_of limited limit) word.now rows.old }
{
    let told = listing::explain(edition, limit_of(limited, limit), word, rows);
    tell(told, out);
}
