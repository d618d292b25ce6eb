ghost use Rattle.std.specs.Prelude.{◌≡◌, [], ◌∷◌, ◌++◌, ◌+◌, ◌≤◌, length};
ghost use Rattle.listing.specs.Text.{decimal, fields};
ghost use Rattle.listing.specs.Inner.{listing_size};

use arrayvec::ArrayVec;
use itoa::Buffer;

// A first line of 54 bytes and 16 lines of 59 fit.
pub const LISTING_SIZE: usize = 1024;

// A listing's text. Fields are put one by one: `write!` promises its bytes where it succeeds, but not that it does.
pub type Listing = ArrayVec<u8, LISTING_SIZE>;

// Appends a field and the byte after it.
pub fn put(text: &mut Listing, field: &[u8], end: u8)
    requires { length text.old.items + (length field.now + 1) ≤ listing_size }
    ensures { text.new.items ≡ text.old.items ++ fields (field.now ∷ []) end }
{
    text.try_extend_from_slice(field).unwrap();
    text.push(end);
}

// Appends a number, which has 20 digits at most, and the byte after it.
#[tactic(auto, using(crate::proofs::Decimal::printed_decimal))]
pub fn put_number(text: &mut Listing, number: u64, end: u8)
    requires { length text.old.items + 21 ≤ listing_size }
    ensures puts { text.new.items ≡ text.old.items ++ fields (decimal number ∷ []) end }
    ensures few { length text.new.items ≤ length text.old.items + 21 }
{
    put(text, Buffer::new().format(number).as_bytes(), end);
}

// Appends a word, a number and the byte after it.
pub fn put_labelled(text: &mut Listing, label: &[u8], number: u64, end: u8)
    requires { length text.old.items + (length label.now + 22) ≤ listing_size }
    ensures puts { text.new.items ≡ text.old.items ++ fields (label.now ∷ decimal number ∷ []) end }
    ensures few { length text.new.items ≤ length text.old.items + (length label.now + 22) }
{
    put(text, label, b' ');
    put_number(text, number, end);
}
