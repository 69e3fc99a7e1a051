// Numbers in decimal as bytes in a lent buffer: a number alone, a field (a blank and a number), and fields one after another. Kept by hand, and
// buffer and place kept apart, for the reasons that `line` gives.
#![tactic(auto)]

ghost use Rattle.std.specs.Prelude.{◌≡◌, ℕ, List, ◌∷◌, ◌+◌, ◌≤◌, length, map};
ghost use Rattle.std.proofs.lemmas.List.Edits.{sets as stored};
ghost use Rattle.decimal.specs.Decimal.{decimal};
ghost use Rattle.decimal.specs.Fields.{blank, spaced, capped};
ghost use Rattle.std.proofs.lemmas.List.{map-id};
ghost use Rattle.std.proofs.Common.{sym};

const BLANK: u8 = b' ';

// What is printed as a field: a number of 64 bits, or a command, which is a byte.
pub trait Number: Copy + Into<u64> {
    // The number that a field prints for it.
    ghost value: { Self → ℕ };

    // The numbers of a list of them: of numbers and of commands the list itself.
    ghost values: { List Self → List ℕ };

    ghost values_in_turn: { (ns : List Self) → values ns ≡ map value ns };

    // It converts to that number.
    ghost converts_to_value: { (n : Self) (m : ℕ) → Self.converts n m → m ≡ value n };
}

impl Number for u64 {
    ghost value = { λ n. n };

    ghost values = { λ ns. ns };

    ghost values_in_turn = { λ ns. sym (map-id ns) };

    ghost converts_to_value = { λ n m e. e };
}

impl Number for u8 {
    ghost value = { λ n. n };

    ghost values = { λ ns. ns };

    ghost values_in_turn = { λ ns. sym (map-id ns) };

    ghost converts_to_value = { λ n m e. e };
}

// How many digits a number has.
fn digits(n: u64) -> usize
    ensures { result ≡ length (decimal n) }
{
    n.checked_ilog10().unwrap_or(0) as usize + 1
}

// Where a field ends that starts at a place.
fn after_field(at: usize, n: u64) -> usize
    ensures { result ≡ capped (at + length (blank ∷ decimal n)) }
{
    at.saturating_add(1).saturating_add(digits(n))
}

// Where some fields end.
pub fn after_fields<N: Number>(at: usize, fields: &[N]) -> usize
    ensures { result ≡ capped (at + length (spaced (N.values fields.now))) }
{
    let mut end = at;
    for field in fields {
        end = after_field(end, (*field).into());
    }
    end
}

// The digits of a number, the last one first. Each function that puts bytes says where they end.
fn put_number(out: &mut [u8], at: usize, n: u64) -> usize
    requires { at + length (decimal n) ≤ length out.old }
    ensures value { result ≡ at + length (decimal n) }
    ensures out_after { out.new ≡ stored out.old at (decimal n) }
{
    let end = at + digits(n);
    let mut rest = n;
    for i in (at..end).rev() {
        out[i] = b'0' + (rest % 10) as u8;
        rest /= 10;
    }
    end
}

// A field: a blank and a number.
fn put_field(out: &mut [u8], at: usize, n: u64) -> usize
    requires { at + length (blank ∷ decimal n) ≤ length out.old }
    ensures value { result ≡ at + length (blank ∷ decimal n) }
    ensures out_after { out.new ≡ stored out.old at (blank ∷ decimal n) }
{
    out[at] = BLANK;
    put_number(out, at + 1, n)
}

// Some fields one after another.
pub fn put_fields<N: Number>(out: &mut [u8], at: usize, fields: &[N]) -> usize
    requires { at + length (spaced (N.values fields.now)) ≤ length out.old }
    ensures value { result ≡ at + length (spaced (N.values fields.now)) }
    ensures out_after { out.new ≡ stored out.old at (spaced (N.values fields.now)) }
{
    let mut end = at;
    for field in fields {
        end = put_field(out, end, (*field).into());
    }
    end
}
