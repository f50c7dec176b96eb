// The fields of a line: where they end, digits, and decimal numbers of signed 32 bits.
#![tactic(auto)]

ghost use Rattle.std.specs.Prelude.{◌≡◌, ◌+◌, ◌≤◌, max, length, drop};
ghost use Rattle.fields.specs.Grammar.{first_of, is_digits, digit};
ghost use Rattle.fields.specs.Steps.{read_number, field_at, next_at};

// Where the first b stands, from a position on; the end if there is none, and a position beyond the end itself.
pub fn find(s: &[u8], from: usize, b: u8) -> usize
    ensures { (result ≡ from + first_of b (drop from s.now)) × (result ≤ max from (length s.now)) }
{
    match s.iter().skip(from).position(|x| *x == b) {
        Some(i) => from + i,
        None => from.max(s.len()),
    }
}

// Whether a field is one digit or more.
pub fn digits_only(s: &[u8]) -> bool
    ensures { result ≡ is_digits s.now }
{
    !s.is_empty() && s.iter().all(|b| b.is_ascii_digit())
}

// The value of a digit; of a byte below the digits 0.
pub fn digit_of(b: u8) -> u8
    ensures { result ≡ digit b }
{
    b.saturating_sub(b'0')
}

// The number that a field says: an optional minus and one digit or more. Rust's numbers may begin with a plus too, and these may not.
#[tactic(auto, using(std::proofs::lemmas::Grind::common_steps, crate::proofs::Numbers::parsed, crate::proofs::Numbers::plus_read, crate::proofs::Numbers::text_read))]
pub fn read_number(s: &[u8]) -> Option<i32>
    ensures { result ≡ read_number s.now }
{
    if s.starts_with(b"+") {
        return None;
    }
    str::from_utf8(s).ok()?.parse().ok()
}

// A field of a line: the number that it says, and where the next one starts.
#[derive(Clone, Copy)]
pub struct Field {
    pub number: Option<i32>,
    pub next: usize,
}

// The field at a position. Behind the last field the next one starts beyond the end. It stays for callers who keep a position in
// the line; `reader` splits the line.
pub fn field_at(line: &[u8], at: usize) -> Field
    requires { at ≤ length line.now }
    ensures { (result.number ≡ read_number (field_at line.now at)) × (result.next ≡ next_at line.now at) }
{
    let e = find(line, at, b' ');
    let number = read_number(&line[at..e]);
    Field {
        number,
        next: e + 1,
    }
}
